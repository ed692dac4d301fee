//! What goes on the trail: decisions, forced literals, and jumps back; each raises the measure,
//! `progress` of `specs/Progress.antt`. Proved by its lemmas in `specs/lemmas`.

ghost use Rattle.std.specs.Prelude.{◌≡◌, ◌<◌, ◌*◌, [], length, slice_index_or, OnOk};
ghost use Rattle.cpa_cnf.specs.Literals.{opposite};
ghost use Rattle.cpa_sat_arena.specs.declared.literal.TheConstants.{NO_CLAUSE};
ghost use Rattle.cpa_sat_trail.specs.declared.trail.TheConstants.{NO_PLACE};
ghost use Rattle.cpa_sat_trail.specs.Trails.{place_of};
ghost use Rattle.cpa_sat_trail.specs.Propagations.{IsForced};
ghost use Rattle.cpa_sat_trail.specs.Progress.{Asserts, IsSound, progress};

use crate::trail::Trail;
use cpa_sat_arena::{Arena, ClauseRef, PackedLit};
use std::alloc::AllocError;

/// Where a learned clause forces a literal: the opposite of the one that is true at the place `at`,
/// once the trail is cut to `cut` literals.
#[derive(Clone, Copy)]
pub struct Jump {
    pub at: usize,
    pub cut: usize,
}

/// Decides that the literal is true.
pub fn decide(trail: &mut Trail, arena: &Arena, literal: PackedLit) -> Result<(), AllocError>
    requires sound { IsSound arena.now trail.old }
    requires range { literal < 2 * trail.old.vars }
    requires not_true { place_of trail.old literal ≡ NO_PLACE }
    requires not_false { place_of trail.old (opposite literal) ≡ NO_PLACE }
    ensures sound { OnOk result (IsSound arena.now trail.new) }
    ensures vars { OnOk result (trail.new.vars ≡ trail.old.vars) }
    ensures rises { OnOk result (progress trail.old < progress trail.new) }
{
    let _clauses = arena.len();
    trail.push(literal, ClauseRef::none())?;
    Ok(())
}

/// Makes true what the clause forces.
pub(crate) fn force(
    trail: &mut Trail,
    arena: &Arena,
    literal: PackedLit,
    number: ClauseRef,
) -> Result<(), AllocError>
    requires sound { IsSound arena.now trail.old }
    requires inside { number < length arena.now }
    requires forced { IsForced (slice_index_or arena.now number []) trail.old literal }
    ensures sound { OnOk result (IsSound arena.now trail.new) }
    ensures vars { OnOk result (trail.new.vars ≡ trail.old.vars) }
    ensures rises { OnOk result (progress trail.old < progress trail.new) }
{
    let _clauses = arena.len();
    trail.push(literal, number)?;
    Ok(())
}

/// Jumps back to a decision, in whose place the clause forces a literal.
pub fn jump_back(
    trail: &mut Trail,
    arena: &Arena,
    jump: Jump,
    number: ClauseRef,
) -> Result<(), AllocError>
    requires sound { IsSound arena.now trail.old }
    requires inside { number < length arena.now }
    requires number { number < NO_CLAUSE }
    requires asserts { Asserts (slice_index_or arena.now number []) trail.old jump }
    ensures sound { OnOk result (IsSound arena.now trail.new) }
    ensures vars { OnOk result (trail.new.vars ≡ trail.old.vars) }
    ensures rises { OnOk result (progress trail.old < progress trail.new) }
{
    let _clauses = arena.len();
    let literal = trail.false_at(jump.at);
    trail.cut(jump.cut);
    trail.push(literal, number)?;
    Ok(())
}

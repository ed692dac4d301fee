//! The last look at all clauses, and the values of a model, by `specs/Findings.antt`.
//! Proved by the lemmas of `specs/lemmas`.

ghost use Rattle.std.specs.Prelude.{◌↔◌, ◌<◌, ◌*◌, ◌/◌, true, length};
ghost use Rattle.std.specs.Prelude.{IsTrue, IfOk, IfSome, IfNone};
ghost use Rattle.std.specs.Bool.{OnFalse};
ghost use Rattle.cpa_cnf.specs.Lines.{AreBelow};
ghost use Rattle.cpa_sat_arena.specs.declared.literal.TheConstants.{NO_CLAUSE};
ghost use Rattle.cpa_sat_trail.specs.Trails.{IsFalse, IsTrail};
ghost use Rattle.cpa_sat_trail.specs.Progress.{IsSound};
ghost use Rattle.cpa_sat_trail.specs.Findings.{AreSatisfied, AreValues, HasNoTrue, IsOpen};
ghost use Rattle.cpa_sat_trail.specs.Findings.{IsSatisfiedIn, IsUnsatisfied};

use crate::propagation::{is_false, is_true};
use crate::trail::Trail;
use cpa_sat_arena::{Arena, ClauseRef, PackedLit, Var};
use std::alloc::{AllocError, Global};

/// Whether a literal of the clause is true.
fn is_satisfied(trail: &Trail, clause: &[PackedLit]) -> bool
    requires trail { IsTrail trail.now }
    requires below { AreBelow trail.now.vars clause.now }
    ensures yes { IsTrue result → IsSatisfiedIn trail.now clause.now }
    ensures no { OnFalse result (HasNoTrue clause.now trail.now) }
{
    for literal in clause {
        if is_true(trail, *literal) {
            return true;
        }
    }
    false
}

/// A clause of which no literal is true.
pub fn unsatisfied(arena: &Arena, trail: &Trail) -> Option<ClauseRef>
    requires sound { IsSound arena.now trail.now }
    requires few { length arena.now < NO_CLAUSE }
    ensures none { IfNone result (AreSatisfied arena.now trail.now) }
    ensures some { IfSome result (IsUnsatisfied arena.now trail.now) }
{
    for number in 0..arena.len() {
        let number = ClauseRef::new(number);
        if !is_satisfied(trail, arena.clause(number)) {
            return Some(number);
        }
    }
    None
}

/// A literal without a value, in a clause of which no literal is true.
pub fn open_literal(trail: &Trail, clause: &[PackedLit]) -> Option<PackedLit>
    requires trail { IsTrail trail.now }
    requires below { AreBelow trail.now.vars clause.now }
    requires no_true { HasNoTrue clause.now trail.now }
    ensures some { IfSome result (IsOpen trail.now) }
    ensures none { IfNone result (IsFalse clause.now trail.now) }
{
    for literal in clause {
        if !is_false(trail, *literal) {
            return Some(*literal);
        }
    }
    None
}

/// Whether the literal is in range and has no value.
pub fn is_open(trail: &Trail, literal: PackedLit) -> bool
    requires { IsTrail trail.now }
    ensures { IsTrue result ↔ IsOpen trail.now literal }
{
    literal.var().number() < trail.vars && !is_true(trail, literal) && !is_false(trail, literal)
}

/// The values of the variables: true where the positive literal is.
pub fn values(alloc: Global, trail: &Trail) -> Result<Vec<bool>, AllocError>
    requires { IsTrail trail.now }
    ensures { IfOk result (λ v. AreValues trail.now trail.now.vars v.items) }
{
    let mut values = Vec::with_capacity(alloc, trail.vars as usize)?;
    for var in 0..trail.vars {
        values.push(is_true(trail, Var::new(var).positive()))?;
    }
    Ok(values)
}

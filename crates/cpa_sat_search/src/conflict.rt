//! From a clause that is false to the clause that is learned: the first unique implication point
//! (Moskewicz et al. 2001; Eén and Sörensson 2003), with the chain that gives it.

ghost use Rattle.std.specs.Prelude.{◌≡◌, ◌≢◌, ◌<◌, ◌≤◌, ◌+◌, ◌*◌, ℕ, true, [], length};
ghost use Rattle.std.specs.Prelude.{slice_index_or, OnOk, IfOk, IfSome, IfNone, IsTrue};
ghost use Rattle.cpa_cnf.specs.Literals.{opposite};
ghost use Rattle.cpa_cnf.specs.Marking.{marked};
ghost use Rattle.cpa_sat_arena.specs.declared.literal.TheConstants.{NO_CLAUSE};
ghost use Rattle.cpa_sat_trail.specs.Trails.{IsFalse, IsTrail, IsJustified, height, lit_at};
ghost use Rattle.cpa_sat_trail.specs.Trails.{reason_at};
ghost use Rattle.cpa_sat_trail.specs.Trails.{place_of, AreClauses};
ghost use Rattle.cpa_sat_search.specs.Analyses.{AreFalseBefore, AreNoted, AreOthersBefore};
ghost use Rattle.cpa_sat_search.specs.Analyses.{GivesWay};
ghost use Rattle.cpa_sat_search.specs.Analyses.{IsAnalysing, IsAsserting, IsConcluded, IsCut};
ghost use Rattle.cpa_sat_search.specs.Analyses.{IsReducible};
ghost use Rattle.cpa_sat_search.specs.Analyses.{IsStepped, IsDerived, IsIdle};

use crate::analysis::Analysis;
use crate::redundancy::Redundancy;
use cpa_sat_arena::{Arena, ClauseRef, PackedLit};
use cpa_sat_trail::{Jump, Trail};
use std::alloc::AllocError;

/// Resolves the marked literal that became false at the place with the clause that forced it.
fn resolve_at(
    analysis: &mut Analysis,
    arena: &Arena,
    trail: &Trail,
    place: usize,
) -> Result<(), AllocError>
    requires analysing { IsAnalysing arena.now trail.now analysis.old }
    requires inside { place < height trail.now }
    requires forced { reason_at trail.now place ≢ NO_CLAUSE }
    requires here { marked analysis.old.marks.items (opposite (lit_at trail.now place)) ≡ true }
    requires untrue { AreFalseBefore analysis.old trail.now (height trail.now) }
    ensures analysing { OnOk result (IsAnalysing arena.now trail.now analysis.new) }
    ensures gives_way { OnOk result (GivesWay analysis.old trail.now place analysis.new) }
{
    let literal = trail.lits[place].opposite();
    let number = trail.reasons[place];
    analysis.resolve(arena, trail, literal, number)?;
    Ok(())
}

/// The later of two places.
fn later(a: usize, b: usize) -> usize
    ensures left { a ≤ result }
    ensures right { b ≤ result }
    ensures least { (n : ℕ) → a ≤ n → b ≤ n → result ≤ n }
{
    if a < b { b } else { a }
}

/// The least place before which all marked literals but one became false.
fn low_of(analysis: &Analysis, trail: &Trail, kept: PackedLit) -> usize
    requires trail { IsTrail trail.now }
    requires vars { trail.now.vars ≡ analysis.now.vars }
    requires long { length analysis.now.marks.items ≡ 2 * analysis.now.vars }
    requires noted { AreNoted analysis.now }
    ensures covers { AreOthersBefore analysis.now trail.now kept result }
    ensures least { (n : ℕ) → AreOthersBefore analysis.now trail.now kept n → result ≤ n }
{
    let mut low = 0;
    for literal in &analysis.touched {
        low = later(low, after(analysis, trail, kept, *literal));
    }
    low
}

/// The place behind the one at which the literal became false, if it is marked and not `kept`.
fn after(analysis: &Analysis, trail: &Trail, kept: PackedLit, literal: PackedLit) -> usize
    requires trail { IsTrail trail.now }
    requires vars { trail.now.vars ≡ analysis.now.vars }
    requires long { length analysis.now.marks.items ≡ 2 * analysis.now.vars }
    ensures covers { marked analysis.now.marks.items literal ≡ true → literal ≢ kept
        → place_of trail.now (opposite literal) < result }
    ensures least { (n : ℕ) → AreOthersBefore analysis.now trail.now kept n → result ≤ n }
{
    if literal != kept && analysis.is_marked(literal) {
        trail.places[literal.opposite().index()] as usize + 1
    } else {
        0
    }
}

/// The first decision behind all marked literals but the one that became false at the place `at`.
fn find_cut(analysis: &Analysis, trail: &Trail, at: usize) -> Option<usize>
    requires trail { IsTrail trail.now }
    requires vars { trail.now.vars ≡ analysis.now.vars }
    requires long { length analysis.now.marks.items ≡ 2 * analysis.now.vars }
    requires noted { AreNoted analysis.now }
    requires inside { at < height trail.now }
    ensures some { IfSome result (IsCut analysis.now trail.now at) }
    ensures none { IfNone result (AreOthersBefore analysis.now trail.now
        (opposite (lit_at trail.now at)) at → reason_at trail.now at ≢ NO_CLAUSE) }
{
    let low = low_of(analysis, trail, trail.lits[at].opposite());
    for cut in low..at + 1 {
        if trail.reasons[cut].is_none() {
            return Some(cut);
        }
    }
    None
}

/// The cut at which to stop at the place, if the chain may stop there: it must at a decision, and
/// it may where one marked literal alone seems to have become false since.
fn choose_cut(analysis: &Analysis, trail: &Trail, at: usize) -> Option<usize>
    requires trail { IsTrail trail.now }
    requires vars { trail.now.vars ≡ analysis.now.vars }
    requires long { length analysis.now.marks.items ≡ 2 * analysis.now.vars }
    requires noted { AreNoted analysis.now }
    requires inside { at < height trail.now }
    ensures some { IfSome result (IsCut analysis.now trail.now at) }
    ensures none { IfNone result (AreOthersBefore analysis.now trail.now
        (opposite (lit_at trail.now at)) at → reason_at trail.now at ≢ NO_CLAUSE) }
{
    if trail.reasons[at].is_none() || analysis.live == 1 {
        find_cut(analysis, trail, at)
    } else {
        None
    }
}

/// Stops at the place, or resolves away the literal that became false there.
fn step_at(
    analysis: &mut Analysis,
    arena: &Arena,
    trail: &Trail,
    at: usize,
) -> Result<Option<Jump>, AllocError>
    requires analysing { IsAnalysing arena.now trail.now analysis.old }
    requires inside { at < height trail.now }
    requires untrue { AreFalseBefore analysis.old trail.now (at + 1) }
    ensures analysing { OnOk result (IsAnalysing arena.now trail.now analysis.new) }
    ensures next { IfOk result (IsStepped trail.now at analysis.new) }
{
    if !analysis.is_marked(trail.false_at(at)) {
        return Ok(None);
    }
    match choose_cut(analysis, trail, at) {
        Some(cut) => Ok(Some(Jump { at, cut })),
        None => {
            resolve_at(analysis, arena, trail, at)?;
            Ok(None)
        }
    }
}

/// Goes down the trail to the first unique implication point, resolving on the way; None where no
/// marked literal is left.
fn walk(analysis: &mut Analysis, arena: &Arena, trail: &Trail) -> Result<Option<Jump>, AllocError>
    requires analysing { IsAnalysing arena.now trail.now analysis.old }
    requires untrue { AreFalseBefore analysis.old trail.now (height trail.now) }
    ensures analysing { OnOk result (IsAnalysing arena.now trail.now analysis.new) }
    ensures next { IfOk result (IsStepped trail.now 0 analysis.new) }
{
    for at in (0..trail.lits.len()).rev() {
        if let Some(jump) = step_at(analysis, arena, trail, at)? {
            return Ok(Some(jump));
        }
    }
    Ok(None)
}

/// Whether the literal of the place is marked, became false before the cut, and can give way.
fn can_give_way(analysis: &Analysis, trail: &Trail, jump: Jump, place: usize) -> bool
    requires trail { IsTrail trail.now }
    requires asserting { IsAsserting analysis.now trail.now jump }
    ensures { IsTrue result → IsReducible analysis.now trail.now jump place }
{
    place < jump.cut
        && !trail.reason(place).is_none()
        && analysis.is_marked(trail.false_at(place))
        && trail.false_at(place) != trail.false_at(jump.at)
}

/// Resolves the literal of the place away, where it can give way.
fn reduce_at(
    analysis: &mut Analysis,
    arena: &Arena,
    trail: &Trail,
    jump: Jump,
    place: usize,
) -> Result<(), AllocError>
    requires analysing { IsAnalysing arena.now trail.now analysis.old }
    requires asserting { IsAsserting analysis.old trail.now jump }
    requires untrue { AreFalseBefore analysis.old trail.now (height trail.now) }
    ensures analysing { OnOk result (IsAnalysing arena.now trail.now analysis.new) }
    ensures asserting { OnOk result (IsAsserting analysis.new trail.now jump) }
    ensures untrue { OnOk result (AreFalseBefore analysis.new trail.now (height trail.now)) }
{
    if !can_give_way(analysis, trail, jump, place) {
        return Ok(());
    }
    resolve_at(analysis, arena, trail, place)?;
    Ok(())
}

/// Leaves out of the clause the literals that its others imply, from the last to the first, since a
/// reason brings literals that became false before.
fn reduce(
    analysis: &mut Analysis,
    redundancy: &mut Redundancy,
    arena: &Arena,
    trail: &Trail,
    jump: Jump,
) -> Result<(), AllocError>
    requires analysing { IsAnalysing arena.now trail.now analysis.old }
    requires asserting { IsAsserting analysis.old trail.now jump }
    requires untrue { AreFalseBefore analysis.old trail.now (height trail.now) }
    ensures analysing { OnOk result (IsAnalysing arena.now trail.now analysis.new) }
    ensures asserting { OnOk result (IsAsserting analysis.new trail.now jump) }
    ensures untrue { OnOk result (AreFalseBefore analysis.new trail.now (height trail.now)) }
{
    redundancy.explore(analysis, arena, trail, jump.at)?;
    for place in redundancy.places().iter().rev() {
        reduce_at(analysis, arena, trail, jump, *place as usize)?;
    }
    Ok(())
}

/// The earliest cut of the jump, now that literals have been left out.
fn earlier(analysis: &Analysis, trail: &Trail, jump: Jump) -> Jump
    requires trail { IsTrail trail.now }
    requires vars { trail.now.vars ≡ analysis.now.vars }
    requires long { length analysis.now.marks.items ≡ 2 * analysis.now.vars }
    requires noted { AreNoted analysis.now }
    requires asserting { IsAsserting analysis.now trail.now jump }
    ensures { IsAsserting analysis.now trail.now result }
{
    match find_cut(analysis, trail, jump.at) {
        Some(cut) => Jump { at: jump.at, cut },
        None => jump,
    }
}

/// The chain from a clause that is false, and the jump of the clause that it gives; None where that
/// clause is empty.
pub(crate) fn analyse(
    analysis: &mut Analysis,
    redundancy: &mut Redundancy,
    arena: &Arena,
    trail: &Trail,
    number: ClauseRef,
) -> Result<Option<Jump>, AllocError>
    requires trail { IsTrail trail.now }
    requires vars { trail.now.vars ≡ analysis.old.vars }
    requires clauses { AreClauses analysis.old.vars arena.now }
    requires justified { IsJustified arena.now trail.now }
    requires idle { IsIdle analysis.old }
    requires inside { number < length arena.now }
    requires untrue { IsFalse (slice_index_or arena.now number []) trail.now }
    ensures derived { OnOk result (IsDerived arena.now analysis.new) }
    ensures vars { OnOk result (analysis.new.vars ≡ analysis.old.vars) }
    ensures jump { IfOk result (IsConcluded trail.now analysis.new) }
{
    analysis.count_from(level_start(trail, arena.clause(number)));
    analysis.begin(arena, trail, number)?;
    match walk(analysis, arena, trail)? {
        Some(jump) => {
            reduce(analysis, redundancy, arena, trail, jump)?;
            Ok(Some(earlier(analysis, trail, jump)))
        }
        None => Ok(None),
    }
}

/// The place of the last decision before all literals of the clause are false: a hint alone.
fn level_start(trail: &Trail, clause: &[PackedLit]) -> u32 {
    let mut top = 0;
    for literal in clause {
        top = trail.when_false(*literal).max(top);
    }
    for place in (0..trail.reasons.len()).rev() {
        if place <= top as usize && trail.reasons[place].is_none() {
            return place as u32;
        }
    }
    0
}

//! Unit propagation: a clause whose literals are false but for one forces that one
//! (`specs/Propagations.antt`). Proved by the lemmas of `specs/lemmas`.

ghost use Rattle.std.specs.Prelude.{◌≡◌, ◌≢◌, ◌↔◌, ◌<◌, ◌*◌, ◌/◌, length};
ghost use Rattle.std.specs.Prelude.{IsTrue, OnOk, IfOk, IfNone};
ghost use Rattle.std.specs.Bool.{OnFalse};
ghost use Rattle.cpa_cnf.specs.Literals.{opposite};
ghost use Rattle.cpa_cnf.specs.Clauses.{has};
ghost use Rattle.cpa_cnf.specs.Lines.{AreBelow};
ghost use Rattle.cpa_sat_arena.specs.declared.literal.TheConstants.{NO_CLAUSE};
ghost use Rattle.cpa_sat_trail.specs.declared.trail.TheConstants.{NO_PLACE};
ghost use Rattle.cpa_sat_trail.specs.Trails.{IsTrail, place_of};
ghost use Rattle.cpa_sat_trail.specs.Propagations.{IsFalseBut, IsSeen, IsVisited, IsAwake};
ghost use Rattle.cpa_sat_trail.specs.Propagations.{IsPropagated};
ghost use Rattle.cpa_sat_trail.specs.Progress.{IsRisen, IsSound};

use crate::assertion::force;
use crate::trail::{NO_PLACE, Trail};
use crate::watches::{Watch, Watches, close_up, keep, watch_at};
use cpa_sat_arena::{Arena, ClauseRef, PackedLit};
use std::alloc::AllocError;

/// What a look at a clause shows.
#[derive(Clone, Copy)]
pub(crate) enum Seen {
    /// A literal is true.
    Satisfied,
    /// A literal other than the watched ones is not false.
    Free(PackedLit),
    /// All literals but this one are false, and it has no value.
    Forced(PackedLit),
    /// All literals are false.
    Conflict,
}

/// Whether the literal is false.
pub(crate) fn is_false(trail: &Trail, literal: PackedLit) -> bool
    requires trail { IsTrail trail.now }
    requires range { literal < 2 * trail.now.vars }
    ensures { IsTrue result ↔ (place_of trail.now (opposite literal) ≢ NO_PLACE) }
{
    trail.places[literal.opposite().index()] != NO_PLACE
}

/// Whether the literal is true.
pub(crate) fn is_true(trail: &Trail, literal: PackedLit) -> bool
    requires trail { IsTrail trail.now }
    requires range { literal < 2 * trail.now.vars }
    ensures { IsTrue result ↔ (place_of trail.now literal ≢ NO_PLACE) }
{
    trail.places[literal.index()] != NO_PLACE
}

/// Whether the literal is another than `other` and not false.
fn is_free(trail: &Trail, literal: PackedLit, other: PackedLit) -> bool
    requires trail { IsTrail trail.now }
    requires range { literal < 2 * trail.now.vars }
    ensures { OnFalse result (literal ≢ other → place_of trail.now (opposite literal) ≢ NO_PLACE) }
{
    literal != other && !is_false(trail, literal)
}

/// A literal of the clause that is not false, other than `other`.
fn free_literal(trail: &Trail, clause: &[PackedLit], other: PackedLit) -> Option<PackedLit>
    requires trail { IsTrail trail.now }
    requires below { AreBelow trail.now.vars clause.now }
    ensures { IfNone result (IsFalseBut other clause.now trail.now) }
{
    for literal in clause {
        if is_free(trail, *literal, other) {
            return Some(*literal);
        }
    }
    None
}

/// Whether the literal stands in the clause.
fn contains(clause: &[PackedLit], literal: PackedLit) -> bool
    ensures { result ≡ has clause.now literal }
{
    clause.contains(&literal)
}

/// Looks at a clause of which `other` is watched.
fn look(trail: &Trail, clause: &[PackedLit], other: PackedLit) -> Seen
    requires trail { IsTrail trail.now }
    requires below { AreBelow trail.now.vars clause.now }
    ensures { IsSeen clause.now trail.now result }
{
    if let Some(literal) = free_literal(trail, clause, other) {
        return Seen::Free(literal);
    }
    if !contains(clause, other) {
        return Seen::Conflict;
    }
    if is_true(trail, other) {
        return Seen::Satisfied;
    }
    if is_false(trail, other) {
        return Seen::Conflict;
    }
    Seen::Forced(other)
}

/// Whether the literal is true, and in range.
fn holds(trail: &Trail, literal: PackedLit) -> bool
    requires { IsTrail trail.now }
{
    literal.var().number() < trail.vars && is_true(trail, literal)
}

/// Looks at the clause of a watch of a literal that is false.
fn visit(arena: &Arena, trail: &Trail, watches: &Watches, literal: PackedLit, watch: &Watch) -> Seen
    requires { IsSound arena.now trail.now }
    ensures { IsVisited arena.now trail.now watch.now.clause result }
{
    if holds(trail, watch.blocker) || watch.clause.index() >= arena.len() {
        return Seen::Satisfied;
    }
    let other = watches.other(watch.clause, literal);
    if holds(trail, other) {
        return Seen::Satisfied;
    }
    look(trail, arena.clause(watch.clause), other)
}

/// What becomes of a watch when its literal is false.
#[derive(Clone, Copy)]
pub(crate) enum After {
    Stays,
    Moved,
    /// The clause is false.
    Stopped,
}

/// Looks at the clause of a watch of a literal that is false; forces the literal that is left, or
/// watches one that is not false.
fn wake(
    arena: &Arena,
    trail: &mut Trail,
    watches: &mut Watches,
    literal: PackedLit,
    watch: &Watch,
) -> Result<After, AllocError>
    requires { IsSound arena.now trail.old }
    ensures sound { OnOk result (IsSound arena.now trail.new) }
    ensures rises { OnOk result (IsRisen trail.old trail.new) }
    ensures conflict { IfOk result (IsAwake arena.now trail.new watch.now.clause) }
{
    match visit(arena, trail, watches, literal, watch) {
        Seen::Satisfied => Ok(After::Stays),
        Seen::Free(free) => {
            watches.shift(watch, literal, free)?;
            Ok(After::Moved)
        }
        Seen::Forced(forced) => {
            force(trail, arena, forced, watch.clause)?;
            Ok(After::Stays)
        }
        Seen::Conflict => Ok(After::Stopped),
    }
}

/// Wakes the watches of a literal that is false, and drops those that moved. It stops at a clause
/// that is false, and gives its number.
fn wake_all(
    arena: &Arena,
    trail: &mut Trail,
    watches: &mut Watches,
    literal: PackedLit,
    list: &mut Vec<Watch>,
) -> Result<Option<ClauseRef>, AllocError>
    requires { IsSound arena.now trail.old }
    ensures sound { OnOk result (IsSound arena.now trail.new) }
    ensures rises { OnOk result (IsRisen trail.old trail.new) }
    ensures conflict { IfOk result (IsPropagated arena.now trail.new) }
{
    let mut kept = 0;
    for i in 0..list.len() {
        let watch = watch_at(list, i);
        match wake(arena, trail, watches, literal, &watch)? {
            After::Stays => kept = keep(list, kept, &watch),
            After::Moved => {}
            After::Stopped => {
                close_up(list, kept, i);
                return Ok(Some(watch.clause));
            }
        }
    }
    list.truncate(kept);
    Ok(None)
}

/// Wakes the watches of a literal that is false. It stops at a clause that is false, and gives its
/// number.
fn propagate_literal(
    arena: &Arena,
    trail: &mut Trail,
    watches: &mut Watches,
    literal: PackedLit,
) -> Result<Option<ClauseRef>, AllocError>
    requires { IsSound arena.now trail.old }
    ensures sound { OnOk result (IsSound arena.now trail.new) }
    ensures rises { OnOk result (IsRisen trail.old trail.new) }
    ensures conflict { IfOk result (IsPropagated arena.now trail.new) }
{
    let mut list = watches.take(literal);
    let found = wake_all(arena, trail, watches, literal, &mut list)?;
    watches.put(literal, list);
    Ok(found)
}

/// Propagates the literals of the trail from the place `next` on, until all are done or a clause is
/// false, whose number it gives.
pub fn propagate(
    arena: &Arena,
    trail: &mut Trail,
    watches: &mut Watches,
    next: &mut usize,
) -> Result<Option<ClauseRef>, AllocError>
    requires { IsSound arena.now trail.old }
    ensures sound { OnOk result (IsSound arena.now trail.new) }
    ensures rises { OnOk result (IsRisen trail.old trail.new) }
    ensures conflict { IfOk result (IsPropagated arena.now trail.new) }
{
    while *next < trail.lits.len() {
        let literal = trail.false_at(*next);
        *next += 1;
        if let Some(number) = propagate_literal(arena, trail, watches, literal)? {
            return Ok(Some(number));
        }
    }
    Ok(None)
}

/// Forces the literal of a clause that has no other; true where the clause is false.
fn force_unit(arena: &Arena, trail: &mut Trail, number: ClauseRef) -> Result<After, AllocError>
    requires sound { IsSound arena.now trail.old }
    requires inside { number < length arena.now }
    ensures sound { OnOk result (IsSound arena.now trail.new) }
    ensures rises { OnOk result (IsRisen trail.old trail.new) }
    ensures conflict { IfOk result (IsAwake arena.now trail.new number) }
{
    let clause = arena.clause(number);
    if clause.len() > 1 {
        return Ok(After::Stays);
    }
    match look(trail, clause, first_of(clause)) {
        Seen::Forced(literal) => {
            force(trail, arena, literal, number)?;
            Ok(After::Stays)
        }
        Seen::Conflict => Ok(After::Stopped),
        Seen::Satisfied => Ok(After::Stays),
        Seen::Free(_) => Ok(After::Stays),
    }
}

/// The first literal of the clause, none where it is empty.
fn first_of(clause: &[PackedLit]) -> PackedLit {
    clause.first().copied().unwrap_or(PackedLit::none())
}

/// Forces the literals of all unit clauses; the number of a clause that is false, if one is.
pub fn force_units(arena: &Arena, trail: &mut Trail) -> Result<Option<ClauseRef>, AllocError>
    requires sound { IsSound arena.now trail.old }
    requires few { length arena.now < NO_CLAUSE }
    ensures sound { OnOk result (IsSound arena.now trail.new) }
    ensures rises { OnOk result (IsRisen trail.old trail.new) }
    ensures conflict { IfOk result (IsPropagated arena.now trail.new) }
{
    for number in 0..arena.len() {
        let number = ClauseRef::new(number);
        match force_unit(arena, trail, number)? {
            After::Stopped => return Ok(Some(number)),
            After::Stays => {}
            After::Moved => {}
        }
    }
    Ok(None)
}

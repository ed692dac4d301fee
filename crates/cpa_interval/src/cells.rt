//! What an element says of the cells, and the element of the bounds of cells, by
//! `specs/Cells.antt`. Proved with `proofs/CellLemmas.antt` and `proofs/KnownLemmas.antt`.

ghost use Rattle.std.specs.Prelude.{◌≡◌, ◌<◌, ◌^◌, ◌++◌, true, length, slice_get, Some};
ghost use Rattle.std.specs.Prelude.{IfOk, OnOk};
ghost use Rattle.cpa_facts.specs.declared.fact.Fact.{Fact as AFact};
ghost use Rattle.cpa_folds.specs.Tracking.{is_tracked};
ghost use Rattle.cpa_interval_bounds.specs.Tables.{are_descending, known_bounds};
ghost use Rattle.cpa_interval.specs.Cells.{with_fact, with_facts, cell_bounds, is_whole};
ghost use Rattle.cpa_interval.specs.Cells.{fact_of, facts_from, elem_of, elem_of_all};

use cpa_interval_bounds::{Bounds, CellBounds, KnownBounds};
use cpa_ints::IntType;
use cpa_model::{Cell, Elem, Fact, Facts, Seq};
use cpa_value_tracked::Tracked;
use std::alloc::{AllocError, Global};

/// The bounds of each cell: those that the facts give, and else all numbers of its type. Of several
/// facts on a cell the first one counts.
pub(crate) fn cell_bounds<'a>(
    alloc: Global,
    cells: &'a [Cell],
    facts: &Facts,
) -> Result<KnownBounds<'a>, AllocError>
    ensures cells { IfOk result (λ all. all.cells ≡ cells.now) }
    ensures each { IfOk result (λ all. all.each ≡ cell_bounds cells.now facts.now) }
{
    let mut all = KnownBounds::of_types(alloc, cells);
    put_facts(&mut all, facts)?;
    Ok(all)
}

/// Puts what the facts give in place, from the last fact to the first.
fn put_facts(all: &mut KnownBounds, facts: &Facts) -> Result<(), AllocError>
    ensures cells { all.new.cells ≡ all.old.cells }
    ensures each { OnOk result (all.new.each ≡ with_facts facts.now all.old.each) }
{
    let mut place = facts.len();
    while 0 < place {
        place -= 1;
        put_at(all, facts, place)?;
    }
    Ok(())
}

/// Puts what the fact at a place gives in place.
fn put_at(all: &mut KnownBounds, facts: &Facts, place: usize) -> Result<(), AllocError>
    ensures cells { all.new.cells ≡ all.old.cells }
    ensures each { (fact : AFact) → slice_get facts.now place ≡ Some fact
        → OnOk result (all.new.each ≡ with_fact fact all.old.each) }
{
    match facts.get(place) {
        Some(fact) => put_fact(all, fact),
        None => Ok(()),
    }
}

/// Puts what the fact gives in place.
fn put_fact(all: &mut KnownBounds, fact: &Fact) -> Result<(), AllocError>
    ensures cells { all.new.cells ≡ all.old.cells }
    ensures each { OnOk result (all.new.each ≡ with_fact fact.now all.old.each) }
{
    match fact {
        Fact::Within { cell, lo, hi } => all.put(*cell as usize, Bounds { lo: *lo, hi: *hi }),
        _ => Ok(()),
    }
}

/// The element of the tracked cells.
pub(crate) fn elem_of(
    alloc: Global,
    all: &KnownBounds,
    tracked: &Tracked,
) -> Result<Elem, AllocError>
    requires { length all.now.cells < 2 ^ 32 }
    ensures { IfOk result (λ e. e ≡ elem_of (is_tracked tracked.now) all.now.cells all.now.each) }
{
    let mut facts = Seq::new(alloc);
    push_tracked(&mut facts, all.cells(), all.known(), tracked)?;
    Elem::new(alloc, facts)
}

/// Adds the facts of the tracked cells.
fn push_tracked(
    facts: &mut Seq<Fact>,
    cells: &[Cell],
    known: &[CellBounds],
    tracked: &Tracked,
) -> Result<(), AllocError>
    requires few { length cells.now < 2 ^ 32 }
    requires order { are_descending (length cells.now) known.now ≡ true }
    ensures { OnOk result (facts.new ≡ facts.old
        ++ facts_from (is_tracked tracked.now) 0 cells.now (known_bounds cells.now known.now)) }
{
    let mut place = known.len();
    while 0 < place {
        place -= 1;
        let it = known_at(known, place);
        let ty = cell_at(cells, it.cell).ty;
        let number = it.cell as u32;
        push_fact(facts, tracked.has(number), number, ty, it.own)?;
    }
    Ok(())
}

/// The element of all cells.
pub(crate) fn elem_of_all(alloc: Global, all: &KnownBounds) -> Result<Elem, AllocError>
    requires { length all.now.cells < 2 ^ 32 }
    ensures { IfOk result (λ e. e ≡ elem_of_all all.now.cells all.now.each) }
{
    let mut facts = Seq::new(alloc);
    push_all(&mut facts, all.cells(), all.known())?;
    Elem::new(alloc, facts)
}

/// Adds the facts of all cells.
fn push_all(facts: &mut Seq<Fact>, cells: &[Cell], known: &[CellBounds]) -> Result<(), AllocError>
    requires few { length cells.now < 2 ^ 32 }
    requires order { are_descending (length cells.now) known.now ≡ true }
    ensures { OnOk result (facts.new ≡ facts.old
        ++ facts_from (λ _. true) 0 cells.now (known_bounds cells.now known.now)) }
{
    let mut place = known.len();
    while 0 < place {
        place -= 1;
        let it = known_at(known, place);
        let ty = cell_at(cells, it.cell).ty;
        push_fact(facts, true, it.cell as u32, ty, it.own)?;
    }
    Ok(())
}

/// The cell at a place that is there.
pub(crate) fn cell_at(cells: &[Cell], place: usize) -> &Cell
    requires { place < length cells.now }
    ensures { slice_get cells.now place ≡ Some result.now }
{
    &cells[place]
}

/// The bounds of a cell at a place that is there.
fn known_at(known: &[CellBounds], place: usize) -> CellBounds
    requires { place < length known.now }
    ensures { slice_get known.now place ≡ Some result }
{
    known[place]
}

/// Adds the fact of a cell, where it is kept and its bounds are not all numbers of its type.
pub(crate) fn push_fact(
    facts: &mut Seq<Fact>,
    is_kept: bool,
    cell: u32,
    ty: IntType,
    own: Bounds,
) -> Result<(), AllocError>
    ensures { OnOk result (facts.new ≡ facts.old ++ fact_of is_kept cell ty own) }
{
    if is_kept && !is_whole(ty, own) {
        facts.push(Fact::Within {
            cell,
            lo: own.lo,
            hi: own.hi,
        })?;
    }
    Ok(())
}

/// Whether the bounds are all numbers of the type.
fn is_whole(ty: IntType, own: Bounds) -> bool
    ensures { result ≡ is_whole ty own }
{
    own.lo == ty.least() && own.hi == ty.greatest()
}

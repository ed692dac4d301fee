//! What the elements of other analyses say of cells, by `specs/Strengthening.antt`.

ghost use Rattle.std.specs.Prelude.{◌≡◌, ◌<◌, ◌^◌, None, Some, option_map, if◌then◌else◌};
ghost use Rattle.std.specs.Prelude.{length, IfOk};
ghost use Rattle.std.specs.List.{list_any};
ghost use Rattle.cpa_model.specs.Automata.{IsAutomaton};
ghost use Rattle.cpa_iface.specs.Meanings.{IsPrecision};
ghost use Rattle.cpa_folds.specs.Tracking.{is_tracked};
ghost use Rattle.cpa_interval.specs.Cells.{elem_of_all};
ghost use Rattle.cpa_interval.specs.Strengthening.{is_bound, has_bound, met_cell, met, met_facts};
ghost use Rattle.cpa_interval.specs.Strengthening.{met_elems, strengthened};

use crate::cells::{cell_bounds, elem_of_all};
use cpa_expr::CmpOp;
use cpa_iface::Precision;
use cpa_interval_acts::cut_cell;
use cpa_interval_bounds::{Bounds, KnownBounds};
use cpa_model::{Cfa, Elem, Fact, Facts, copy_elem};
use cpa_value_tracked::Tracked;
use std::alloc::{AllocError, Global};

/// The own element with what the others leave of the bounds of tracked cells, or `None` where they
/// leave no number of one.
pub(crate) fn strengthened(
    alloc: Global,
    cfa: &Cfa,
    own: &Elem,
    others: &[Elem],
    precision: &Precision,
) -> Result<Option<Elem>, AllocError>
    requires automaton { IsAutomaton cfa.now }
    requires precision { IsPrecision cfa.now precision.now }
    ensures { IfOk result (λ e.
        e ≡ strengthened cfa.now.cells precision.now own.now others.now) }
{
    if !some_bound(others) {
        return Ok(Some(copy_elem(own)?));
    }
    let cells = cfa.cells.as_slice();
    let tracked = Tracked::of(alloc, precision, cells.len())?;
    let mut all = cell_bounds(alloc, cells, &own.facts)?;
    let elem = met(alloc, &mut all, others, &tracked)?;
    Ok(elem)
}

/// The element of what is left then.
fn met(
    alloc: Global,
    all: &mut KnownBounds,
    others: &[Elem],
    tracked: &Tracked,
) -> Result<Option<Elem>, AllocError>
    requires { length all.old.cells < 2 ^ 32 }
    ensures { IfOk result (λ e. e ≡ option_map (elem_of_all all.old.cells)
        (met_elems (is_tracked tracked.now) others.now all.old.each)) }
{
    if meet_elems(all, others, tracked)? {
        Ok(Some(elem_of_all(alloc, all)?))
    } else {
        Ok(None)
    }
}

/// Whether some element gives a cell bounds.
fn some_bound(others: &[Elem]) -> bool
    ensures { result ≡ list_any has_bound others.now }
{
    others.iter().any(|other| has_bound(other))
}

/// Whether some fact of the element gives a cell bounds.
fn has_bound(elem: &Elem) -> bool
    ensures { result ≡ has_bound elem.now }
{
    elem.facts.iter().any(|fact| is_bound(fact))
}

/// Whether the fact gives a cell bounds.
fn is_bound(fact: &Fact) -> bool
    ensures { result ≡ is_bound fact.now }
{
    match fact {
        Fact::Equals { .. } | Fact::Within { .. } => true,
        _ => false,
    }
}

/// Cuts by what the elements say, and says whether some number of each cell is left.
fn meet_elems(all: &mut KnownBounds, others: &[Elem], tracked: &Tracked) -> Result<bool, AllocError>
    ensures cells { all.new.cells ≡ all.old.cells }
    ensures each { IfOk result (λ is. (if is then Some all.new.each else None)
        ≡ met_elems (is_tracked tracked.now) others.now all.old.each) }
{
    for other in others {
        if !meet_facts(all, &other.facts, tracked)? {
            return Ok(false);
        }
    }
    Ok(true)
}

/// Cuts by what the facts say, and says whether some number of each cell is left.
fn meet_facts(all: &mut KnownBounds, facts: &Facts, tracked: &Tracked) -> Result<bool, AllocError>
    ensures cells { all.new.cells ≡ all.old.cells }
    ensures each { IfOk result (λ is. (if is then Some all.new.each else None)
        ≡ met_facts (is_tracked tracked.now) facts.now all.old.each) }
{
    for fact in facts {
        if !meet(all, fact, tracked)? {
            return Ok(false);
        }
    }
    Ok(true)
}

/// Cuts by what the fact says, and says whether some number of its cell is left.
fn meet(all: &mut KnownBounds, fact: &Fact, tracked: &Tracked) -> Result<bool, AllocError>
    ensures cells { all.new.cells ≡ all.old.cells }
    ensures each { IfOk result (λ is. (if is then Some all.new.each else None)
        ≡ met (is_tracked tracked.now) fact.now all.old.each) }
{
    match fact {
        Fact::Equals { cell, value } => meet_cell(all, *cell, Bounds::only(*value), tracked),
        Fact::Within { cell, lo, hi } => {
            meet_cell(all, *cell, Bounds { lo: *lo, hi: *hi }, tracked)
        }
        _ => Ok(true),
    }
}

/// Cuts the bounds of a cell, where it is tracked.
fn meet_cell(
    all: &mut KnownBounds,
    cell: u32,
    other: Bounds,
    tracked: &Tracked,
) -> Result<bool, AllocError>
    ensures cells { all.new.cells ≡ all.old.cells }
    ensures each { IfOk result (λ is. (if is then Some all.new.each else None)
        ≡ met_cell (is_tracked tracked.now) cell other all.old.each) }
{
    if tracked.has(cell) {
        cut_cell(CmpOp::Eq, cell, other, all)
    } else {
        Ok(true)
    }
}

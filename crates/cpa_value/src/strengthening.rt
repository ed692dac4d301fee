//! What the elements of other analyses say of cells, by `specs/Strengthening.antt`.
//! Proved with `proofs/ChangeLemmas.antt`.

ghost use Rattle.std.specs.Prelude.{◌≡◌, ◌<◌, ◌^◌, ℕ, ℤ, List, Option, true, None, Some};
ghost use Rattle.std.specs.Prelude.{option_map, if◌then◌else◌};
ghost use Rattle.std.specs.Prelude.{length, IfOk};
ghost use Rattle.std.specs.List.{list_any, slice_index_or};
ghost use Rattle.cpa_model.specs.Automata.{IsAutomaton};
ghost use Rattle.cpa_iface.specs.Meanings.{IsPrecision};
ghost use Rattle.cpa_folds.specs.Tracking.{is_tracked};
ghost use Rattle.cpa_value_changes.specs.Cells.{known_cells};
ghost use Rattle.cpa_value.specs.Cells.{elem_of};
ghost use Rattle.cpa_value.specs.Strengthening.{is_point, has_point, agreed, met, met_facts};
ghost use Rattle.cpa_value.specs.Strengthening.{met_elems, strengthened, Agrees};
ghost use Rattle.cpa_value_changes.specs.Tables.{are_ordered};
ghost use Rattle.cpa_value.specs.declared.strengthening.Agreement.TheVariants.{Same};

use crate::cells::{elem_of_known, known_cells, put, value_at};
use cpa_iface::Precision;
use cpa_model::{Cfa, Elem, Fact, Facts, copy_elem};
use cpa_value_changes::{KnownCells, are_ordered};
use cpa_value_tracked::Tracked;
use std::alloc::{AllocError, Global};

/// The own element with what the others say of tracked cells, or `None` where a cell would have two
/// values.
pub(crate) fn strengthened(
    alloc: Global,
    cfa: &Cfa,
    own: &Elem,
    others: &[Elem],
    precision: &Precision,
) -> Result<Option<Elem>, AllocError>
    requires automaton { IsAutomaton cfa.now }
    requires precision { IsPrecision cfa.now precision.now }
    ensures { IfOk result (λ e.
        e ≡ strengthened (length cfa.now.cells) precision.now own.now others.now) }
{
    let count = cfa.cells.len();
    let tracked = Tracked::of(alloc, precision, count)?;
    if some_point(others, &tracked) {
        met(alloc, own, count, others, &tracked)
    } else {
        Ok(Some(copy_elem(own)?))
    }
}

/// What the elements say of cells beside what is known of them.
#[derive(Clone, Copy)]
pub(crate) enum Agreement {
    /// Nothing more.
    Same,
    /// Another value of a cell.
    Other,
    /// A value of a cell of which none is known, and what else they say is not looked at.
    More,
}

/// The own element with what the others say, or `None` where a cell would have two values.
fn met(
    alloc: Global,
    own: &Elem,
    count: usize,
    others: &[Elem],
    tracked: &Tracked,
) -> Result<Option<Elem>, AllocError>
    requires { count < 2 ^ 32 }
    ensures { IfOk result (λ e. e ≡ option_map (elem_of (λ _. true))
        (met_elems (is_tracked tracked.now) others.now (known_cells count own.now.facts))) }
{
    let facts = &own.facts;
    match said_beside(facts, count, others, tracked) {
        Agreement::Same => Ok(Some(copy_elem(own)?)),
        Agreement::Other => Ok(None),
        Agreement::More => {
            let mut cells = known_cells(alloc, facts, count)?;
            met_in(alloc, &mut cells, others, tracked)
        }
    }
}

/// What the elements say, where the own facts are in the order of the cells.
fn said_beside(facts: &Facts, count: usize, others: &[Elem], tracked: &Tracked) -> Agreement
    ensures agrees { Agrees result (met_elems (is_tracked tracked.now) others.now)
        (known_cells count facts.now) }
    ensures ordered { result ≡ Same → are_ordered count 0 facts.now ≡ true }
{
    if are_ordered(facts, count) {
        said_along(&KnownCells::new(facts, count), others, tracked)
    } else {
        Agreement::More
    }
}

/// What the elements say, one after another.
fn said_along(cells: &KnownCells, others: &[Elem], tracked: &Tracked) -> Agreement
    ensures { Agrees result (met_elems (is_tracked tracked.now) others.now) cells.now }
{
    for other in others {
        match said_by_facts(cells, &other.facts, tracked) {
            Agreement::Same => {}
            Agreement::Other => return Agreement::Other,
            Agreement::More => return Agreement::More,
        }
    }
    Agreement::Same
}

/// What the facts say, one after another.
fn said_by_facts(cells: &KnownCells, facts: &Facts, tracked: &Tracked) -> Agreement
    ensures { Agrees result (met_facts (is_tracked tracked.now) facts.now) cells.now }
{
    for fact in facts {
        match said_by_fact(cells, fact, tracked) {
            Agreement::Same => {}
            Agreement::Other => return Agreement::Other,
            Agreement::More => return Agreement::More,
        }
    }
    Agreement::Same
}

/// What the fact says.
fn said_by_fact(cells: &KnownCells, fact: &Fact, tracked: &Tracked) -> Agreement
    ensures { Agrees result (met (is_tracked tracked.now) fact.now) cells.now }
{
    match fact {
        Fact::Within { cell, lo, .. } => {
            if is_point(fact, tracked) {
                compared(cells.value_at(*cell as usize), lo)
            } else {
                Agreement::Same
            }
        }
        _ => Agreement::Same,
    }
}

/// What a value says beside the known one.
fn compared(known: Option<i128>, value: &i128) -> Agreement
    ensures { (cell : ℕ) (cells : List (Option ℤ)) →
        Agrees result (agreed cell value.now known) cells }
{
    match known {
        None => Agreement::More,
        Some(known) => {
            if known == *value {
                Agreement::Same
            } else {
                Agreement::Other
            }
        }
    }
}

/// The element of all that is known then.
fn met_in(
    alloc: Global,
    cells: &mut [Option<i128>],
    others: &[Elem],
    tracked: &Tracked,
) -> Result<Option<Elem>, AllocError>
    requires { length cells.old < 2 ^ 32 }
    ensures { IfOk result (λ e. e ≡ option_map (elem_of (λ _. true))
        (met_elems (is_tracked tracked.now) others.now cells.old)) }
{
    if meet_elems(cells, others, tracked) {
        Ok(Some(elem_of_known(alloc, cells)?))
    } else {
        Ok(None)
    }
}

/// Whether some element leaves a tracked cell one value.
fn some_point(others: &[Elem], tracked: &Tracked) -> bool
    ensures { result ≡ list_any (has_point (is_tracked tracked.now)) others.now }
{
    others.iter().any(|other| has_point(other, tracked))
}

/// Whether some fact of the element leaves a tracked cell one value.
fn has_point(elem: &Elem, tracked: &Tracked) -> bool
    ensures { result ≡ has_point (is_tracked tracked.now) elem.now }
{
    elem.facts.iter().any(|fact| is_point(fact, tracked))
}

/// Whether the fact leaves a tracked cell one value: its bounds are equal.
fn is_point(fact: &Fact, tracked: &Tracked) -> bool
    ensures { result ≡ is_point (is_tracked tracked.now) fact.now }
{
    match fact {
        Fact::Within { cell, lo, hi } => *lo == *hi && tracked.has(*cell),
        _ => false,
    }
}

/// Adds what the elements say, and says whether no cell would have two values.
fn meet_elems(cells: &mut [Option<i128>], others: &[Elem], tracked: &Tracked) -> bool
    ensures { (if result then Some cells.new else None)
        ≡ met_elems (is_tracked tracked.now) others.now cells.old }
{
    for other in others {
        if !meet_facts(cells, &other.facts, tracked) {
            return false;
        }
    }
    true
}

/// Adds what the facts say, and says whether no cell would have two values.
fn meet_facts(cells: &mut [Option<i128>], facts: &Facts, tracked: &Tracked) -> bool
    ensures { (if result then Some cells.new else None)
        ≡ met_facts (is_tracked tracked.now) facts.now cells.old }
{
    for fact in facts {
        if !meet(cells, fact, tracked) {
            return false;
        }
    }
    true
}

/// Adds what the fact says, and says whether no cell would have two values.
fn meet(cells: &mut [Option<i128>], fact: &Fact, tracked: &Tracked) -> bool
    ensures { (if result then Some cells.new else None)
        ≡ met (is_tracked tracked.now) fact.now cells.old }
{
    match fact {
        Fact::Within { cell, lo, hi } => {
            if *lo == *hi && tracked.has(*cell) {
                agree(cells, *cell as usize, *lo)
            } else {
                true
            }
        }
        _ => true,
    }
}

/// The cell has the value, beside what is known of it.
fn agree(cells: &mut [Option<i128>], cell: usize, value: i128) -> bool
    ensures { (if result then Some cells.new else None)
        ≡ agreed cell value (slice_index_or cells.old cell None) cells.old }
{
    match value_at(cells, cell) {
        None => {
            put(cells, cell, Some(value));
            true
        }
        Some(known) => known == value,
    }
}

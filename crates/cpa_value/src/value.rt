//! The analysis: each call gives what `specs/` says of it, and keeps the laws, which is shown in
//! `proofs/`.

ghost use Rattle.std.specs.Prelude.{◌≡◌, ◌<◌, ◌^◌, Some, length, slice_get, IfOk};
ghost use Rattle.cpa_value.specs.Values.{values, starts_of};

use crate::limits::limited;
use crate::merging::merged;
use crate::strengthening::strengthened;
use crate::transfer::next_values;
use cpa_folds::{first_tracking, refined};
use cpa_iface::{Analysis, Entry, MergeRule, Part, Precision, Settings, copy_precision, covers};
use cpa_ints::wrap_keeps_the_range;
use cpa_model::{Cell, Cfa, Elem, Fact, Path, Seq, edges_are_sound};
use std::alloc::{AllocError, Global};

/// The analysis of explicit values: an element says which values some cells have. It keeps those of
/// tracked cells, as far as they are known, and of a cell no more different ones than the limit.
#[derive(Drop)]
pub struct Value;

impl Value {
    /// Takes no memory.
    pub fn new() -> Value {
        Value
    }
}

impl Analysis for Value {
    ghost meaning = { λ _. values };

    fn name(&self) -> &str {
        "value"
    }

    fn exact_on(&self) -> Part {
        Part::Store
    }

    fn initial(&mut self, alloc: Global, cfa: &Cfa) -> Result<Elem, AllocError> {
        starts(alloc, cfa.cells.as_slice())
    }

    fn first_precision(
        &mut self,
        alloc: Global,
        cfa: &Cfa,
        settings: &Settings,
    ) -> Result<Precision, AllocError> {
        first_tracking(alloc, cfa, settings, settings.limit)
    }

    fn transfer(
        &mut self,
        alloc: Global,
        cfa: &Cfa,
        edge: u32,
        elem: &Elem,
        precision: &Precision,
    ) -> Result<Vec<Elem>, AllocError> {
        edges_are_sound();
        wrap_keeps_the_range();
        next_values(alloc, cfa, precision, elem, cfa.edge(edge))
    }

    fn strengthen(
        &mut self,
        alloc: Global,
        cfa: &Cfa,
        own: &Elem,
        others: &[Elem],
        precision: &Precision,
    ) -> Result<Option<Elem>, AllocError> {
        strengthened(alloc, cfa, own, others, precision)
    }

    fn merge(
        &mut self,
        alloc: Global,
        cfa: &Cfa,
        rule: MergeRule,
        new: &Elem,
        old: &Elem,
        _precision: &Precision,
    ) -> Result<Elem, AllocError> {
        merged(alloc, cfa, rule, new, old)
    }

    fn covered_by(&self, elem: &Elem, other: &Elem) -> bool {
        covers(elem, other)
    }

    fn adjust(
        &mut self,
        alloc: Global,
        cfa: &Cfa,
        elem: &Elem,
        precision: &Precision,
        reached: &[Entry],
        place: u32,
    ) -> Result<(Elem, Precision), AllocError> {
        let kept = limited(alloc, cfa, precision.limit, elem, reached, place)?;
        Ok((kept, copy_precision(alloc, precision)?))
    }

    fn refine(
        &mut self,
        alloc: Global,
        cfa: &Cfa,
        path: &Path,
        precision: &Precision,
    ) -> Result<Precision, AllocError> {
        refined(alloc, cfa, path, precision)
    }
}

/// Each cell has its start.
fn starts(alloc: Global, cells: &[Cell]) -> Result<Elem, AllocError>
    requires { length cells.now < 2 ^ 32 }
    ensures { IfOk result (λ e. e ≡ starts_of cells.now) }
{
    let mut facts = Seq::new(alloc);
    for place in 0..cells.len() {
        facts.push(start_of(place as u32, cell_at(cells, place)))?;
    }
    Elem::new(alloc, facts)
}

/// The cell at a place that is there.
fn cell_at(cells: &[Cell], place: usize) -> &Cell
    requires { place < length cells.now }
    ensures { slice_get cells.now place ≡ Some result.now }
{
    &cells[place]
}

/// That the cell has its start.
fn start_of(number: u32, cell: &Cell) -> Fact
    ensures { result ≡ Fact.Equals number cell.now.start }
{
    Fact::Equals {
        cell: number,
        value: cell.start,
    }
}

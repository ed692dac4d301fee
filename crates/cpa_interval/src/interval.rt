//! The analysis: each call gives what `specs/` says of it, and keeps the laws, which is shown in
//! `proofs/`.

ghost use Rattle.std.specs.Prelude.{◌≡◌, ◌<◌, ◌^◌, length, IfOk};
ghost use Rattle.cpa_interval_bounds.specs.Bounds.{only};
ghost use Rattle.cpa_interval.specs.Intervals.{intervals, starts_of};

use crate::cells::{cell_at, push_fact};
use crate::covers::covers;
use crate::merging::merged;
use crate::strengthening::strengthened;
use crate::transfer::next_intervals;
use cpa_folds::{first_tracking, refined};
use cpa_iface::{Analysis, Entry, MergeRule, Part, Precision, Settings, unadjusted};
use cpa_interval_bounds::Bounds;
use cpa_ints::wrap_keeps_the_range;
use cpa_model::{Cell, Cfa, Elem, Path, Seq, edges_are_sound};
use std::alloc::{AllocError, Global};

/// The analysis of intervals: an element says within which bounds the values of some cells lie. It
/// keeps those of tracked cells, and widens them to the constants of the automaton.
#[derive(Drop)]
pub struct Interval;

impl Interval {
    /// Takes no memory.
    pub fn new() -> Interval {
        Interval
    }
}

impl Analysis for Interval {
    ghost meaning = { λ _. intervals };

    fn name(&self) -> &str {
        "interval"
    }

    fn exact_on(&self) -> Part {
        Part::Nothing
    }

    fn initial(&mut self, alloc: Global, cfa: &Cfa) -> Result<Elem, AllocError> {
        starts(alloc, cfa.cells.as_slice())
    }

    fn first_precision(
        &mut self,
        alloc: Global,
        cfa: &Cfa,
        settings: &Settings,
    ) -> Result<Precision, AllocError> {
        first_tracking(alloc, cfa, settings, 0)
    }

    fn transfer(
        &mut self,
        alloc: Global,
        cfa: &Cfa,
        edge: u32,
        elem: &Elem,
        precision: &Precision,
    ) -> Result<Vec<Elem>, AllocError> {
        edges_are_sound();
        wrap_keeps_the_range();
        next_intervals(alloc, cfa, precision, elem, cfa.edge(edge))
    }

    fn strengthen(
        &mut self,
        alloc: Global,
        cfa: &Cfa,
        own: &Elem,
        others: &[Elem],
        precision: &Precision,
    ) -> Result<Option<Elem>, AllocError> {
        strengthened(alloc, cfa, own, others, precision)
    }

    fn merge(
        &mut self,
        alloc: Global,
        cfa: &Cfa,
        rule: MergeRule,
        new: &Elem,
        old: &Elem,
        _precision: &Precision,
    ) -> Result<Elem, AllocError> {
        merged(alloc, cfa, rule, new, old)
    }

    fn covered_by(&self, elem: &Elem, other: &Elem) -> bool {
        covers(elem, other)
    }

    fn adjust(
        &mut self,
        alloc: Global,
        _cfa: &Cfa,
        elem: &Elem,
        precision: &Precision,
        _reached: &[Entry],
        _place: u32,
    ) -> Result<(Elem, Precision), AllocError> {
        unadjusted(alloc, elem, precision)
    }

    fn refine(
        &mut self,
        alloc: Global,
        cfa: &Cfa,
        path: &Path,
        precision: &Precision,
    ) -> Result<Precision, AllocError> {
        refined(alloc, cfa, path, precision)
    }
}

/// Each cell has its start.
fn starts(alloc: Global, cells: &[Cell]) -> Result<Elem, AllocError>
    requires { length cells.now < 2 ^ 32 }
    ensures { IfOk result (λ e. e ≡ starts_of cells.now) }
{
    let mut facts = Seq::new(alloc);
    for place in 0..cells.len() {
        let cell = cell_at(cells, place);
        push_fact(&mut facts, true, place as u32, cell.ty, start_of(cell))?;
    }
    Elem::new(alloc, facts)
}

/// The start alone.
fn start_of(cell: &Cell) -> Bounds
    ensures { result ≡ only cell.now.start }
{
    Bounds::only(cell.start)
}

//! The cells that are needed along a path, by `specs/Needed.antt`.
//! Proved with `proofs/NeededLemmas.antt`.

ghost use Rattle.std.specs.Prelude.{◌≡◌, ◌<◌, ◌||◌, ◌&&◌, ℕ, false, nat_lt, length};
ghost use Rattle.std.specs.Prelude.{IfOk};
ghost use Rattle.std.specs.List.{AllByRecursion};
ghost use Rattle.cpa_model.specs.Automata.{IsAutomaton};
ghost use Rattle.cpa_folds.specs.Needed.{counts, adds, is_needed, needed};
ghost use Rattle.cpa_query.specs.Queries.{is_marked};

use crate::marks::{marked, some_marked};
use crate::stops::may_stop;
use cpa_model::{Act, Cfa, Edge, Expr, Path, Seq};
use cpa_query::mark_reads;
use std::alloc::{AllocError, Global};

/// The cells of the automaton that are needed along the path, ascending: those that its tests may
/// read, and from the last edge to the first those that decide what is written to such a cell, or
/// whether a write traps. An analysis that tracks them has what it takes to see that the path has
/// no run, as far as values of cells show it.
///
/// It takes time in the sizes of the expressions along the path and the arrays that they name.
pub fn needed(alloc: Global, cfa: &Cfa, path: &Path) -> Result<Seq<u32>, AllocError>
    requires automaton { IsAutomaton cfa.now }
    requires path { AllByRecursion (λ edge. edge < length cfa.now.edges) path.now.edges }
    ensures { IfOk result (λ cells. cells ≡ needed cfa.now path.now) }
{
    let mut marks = vec![in alloc; false; cfa.cells.len()]?;
    mark_needed(&mut marks, cfa, path.edges.as_slice());
    marked(alloc, &marks)
}

/// Marks the cells that are needed along the edges.
fn mark_needed(marks: &mut [bool], cfa: &Cfa, edges: &[u32])
    requires length { length marks.old ≡ length cfa.now.cells }
    requires none { (cell : ℕ) → is_marked marks.old cell ≡ false }
    requires edges { AllByRecursion (λ edge. edge < length cfa.now.edges) edges.now }
    ensures length { length marks.new ≡ length marks.old }
    ensures marks { (cell : ℕ) → is_marked marks.new cell ≡ is_needed cfa.now edges.now cell }
{
    let mut place = edges.len();
    while 0 < place {
        place -= 1;
        let edge = cfa.edge(edges[place]);
        add(marks, &edge.act);
    }
}

/// Marks the cells that the act adds to those that are marked.
fn add(marks: &mut [bool], act: &Act)
    ensures length { length marks.new ≡ length marks.old }
    ensures marks { (cell : ℕ) → is_marked marks.new cell
        ≡ (is_marked marks.old cell
        || (nat_lt cell (length marks.old) && adds act.now (is_marked marks.old) cell)) }
{
    match act {
        Act::Assume { test, .. } => mark_reads(marks, test),
        Act::Assign {
            base,
            len,
            index,
            value,
        } => {
            if counts(marks, *base, *len, index, value) {
                mark_reads(marks, index);
                mark_reads(marks, value);
            }
        }
        _ => {}
    }
}

/// Whether the write counts where the marked cells are needed after it.
fn counts(marks: &[bool], base: u32, len: u32, index: &Expr, value: &Expr) -> bool
    ensures { result ≡ counts base len index.now value.now (is_marked marks.now) }
{
    some_marked(marks, base, len) || 1 < len || may_stop(index) || may_stop(value)
}

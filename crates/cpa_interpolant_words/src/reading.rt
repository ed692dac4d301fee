//! Which cells edges read and write, and whether an expression behind an edge reads only what both
//! parts of the path have in common, by `ReadsShared` of `cpa_interpolant_rules`.
//! Proved with `proofs/SharedCells.antt`.

ghost use Rattle.std.specs.Prelude.{◌≡◌, ◌<◌, length, slice_get, Some, IsTrue};
ghost use Rattle.std.specs.List.{AllByRecursion};
ghost use Rattle.cpa_expr.specs.Cells.{is_within, may_read};
ghost use Rattle.cpa_model.specs.declared.automaton.Edge.{Edge as AnEdge};
ghost use Rattle.cpa_model.specs.Automata.{IsAutomaton};
ghost use Rattle.cpa_model.specs.Expressions.{IsExpr};
ghost use Rattle.cpa_form_rules.specs.Reading.{ActReads};
ghost use Rattle.cpa_folds.specs.Along.{acts_along};
ghost use Rattle.cpa_interpolant_rules.specs.Stores.{ActWrites, SomeActReads};
ghost use Rattle.cpa_interpolant_rules.specs.Interpolants.{ReadsShared};
ghost use Rattle.cpa_interpolant_words.specs.Words.{IsShared};

use cpa_expr::{Expr, may_read};
use cpa_model::{Act, Cfa};

/// Whether the cell is one of `len` cells from `base` on.
pub(crate) fn is_within(base: u32, len: u32, cell: u32) -> bool
    ensures { result ≡ is_within base len cell }
{
    base <= cell && cell - base < len
}

/// Whether an edge with this act reads the cell.
pub(crate) fn act_reads(act: &Act, cell: u32) -> bool
    ensures { IsTrue result → ActReads act.now cell }
{
    match act {
        Act::Assign {
            base,
            len,
            index,
            value,
        } => {
            may_read(index, cell)
                || may_read(value, cell)
                || (1 < *len && is_within(*base, *len, cell))
        }
        Act::Assume { test, .. } => may_read(test, cell),
        Act::Skip | Act::Input { .. } | Act::Call { .. } | Act::Return { .. } => false,
    }
}

/// Whether an edge with this act writes the cell.
pub(crate) fn act_writes(act: &Act, cell: u32) -> bool
    ensures { IsTrue result → ActWrites act.now cell }
{
    match act {
        Act::Assign { base, len, .. } => is_within(*base, *len, cell),
        Act::Input { cell: own } => cell == *own,
        Act::Skip | Act::Assume { .. } | Act::Call { .. } | Act::Return { .. } => false,
    }
}

/// Whether some of the edges reads the cell.
fn some_act_reads(cfa: &Cfa, edges: &[u32], cell: u32) -> bool
    requires path { AllByRecursion (λ edge. edge < length cfa.now.edges) edges.now }
    ensures { IsTrue result → SomeActReads (acts_along cfa.now edges.now) cell }
{
    for i in 0..edges.len() {
        if act_reads(&cfa.edge(edges[i]).act, cell) {
            return true;
        }
    }
    false
}

/// Whether the expression `f` behind the edge reads only cells that `e` or the edge reads or
/// writes, and that one of the edges `behind` reads.
pub(crate) fn reads_shared(cfa: &Cfa, e: &Expr, edge: u32, behind: &[u32], f: &Expr) -> bool
    requires automaton { IsAutomaton cfa.now }
    requires expr { IsExpr cfa.now.cells f.now }
    requires edge { edge < length cfa.now.edges }
    requires behind { AllByRecursion (λ edge. edge < length cfa.now.edges) behind.now }
    ensures { (g : AnEdge) → slice_get cfa.now.edges edge ≡ Some g → IsTrue result
        → ReadsShared g.act (acts_along cfa.now behind.now) e.now f.now }
{
    let act = &cfa.edge(edge).act;
    for cell in 0..cell_count(cfa) {
        if !is_fine(cfa, e, act, behind, f, cell) {
            return false;
        }
    }
    true
}

/// Whether the cell is shared, if `f` reads it.
fn is_fine(cfa: &Cfa, e: &Expr, act: &Act, behind: &[u32], f: &Expr, cell: u32) -> bool
    requires behind { AllByRecursion (λ edge. edge < length cfa.now.edges) behind.now }
    ensures { IsTrue result → IsTrue (may_read f.now cell)
        → IsShared e.now act.now (acts_along cfa.now behind.now) cell }
{
    !may_read(f, cell) || is_shared(cfa, e, act, behind, cell)
}

/// Whether `e` or the act reads or writes the cell, and one of the edges `behind` reads it.
fn is_shared(cfa: &Cfa, e: &Expr, act: &Act, behind: &[u32], cell: u32) -> bool
    requires behind { AllByRecursion (λ edge. edge < length cfa.now.edges) behind.now }
    ensures { IsTrue result → IsShared e.now act.now (acts_along cfa.now behind.now) cell }
{
    (may_read(e, cell) || act_reads(act, cell) || act_writes(act, cell))
        && some_act_reads(cfa, behind, cell)
}

/// How many cells the automaton has.
pub(crate) fn cell_count(cfa: &Cfa) -> u32
    requires automaton { IsAutomaton cfa.now }
    ensures { result ≡ length cfa.now.cells }
{
    let count = cfa.cells.len() as u32;
    count
}

/// Whether the expression may read a cell that the act writes.
pub(crate) fn reads_written(cfa: &Cfa, act: &Act, e: &Expr) -> bool
    requires automaton { IsAutomaton cfa.now }
{
    for cell in 0..cell_count(cfa) {
        if act_writes(act, cell) && may_read(e, cell) {
            return true;
        }
    }
    false
}

/// Whether the expression or the act may read the cell.
pub(crate) fn needs(act: &Act, e: &Expr, cell: u32) -> bool {
    may_read(e, cell) || act_reads(act, cell)
}

/// Whether the expression may read no other cells than these.
pub(crate) fn reads_only(cfa: &Cfa, e: &Expr, cells: &[u32]) -> bool
    requires automaton { IsAutomaton cfa.now }
{
    for cell in 0..cell_count(cfa) {
        if may_read(e, cell) && !cells.contains(&cell) {
            return false;
        }
    }
    true
}

/// Whether the cell is read by some of these, or read or written by the act.
fn is_touched(es: &[Expr], act: &Act, cell: u32) -> bool {
    act_reads(act, cell) || act_writes(act, cell) || es.iter().any(|e| may_read(e, cell))
}

/// Whether each cell that the expression may read is read by some of these, or read or written by
/// the act.
pub(crate) fn cover(cfa: &Cfa, es: &[Expr], act: &Act, e: &Expr) -> bool
    requires automaton { IsAutomaton cfa.now }
{
    for cell in 0..cell_count(cfa) {
        if may_read(e, cell) && !is_touched(es, act, cell) {
            return false;
        }
    }
    true
}

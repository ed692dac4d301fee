//! What comes of one cut of a path, `IsAnswer` of specs/Answers, by one thread or by several.

ghost use Rattle.std.specs.Prelude.{◌≡◌, ◌<◌, ◌≤◌, length, slice_get, Some, IfOk};
ghost use Rattle.std.specs.List.{AllByRecursion};
ghost use Rattle.cpa_model.specs.declared.automaton.Edge.{Edge as AnEdge};
ghost use Rattle.cpa_model.specs.Automata.{IsAutomaton};
ghost use Rattle.cpa_model.specs.Expressions.{IsExpr};
ghost use Rattle.cpa_folds.specs.Along.{acts_along};
ghost use Rattle.cpa_interpolant_answers.specs.Answers.{IsAnswer};

use crate::answer::Answer;
use crate::asking::{Asked, ask};
use crate::expressing::conclude;
use cpa_audit::Gate;
use cpa_chains::{partials, partials_par};
use cpa_expr::Expr;
use cpa_model::Cfa;
use std::alloc::{AllocError, Global};
use std::thread::Threads;

/// Answers the cut behind an expression and an edge, before the edges `behind`. Its two parts are
/// not put to the search where they weigh more than `gates`; else it writes at most `learnt` lines.
pub fn answer_cut(
    alloc: Global,
    cfa: &Cfa,
    expr: &Expr,
    edge: u32,
    behind: &[u32],
    learnt: u32,
    gates: u64,
) -> Result<Answer, AllocError>
    requires automaton { IsAutomaton cfa.now }
    requires expr { IsExpr cfa.now.cells expr.now }
    requires edge { edge < length cfa.now.edges }
    requires behind { AllByRecursion (λ edge. edge < length cfa.now.edges) behind.now }
    ensures { (g : AnEdge) → slice_get cfa.now.edges edge ≡ Some g → IfOk result
        (IsAnswer cfa.now learnt gates expr.now g.act (acts_along cfa.now behind.now)) }
{
    let asked = ask(alloc, cfa, expr, edge, behind, learnt, gates)?;
    match asked {
        Asked::Ended(answer) => Ok(answer),
        Asked::Refuted(refuted) => {
            let list = partials(
                alloc,
                &refuted.joined.cnf,
                &refuted.joined.sides,
                &refuted.lines,
            )?;
            let answer = conclude(alloc, refuted, &list)?;
            Ok(answer)
        }
    }
}

/// The same, where so many threads make the partials of the lines, and part p tells the gate as it
/// begins.
pub fn answer_cut_par<R: Threads + Sync, G: Gate>(
    rt: &R,
    alloc: Global,
    cfa: &Cfa,
    expr: &Expr,
    edge: u32,
    behind: &[u32],
    learnt: u32,
    gates: u64,
    workers: u32,
    gate: &G,
) -> Result<Answer, AllocError>
    requires automaton { IsAutomaton cfa.now }
    requires expr { IsExpr cfa.now.cells expr.now }
    requires edge { edge < length cfa.now.edges }
    requires behind { AllByRecursion (λ edge. edge < length cfa.now.edges) behind.now }
    requires workers { (0 < workers) × (workers ≤ 64) }
    ensures { (g : AnEdge) → slice_get cfa.now.edges edge ≡ Some g → IfOk result
        (IsAnswer cfa.now learnt gates expr.now g.act (acts_along cfa.now behind.now)) }
{
    let asked = ask(alloc, cfa, expr, edge, behind, learnt, gates)?;
    match asked {
        Asked::Ended(answer) => Ok(answer),
        Asked::Refuted(refuted) => {
            let list = partials_par(
                rt,
                alloc,
                &refuted.joined.cnf,
                &refuted.joined.sides,
                &refuted.lines,
                workers,
                gate,
            )?;
            let answer = conclude(alloc, refuted, &list)?;
            Ok(answer)
        }
    }
}

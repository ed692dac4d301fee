//! The formula of a cut, weighed and searched: `IsAsked` of specs/Asked.
//! Proved with `proofs/Parted.antt`.

ghost use Rattle.std.specs.Prelude.{◌≡◌, ◌<◌, ◌^◌, length, slice_get, Some, IfOk, OnOk};
ghost use Rattle.std.specs.List.{AllByRecursion};
ghost use Rattle.cpa_model.specs.declared.automaton.Edge.{Edge as AnEdge};
ghost use Rattle.cpa_model.specs.Automata.{IsAutomaton};
ghost use Rattle.cpa_model.specs.Expressions.{IsExpr};
ghost use Rattle.cpa_folds.specs.Along.{acts_along};
ghost use Rattle.cpa_interpolant_rules.specs.Interpolants.{zero};
ghost use Rattle.cpa_interpolant_answers.specs.Asked.{IsAsked, WholeIfRefuted};

use crate::answer::Answer;
use crate::joints::{JoinedParts, join_parts};
use cpa_cnf::{Line, a_refuted_formula_has_no_model};
use cpa_edgeform::EdgeForm;
use cpa_expr::{Expr, constant};
use cpa_interpolant_cuts::{cuts_are_asked, cuts_are_runs};
use cpa_interpolant_words::{part_before, part_behind, weight_of};
use cpa_ints::{Boxed, IntType};
use cpa_model::{Cfa, edges_are_sound, steps_keep_states};
use cpa_sat::{Found, search};
use std::alloc::{AllocError, Global};

/// The formula of a cut, and lines that refute it.
#[derive(Drop)]
pub(crate) struct Refuted {
    pub(crate) joined: JoinedParts,
    pub(crate) lines: Vec<Line>,
}

/// What comes of a cut before an expression is made.
#[derive(Drop)]
pub(crate) enum Asked {
    /// Its formula is refuted, and edges stand behind it.
    Refuted(Refuted),
    /// No expression is to be made.
    Ended(Answer),
}

/// The int 0.
fn zero(alloc: Global) -> Result<Boxed<Expr>, AllocError>
    ensures { IfOk result (λ e. e ≡ zero) }
{
    constant(alloc, IntType::I32, 0)
}

/// A list in memory has fewer than 2^64 items.
fn has_few_cells(form: &EdgeForm) -> Result<(), AllocError>
    ensures { OnOk result (length form.now.query.cells < 2 ^ 64) }
{
    let query = form.query()?;
    let _cells = query.cells.len();
    Ok(())
}

/// Weighs the two parts of a cut, and searches their joined formula.
pub(crate) fn ask(
    alloc: Global,
    cfa: &Cfa,
    expr: &Expr,
    edge: u32,
    behind: &[u32],
    learnt: u32,
    gates: u64,
) -> Result<Asked, AllocError>
    requires automaton { IsAutomaton cfa.now }
    requires expr { IsExpr cfa.now.cells expr.now }
    requires edge { edge < length cfa.now.edges }
    requires behind { AllByRecursion (λ edge. edge < length cfa.now.edges) behind.now }
    ensures asked { (g : AnEdge) → slice_get cfa.now.edges edge ≡ Some g → IfOk result
        (IsAsked cfa.now learnt gates expr.now g.act (acts_along cfa.now behind.now)) }
    ensures whole { IfOk result WholeIfRefuted }
{
    cuts_are_asked();
    cuts_are_runs();
    edges_are_sound();
    steps_keep_states();
    a_refuted_formula_has_no_model();
    let before = part_before(alloc, cfa, expr, edge)?;
    let rest = part_behind(alloc, cfa, behind)?;
    let weight = weight_of(&before, &rest);
    if gates < weight {
        return Ok(Asked::Ended(Answer::Gates(weight)));
    }
    has_few_cells(&before)?;
    has_few_cells(&rest)?;
    let joined = join_parts(alloc, cfa.cells.as_slice(), &before, &rest)?;
    let found = search(alloc, &joined.cnf, learnt)?;
    match found {
        Found::Model(_) => Ok(Asked::Ended(Answer::Run)),
        Found::Spent(lines) => Ok(Asked::Ended(Answer::Learnt(lines))),
        Found::Refuted(lines) => {
            if behind.is_empty() {
                let last = zero(alloc)?;
                return Ok(Asked::Ended(Answer::Next(last)));
            }
            Ok(Asked::Refuted(Refuted { joined, lines }))
        }
    }
}

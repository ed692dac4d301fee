//! Whether expressions are interpolants of a path, by one query of each edge: `IsStep` and
//! `AreSteps` of specs/Words. Proved with `proofs/Steps.antt` and `proofs/Whole.antt`.

ghost use Rattle.std.specs.Prelude.{◌≡◌, ◌+◌, ◌<◌, ◌∷◌, [], ℕ, true, length, drop, slice_get};
ghost use Rattle.std.specs.Prelude.{Some, IsTrue, IfOk, get_or};
ghost use Rattle.std.specs.List.{AllByRecursion};
ghost use Rattle.cpa_expr.specs.declared.tree.Expr.{Expr as AnExpr};
ghost use Rattle.cpa_model.specs.declared.automaton.Edge.{Edge as AnEdge};
ghost use Rattle.cpa_model.specs.Automata.{IsAutomaton};
ghost use Rattle.cpa_model.specs.Expressions.{IsExpr};
ghost use Rattle.cpa_folds.specs.Along.{acts_along};
ghost use Rattle.cpa_interpolant_rules.specs.Interpolants.{one, zero, LeadsTo, NeverTraps};
ghost use Rattle.cpa_interpolant_rules.specs.Parts.{behind_cut};
ghost use Rattle.cpa_interpolant_rules.specs.Found.{AreFound};
ghost use Rattle.cpa_interpolant_words.specs.Words.{IsStep, AreStepsIn, IsLightWith, alone};
ghost use Rattle.cpa_interpolant_words.specs.Words.{against, trapping};

use crate::asking::{Asked, Limits, ask};
use crate::forms::part_before;
use crate::reading::reads_shared;
use cpa_edgeform::{EdgeForm, act_weight};
use cpa_expr::{Expr, copy};
use cpa_form_rules::{failing_is_not_holding, forms_are_runs, steps_take_inputs, weights_are_sums};
use cpa_interpolant_rules::interpolants_leave_no_run;
use cpa_ints::{IntType, Seq};
use cpa_model::{Cfa, Elem, Fact, edges_are_sound, is_expr, steps_keep_states};
use std::alloc::{AllocError, Global};

/// The element of the states on whose store the expression has this truth.
fn alone(alloc: Global, e: &Expr, holds: bool) -> Result<Elem, AllocError>
    ensures { IfOk result (λ elem. elem ≡ alone e.now holds) }
{
    let mut facts = Seq::new(alloc);
    let expr = copy(alloc, e)?;
    facts.push(Fact::Truth { expr, holds })?;
    Elem::new(alloc, facts)
}

/// The element in which the expression is nonzero.
pub(crate) fn nonzero(alloc: Global, e: &Expr) -> Result<Vec<Elem>, AllocError>
    ensures { IfOk result (λ es. es.items ≡ alone e.now true ∷ []) }
{
    let mut elems = Vec::new(alloc);
    elems.push(alone(alloc, e, true)?)?;
    Ok(elems)
}

/// The form that says that `e` is nonzero, the edge is taken, and `f` is not nonzero then.
fn against(alloc: Global, cfa: &Cfa, e: &Expr, edge: u32, f: &Expr) -> Result<EdgeForm, AllocError>
    requires edge { edge < length cfa.now.edges }
    ensures { (g : AnEdge) → slice_get cfa.now.edges edge ≡ Some g
        → IfOk result (λ form. form ≡ against cfa.now.cells e.now g.act f.now) }
{
    let failing = nonzero(alloc, f)?;
    let mut form = part_before(alloc, cfa, e, edge)?;
    form.fails_now(&failing)?;
    Ok(form)
}

/// The form that says that the expression is neither nonzero nor zero.
fn trapping(alloc: Global, cfa: &Cfa, f: &Expr) -> Result<EdgeForm, AllocError>
    ensures { IfOk result (λ form. form ≡ trapping cfa.now.cells f.now) }
{
    let mut failing = nonzero(alloc, f)?;
    failing.push(alone(alloc, f, false)?)?;
    let mut form = EdgeForm::begin(alloc, cfa, false)?;
    form.fails_now(&failing)?;
    Ok(form)
}

/// Whether every step by the edge, from a store where `e` is nonzero, is found to lead to one where
/// `f` is.
pub(crate) fn leads(
    alloc: Global,
    cfa: &Cfa,
    e: &Expr,
    edge: u32,
    f: &Expr,
    limits: Limits,
) -> Result<bool, AllocError>
    requires automaton { IsAutomaton cfa.now }
    requires before { IsExpr cfa.now.cells e.now }
    requires behind { IsExpr cfa.now.cells f.now }
    requires edge { edge < length cfa.now.edges }
    ensures { (g : AnEdge) → slice_get cfa.now.edges edge ≡ Some g
        → IfOk result (λ yes. IsTrue yes → LeadsTo cfa.now.cells g.act e.now f.now) }
{
    forms_are_runs();
    steps_take_inputs();
    failing_is_not_holding();
    edges_are_sound();
    let form = against(alloc, cfa, e, edge, f)?;
    let asked = ask(alloc, &form, limits)?;
    match asked {
        Asked::Never => Ok(true),
        Asked::Sometimes(_) | Asked::Open => Ok(false),
    }
}

/// Whether the expression is found to trap on no store of the cells.
pub(crate) fn never_traps(
    alloc: Global,
    cfa: &Cfa,
    f: &Expr,
    limits: Limits,
) -> Result<bool, AllocError>
    requires automaton { IsAutomaton cfa.now }
    requires expr { IsExpr cfa.now.cells f.now }
    ensures { IfOk result (λ yes. IsTrue yes → NeverTraps cfa.now.cells f.now) }
{
    forms_are_runs();
    failing_is_not_holding();
    let form = trapping(alloc, cfa, f)?;
    let asked = ask(alloc, &form, limits)?;
    match asked {
        Asked::Never => Ok(true),
        Asked::Sometimes(_) | Asked::Open => Ok(false),
    }
}

/// Whether the cut behind `e` and the edge, before the edges `behind` of this weight, weighs at
/// most as much as is allowed.
fn is_light(
    alloc: Global,
    cfa: &Cfa,
    e: &Expr,
    edge: u32,
    weight: u64,
    gates: u64,
) -> Result<bool, AllocError>
    requires edge { edge < length cfa.now.edges }
    ensures { (g : AnEdge) → slice_get cfa.now.edges edge ≡ Some g
        → IfOk result (λ yes. IsTrue yes → IsLightWith cfa.now.cells gates e.now g.act weight) }
{
    let before = part_before(alloc, cfa, e, edge)?;
    Ok(before.weight().saturating_add(weight) <= gates)
}

/// Whether `f` is found to stand behind the edge, where `e` stands before it and the edges
/// `behind`, of this weight, follow.
fn is_step(
    alloc: Global,
    cfa: &Cfa,
    e: &Expr,
    edge: u32,
    behind: &[u32],
    weight: u64,
    f: &Expr,
    limits: Limits,
) -> Result<bool, AllocError>
    requires automaton { IsAutomaton cfa.now }
    requires expr { IsExpr cfa.now.cells e.now }
    requires edge { edge < length cfa.now.edges }
    requires behind { AllByRecursion (λ edge. edge < length cfa.now.edges) behind.now }
    requires weight { weight ≡ (behind_cut cfa.now.cells (acts_along cfa.now behind.now)).weight }
    ensures { (g : AnEdge) → slice_get cfa.now.edges edge ≡ Some g → IfOk result (λ yes. IsTrue yes
        → IsStep cfa.now.cells limits.gates e.now g.act (acts_along cfa.now behind.now) f.now) }
{
    if !is_expr(f, cfa.cells.as_slice()) || !reads_shared(cfa, e, edge, behind, f) {
        return Ok(false);
    }
    let light = is_light(alloc, cfa, e, edge, weight, limits.gates)?;
    if !light {
        return Ok(false);
    }
    let total = never_traps(alloc, cfa, f, limits)?;
    if !total {
        return Ok(false);
    }
    let leads = leads(alloc, cfa, e, edge, f, limits)?;
    Ok(leads)
}

/// Whether the expressions, one before each edge and one behind the last, are found to be steps
/// along the path.
fn are_steps(
    alloc: Global,
    cfa: &Cfa,
    edges: &[u32],
    exprs: &[Expr],
    limits: Limits,
) -> Result<bool, AllocError>
    requires automaton { IsAutomaton cfa.now }
    requires path { AllByRecursion (λ edge. edge < length cfa.now.edges) edges.now }
    requires count { length exprs.now ≡ length edges.now + 1 }
    ensures { IfOk result (λ yes. IsTrue yes
        → AreStepsIn cfa.now limits.gates edges.now exprs.now) }
{
    weights_are_sums();
    edges_are_sound();
    steps_keep_states();
    let mut weight = 0u64;
    let mut place = edges.len();
    while 0 < place {
        place -= 1;
        let e = &exprs[place];
        if !is_expr(e, cfa.cells.as_slice()) {
            return Ok(false);
        }
        let behind = &edges[place + 1..];
        let f = &exprs[place + 1];
        let found = is_step(alloc, cfa, e, edges[place], behind, weight, f, limits)?;
        if !found {
            return Ok(false);
        }
        weight = act_weight(&cfa.edge(edges[place]).act).saturating_add(weight);
    }
    Ok(true)
}

/// Whether the expression is the int 1.
pub(crate) fn is_one(e: &Expr) -> bool
    ensures { IsTrue result → e.now ≡ one }
{
    match e {
        Expr::Const {
            ty: IntType::I32,
            value: 1,
        } => true,
        _ => false,
    }
}

/// Whether the expression is the int 0.
pub(crate) fn is_zero(e: &Expr) -> bool
    ensures { IsTrue result → e.now ≡ zero }
{
    match e {
        Expr::Const {
            ty: IntType::I32,
            value: 0,
        } => true,
        _ => false,
    }
}

/// Whether the expressions are found to be interpolants of the path, within the limits.
pub(crate) fn are_interpolants(
    alloc: Global,
    cfa: &Cfa,
    edges: &[u32],
    exprs: &[Expr],
    limits: Limits,
) -> Result<bool, AllocError>
    requires automaton { IsAutomaton cfa.now }
    requires path { AllByRecursion (λ edge. edge < length cfa.now.edges) edges.now }
    ensures { IfOk result (λ yes. IsTrue yes
        → AreFound cfa.now.cells limits.gates (acts_along cfa.now edges.now) exprs.now) }
{
    interpolants_leave_no_run();
    if exprs.len() != edges.len() + 1 {
        return Ok(false);
    }
    let first = &exprs[0];
    let last = &exprs[edges.len()];
    if !is_one(first) || !is_zero(last) {
        return Ok(false);
    }
    let found = are_steps(alloc, cfa, edges, exprs, limits)?;
    Ok(found)
}

//! What is known of predicates behind an edge, by `specs/Transfer.antt`.

ghost use Rattle.std.specs.Prelude.{◌≡◌, ◌<◌, ◌≤◌, ◌-◌, ◌^◌, ◌∷◌, ◌++◌, []};
ghost use Rattle.std.specs.Prelude.{length, slice_get, Some, IsTrue, IfOk, IfSome, OnOk};
ghost use Rattle.std.specs.List.{AllByRecursion, filter};
ghost use Rattle.cpa_model.specs.declared.automaton.Edge.{Edge as AnEdge};
ghost use Rattle.cpa_model.specs.declared.automaton.Cfa.{Cfa as ACfa};
ghost use Rattle.cpa_model.specs.Acts.{IsActOf};
ghost use Rattle.cpa_model.specs.Automata.{IsAutomaton};
ghost use Rattle.cpa_model.specs.Expressions.{IsExpr};
ghost use Rattle.cpa_iface.specs.Meanings.{IsShaped};
ghost use Rattle.cpa_predicate.specs.Predicates.{no_facts};
ghost use Rattle.cpa_predicate.specs.Questions.{IsStep, Spends, SomeBeyond, IsOpen};
ghost use Rattle.cpa_predicate.specs.Leading.{AlwaysSteps};
ghost use Rattle.cpa_predicate.specs.Steps.{is_truth, HasAfter, IsAfter};
ghost use Rattle.cpa_predicate.specs.Transfer.{IsTruthAfter, AreTruths, IsOutcome, NoneOpen};
ghost use Rattle.cpa_predicate.specs.Transfer.{IsCartesian, fact_of, facts_of, elems_of};

use crate::asking::{Asker, Budgets, found_truth, sure_truth};
use crate::before::truth_before;
use crate::guessing::guesses;
use crate::known::Outcome;
use crate::leading::always_leads_on;
use crate::nearness::{near_cells, near_truths};
use crate::resting::{acts_as_skip, skip_along};
use crate::standing::standing_truth;
use crate::steps::{says_truth, step_form};
use crate::witnesses::{leads_nowhere, mixed_lacking, some_lacks, stores_behind};
use cpa_edgeform::EdgeForm;
use cpa_expr::{copy, value_depends_on_what_is_read};
use cpa_form_rules::{failing_is_not_holding, forms_are_runs, steps_take_inputs};
use cpa_model::{Act, Cfa, Edge, Elem, Expr, Fact, Seq, Store, edges_are_sound};
use std::alloc::{AllocError, Global};

/// The truth that the predicate has wherever the edge leads, where it follows from the truths of
/// the element that have to do with it.
fn near_truth(
    alloc: Global,
    asker: &mut Asker,
    cfa: &Cfa,
    edge: u32,
    elem: &Elem,
    p: &Expr,
    refuted: Refuted,
) -> Result<Option<bool>, AllocError>
    requires automaton { IsAutomaton cfa.now }
    requires edge { edge < length cfa.now.edges }
    requires elem { IsShaped cfa.now elem.now }
    requires predicate { IsExpr cfa.now.cells p.now }
    ensures truth { IfOk result (λ truth. (g : AnEdge) → slice_get cfa.now.edges edge ≡ Some g
        → IfSome truth (HasAfter cfa.now elem.now g p.now)) }
    ensures budgets { asker.new ≡ asker.old }
{
    edges_are_sound();
    forms_are_runs();
    failing_is_not_holding();
    steps_take_inputs();
    if refuted.is_true && refuted.is_false {
        return Ok(None);
    }
    let along = cfa.edge(edge);
    let near = near_truths(alloc, cfa.cells.len(), elem, &along.act, p)?;
    let step = step_form(alloc, cfa, edge, &near)?;
    let truth = sure_truth(alloc, asker, &step, p, refuted.is_true, refuted.is_false)?;
    Ok(truth)
}

/// Which truths of a predicate some store to which the edge leads is known to lack. Nothing is
/// promised of it.
#[derive(Clone, Copy)]
struct Refuted {
    is_true: bool,
    is_false: bool,
}

/// Whether this truth of the predicate is refuted, if need be by a store that comes of those that
/// are kept. It is kept, too.
fn keep_refuting(
    alloc: Global,
    asker: &mut Asker,
    cfa: &Cfa,
    edge: &Edge,
    elem: &Elem,
    marks: &[bool],
    p: &Expr,
    holds: bool,
    refuted: bool,
) -> Result<bool, AllocError>
    ensures { asker.new ≡ asker.old }
{
    if refuted {
        return Ok(true);
    }
    let lacking = mixed_lacking(alloc, cfa, edge, elem, asker.stores(), marks, p, holds)?;
    match lacking {
        Some(store) => {
            asker.keep_store(alloc, store)?;
            Ok(true)
        }
        None => Ok(false),
    }
}

/// Which truths of the predicate are refuted, if need be by stores that come of those that are
/// kept.
fn look_further(
    alloc: Global,
    asker: &mut Asker,
    cfa: &Cfa,
    edge: &Edge,
    elem: &Elem,
    p: &Expr,
    refuted: Refuted,
) -> Result<Refuted, AllocError>
    ensures { asker.new ≡ asker.old }
{
    if refuted.is_true && refuted.is_false {
        return Ok(refuted);
    }
    let marks = near_cells(alloc, cfa.cells.len(), &edge.act, p)?;
    let is_true = keep_refuting(
        alloc,
        asker,
        cfa,
        edge,
        elem,
        &marks,
        p,
        true,
        refuted.is_true,
    )?;
    let is_false = keep_refuting(
        alloc,
        asker,
        cfa,
        edge,
        elem,
        &marks,
        p,
        false,
        refuted.is_false,
    )?;
    Ok(Refuted { is_true, is_false })
}

/// The truth that the predicate has wherever the edge leads, found from the whole element where the
/// stores to which it leads do not refute it.
fn whole_truth(
    alloc: Global,
    asker: &mut Asker,
    cfa: &Cfa,
    edge: &Edge,
    elem: &Elem,
    step: &EdgeForm,
    p: &Expr,
) -> Result<Option<bool>, AllocError>
    requires step { IsStep cfa.now elem.now edge.now step.now }
    requires predicate { IsExpr cfa.now.cells p.now }
    ensures truth { IfOk result (IsTruthAfter
        (IsOpen asker.old asker.new cfa.now elem.now edge.now)
        cfa.now elem.now edge.now p.now) }
    ensures spends { Spends asker.old asker.new
        (SomeBeyond asker.old cfa.now elem.now edge.now (p.now ∷ [])) }
{
    forms_are_runs();
    failing_is_not_holding();
    steps_take_inputs();
    let stores = stores_behind(alloc, cfa, edge, elem, asker.stores(), usize::MAX)?;
    let behind = stores.as_slice();
    let lacks_true = some_lacks(p, true, behind);
    let lacks_false = some_lacks(p, false, behind);
    found_truth(alloc, asker, step, p, lacks_true, lacks_false)
}

/// The truth that the predicate has wherever the edge leads. Where not both are refuted by stores
/// that come of those that are kept, what has to do with it is asked first, and the whole element
/// then.
fn asked_truth(
    alloc: Global,
    asker: &mut Asker,
    cfa: &Cfa,
    number: u32,
    edge: &Edge,
    elem: &Elem,
    step: &EdgeForm,
    p: &Expr,
    refuted: Refuted,
) -> Result<Option<bool>, AllocError>
    requires number { number < length cfa.now.edges }
    requires at { slice_get cfa.now.edges number ≡ Some edge.now }
    requires step { IsStep cfa.now elem.now edge.now step.now }
    requires predicate { IsExpr cfa.now.cells p.now }
    ensures truth { IfOk result (IsTruthAfter
        (IsOpen asker.old asker.new cfa.now elem.now edge.now)
        cfa.now elem.now edge.now p.now) }
    ensures spends { Spends asker.old asker.new
        (SomeBeyond asker.old cfa.now elem.now edge.now (p.now ∷ [])) }
{
    let refuted = look_further(alloc, asker, cfa, edge, elem, p, refuted)?;
    let near = near_truth(alloc, asker, cfa, number, elem, p, refuted)?;
    match near {
        Some(holds) => Ok(Some(holds)),
        None => {
            look_further(alloc, asker, cfa, edge, elem, p, refuted)?;
            whole_truth(alloc, asker, cfa, edge, elem, step, p)
        }
    }
}

/// The truth that the predicate has wherever the edge leads. One that is refuted by a store to
/// which the edge leads is not asked for.
fn unsettled_truth(
    alloc: Global,
    asker: &mut Asker,
    cfa: &Cfa,
    number: u32,
    edge: &Edge,
    elem: &Elem,
    step: &EdgeForm,
    behind: &[Store],
    p: &Expr,
) -> Result<Option<bool>, AllocError>
    requires number { number < length cfa.now.edges }
    requires at { slice_get cfa.now.edges number ≡ Some edge.now }
    requires step { IsStep cfa.now elem.now edge.now step.now }
    requires behind { AllByRecursion (IsAfter cfa.now elem.now edge.now) behind.now }
    requires predicate { IsExpr cfa.now.cells p.now }
    ensures truth { IfOk result (IsTruthAfter
        (IsOpen asker.old asker.new cfa.now elem.now edge.now)
        cfa.now elem.now edge.now p.now) }
    ensures spends { Spends asker.old asker.new
        (SomeBeyond asker.old cfa.now elem.now edge.now (p.now ∷ [])) }
{
    forms_are_runs();
    failing_is_not_holding();
    steps_take_inputs();
    let lacks_true = some_lacks(p, true, behind);
    let lacks_false = some_lacks(p, false, behind);
    if lacks_true && lacks_false {
        return found_truth(alloc, asker, step, p, lacks_true, lacks_false);
    }
    let refuted = Refuted {
        is_true: lacks_true,
        is_false: lacks_false,
    };
    asked_truth(alloc, asker, cfa, number, edge, elem, step, p, refuted)
}

/// The truth that the predicate has wherever the edge leads. One that stands in the element is not
/// asked for, where the edge writes no cell that the predicate may read, and neither is one that
/// the element says of what the predicate is before the edge.
fn truth_after(
    alloc: Global,
    asker: &mut Asker,
    cfa: &Cfa,
    number: u32,
    edge: &Edge,
    elem: &Elem,
    step: &EdgeForm,
    behind: &[Store],
    p: &Expr,
) -> Result<Option<bool>, AllocError>
    requires number { number < length cfa.now.edges }
    requires at { slice_get cfa.now.edges number ≡ Some edge.now }
    requires step { IsStep cfa.now elem.now edge.now step.now }
    requires behind { AllByRecursion (IsAfter cfa.now elem.now edge.now) behind.now }
    requires predicate { IsExpr cfa.now.cells p.now }
    ensures truth { IfOk result (IsTruthAfter
        (IsOpen asker.old asker.new cfa.now elem.now edge.now)
        cfa.now elem.now edge.now p.now) }
    ensures spends { Spends asker.old asker.new
        (SomeBeyond asker.old cfa.now elem.now edge.now (p.now ∷ [])) }
{
    forms_are_runs();
    failing_is_not_holding();
    steps_take_inputs();
    value_depends_on_what_is_read();
    match standing_truth(elem, p, &edge.act) {
        Some(holds) => Ok(Some(holds)),
        None => {
            let before = truth_before(alloc, elem, &edge.act, p)?;
            match before {
                Some(holds) => Ok(Some(holds)),
                None => unsettled_truth(alloc, asker, cfa, number, edge, elem, step, behind, p),
            }
        }
    }
}

/// The truths that predicates have wherever the edge leads.
fn truths_after(
    alloc: Global,
    asker: &mut Asker,
    cfa: &Cfa,
    number: u32,
    edge: &Edge,
    elem: &Elem,
    step: &EdgeForm,
    behind: &[Store],
    preds: &[Expr],
) -> Result<Seq<Option<bool>>, AllocError>
    requires number { number < length cfa.now.edges }
    requires at { slice_get cfa.now.edges number ≡ Some edge.now }
    requires step { IsStep cfa.now elem.now edge.now step.now }
    requires behind { AllByRecursion (IsAfter cfa.now elem.now edge.now) behind.now }
    requires preds { AllByRecursion (IsExpr cfa.now.cells) preds.now }
    ensures truths { IfOk result (AreTruths
        (IsOpen asker.old asker.new cfa.now elem.now edge.now)
        cfa.now elem.now edge.now preds.now) }
    ensures spends { Spends asker.old asker.new
        (SomeBeyond asker.old cfa.now elem.now edge.now preds.now) }
{
    let mut truths = Seq::new(alloc);
    for p in preds {
        let truth = truth_after(alloc, asker, cfa, number, edge, elem, step, behind, p)?;
        truths.push(truth)?;
    }
    Ok(truths)
}

/// Whether no predicate is to be looked at, and a store is known to which the edge leads.
fn is_settled(preds: &[Expr], behind: &[Store]) -> bool
    ensures { IsTrue result → (preds.now ≡ []) × (1 ≤ length behind.now) }
{
    match (preds, behind) {
        ([], [_, ..]) => true,
        _ => false,
    }
}

/// How many stores behind a step are of use: one where no predicate is to be looked at.
fn stores_wanted(preds: &[Expr]) -> usize {
    if preds.is_empty() { 1 } else { usize::MAX }
}

/// The stores to which the edge leads. Where none was known, a model may have been found since.
fn or_new_ones(
    alloc: Global,
    asker: &Asker,
    cfa: &Cfa,
    edge: &Edge,
    elem: &Elem,
    stores: Vec<Store>,
) -> Result<Vec<Store>, AllocError>
    requires { AllByRecursion (IsAfter cfa.now elem.now edge.now) stores.items }
    ensures { IfOk result (λ found.
        AllByRecursion (IsAfter cfa.now elem.now edge.now) found.items) }
{
    if stores.is_empty() {
        stores_behind(alloc, cfa, edge, elem, asker.stores(), usize::MAX)
    } else {
        Ok(stores)
    }
}

/// The stores to which the edge leads. Where none was known, one is guessed.
fn or_guessed(
    alloc: Global,
    cfa: &Cfa,
    edge: &Edge,
    elem: &Elem,
    stores: Vec<Store>,
) -> Result<Vec<Store>, AllocError>
    requires { AllByRecursion (IsAfter cfa.now elem.now edge.now) stores.items }
    ensures { IfOk result (λ found.
        AllByRecursion (IsAfter cfa.now elem.now edge.now) found.items) }
{
    if stores.is_empty() {
        let guesses = guesses(alloc, cfa, &edge.act)?;
        stores_behind(alloc, cfa, edge, elem, guesses.as_slice(), 1)
    } else {
        Ok(stores)
    }
}

/// What is found of the step along the edge.
fn outcome_of(
    alloc: Global,
    asker: &mut Asker,
    cfa: &Cfa,
    edge: u32,
    elem: &Elem,
    preds: &[Expr],
) -> Result<Outcome, AllocError>
    requires automaton { IsAutomaton cfa.now }
    requires edge { edge < length cfa.now.edges }
    requires elem { IsShaped cfa.now elem.now }
    requires preds { AllByRecursion (IsExpr cfa.now.cells) preds.now }
    ensures outcome { IfOk result (λ outcome. (g : AnEdge) → slice_get cfa.now.edges edge ≡ Some g
        → IsOutcome (IsOpen asker.old asker.new cfa.now elem.now g) cfa.now elem.now g
        preds.now outcome) }
    ensures spends { (g : AnEdge) → slice_get cfa.now.edges edge ≡ Some g
        → Spends asker.old asker.new (SomeBeyond asker.old cfa.now elem.now g preds.now) }
{
    edges_are_sound();
    forms_are_runs();
    steps_take_inputs();
    let along = cfa.edge(edge);
    let kept = stores_behind(
        alloc,
        cfa,
        along,
        elem,
        asker.stores(),
        stores_wanted(preds),
    )?;
    let stores = or_guessed(alloc, cfa, along, elem, kept)?;
    let behind = stores.as_slice();
    let settled = is_settled(preds, behind);
    if settled {
        let none = Seq::new(alloc);
        return Ok(Some(none));
    }
    let step = step_form(alloc, cfa, edge, elem)?;
    let never = leads_nowhere(alloc, asker, cfa, along, elem, &step, behind)?;
    if never {
        return Ok(None);
    }
    let stores = or_new_ones(alloc, asker, cfa, along, elem, stores)?;
    let behind = stores.as_slice();
    let truths = truths_after(alloc, asker, cfa, edge, along, elem, &step, behind, preds)?;
    Ok(Some(truths))
}

/// Whether the count says that all that was asked in between was decided.
fn all_decided(before: Budgets, after: Budgets) -> bool
    ensures { IsTrue result → (after.spent ≡ before.spent) × (before.spent < 2 ^ 64 - 1) }
{
    after.spent == before.spent && before.spent < u64::MAX
}

/// How many stores behind a step are kept.
const KEPT_BEHIND: usize = 2;

/// Keeps stores to which the edge leads from those that are kept, the newest last: the predicates
/// of the element behind it have their truths on them. Without predicates none is wanted.
fn keep_behind(
    alloc: Global,
    asker: &mut Asker,
    cfa: &Cfa,
    edge: &Edge,
    elem: &Elem,
    preds: &[Expr],
) -> Result<(), AllocError>
    ensures { asker.new ≡ asker.old }
{
    if preds.is_empty() {
        return Ok(());
    }
    let mut behind = stores_behind(alloc, cfa, edge, elem, asker.stores(), KEPT_BEHIND)?;
    if let Some(other) = behind.pop() {
        asker.keep_store(alloc, other)?;
    }
    if let Some(newest) = behind.pop() {
        asker.keep_store(alloc, newest)?;
    }
    Ok(())
}

/// The outcome that is kept of the step along the edge, or of a skip where that has the same one.
fn known_outcome<'a>(
    asker: &'a Asker,
    cfa: &Cfa,
    edge: &Edge,
    elem: &Elem,
    preds: &[Expr],
) -> Option<&'a Outcome>
    requires automaton { IsAutomaton cfa.now }
    requires act { IsActOf cfa.now edge.now.act }
    ensures { IfSome result (λ outcome.
        IsOutcome NoneOpen cfa.now elem.now edge.now preds.now outcome.now) }
{
    let as_skip = acts_as_skip(&edge.act, preds);
    if as_skip {
        let skip = skip_along(edge);
        match asker.outcome_of(cfa, &skip, elem, preds) {
            Some(outcome) => Some(outcome),
            None => None,
        }
    } else {
        asker.outcome_of(cfa, edge, elem, preds)
    }
}

/// Keeps the outcome of the step along the edge, or that of a skip where it is the same one.
fn keep_outcome(
    alloc: Global,
    asker: &mut Asker,
    cfa: &Cfa,
    edge: &Edge,
    elem: &Elem,
    preds: &[Expr],
    outcome: &Outcome,
) -> Result<(), AllocError>
    requires automaton { IsAutomaton cfa.now }
    requires act { IsActOf cfa.now edge.now.act }
    requires outcome { IsOutcome NoneOpen cfa.now elem.now edge.now preds.now outcome.now }
    ensures { asker.new ≡ asker.old }
{
    let as_skip = acts_as_skip(&edge.act, preds);
    if as_skip {
        let skip = skip_along(edge);
        asker.keep_outcome(alloc, cfa, &skip, elem, preds, outcome)
    } else {
        asker.keep_outcome(alloc, cfa, edge, elem, preds, outcome)
    }
}

/// Keeps the outcome of a skip behind the step: the truths that were found, and no others.
fn keep_rest(
    alloc: Global,
    asker: &mut Asker,
    cfa: &Cfa,
    edge: &Edge,
    _elem: &Elem,
    preds: &[Expr],
    outcome: &Outcome,
) -> Result<(), AllocError>
    requires act { IsActOf cfa.now edge.now.act }
    requires outcome { IsOutcome NoneOpen cfa.now _elem.now edge.now preds.now outcome.now }
    ensures { asker.new ≡ asker.old }
{
    if let Some(truths) = outcome {
        let after = elem_of(alloc, preds, truths.as_slice())?;
        let skip = skip_along(edge);
        asker.keep_outcome(alloc, cfa, &skip, &after, preds, outcome)?;
    }
    Ok(())
}

/// Keeps stores behind the step, its outcome, and that of a skip from there, if all that was asked
/// since `before` was decided.
fn keep_decided(
    alloc: Global,
    asker: &mut Asker,
    before: Budgets,
    cfa: &Cfa,
    edge: &Edge,
    elem: &Elem,
    preds: &[Expr],
    outcome: &Outcome,
) -> Result<(), AllocError>
    requires automaton { IsAutomaton cfa.now }
    requires act { IsActOf cfa.now edge.now.act }
    requires outcome { IsOutcome (IsOpen before asker.old cfa.now elem.now edge.now) cfa.now
        elem.now edge.now preds.now outcome.now }
    ensures { asker.new ≡ asker.old }
{
    keep_behind(alloc, asker, cfa, edge, elem, preds)?;
    let decided = all_decided(before, asker.budgets());
    if decided {
        keep_outcome(alloc, asker, cfa, edge, elem, preds, outcome)?;
        keep_rest(alloc, asker, cfa, edge, elem, preds, outcome)?;
    }
    Ok(())
}

/// The element without facts.
pub(crate) fn no_facts() -> Elem
    ensures { result ≡ no_facts }
{
    Elem::any()
}

/// Adds the fact on the predicate, where its truth is known.
fn push_truth(
    alloc: Global,
    facts: &mut Seq<Fact>,
    p: &Expr,
    truth: Option<bool>,
) -> Result<(), AllocError>
    ensures { OnOk result (facts.new ≡ facts.old ++ fact_of p.now truth) }
{
    if let Some(holds) = truth {
        facts.push(Fact::Truth {
            expr: copy(alloc, p)?,
            holds,
        })?;
    }
    Ok(())
}

/// The element of the truths of the predicates, one for each.
fn elem_of(alloc: Global, preds: &[Expr], truths: &[Option<bool>]) -> Result<Elem, AllocError>
    ensures { IfOk result (λ e. e.facts ≡ facts_of preds.now truths.now) }
{
    let mut facts = Seq::new(alloc);
    let mut rest = truths;
    for p in preds {
        match rest {
            [truth, behind @ ..] => {
                push_truth(alloc, &mut facts, p, *truth)?;
                rest = behind;
            }
            [] => return Elem::new(alloc, facts),
        }
    }
    Elem::new(alloc, facts)
}

/// The elements behind a step with this outcome.
fn elems_of(alloc: Global, preds: &[Expr], outcome: &Outcome) -> Result<Vec<Elem>, AllocError>
    ensures { IfOk result (λ es. es.items ≡ elems_of preds.now outcome.now) }
{
    let mut elems = Vec::new(alloc);
    if let Some(truths) = outcome {
        elems.push(elem_of(alloc, preds, truths.as_slice())?)?;
    }
    Ok(elems)
}

/// Whether nothing is to be asked of a step by the act: no predicate is to be looked at, the
/// element says no truth, and the act leads on from each store.
fn asks_nothing(act: &Act, elem: &Elem, preds: &[Expr]) -> bool
    ensures { IsTrue result → (preds.now ≡ []) × (filter is_truth elem.now.facts ≡ [])
        × ((cfa : ACfa) → IsActOf cfa act.now → AlwaysSteps cfa act.now) }
{
    preds.is_empty() && !says_truth(elem) && always_leads_on(act)
}

/// The one element without facts.
fn no_facts_alone(alloc: Global) -> Result<Vec<Elem>, AllocError>
    ensures { IfOk result (λ es. es.items ≡ elems_of [] (Some [])) }
{
    let mut elems = Vec::new(alloc);
    elems.push(no_facts())?;
    Ok(elems)
}

/// The element of the truths that the predicates have wherever the edge leads, if it leads
/// anywhere. Nothing is made or looked up where nothing is to be asked.
pub(crate) fn successors(
    alloc: Global,
    asker: &mut Asker,
    cfa: &Cfa,
    edge: u32,
    elem: &Elem,
    preds: &[Expr],
) -> Result<Vec<Elem>, AllocError>
    requires automaton { IsAutomaton cfa.now }
    requires edge { edge < length cfa.now.edges }
    requires elem { IsShaped cfa.now elem.now }
    requires preds { AllByRecursion (IsExpr cfa.now.cells) preds.now }
    ensures known { IfOk result (λ es. (g : AnEdge) → slice_get cfa.now.edges edge ≡ Some g
        → IsCartesian (IsOpen asker.old asker.new cfa.now elem.now g) cfa.now elem.now g
        preds.now es.items) }
    ensures spends { (g : AnEdge) → slice_get cfa.now.edges edge ≡ Some g
        → Spends asker.old asker.new (SomeBeyond asker.old cfa.now elem.now g preds.now) }
{
    edges_are_sound();
    let along = cfa.edge(edge);
    let free = asks_nothing(&along.act, elem, preds);
    if free {
        let alone = no_facts_alone(alloc)?;
        return Ok(alone);
    }
    if let Some(outcome) = known_outcome(asker, cfa, along, elem, preds) {
        let elems = elems_of(alloc, preds, outcome)?;
        return Ok(elems);
    }
    let before = asker.budgets();
    let outcome = outcome_of(alloc, asker, cfa, edge, elem, preds)?;
    keep_decided(alloc, asker, before, cfa, along, elem, preds, &outcome)?;
    let elems = elems_of(alloc, preds, &outcome)?;
    Ok(elems)
}

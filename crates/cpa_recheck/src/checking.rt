//! A run of obligations, each put to the solver in turn, by `IsPart` of `specs/Checks.antt`.
//! Proved with `proofs/checking/`.

ghost use Rattle.std.specs.Prelude.{◌≡◌, ◌+◌, ◌<◌, ◌≤◌, ◌^◌, List, length, slice_get, IfOk, Some};
ghost use Rattle.std.specs.Prelude.{IsTrue};
ghost use Rattle.std.specs.List.{AllByRecursion};
ghost use Rattle.cpa_model.specs.declared.facts.Elem.{Elem as AnElem};
ghost use Rattle.cpa_model.specs.Automata.{IsAutomaton};
ghost use Rattle.cpa_recheck_obligations.specs.Laws.{AreShapedFor};
ghost use Rattle.cpa_recheck_obligations.specs.Obligations.{IsObligationOf};
ghost use Rattle.cpa_recheck_obligations.specs.Spots.{as_one, spots_of};
ghost use Rattle.cpa_recheck_obligations.specs.Forms.{form_at};
ghost use Rattle.cpa_recheck.specs.Checks.{IsPart, IsSettled, IsSettledFor, IsSpared, IsWalk};
ghost use Rattle.cpa_recheck.specs.Rivals.{AreRivals};
ghost use Rattle.cpa_recheck.specs.Surveys.{IsSurveyOf};
ghost use Rattle.cpa_recheck_weights.specs.Weights.{weights_of};

use crate::asking::{form_of, rivals_of};
use crate::breaking::broken;
use crate::surveying::{Survey, survey_of};
use cpa_cnf::Line;
use cpa_edgeform::EdgeForm;
use cpa_form_rules::forms_are_runs;
use cpa_model::{Cfa, Elem, State};
use cpa_recheck_bounds::is_settled;
use cpa_recheck_obligations::{Obligation, Spot, added_fit, runless_is_met, unmodelled_is_met};
use cpa_recheck_weights::weigh;
use cpa_solver::{Decided, decide};
use std::alloc::{AllocError, Global};

/// What a check may spend.
#[derive(Clone, Copy)]
pub struct Budget {
    /// How many lines the solver may write for one obligation.
    pub learnt: u32,
    /// The weight that an obligation put to the solver may have.
    pub gates: u64,
    /// How many parts the obligations are cut into.
    pub workers: u32,
}

/// What is kept of the obligations that are met.
#[derive(Clone, Copy)]
pub enum Keeping {
    /// A refutation of each one's query.
    Refutations,
    /// Nothing, so that a query is asked only where the obligation is not settled without one.
    Nothing,
}

/// Why an obligation is not shown to hold.
#[derive(Drop)]
pub enum Why {
    /// This state breaks it, with its successor for an edge.
    Refused { state: State, next: Option<State> },
    /// The solver wrote all lines that were allowed, without a decision.
    Learnt { lines: Vec<Line> },
    /// It weighs more than was allowed.
    Gates { weight: u64 },
}

/// What a run of obligations comes to.
#[derive(Drop)]
pub enum Part {
    /// A refutation for each.
    Whole { logs: Vec<Vec<Line>> },
    /// The least one that is not shown to hold, by its number in the whole list.
    Stopped { obligation: u32, why: Why },
}

/// What one obligation comes to.
#[derive(Drop)]
enum Settled {
    Shown { lines: Vec<Line> },
    Open { why: Why },
}

/// Whether the obligation is met by the bounds of cells alone, where no refutation of it is kept.
/// Where no line may be written, nothing is settled so.
fn is_spared(
    alloc: Global,
    cfa: &Cfa,
    entries: &[Elem],
    numbers: &[u32],
    obligation: Obligation,
    budget: &Budget,
    keeping: Keeping,
) -> Result<bool, AllocError>
    requires automaton { IsAutomaton cfa.now }
    requires shaped { AreShapedFor cfa.now entries.now }
    requires named { IsObligationOf cfa.now entries.now obligation }
    requires rivals { AreRivals cfa.now entries.now obligation numbers.now }
    ensures { IfOk result (λ is. IsTrue is
        → IsSpared cfa.now entries.now budget.now keeping obligation) }
{
    match keeping {
        Keeping::Refutations => Ok(false),
        Keeping::Nothing => {
            if budget.learnt == 0 {
                return Ok(false);
            }
            let is = is_settled(alloc, cfa, entries, numbers, obligation)?;
            Ok(is)
        }
    }
}

/// The weight of the obligation's form, which is not made.
fn weight_of(
    cfa: &Cfa,
    _entries: &[Elem],
    weights: &[u64],
    numbers: &[u32],
    obligation: Obligation,
) -> u64
    requires automaton { IsAutomaton cfa.now }
    requires shaped { AreShapedFor cfa.now _entries.now }
    requires named { IsObligationOf cfa.now _entries.now obligation }
    requires rivals { AreRivals cfa.now _entries.now obligation numbers.now }
    requires weights { weights.now ≡ weights_of cfa.now.cells _entries.now }
    ensures { result ≡ (form_at cfa.now _entries.now obligation).weight }
{
    weigh(cfa, weights, numbers, obligation)
}

/// Settles one obligation, if its weight allows it: by bounds of cells alone, or by the solver.
fn check_one(
    alloc: Global,
    cfa: &Cfa,
    entries: &[Elem],
    spots: &[Option<Spot>],
    survey: &Survey,
    obligation: Obligation,
    budget: &Budget,
    keeping: Keeping,
) -> Result<Settled, AllocError>
    requires automaton { IsAutomaton cfa.now }
    requires shaped { AreShapedFor cfa.now entries.now }
    requires spots { spots.now ≡ spots_of entries.now }
    requires survey { IsSurveyOf cfa.now entries.now spots.now survey.now }
    requires named { IsObligationOf cfa.now entries.now obligation }
    ensures { (es : List (List AnElem)) → entries.now ≡ as_one es
        → IfOk result (IsSettledFor cfa.now es budget.now keeping obligation) }
{
    runless_is_met();
    let numbers = rivals_of(alloc, cfa, spots, &survey.table, obligation)?;
    let weight = weight_of(cfa, entries, &survey.weights, &numbers, obligation);
    if budget.gates < weight {
        return Ok(Settled::Open {
            why: Why::Gates { weight },
        });
    }
    let is_met = is_spared(alloc, cfa, entries, &numbers, obligation, budget, keeping)?;
    if is_met {
        return Ok(Settled::Shown {
            lines: Vec::new(alloc),
        });
    }
    let form = form_of(alloc, cfa, entries, &numbers, obligation)?;
    let settled = ask(alloc, cfa, entries, spots, obligation, budget, &form)?;
    Ok(settled)
}

/// Asks the solver for a model of the obligation's query.
fn ask(
    alloc: Global,
    cfa: &Cfa,
    entries: &[Elem],
    spots: &[Option<Spot>],
    obligation: Obligation,
    budget: &Budget,
    form: &EdgeForm,
) -> Result<Settled, AllocError>
    requires automaton { IsAutomaton cfa.now }
    requires shaped { AreShapedFor cfa.now entries.now }
    requires spots { spots.now ≡ spots_of entries.now }
    requires named { IsObligationOf cfa.now entries.now obligation }
    requires form { form.now ≡ form_at cfa.now entries.now obligation }
    requires light { form.now.weight ≤ budget.now.gates }
    ensures { (es : List (List AnElem)) → entries.now ≡ as_one es
        → IfOk result (IsSettled cfa.now es budget.now obligation) }
{
    added_fit();
    forms_are_runs();
    unmodelled_is_met();
    let query = form.query()?;
    let decided = decide(alloc, &query, budget.learnt)?;
    match decided {
        Decided::Model(store) => {
            let found = broken(alloc, cfa, entries, spots, obligation, form, &store)?;
            Ok(Settled::Open {
                why: Why::Refused {
                    state: found.state,
                    next: found.next,
                },
            })
        }
        Decided::NoModel(lines) => Ok(Settled::Shown { lines }),
        Decided::Learnt(lines) => Ok(Settled::Open {
            why: Why::Learnt { lines },
        }),
    }
}

/// The obligation at this place.
fn obligation_at(run: &[Obligation], place: usize) -> Obligation
    requires { place < length run.now }
    ensures { slice_get run.now place ≡ Some result }
{
    run[place]
}

/// Goes through a run of obligations, whose first one has this number in the whole list, up to the
/// least one that is not shown to hold.
pub(crate) fn walk(
    alloc: Global,
    cfa: &Cfa,
    entries: &[Elem],
    spots: &[Option<Spot>],
    survey: &Survey,
    run: &[Obligation],
    first: u32,
    budget: &Budget,
    keeping: Keeping,
) -> Result<Part, AllocError>
    requires automaton { IsAutomaton cfa.now }
    requires shaped { AreShapedFor cfa.now entries.now }
    requires spots { spots.now ≡ spots_of entries.now }
    requires survey { IsSurveyOf cfa.now entries.now spots.now survey.now }
    requires named { AllByRecursion (IsObligationOf cfa.now entries.now) run.now }
    requires numbers { first + length run.now ≤ 2 ^ 32 }
    ensures { (es : List (List AnElem)) → entries.now ≡ as_one es
        → IfOk result (IsWalk cfa.now es budget.now keeping first run.now) }
{
    let mut logs = Vec::new(alloc);
    for place in 0..run.len() {
        let obligation = obligation_at(run, place);
        let settled = check_one(
            alloc, cfa, entries, spots, survey, obligation, budget, keeping,
        )?;
        match settled {
            Settled::Shown { lines } => logs.push(lines)?,
            Settled::Open { why } => {
                return Ok(Part::Stopped {
                    obligation: first + place as u32,
                    why,
                });
            }
        }
    }
    Ok(Part::Whole { logs })
}

/// Checks a run of obligations, whose first one has this number in the whole list: up to the least
/// one that is not shown to hold.
pub fn check_run(
    alloc: Global,
    cfa: &Cfa,
    entries: &[Elem],
    spots: &[Option<Spot>],
    run: &[Obligation],
    first: u32,
    budget: &Budget,
) -> Result<Part, AllocError>
    requires automaton { IsAutomaton cfa.now }
    requires shaped { AreShapedFor cfa.now entries.now }
    requires few { length spots.now < 2 ^ 32 }
    requires spots { spots.now ≡ spots_of entries.now }
    requires named { AllByRecursion (IsObligationOf cfa.now entries.now) run.now }
    requires numbers { first + length run.now ≤ 2 ^ 32 }
    ensures { (es : List (List AnElem)) → entries.now ≡ as_one es
        → IfOk result (IsPart cfa.now es budget.now first run.now) }
{
    let survey = survey_of(alloc, cfa, entries, spots)?;
    let part = walk(
        alloc,
        cfa,
        entries,
        spots,
        &survey,
        run,
        first,
        budget,
        Keeping::Refutations,
    )?;
    Ok(part)
}

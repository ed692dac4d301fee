//! A TRUE report checked against the automaton of its program, by `IsChecked` of
//! `specs/Checks.antt`. Proved with `proofs/rechecking/`.

ghost use Rattle.std.specs.Prelude.{◌≡◌, ◌<◌, ◌^◌, List, length, map, IfOk};
ghost use Rattle.std.specs.List.{AllByRecursion};
ghost use Rattle.cpa_iface.specs.Meanings.{AreShaped};
ghost use Rattle.cpa_model.specs.declared.automaton.Cfa.{Cfa as ACfa};
ghost use Rattle.cpa_model.specs.declared.facts.Elem.{Elem as AnElem};
ghost use Rattle.cpa_model.specs.Automata.{IsAutomaton};
ghost use Rattle.cpa_recheck_obligations.specs.Laws.{AreShapedFor};
ghost use Rattle.cpa_recheck_obligations.specs.Obligations.{obligations};
ghost use Rattle.cpa_recheck_obligations.specs.Spots.{as_one};
ghost use Rattle.cpa_recheck.specs.declared.checking.Budget.{Budget as ABudget};
ghost use Rattle.cpa_recheck.specs.declared.checking.Keeping.{Keeping as AKeeping};
ghost use Rattle.cpa_recheck.specs.Checks.{IsChecked, IsPart, IsTrueBody, StopsIn};
ghost use Rattle.cpa_recheck.specs.Checks.{entries_in, IsConfirming};
ghost use Rattle.cpa_recheck.specs.Walks.{IsWalked};

use crate::checking::{Budget, Keeping, Part, Why, walk};
use crate::surveying::survey_of;
use cpa_audit::Gate;
use cpa_cnf::Line;
use cpa_model::{Cfa, Elem, Seq, State};
use cpa_recheck_obligations::{joined, obligations, obligations_are_named, spots_of};
use cpa_report_print::{Body, Listed, Report};
use std::alloc::{AllocError, Global};
use std::thread::Threads;

/// What comes of a check of a reached set.
#[derive(Drop)]
pub enum Checked {
    /// The entries are a cover: a refutation for each obligation, in order.
    Confirmed {
        logs: Vec<Vec<Line>>,
    },
    /// This state breaks the obligation, with its successor for an edge.
    Refused {
        obligation: u32,
        state: State,
        next: Option<State>,
    },
    /// The solver wrote all lines that were allowed for the obligation, without a decision.
    Learnt {
        obligation: u32,
        lines: Vec<Line>,
    },
    /// The obligation weighs more than was allowed.
    Gates {
        obligation: u32,
        weight: u64,
    },
}

/// What comes of a check of a reached set that keeps no refutation.
#[derive(Drop)]
pub enum Confirmation {
    /// The entries are a cover: so many obligations are met.
    Confirmed { obligations: usize },
    /// The least obligation that is not shown to hold, and why.
    Stopped { obligation: u32, why: Why },
}

/// What has come of all obligations, and how many there are.
#[derive(Drop)]
struct Walked {
    count: usize,
    part: Part,
}

/// The entries of a TRUE report, each as one element.
fn entries_of(alloc: Global, listed: &[Listed]) -> Result<Vec<Elem>, AllocError>
    ensures { IfOk result (λ entries. entries.items
        ≡ as_one (map (λ entry. entry.elems) listed.now)) }
{
    let mut entries = Vec::new(alloc);
    for entry in listed {
        entries.push(joined(alloc, entry.elems.as_slice())?)?;
    }
    Ok(entries)
}

/// Goes through all obligations of entries, each as one element.
fn walk_entries(
    alloc: Global,
    cfa: &Cfa,
    entries: &[Elem],
    budget: &Budget,
    keeping: Keeping,
) -> Result<Walked, AllocError>
    requires automaton { IsAutomaton cfa.now }
    requires shaped { AreShapedFor cfa.now entries.now }
    ensures { (es : List (List AnElem)) → entries.now ≡ as_one es
        → IfOk result (IsWalked cfa.now es budget.now keeping) }
{
    obligations_are_named();
    if entries.len() > u32::MAX as usize {
        return Err(AllocError);
    }
    let spots = spots_of(alloc, entries)?;
    let list = obligations(alloc, cfa, entries)?;
    let count = list.len();
    if count > u32::MAX as usize {
        return Err(AllocError);
    }
    let survey = survey_of(alloc, cfa, entries, &spots)?;
    let part = walk(
        alloc, cfa, entries, &spots, &survey, &list, 0, budget, keeping,
    )?;
    Ok(Walked { count, part })
}

/// Goes through the obligations of the entries that a report lists.
fn walk_listed(
    alloc: Global,
    cfa: &Cfa,
    listed: &Seq<Listed>,
    budget: &Budget,
    keeping: Keeping,
) -> Result<Walked, AllocError>
    requires automaton { IsAutomaton cfa.now }
    requires shaped { AllByRecursion (AreShaped cfa.now) (entries_in (Body.True listed.now)) }
    ensures { IfOk result (IsWalked cfa.now (entries_in (Body.True listed.now)) budget.now keeping) }
{
    let entries = entries_of(alloc, listed.as_slice())?;
    let walked = walk_entries(alloc, cfa, &entries, budget, keeping)?;
    Ok(walked)
}

/// Goes through the obligations of what a TRUE report tells.
fn walk_body(
    alloc: Global,
    cfa: &Cfa,
    body: &Body,
    budget: &Budget,
    keeping: Keeping,
) -> Result<Walked, AllocError>
    requires automaton { IsAutomaton cfa.now }
    requires verdict { IsTrueBody body.now }
    requires shaped { AllByRecursion (AreShaped cfa.now) (entries_in body.now) }
    ensures { IfOk result (IsWalked cfa.now (entries_in body.now) budget.now keeping) }
{
    match body {
        Body::True { entries } => walk_listed(alloc, cfa, entries, budget, keeping),
        _ => unreachable!(),
    }
}

/// What is said where an obligation is not shown to hold.
fn stopped(obligation: u32, why: Why) -> Checked
    ensures { (cfa : ACfa) (es : List (List AnElem)) (budget : ABudget)
        → StopsIn cfa es budget (obligations cfa (as_one es)) obligation why
        → IsChecked cfa es budget result }
{
    match why {
        Why::Refused { state, next } => Checked::Refused {
            obligation,
            state,
            next,
        },
        Why::Learnt { lines } => Checked::Learnt { obligation, lines },
        Why::Gates { weight } => Checked::Gates { obligation, weight },
    }
}

/// What the check of all obligations says.
fn said(part: Part) -> Checked
    ensures { (cfa : ACfa) (es : List (List AnElem)) (budget : ABudget)
        → IsPart cfa es budget 0 (obligations cfa (as_one es)) part
        → IsChecked cfa es budget result }
{
    match part {
        Part::Whole { logs } => Checked::Confirmed { logs },
        Part::Stopped { obligation, why } => stopped(obligation, why),
    }
}

/// What the walk says where nothing is kept.
fn confirmed(walked: Walked) -> Confirmation
    ensures { (cfa : ACfa) (es : List (List AnElem)) (budget : ABudget) (keeping : AKeeping)
        → IsWalked cfa es budget keeping walked → IsConfirming cfa es budget result }
{
    let Walked { count, part } = walked;
    match part {
        Part::Whole { logs } => {
            let _logs = logs;
            Confirmation::Confirmed { obligations: count }
        }
        Part::Stopped { obligation, why } => Confirmation::Stopped { obligation, why },
    }
}

/// Checks that the entries of a TRUE report are a cover of the program, which no analysis, no
/// engine and no search needs to be trusted for. The answer names the least obligation that is not
/// shown to hold. It fails only where memory runs out; 2^32 entries or obligations count as that.
pub fn recheck<R: Threads + Sync, G: Gate>(
    rt: &R,
    alloc: Global,
    cfa: &Cfa,
    report: &Report,
    budget: &Budget,
    gate: &G,
) -> Result<Checked, AllocError>
    requires automaton { IsAutomaton cfa.now }
    requires verdict { IsTrueBody report.now.body }
    requires shaped { AllByRecursion (AreShaped cfa.now) (entries_in report.now.body) }
    requires workers { budget.now.workers ≡ 1 }
    ensures { IfOk result (IsChecked cfa.now (entries_in report.now.body) budget.now) }
{
    let _rt = rt;
    gate.enter(0);
    let walked = walk_body(alloc, cfa, &report.body, budget, Keeping::Refutations)?;
    Ok(said(walked.part))
}

/// The same check, which keeps no refutation: an obligation that bounds of cells settle is put to
/// no solver. What it weighs, and whether a line may be written at all, counts as for `recheck`. It
/// fails only where memory runs out; 2^32 entries or obligations count as that.
pub fn confirm<R: Threads + Sync, G: Gate>(
    rt: &R,
    alloc: Global,
    cfa: &Cfa,
    report: &Report,
    budget: &Budget,
    gate: &G,
) -> Result<Confirmation, AllocError>
    requires automaton { IsAutomaton cfa.now }
    requires verdict { IsTrueBody report.now.body }
    requires shaped { AllByRecursion (AreShaped cfa.now) (entries_in report.now.body) }
    requires workers { budget.now.workers ≡ 1 }
    ensures { IfOk result (IsConfirming cfa.now (entries_in report.now.body) budget.now) }
{
    let _rt = rt;
    gate.enter(0);
    let walked = walk_body(alloc, cfa, &report.body, budget, Keeping::Nothing)?;
    Ok(confirmed(walked))
}

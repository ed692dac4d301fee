//! The text of a report, read and its entries checked again, by `IsRechecked` of
//! `specs/Rechecks.antt`; shown with `proofs/Reading.antt`.
ghost use Rattle.std.specs.Prelude.{◌≡◌, IfOk, IfErr};
ghost use Rattle.cpa_model.specs.Automata.{IsAutomaton};
ghost use Rattle.cpa_model.specs.Programs.{IsWellFormed};
ghost use Rattle.cpa_recheck.specs.Checks.{IsConfirming, IsTrueBody, entries_in};
ghost use Rattle.cpa_report.specs.Ranges.{IsBodyIn};
ghost use Rattle.cpa_report_print.specs.Reports.{verdict_of};
ghost use Rattle.cpa_report_print.specs.declared.report.Verdict.TheVariants as verdict;
ghost use Rattle.cpa_top_recheck.specs.Lines.{checked_text};
ghost use Rattle.cpa_top_recheck.specs.Rechecks.{IsRechecked, IsReportRefused, budget_of};
ghost use Rattle.cpa_top_recheck.specs.Rechecks.{finding_of};

use crate::finding::{Rechecked, finding_of};
use crate::lines::checked_text;
use cfa_build::build;
use cpa_audit::NoGate;
use cpa_iface::Settings;
use cpa_ints::DataModel;
use cpa_model::{Cfa, Program};
use cpa_recheck::{Budget, Confirmation, confirm};
use cpa_report::{Report, ReportError, Verdict, read_in};
use std::alloc::{AllocError, Global};
use std::thread::Threads;

/// Checks the entries of a TRUE report of the automaton.
#[tactic(auto, using(crate::proofs::Reading::is_true))]
fn check_report<R: Threads + Sync>(
    rt: &R,
    alloc: Global,
    cfa: &Cfa,
    report: &Report,
    settings: &Settings,
) -> Result<Confirmation, AllocError>
    requires automaton { IsAutomaton cfa.now }
    requires verdict { verdict_of report.now.body ≡ verdict.True }
    requires inside { IsBodyIn cfa.now report.now.body }
    ensures { IfOk result
        (IsConfirming cfa.now (entries_in report.now.body) (budget_of settings.now)) }
{
    let budget = Budget {
        learnt: settings.learnt,
        gates: settings.gates,
        workers: 1,
    };
    confirm(rt, alloc, cfa, report, &budget, &NoGate)
}

/// What is told of a check.
fn told(alloc: Global, checked: &Confirmation) -> Result<Rechecked, AllocError>
    ensures finding { IfOk result (λ told. told.finding ≡ finding_of checked.now) }
    ensures text { IfOk result (λ told. told.text.items ≡ checked_text checked.now) }
{
    Ok(Rechecked {
        finding: finding_of(checked),
        text: checked_text(alloc, checked)?,
    })
}

/// Reads the text as that of a TRUE report of the program in the data model, and checks its
/// entries, in one thread. No analysis is asked. A program has one automaton, so a text that breaks
/// a rule is that of no TRUE report of the program.
#[tactic(auto, using(crate::proofs::Reading::is_automaton))]
pub fn check_text<R: Threads + Sync>(
    rt: &R,
    alloc: Global,
    program: &Program,
    text: &[u8],
    settings: &Settings,
    model: DataModel,
) -> Result<Rechecked, ReportError>
    requires { IsWellFormed program.now }
    ensures told { IfOk result (IsRechecked model program.now settings.now text.now) }
    ensures refused { IfErr result (IsReportRefused model program.now text.now) }
{
    let cfa = build(alloc, program)?;
    let report = read_in(alloc, text, &cfa, Verdict::True, model)?;
    let checked = check_report(rt, alloc, &cfa, &report, settings)?;
    Ok(told(alloc, &checked)?)
}

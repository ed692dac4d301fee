//! The report of an answer on a program, and its text: `report_of` of `specs/Verdicts.antt`.
ghost use Rattle.std.specs.Prelude.{◌≡◌, IfOk};
ghost use Rattle.cpa_model.specs.Automata.{IsAutomatonOf};
ghost use Rattle.cpa_model.specs.Programs.{IsWellFormed};
ghost use Rattle.cpa_report_print.specs.Reports.{report_text, verdict_of};
ghost use Rattle.cpa_top_verdict.specs.Verdicts.{body_of, report_of};

use crate::bodies::body_of;
use cpa_engine::Answer;
use cpa_ints::DataModel;
use cpa_model::{Cfa, Program, automata_are_small};
use cpa_report_print::{Report, Verdict, print};
use std::alloc::{AllocError, Global};

/// What comes of a program: the verdict, and the text of the report.
#[derive(Drop)]
pub struct Told {
    pub verdict: Verdict,
    pub text: Vec<u8>,
}

/// The report of an answer. Its counts fit, since a program has few cells and points.
fn report_of(
    alloc: Global,
    program: &Program,
    cfa: &Cfa,
    answer: Answer,
    model: DataModel,
) -> Result<Report, AllocError>
    requires well_formed { IsWellFormed program.now }
    requires automaton { IsAutomatonOf program.now cfa.now }
    ensures { IfOk result (λ report. report ≡ report_of model program.now cfa.now answer) }
{
    automata_are_small();
    let body = body_of(alloc, answer)?;
    Ok(Report {
        text: program.text_len,
        points: cfa.points,
        cells: program.cells.len() as u32,
        edges: cfa.edges.len() as u32,
        model,
        body,
    })
}

/// The verdict and the text of a report.
fn printed(alloc: Global, report: &Report) -> Result<Told, AllocError>
    ensures verdict { IfOk result (λ told. told.verdict ≡ verdict_of report.now.body) }
    ensures text { IfOk result (λ told. told.text.items ≡ report_text report.now) }
{
    Ok(Told {
        verdict: report.body.verdict(),
        text: print(alloc, report)?,
    })
}

/// The verdict of an answer, and the text of its report.
pub fn told_of(
    alloc: Global,
    program: &Program,
    cfa: &Cfa,
    answer: Answer,
    model: DataModel,
) -> Result<Told, AllocError>
    requires well_formed { IsWellFormed program.now }
    requires automaton { IsAutomatonOf program.now cfa.now }
    ensures verdict { IfOk result (λ told. told.verdict ≡ verdict_of (body_of answer)) }
    ensures text { IfOk result (λ told.
        told.text.items ≡ report_text (report_of model program.now cfa.now answer)) }
{
    let report = report_of(alloc, program, cfa, answer, model)?;
    printed(alloc, &report)
}

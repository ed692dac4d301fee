//! What is counted of the run on a program: `IsMeasured` of `specs/Measurements.antt`.
ghost use Rattle.std.specs.Prelude.{◌≡◌, length, map, IfOk};
ghost use Rattle.cpa_model.specs.Programs.{IsWellFormed};
ghost use Rattle.cpa_composite.specs.Components.{ArePlaces, picked};
ghost use Rattle.cpa_report_print.specs.Reports.{verdict_of};
ghost use Rattle.cpa_top_verdict.specs.Verdicts.{body_of, body_of_why};
ghost use Rattle.cpa_top_bench.specs.Measurements.{IsMeasured, count_of};

use cfa_build::build;
use cpa_config::Config;
use cpa_engine::{Answer, Why};
use cpa_iface::Analysis;
use cpa_model::Program;
use cpa_report_print::Verdict;
use cpa_top_verdict::answer_on;
use std::alloc::{AllocError, Global};

/// What comes of a program, without the text of its report.
#[derive(Clone, Copy)]
pub struct Measured {
    /// The points of its automaton.
    pub points: u32,
    /// The edges of its automaton.
    pub edges: usize,
    /// The entries of a report of TRUE, and 0 for any other verdict.
    pub entries: usize,
    pub verdict: Verdict,
}

/// The verdict where the analysis gives up.
fn verdict_of_why(why: &Why) -> Verdict
    ensures { result ≡ verdict_of (body_of_why why.now) }
{
    match why {
        Why::Turns { .. } => Verdict::Turns,
        Why::Rounds { .. } => Verdict::Rounds,
        Why::Learnt { .. } => Verdict::Learnt,
        Why::Gates { .. } => Verdict::Gates,
        Why::NoNew { .. } => Verdict::NoNew,
    }
}

/// The verdict of an answer.
fn verdict_of(answer: &Answer) -> Verdict
    ensures { result ≡ verdict_of (body_of answer.now) }
{
    match answer {
        Answer::True { .. } => Verdict::True,
        Answer::False { .. } => Verdict::False,
        Answer::Unknown { why } => verdict_of_why(why),
    }
}

/// How many entries an answer has.
fn count_of(answer: &Answer) -> usize
    ensures { result ≡ count_of answer.now }
{
    match answer {
        Answer::True { entries } => entries.len(),
        Answer::False { .. } | Answer::Unknown { .. } => 0,
    }
}

/// What comes of the program, by the analyses that the configuration picks.
pub fn measure<A: Analysis>(
    alloc: Global,
    program: &Program,
    analyses: Vec<A>,
    config: &Config,
) -> Result<Measured, AllocError>
    requires well_formed { IsWellFormed program.now }
    requires picks { ArePlaces (length analyses.items) config.now.picks }
    ensures { IfOk result (IsMeasured program.now
        (picked (map A.meaning analyses.items) config.now.picks) config.now) }
{
    let cfa = build(alloc, program)?;
    let answer = answer_on(alloc, &cfa, analyses, config)?;
    Ok(Measured {
        points: cfa.points,
        edges: cfa.edges.len(),
        entries: count_of(&answer),
        verdict: verdict_of(&answer),
    })
}

//! A whole analysis from the initial state on, with its answer as a report tells it, in one line.
//! The text of the program has no length here.

ghost use Rattle.cpa_model.specs.Automata.{IsAutomaton};

use crate::composites::questions::Search;
use cases_reader::RowFault;
use cpa_composite::{Composite, copy_row};
use cpa_config::Config;
use cpa_engine::{Answer, Why, analyse};
use cpa_iface::{Analysis, Entry};
use cpa_ints::DataModel;
use cpa_model::{Cfa, Seq};
use cpa_report_print::{Body, Listed, Report, print};
use std::alloc::{AllocError, Global};

/// The answer of the analysis, or the words of its verdict alone. The picks of a configuration are
/// not read here.
pub fn push_analysis<A: Analysis>(
    alloc: Global,
    out: &mut String,
    composite: &mut Composite<A>,
    cfa: &Cfa,
    search: &Search,
    is_whole: bool,
) -> Result<(), RowFault>
    requires { IsAutomaton cfa.now }
{
    let config = Config {
        picks: Seq::new(alloc),
        order: search.order,
        turns: search.turns,
        rounds: search.rounds,
        settings: search.settings,
        model: DataModel::Lp64,
    };
    let answer = analyse(alloc, cfa, composite, &config)?;
    push_answer(alloc, out, cfa, answer, is_whole)
}

/// What a report of the answer tells.
fn push_answer(
    alloc: Global,
    out: &mut String,
    cfa: &Cfa,
    answer: Answer,
    is_whole: bool,
) -> Result<(), RowFault> {
    let body = body_of(alloc, answer)?;
    let report = Report {
        text: cfa.text_len,
        points: cfa.points,
        cells: count(cfa.cells.len()),
        edges: count(cfa.edges.len()),
        model: DataModel::Lp64,
        body,
    };
    push_report(alloc, out, &report, is_whole)
}

/// A number as a report has it.
fn count(number: usize) -> u32 {
    u32::try_from(number).unwrap_or(u32::MAX)
}

/// What a report tells of the answer.
fn body_of(alloc: Global, answer: Answer) -> Result<Body, AllocError> {
    match answer {
        Answer::True { entries } => listed(alloc, entries.as_slice()),
        Answer::False { inputs, steps } => Ok(Body::False { inputs, steps }),
        Answer::Unknown { why } => Ok(unknown(why)),
    }
}

/// What a report tells of why there is no verdict.
fn unknown(why: Why) -> Body {
    match why {
        Why::Turns { journal } => Body::Turns { journal },
        Why::Rounds { path, history } => Body::Rounds { path, history },
        Why::Learnt { path, lines } => Body::Learnt { path, lines },
        Why::Gates { path, weight } => Body::Gates { path, weight },
        Why::NoNew { path, precisions } => Body::NoNew { path, precisions },
    }
}

/// What a report tells of entries.
fn listed(alloc: Global, entries: &[Entry]) -> Result<Body, AllocError> {
    let mut listed = Vec::new(alloc);
    for entry in entries {
        listed.push(Listed {
            number: entry.number,
            elems: Seq::from_vec(copy_row(alloc, entry.elems.as_slice())?),
        })?;
    }
    Ok(Body::True {
        entries: Seq::from_vec(listed),
    })
}

/// The two lines of a report, a space between them; or its first one alone.
fn push_report(
    alloc: Global,
    out: &mut String,
    report: &Report,
    is_whole: bool,
) -> Result<(), RowFault> {
    if !is_whole {
        return Ok(out.push_str(report.body.verdict().words())?);
    }
    let bytes = print(alloc, report)?;
    match str::from_utf8(&bytes) {
        Ok(text) => Ok(push_lines(out, text)?),
        Err(_) => Err(RowFault::Unreadable),
    }
}

/// The two lines of a report, a space between them.
fn push_lines(out: &mut String, text: &str) -> Result<(), AllocError> {
    let (verdict, rest) = text.split_once('\n').unwrap_or((text, ""));
    let line = rest.strip_suffix('\n').unwrap_or(rest);
    write!(out, "{verdict} {line}")
}

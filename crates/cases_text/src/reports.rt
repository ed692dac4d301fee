//! What `read` of `cpa_report` answers to a text, and whether `print` gives the text again.
//! Proved safe by the checker alone.

use cases_reader::{RowFault, bytes_of, next_index, next_word, type_of_word};
use cpa_ints::{DataModel, Seq};
use cpa_model::{Act, Cell, Cfa, Edge};
use cpa_report::{Report, ReportError, ReportRule, Verdict, print, read_in};
use std::alloc::{AllocError, Global};
use std::str::SplitWhitespace;

/// The verdict that a word names.
fn verdict_of_word(word: &str) -> Result<Verdict, RowFault> {
    match word {
        "true" => Ok(Verdict::True),
        "false" => Ok(Verdict::False),
        "turns" => Ok(Verdict::Turns),
        "rounds" => Ok(Verdict::Rounds),
        "learnt" => Ok(Verdict::Learnt),
        "gates" => Ok(Verdict::Gates),
        "new" => Ok(Verdict::NoNew),
        "proof" => Ok(Verdict::Proof),
        _ => Err(RowFault::Unreadable),
    }
}

/// The data model and the verdict that a row wants, LP64 where it does not say `ilp32`.
fn wanted(words: &mut SplitWhitespace<'_>) -> Result<(DataModel, Verdict), RowFault> {
    let word = next_word(words)?;
    if word == "ilp32" {
        let take = verdict_of_word(next_word(words)?)?;
        Ok((DataModel::Ilp32, take))
    } else {
        Ok((DataModel::Lp64, verdict_of_word(word)?))
    }
}

/// So many edges, which go nowhere: only their number counts here.
fn edges_of(alloc: Global, count: u32) -> Result<Seq<Edge>, AllocError> {
    let mut edges = Seq::new(alloc);
    for _ in 0..count {
        edges.push(Edge {
            from: 0,
            to: 0,
            act: Act::Skip,
        })?;
    }
    Ok(edges)
}

/// Cells of the types that the words name.
fn cells_of(alloc: Global, words: &mut SplitWhitespace<'_>) -> Result<Seq<Cell>, RowFault> {
    let mut cells = Seq::new(alloc);
    for word in words {
        let ty = type_of_word(word)?;
        cells.push(Cell { ty, start: 0 })?;
    }
    Ok(cells)
}

/// What a row gives of a program: its points, edges, length in bytes and the types of its cells.
fn automaton(alloc: Global, words: &mut SplitWhitespace<'_>) -> Result<Cfa, RowFault> {
    let points = next_index(words)?;
    let count = next_index(words)?;
    let text_len = next_index(words)?;
    let cells = cells_of(alloc, words)?;
    let edges = edges_of(alloc, count)?;
    Ok(Cfa {
        cells,
        points,
        start: 0,
        errors: Seq::new(alloc),
        edges,
        text_len,
    })
}

/// The word of a rule.
fn rule_word(rule: ReportRule) -> &'static str {
    match rule {
        ReportRule::P1 => "P1",
        ReportRule::P2 => "P2",
        ReportRule::P3 => "P3",
        ReportRule::P4 => "P4",
        ReportRule::P5 => "P5",
        ReportRule::P6 => "P6",
    }
}

/// What is read of the text.
fn found(
    alloc: Global,
    text: &[u8],
    cfa: &Cfa,
    take: Verdict,
    model: DataModel,
) -> Result<&'static str, AllocError> {
    match read_in(alloc, text, cfa, take, model) {
        Ok(report) => printed(alloc, text, &report),
        Err(ReportError::Fault(rule)) => Ok(rule_word(rule)),
        Err(ReportError::OutOfMemory) => Err(AllocError),
    }
}

/// Whether the report is printed as the text.
fn printed(alloc: Global, text: &[u8], report: &Report) -> Result<&'static str, AllocError> {
    let back = print(alloc, report)?;
    let is_same = back.as_slice() == text;
    Ok(if is_same { "read" } else { "another text" })
}

/// What is read of a written text.
fn found_in(
    alloc: Global,
    row: &str,
    cfa: &Cfa,
    take: Verdict,
    model: DataModel,
) -> Result<&'static str, RowFault> {
    let text = bytes_of(alloc, row)?.ok_or(RowFault::Unreadable)?;
    Ok(found(alloc, text.as_slice(), cfa, take, model)?)
}

/// The answer to a row that can be read.
fn answered(alloc: Global, front: &str, row: &str) -> Result<&'static str, RowFault> {
    let mut words = front.split_whitespace();
    let (model, take) = wanted(&mut words)?;
    let cfa = automaton(alloc, &mut words)?;
    found_in(alloc, row, &cfa, take, model)
}

/// The answer to a row: the data model and the verdict that are wanted and what the program has, and behind ` |` the
/// text.
pub(crate) fn answer(alloc: Global, row: &str) -> Result<String, AllocError> {
    let Some((front, text)) = row.split_once(" |") else {
        return String::from_str(alloc, "no row");
    };
    match answered(alloc, front, text) {
        Ok(word) => String::from_str(alloc, word),
        Err(RowFault::Unreadable) => String::from_str(alloc, "no row"),
        Err(RowFault::OutOfMemory) => Err(AllocError),
    }
}

//! Prints each row of the standard input with the answer of the public calls that it names. Nothing
//! is proved of a row but that its answer comes: what is right, the file `stdout` says.
#![tactic(auto)]

mod clause_rows;
mod formulas;
mod interpolant_rows;
mod numbers;
mod operator_rows;
mod queries;
mod query_rows;
mod search_rows;
mod words;

use cases_reader::{Row, RowFault, printed};
use std::alloc::{AllocError, Global};
use std::io;
use std::io::{BufRead, BufReader};
use std::thread::Threads;

/// Whose calls the rows name.
#[derive(Clone, Copy)]
enum Subject {
    Queries,
    Numbers,
}

/// Each row is answered from itself alone, but that `rows SUBJECT` says whose calls the next rows
/// name.
fn main(rt: HostRuntime) -> io::Result<()> {
    let alloc = rt.alloc();
    let mut subject = Subject::Queries;
    for line in BufReader::new(alloc, rt.reader())?.lines(alloc) {
        let printed = answered(&rt, alloc, &mut subject, line?.as_str())?;
        println!(rt; "{printed}")?;
    }
    Ok(())
}

/// The subject that a word names.
fn subject_of(word: &str) -> Subject {
    match word {
        "numbers" => Subject::Numbers,
        _ => Subject::Queries,
    }
}

/// A row with its answer. An empty line, a remark and a row that names a subject stay as they are.
fn answered<R: Threads + Sync>(
    rt: &R,
    alloc: Global,
    subject: &mut Subject,
    line: &str,
) -> Result<String, AllocError> {
    let mut answer = String::new(alloc);
    let told = push_answer(rt, alloc, &mut answer, subject, line);
    printed(alloc, line, answer.as_str(), told)
}

/// Adds the answer of a row, its words each behind a space, or nothing where the row asks nothing.
fn push_answer<R: Threads + Sync>(
    rt: &R,
    alloc: Global,
    out: &mut String,
    subject: &mut Subject,
    line: &str,
) -> Result<(), RowFault> {
    if line.is_empty() || line.starts_with("#") {
        return Ok(());
    }
    if let Some(word) = line.strip_prefix("rows ") {
        *subject = subject_of(word);
        return Ok(());
    }
    out.push_str(" =")?;
    match *subject {
        Subject::Queries => push_on_queries(rt, alloc, out, line),
        Subject::Numbers => numbers::push_answer(alloc, out, line),
    }
}

/// Adds the answer of a row that calls the solver or what stands below it.
fn push_on_queries<R: Threads + Sync>(
    rt: &R,
    alloc: Global,
    out: &mut String,
    line: &str,
) -> Result<(), RowFault> {
    let row = Row::of(alloc, line)?;
    interpolant_rows::push_answer(rt, alloc, out, &row.words, &row.parts)
}

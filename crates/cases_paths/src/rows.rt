//! A row with its answer. Nothing is proved of a row but that its answer comes: what is right, the
//! file `stdout` says.

use crate::fact_rows;
use cases_programs::Table;
use cases_reader::{Row, RowFault, printed};
use std::alloc::{AllocError, Global};
use std::thread::Threads;

/// A row with its answer. An empty line, a remark and a row that sets something stay as they are.
pub fn answered<R: Threads + Sync>(
    rt: &R,
    alloc: Global,
    table: &mut Table,
    line: &str,
) -> Result<String, AllocError> {
    let mut answer = String::new(alloc);
    let told = push_answer(rt, alloc, &mut answer, table, line);
    printed(alloc, line, answer.as_str(), told)
}

/// Adds the answer of a row, or nothing where the row asks nothing.
fn push_answer<R: Threads + Sync>(
    rt: &R,
    alloc: Global,
    out: &mut String,
    table: &mut Table,
    line: &str,
) -> Result<(), RowFault> {
    if line.is_empty() || line.starts_with("#") {
        return Ok(());
    }
    let row = Row::of(alloc, line)?;
    set_or_ask(rt, alloc, out, table, &row.words, &row.parts)
}

/// Adds the words of the answer, each behind a space, or nothing where the row sets something.
fn set_or_ask<R: Threads + Sync>(
    rt: &R,
    alloc: Global,
    out: &mut String,
    table: &mut Table,
    words: &[&str],
    parts: &[&str],
) -> Result<(), RowFault> {
    if table.set(alloc, words, parts)? {
        return Ok(());
    }
    out.push_str(" =")?;
    fact_rows::push_answer(rt, alloc, out, table, words, parts)
}

//! Rows of texts and what is read of them: prints each row of the input with its answer. It owes
//! safety alone; what the answers must be is `stdout`, which README.md says how it was made.
#![tactic(auto)]

mod checks;
mod commands;
mod configs;
mod places;
mod programs;
mod reports;
mod texts;
mod tokens;
mod trees;
mod words;

use cpa_ints::DataModel;
use std::alloc::{AllocError, Global};
use std::io;
use std::io::{BufRead, BufReader};
use texts::asked_of;

/// The answer to a row: a word for what is asked, and the text that it is asked of. A word alone
/// asks it of the empty text. It is asked in LP64, or after the word `ilp32` in that data model.
fn answer(alloc: Global, row: &str) -> Result<String, AllocError> {
    match row.strip_prefix("ilp32 ") {
        Some(row) => answer_in(alloc, row, DataModel::Ilp32),
        None => answer_in(alloc, row, DataModel::Lp64),
    }
}

/// The answer to a row in a data model.
fn answer_in(alloc: Global, row: &str, model: DataModel) -> Result<String, AllocError> {
    let (word, text) = row.split_once(' ').unwrap_or((row, ""));
    match asked_of(word) {
        Some(asked) => texts::answer(alloc, text, asked, model),
        None => answer_of_part(alloc, word, text, model),
    }
}

/// The answer to a row on a part of a C text, or on another text than C.
fn answer_of_part(
    alloc: Global,
    word: &str,
    text: &str,
    model: DataModel,
) -> Result<String, AllocError> {
    match word {
        "type" => checks::expression_type(alloc, text, model),
        "start" => checks::declared_start(alloc, text, model),
        "words" => commands::answer(alloc, text),
        "config" => configs::answer(alloc, text),
        "comment" => configs::answer_behind_comment(alloc, text),
        "report" => reports::answer(alloc, text),
        _ => String::from_str(alloc, "no row"),
    }
}

/// Whether a line is a heading of rows, or nothing.
fn is_heading(line: &str) -> bool {
    line.is_empty() || line.starts_with("--")
}

/// Each row is answered from itself alone.
fn main(rt: HostRuntime) -> io::Result<()> {
    let alloc = rt.alloc();
    for line in BufReader::new(alloc, rt.reader())?.lines(alloc) {
        let line = line?;
        if is_heading(line.as_str()) {
            println!(rt; "{line}")?;
        } else {
            let found = answer(alloc, line.as_str())?;
            println!(rt; "{line} => {found}")?;
        }
    }
    Ok(())
}

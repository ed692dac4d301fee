//! What a row asks of a C text: its bytes, the line that is asked for, or the fault of the text. It
//! owes safety alone, proved by the checker alone.
ghost use Rattle.std.specs.Prelude.{◌≤◌, length};
ghost use Rattle.c_lexer.specs.declared.lexer.TheConstants.{MAX_TEXT};

use crate::{checks, places, programs, tokens, trees};
use c_lexer::{MAX_TEXT, TextError};
use cases_reader::{bytes_of, fault_line};
use cpa_ints::DataModel;
use std::alloc::{AllocError, Global};

/// What is asked of a text.
#[derive(Clone, Copy)]
pub(crate) enum Asked {
    Tokens,
    Tree,
    Soundness,
    /// The type of the last cell.
    Kept,
    /// The first cell.
    Start,
    Cells,
    Statements,
    Edges,
    Places,
}

/// What a row's word asks of its text, where it is one of these.
pub(crate) fn asked_of(word: &str) -> Option<Asked> {
    match word {
        "tokens" => Some(Asked::Tokens),
        "tree" => Some(Asked::Tree),
        "check" => Some(Asked::Soundness),
        "cells" => Some(Asked::Cells),
        "core" => Some(Asked::Statements),
        "edges" => Some(Asked::Edges),
        "places" => Some(Asked::Places),
        _ => None,
    }
}

/// What is asked of a written text in a data model, in a line; or why it is not answered.
pub(crate) fn answer(
    alloc: Global,
    row: &str,
    asked: Asked,
    model: DataModel,
) -> Result<String, AllocError> {
    match bytes_of(alloc, row)? {
        Some(text) => bounded(alloc, &text, asked, model),
        None => String::from_str(alloc, "no text"),
    }
}

/// The answer to a text of any length.
fn bounded(
    alloc: Global,
    text: &[u8],
    asked: Asked,
    model: DataModel,
) -> Result<String, AllocError> {
    if text.len() > MAX_TEXT {
        return String::from_str(alloc, "longer than a text may be");
    }
    match line_of(alloc, text, asked, model) {
        Ok(line) => Ok(line),
        Err(TextError::Fault(fault)) => fault_line(alloc, text, fault),
        Err(TextError::OutOfMemory) => Err(AllocError),
    }
}

/// The line of a text that is short enough. Its fault is handed on.
fn line_of(alloc: Global, text: &[u8], asked: Asked, model: DataModel) -> Result<String, TextError>
    requires { length text.now ≤ MAX_TEXT }
{
    match asked {
        Asked::Tokens => tokens::line(alloc, text, model),
        Asked::Tree => trees::line(alloc, text),
        Asked::Soundness => checks::soundness(alloc, text, model),
        Asked::Kept => checks::last_type(alloc, text, model),
        Asked::Start => checks::first_start(alloc, text, model),
        Asked::Cells => checks::cells(alloc, text, model),
        Asked::Statements => programs::statements(alloc, text, model),
        Asked::Edges => programs::edges(alloc, text, model),
        Asked::Places => places::line(alloc, text, model),
    }
}

//! Reads a statement: `block N ..`, `if YES NO : TEST`, `loop BODY STEP`,
//! `assign BASE LEN : INDEX : VALUE`, `input CELL`, `call F`, `goto N`, `leave`, `stop`, `error`.

use cases_reader::{RowFault, index_of_word, indices_of_words, whole_expr};
use cpa_ints::Boxed;
use cpa_model::Stmt;
use std::alloc::Global;

/// The statement that the words and parts spell.
pub(crate) fn stmt_of(alloc: Global, words: &[&str], parts: &[&str]) -> Result<Stmt, RowFault> {
    match (words, parts) {
        (["if", yes, no], [test]) => if_of(alloc, yes, no, test),
        (["assign", base, len], [index, value]) => assign_of(alloc, base, len, index, value),
        (words, []) => stmt_of_words(alloc, words),
        _ => Err(RowFault::Unreadable),
    }
}

/// A statement without expressions.
fn stmt_of_words(alloc: Global, words: &[&str]) -> Result<Stmt, RowFault> {
    match words {
        ["block", items @ ..] => block_of(alloc, items),
        ["loop", body, step] => loop_of(body, step),
        ["leave"] => Ok(Stmt::Leave),
        ["stop"] => Ok(Stmt::Stop),
        ["error"] => Ok(Stmt::Error),
        [word, number] => numbered_stmt(word, number),
        _ => Err(RowFault::Unreadable),
    }
}

/// `block N ..`.
fn block_of(alloc: Global, items: &[&str]) -> Result<Stmt, RowFault> {
    let items = indices_of_words(alloc, items)?;
    Ok(Stmt::Block { items })
}

/// `loop BODY STEP`.
fn loop_of(body: &str, step: &str) -> Result<Stmt, RowFault> {
    let body = index_of_word(body)?;
    let step = index_of_word(step)?;
    Ok(Stmt::Loop { body, step })
}

/// `if YES NO : TEST`.
fn if_of(alloc: Global, yes: &str, no: &str, test: &str) -> Result<Stmt, RowFault> {
    let yes = index_of_word(yes)?;
    let no = index_of_word(no)?;
    let test = whole_expr(alloc, test)?;
    Ok(Stmt::If { test, yes, no })
}

/// `assign BASE LEN : INDEX : VALUE`.
fn assign_of(
    alloc: Global,
    base: &str,
    len: &str,
    index: &str,
    value: &str,
) -> Result<Stmt, RowFault> {
    let base = index_of_word(base)?;
    let len = index_of_word(len)?;
    let index = Boxed::new(alloc, whole_expr(alloc, index)?)?;
    let value = whole_expr(alloc, value)?;
    Ok(Stmt::Assign {
        base,
        len,
        index: index.into_inner(),
        value,
    })
}

/// `input CELL`, `call FUNCTION` or `goto STATEMENT`.
fn numbered_stmt(word: &str, number: &str) -> Result<Stmt, RowFault> {
    let number = index_of_word(number)?;
    match word {
        "input" => Ok(Stmt::Input { cell: number }),
        "call" => Ok(Stmt::Call { function: number }),
        "goto" => Ok(Stmt::Goto { to: number }),
        _ => Err(RowFault::Unreadable),
    }
}

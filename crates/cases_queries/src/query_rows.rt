//! Rows on queries: what `decide` answers, and whether a model is one.
//! Proved safe by the checker alone.

use crate::queries::{ask, is_model, size};
use crate::search_rows;
use crate::words::types_of;
use cases_reader::{RowFault, index_of_word, push_number, whole_expr};
use cpa_expr::{Expr, Store};
use cpa_ints::Seq;
use cpa_query::Query;
use cpa_solver::Decided;
use std::alloc::{AllocError, Global};

/// What a row tells of its query.
#[derive(Clone, Copy)]
enum Told {
    /// `decide LEARNT TYPE .. : WANTED ..`: the outcome alone.
    Outcome,
    /// `solve LEARNT TYPE .. : WANTED ..`: the outcome, with the values of a model.
    Values,
    /// `measure LEARNT TYPE .. : WANTED ..`: how large the formula is, and the outcome.
    Size,
}

/// Adds the answer of a row on queries. All others are on searches, clauses and operators.
pub fn push_answer(
    alloc: Global,
    out: &mut String,
    words: &[&str],
    parts: &[&str],
) -> Result<(), RowFault> {
    match words {
        ["decide", learnt, types @ ..] => asked(alloc, out, Told::Outcome, learnt, types, parts),
        ["solve", learnt, types @ ..] => asked(alloc, out, Told::Values, learnt, types, parts),
        ["measure", learnt, types @ ..] => asked(alloc, out, Told::Size, learnt, types, parts),
        _ => search_rows::push_answer(alloc, out, words, parts),
    }
}

/// `LEARNT TYPE .. : WANTED ..`: what the row tells of the query.
fn asked(
    alloc: Global,
    out: &mut String,
    told: Told,
    learnt: &str,
    types: &[&str],
    wanted: &[&str],
) -> Result<(), RowFault> {
    let learnt = index_of_word(learnt)?;
    push_asked(alloc, out, told, learnt, &query_of(alloc, types, wanted)?)
}

/// The query of a row: the types of its cells, and each wanted expression behind a sign.
fn query_of(alloc: Global, types: &[&str], texts: &[&str]) -> Result<Query, RowFault> {
    let cells = types_of(alloc, types)?;
    let mut wanted = Seq::new(alloc);
    for text in texts {
        wanted.push(one_wanted(alloc, text)?)?;
    }
    Ok(Query { cells, wanted })
}

/// `+ E` or `- E`: an expression that is wanted true, or false.
fn one_wanted(alloc: Global, text: &str) -> Result<(Expr, bool), RowFault> {
    let (text, holds) = match text.trim().split_once(' ') {
        Some(("+", text)) => (text, true),
        Some(("-", text)) => (text, false),
        _ => return Err(RowFault::Unreadable),
    };
    Ok((whole_expr(alloc, text)?, holds))
}

/// What a row tells of a query.
fn push_asked(
    alloc: Global,
    out: &mut String,
    told: Told,
    learnt: u32,
    query: &Query,
) -> Result<(), RowFault> {
    if let Told::Size = told {
        push_size(alloc, out, query)?;
    }
    Ok(push_decided(out, told, query, &ask(alloc, query, learnt)?)?)
}

/// How many variables and clauses the query's formula has.
fn push_size(alloc: Global, out: &mut String, query: &Query) -> Result<(), RowFault> {
    let (vars, clauses) = size(alloc, query)?;
    write!(out, " {vars} {clauses}")?;
    Ok(())
}

/// Appends the outcome; a model is looked at again.
fn push_decided(
    out: &mut String,
    told: Told,
    query: &Query,
    decided: &Decided,
) -> Result<(), AllocError> {
    match decided {
        Decided::Model(store) => {
            let is_right = is_model(query, store);
            out.push_str(if is_right { " model" } else { " wrong" })?;
            push_values(out, told, store)
        }
        Decided::NoModel(_) => out.push_str(" none"),
        Decided::Learnt(lines) => {
            let count = lines.len();
            write!(out, " learnt {count}")
        }
    }
}

/// Appends the value of each cell, where the row tells them.
fn push_values(out: &mut String, told: Told, store: &Store) -> Result<(), AllocError> {
    if let Told::Values = told {
        for number in &store.values {
            push_number(out, *number)?;
        }
    }
    Ok(())
}

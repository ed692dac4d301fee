//! Queries, asked where they meet the condition of `decide`, and models that are looked at again.
//! Proved safe by the checker alone.

use cases_reader::{RowFault, is_query};
use cpa_blast::blast;
use cpa_expr::{Expr, Store, is_nonzero, value};
use cpa_ints::Seq;
use cpa_query::Query;
use cpa_solver::{Decided, decide};
use std::alloc::Global;

/// What is found out of the query.
pub fn ask(alloc: Global, query: &Query, learnt: u32) -> Result<Decided, RowFault> {
    if is_query(query) {
        Ok(decide(alloc, query, learnt)?)
    } else {
        Err(RowFault::Unreadable)
    }
}

/// How many variables and clauses the query's formula has.
pub fn size(alloc: Global, query: &Query) -> Result<(u32, usize), RowFault> {
    if is_query(query) {
        let made = blast(alloc, query)?;
        Ok((made.0.vars, made.0.clauses.len()))
    } else {
        Err(RowFault::Unreadable)
    }
}

/// Whether the expression has a value on the store, which is nonzero where it is to be.
fn has_truth(e: &Expr, holds: bool, store: &Store) -> bool {
    match value(e, store) {
        Some(number) => is_nonzero(number) == holds,
        None => false,
    }
}

/// Whether the store is a model of the query.
pub fn is_model(query: &Query, store: &Store) -> bool {
    let values: &Seq<i128> = &store.values;
    if values.len() != query.cells.len() {
        return false;
    }
    for i in 0..values.len() {
        if !in_range(query, store, i) {
            return false;
        }
    }
    for one in &query.wanted {
        if !has_truth(&one.0, one.1, store) {
            return false;
        }
    }
    true
}

/// Whether the value of a cell lies in the range of its type.
fn in_range(query: &Query, store: &Store, cell: usize) -> bool {
    match (query.cells.get(cell), store.values.get(cell)) {
        (Some(ty), Some(number)) => ty.contains(*number),
        _ => false,
    }
}

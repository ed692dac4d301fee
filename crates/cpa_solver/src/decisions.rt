//! Decides a query, as specs/Decisions says; why the answer is right is proved in
//! proofs/decisions.

ghost use Rattle.std.specs.Prelude.{◌≡◌, ◌<◌, ◌^◌, length, IfOk};
ghost use Rattle.cpa_cnf.specs.Models.{IsModel as IsTruth};
ghost use Rattle.cpa_query.specs.Queries.{IsQuery, IsModel};
ghost use Rattle.cpa_sat.specs.Outcomes.{IsFound, IsRefutedWithin};
ghost use Rattle.cpa_blast.specs.Formulas.{formula, first_bits};
ghost use Rattle.cpa_solver.specs.Decisions.{IsDecided};

use crate::stores::store_at;
use cpa_blast::{blast, formulas_are_queries};
use cpa_cnf::{Line, a_refuted_formula_has_no_model};
use cpa_expr::Store;
use cpa_query::Query;
use cpa_sat::{Found, search};
use std::alloc::{AllocError, Global};

/// What was found out of a query.
#[derive(Drop)]
pub enum Decided {
    /// A store on which each wanted expression has its wanted truth.
    Model(Store),
    /// There is none: the lines of a refutation of the query's formula.
    NoModel(Vec<Line>),
    /// All lines that were allowed, without a decision.
    Learnt(Vec<Line>),
}

/// Looks for a model of the query, and writes at most `learnt` lines on the way.
pub fn decide(alloc: Global, query: &Query, learnt: u32) -> Result<Decided, AllocError>
    requires { IsQuery query.now }
    ensures { IfOk result (IsDecided query.now learnt) }
{
    let made = blast(alloc, query)?;
    let found = search(alloc, &made.0, learnt)?;
    conclude(alloc, query, learnt, made.1.first.as_slice(), found)
}

/// What the outcome of the search says of the query.
fn conclude(
    alloc: Global,
    query: &Query,
    learnt: u32,
    first: &[u32],
    found: Found,
) -> Result<Decided, AllocError>
    requires asked { IsQuery query.now }
    requires first { first.now ≡ first_bits query.now }
    requires long { length first.now ≡ length query.now.cells }
    requires found { IsFound (formula query.now) learnt found }
    ensures { IfOk result (IsDecided query.now learnt) }
{
    match found {
        Found::Model(truths) => {
            let store = modelled(alloc, query, first, truths.as_slice())?;
            Ok(Decided::Model(store))
        }
        Found::Refuted(lines) => Ok(refuted(query, learnt, lines)),
        Found::Spent(lines) => Ok(Decided::Learnt(lines)),
    }
}

/// A list in memory has fewer than 2^64 items.
fn has_few_cells(query: &Query)
    ensures { length query.now.cells < 2 ^ 64 }
{
    let _cells = query.cells.len();
}

/// The model of the query that a model of its formula gives.
fn modelled(
    alloc: Global,
    query: &Query,
    first: &[u32],
    truths: &[bool],
) -> Result<Store, AllocError>
    requires asked { IsQuery query.now }
    requires first { first.now ≡ first_bits query.now }
    requires long { length first.now ≡ length query.now.cells }
    requires truth { IsTruth (formula query.now) truths.now }
    ensures { IfOk result (λ store. IsModel query.now store.values) }
{
    formulas_are_queries();
    has_few_cells(query);
    let store = store_at(alloc, query.cells.as_slice(), first, truths)?;
    Ok(store)
}

/// The refutation of the query's formula, after which the query has no model.
fn refuted(query: &Query, learnt: u32, lines: Vec<Line>) -> Decided
    requires asked { IsQuery query.now }
    requires found { IsRefutedWithin (formula query.now) learnt lines.items }
    ensures { IsDecided query.now learnt result }
{
    formulas_are_queries();
    a_refuted_formula_has_no_model();
    has_few_cells(query);
    let _allowed = learnt;
    Decided::NoModel(lines)
}

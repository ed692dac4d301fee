//! Queries put to the solver within budgets, by `IsAsked` of specs/Words.

ghost use Rattle.std.specs.Prelude.{IfOk};
ghost use Rattle.cpa_query.specs.Queries.{IsQuery};
ghost use Rattle.cpa_interpolant_words.specs.Words.{IsAsked};

use cpa_edgeform::EdgeForm;
use cpa_expr::Store;
use cpa_solver::{Decided, decide};
use std::alloc::{AllocError, Global};

/// What a question may cost.
#[derive(Clone, Copy)]
pub(crate) struct Limits {
    /// The most lines that a search may learn.
    pub(crate) learnt: u32,
    /// The most that a query may weigh.
    pub(crate) gates: u64,
}

/// What is known of a query.
#[derive(Drop)]
pub(crate) enum Asked {
    /// It has no model.
    Never,
    /// This store is a model.
    Sometimes(Store),
    /// It was not decided within the limits.
    Open,
}

/// Asks for a model of the form's query.
pub(crate) fn ask(alloc: Global, form: &EdgeForm, limits: Limits) -> Result<Asked, AllocError>
    requires { IsQuery form.now.query }
    ensures { IfOk result (IsAsked form.now.query) }
{
    if limits.gates < form.weight() {
        return Ok(Asked::Open);
    }
    let query = form.query()?;
    let decided = decide(alloc, &query, limits.learnt)?;
    match decided {
        Decided::Model(store) => Ok(Asked::Sometimes(store)),
        Decided::NoModel(_) => Ok(Asked::Never),
        Decided::Learnt(_) => Ok(Asked::Open),
    }
}

//! What holds behind all runs along edges, from any store. Proved with `proofs/Steps.antt`.

ghost use Rattle.std.specs.Prelude.{◌<◌, length};
ghost use Rattle.std.specs.List.{AllByRecursion};
ghost use Rattle.cpa_model.specs.Automata.{IsAutomaton};

use crate::asking::{Asked, Limits, ask};
use crate::checking::nonzero;
use crate::forms::part_behind;
use crate::nodes::conjunction;
use cpa_expr::{Expr, Store, is_nonzero, value};
use cpa_form_rules::{adding_goes_on, forms_are_runs};
use cpa_model::{Cfa, edges_are_sound, is_expr, steps_keep_states};
use std::alloc::{AllocError, Global};

/// The most runs that are looked at to find out which expressions hold.
const MAX_RUNS: u32 = 40;

/// What is known of an expression behind all runs.
#[derive(Drop)]
pub(crate) enum Known {
    /// It is nonzero.
    Always,
    /// It is not behind a run that ends in this store.
    Unless(Store),
    /// Nothing within the limits.
    Open,
}

/// What is known of the expression behind all runs along the edges, from any store.
pub(crate) fn behind(
    alloc: Global,
    cfa: &Cfa,
    edges: &[u32],
    e: &Expr,
    limits: Limits,
) -> Result<Known, AllocError>
    requires automaton { IsAutomaton cfa.now }
    requires path { AllByRecursion (λ edge. edge < length cfa.now.edges) edges.now }
{
    if !is_expr(e, cfa.cells.as_slice()) {
        return Ok(Known::Open);
    }
    forms_are_runs();
    adding_goes_on();
    edges_are_sound();
    steps_keep_states();
    let failing = nonzero(alloc, e)?;
    let mut form = part_behind(alloc, cfa, edges)?;
    form.fails_now(&failing)?;
    let asked = ask(alloc, &form, limits)?;
    match asked {
        Asked::Never => Ok(Known::Always),
        Asked::Sometimes(store) => {
            let stores = form.stores_of(&store)?;
            Ok(Known::Unless(stores.1))
        }
        Asked::Open => Ok(Known::Open),
    }
}

/// Whether the expression is nonzero on the store.
fn is_nonzero_on(e: &Expr, store: &Store) -> bool {
    match value(e, store) {
        Some(value) => is_nonzero(value),
        None => false,
    }
}

/// Leaves those that are nonzero on the store.
fn keep_nonzero(es: &mut Vec<Expr>, store: &Store) {
    es.retain(|e| is_nonzero_on(e, store));
}

/// Those of the expressions that are found to be nonzero behind all runs along the edges: each run
/// behind which one is not throws out all that are not there.
pub(crate) fn holding(
    alloc: Global,
    cfa: &Cfa,
    edges: &[u32],
    es: Vec<Expr>,
    limits: Limits,
) -> Result<Vec<Expr>, AllocError>
    requires automaton { IsAutomaton cfa.now }
    requires path { AllByRecursion (λ edge. edge < length cfa.now.edges) edges.now }
{
    let mut left = es;
    for _ in 0..MAX_RUNS {
        if left.is_empty() {
            return Ok(left);
        }
        let all = conjunction(alloc, &left)?;
        let known = behind(alloc, cfa, edges, all.get(), limits)?;
        match known {
            Known::Always => return Ok(left),
            Known::Unless(store) => keep_nonzero(&mut left, &store),
            Known::Open => return Ok(Vec::new(alloc)),
        }
    }
    Ok(Vec::new(alloc))
}

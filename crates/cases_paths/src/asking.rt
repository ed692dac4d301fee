//! Queries of forms, asked where they meet the condition of `decide`, and models as runs.
//! Proved safe by the checker alone.

use crate::additions::Addition;
use crate::runs::{Run, begins};
use crate::told::Told;
use cases_reader::{RowFault, is_query, push_number, push_word};
use cpa_edgeform::EdgeForm;
use cpa_expr::Store;
use cpa_model::Cfa;
use cpa_solver::{Decided, decide};
use std::alloc::{AllocError, Global};

/// What a row asks of a form.
#[derive(Drop)]
pub struct Question<'a> {
    /// The first store is the initial one, and else any.
    pub from_initial: bool,
    pub additions: &'a [Addition],
    /// The most lines that may be learnt.
    pub learnt: u32,
    /// The stores and inputs of a run are told where there is one alone.
    pub told: Told,
}

/// Adds what is found out of the form's query.
pub fn push_asked(
    alloc: Global,
    out: &mut String,
    cfa: &Cfa,
    form: &EdgeForm,
    question: &Question<'_>,
) -> Result<(), RowFault> {
    let learnt = question.learnt;
    let pushed = push_decided(alloc, out, cfa, form, question, &ask(alloc, form, learnt)?);
    Ok(pushed?)
}

/// What is found out of the form's query.
fn ask(alloc: Global, form: &EdgeForm, learnt: u32) -> Result<Decided, RowFault> {
    let query = form.query()?;
    if !is_query(&query) {
        return Err(RowFault::Unreadable);
    }
    Ok(decide(alloc, &query, learnt)?)
}

/// The outcome: a model is followed as a run.
fn push_decided(
    alloc: Global,
    out: &mut String,
    cfa: &Cfa,
    form: &EdgeForm,
    question: &Question<'_>,
    decided: &Decided,
) -> Result<(), AllocError> {
    match decided {
        Decided::Model(model) => push_run(alloc, out, cfa, form, question, model),
        Decided::NoModel(_) => push_word(out, "none"),
        Decided::Learnt(lines) => {
            let count = lines.len();
            write!(out, " learnt {count}")
        }
    }
}

/// What a model says of a run.
#[derive(Drop)]
struct Said {
    first: Store,
    inputs: Vec<i128>,
    last: Store,
}

/// What the model says of a run of the form.
fn said_of(form: &EdgeForm, model: &Store) -> Result<Said, AllocError> {
    let inputs = form.inputs_of(model)?;
    let (first, last) = form.stores_of(model)?;
    Ok(Said {
        first,
        inputs,
        last,
    })
}

/// Adds `run`, or `wrong` where the model is none that meets the beginning and what was added.
fn push_run(
    alloc: Global,
    out: &mut String,
    cfa: &Cfa,
    form: &EdgeForm,
    question: &Question<'_>,
    model: &Store,
) -> Result<(), AllocError> {
    let said = said_of(form, model)?;
    if let Told::All = question.told {
        push_said(out, &said)?;
    }
    let is_right = stand(form, model, &said.last) && is_run(alloc, cfa, question, said);
    push_word(out, if is_right { "run" } else { "wrong" })
}

/// The first store, the inputs and the last store.
fn push_said(out: &mut String, said: &Said) -> Result<(), AllocError> {
    push_values(out, "from", said.first.values.as_slice())?;
    push_values(out, "inputs", &said.inputs)?;
    push_values(out, "to", said.last.values.as_slice())
}

/// A word, and numbers behind it.
fn push_values(out: &mut String, word: &str, values: &[i128]) -> Result<(), AllocError> {
    push_word(out, word)?;
    for v in values {
        push_number(out, *v)?;
    }
    Ok(())
}

/// Whether the cell at each place has the value in the last store.
fn stand(form: &EdgeForm, model: &Store, last: &Store) -> bool {
    for cell in 0..last.values.len() {
        if cell > u32::MAX as usize {
            return false;
        }
        let place = form.place_now(cell as u32);
        if model.values.get(place as usize) != last.values.get(cell) {
            return false;
        }
    }
    true
}

/// Whether it is a run that meets the beginning and what was added.
fn is_run(alloc: Global, cfa: &Cfa, question: &Question<'_>, said: Said) -> bool {
    let Said {
        first,
        inputs,
        last,
    } = said;
    if !begins(cfa, question.from_initial, &first) {
        return false;
    }
    let mut run = Run {
        alloc,
        store: first,
        inputs: &inputs,
    };
    run.meets(cfa, question.additions) && run.inputs.is_empty() && run.store.values == last.values
}

//! Rows on edges and elements as queries: what `decide` of `cpa_solver` answers the query of
//! `cpa_edgeform`, and what the form has. Proved safe by the checker alone.

ghost use Rattle.cpa_model.specs.Automata.{IsAutomaton};

use crate::additions::{Addition, add, addition_of};
use crate::asking::{Question, push_asked};
use crate::path_rows;
use crate::told::Told;
use cases_reader::{RowFault, index_of_word, push_number};
use cpa_edgeform::EdgeForm;
use cpa_model::Cfa;
use std::alloc::{AllocError, Global};
use std::thread::Threads;

/// Adds the answer of a row on edges. All others are on paths.
pub fn push_answer<R: Threads + Sync>(
    rt: &R,
    alloc: Global,
    out: &mut String,
    cfa: &Cfa,
    words: &[&str],
    parts: &[&str],
) -> Result<(), RowFault>
    requires { IsAutomaton cfa.now }
{
    match words {
        ["run", from, learnt] => run(alloc, out, cfa, Told::Outcome, from, learnt, parts),
        ["only", from, learnt] => run(alloc, out, cfa, Told::All, from, learnt, parts),
        ["places", from, cell] => places(alloc, out, cfa, from, cell, parts),
        ["weight", from] => weight(alloc, out, cfa, from, parts),
        ["size", from] => size(alloc, out, cfa, from, parts),
        _ => path_rows::push_answer(rt, alloc, out, cfa, words, parts),
    }
}

/// Whether a form begins at the initial store, and else at any store.
fn is_initial(word: &str) -> Result<bool, RowFault> {
    match word {
        "initial" => Ok(true),
        "any" => Ok(false),
        _ => Err(RowFault::Unreadable),
    }
}

/// What the parts of a row add.
fn additions_of(alloc: Global, parts: &[&str]) -> Result<Vec<Addition>, RowFault> {
    let mut additions = Vec::new(alloc);
    for part in parts {
        additions.push(addition_of(alloc, part)?)?;
    }
    Ok(additions)
}

/// The form that begins so, to which this is added from left to right.
fn form_of(
    alloc: Global,
    cfa: &Cfa,
    from_initial: bool,
    additions: &[Addition],
) -> Result<EdgeForm, RowFault> {
    let mut form = EdgeForm::begin(alloc, cfa, from_initial)?;
    for addition in additions {
        add(&mut form, cfa, addition)?;
    }
    Ok(form)
}

/// `run BEGINNING LEARNT : ADDITION : ..`, or `only` in the place of `run`: whether there is a run.
fn run(
    alloc: Global,
    out: &mut String,
    cfa: &Cfa,
    told: Told,
    from: &str,
    learnt: &str,
    parts: &[&str],
) -> Result<(), RowFault> {
    let from_initial = is_initial(from)?;
    let learnt = index_of_word(learnt)?;
    let additions = additions_of(alloc, parts)?;
    let question = Question {
        from_initial,
        additions: &additions,
        learnt,
        told,
    };
    push_run(alloc, out, cfa, &question)
}

/// Adds what a copy of the form is answered.
fn push_run(
    alloc: Global,
    out: &mut String,
    cfa: &Cfa,
    question: &Question<'_>,
) -> Result<(), RowFault> {
    let form = form_of(alloc, cfa, question.from_initial, question.additions)?;
    push_asked(alloc, out, cfa, &form.copy()?, question)
}

/// `places BEGINNING CELL : ADDITION : ..`: where the cell stands at the beginning, and after each
/// part.
fn places(
    alloc: Global,
    out: &mut String,
    cfa: &Cfa,
    from: &str,
    cell: &str,
    parts: &[&str],
) -> Result<(), RowFault> {
    let from_initial = is_initial(from)?;
    let cell = index_of_word(cell)?;
    if cell as usize >= cfa.cells.len() {
        return Err(RowFault::Unreadable);
    }
    let mut form = EdgeForm::begin(alloc, cfa, from_initial)?;
    push_places(alloc, out, cfa, &mut form, cell, parts)
}

/// Adds where the cell stands in the form, and after each part that is added.
fn push_places(
    alloc: Global,
    out: &mut String,
    cfa: &Cfa,
    form: &mut EdgeForm,
    cell: u32,
    parts: &[&str],
) -> Result<(), RowFault> {
    push_place(out, form, cell)?;
    for part in parts {
        add(form, cfa, &addition_of(alloc, part)?)?;
        push_place(out, form, cell)?;
    }
    Ok(())
}

/// The number of the cell of the query at which a cell of the automaton stands now.
fn push_place(out: &mut String, form: &EdgeForm, cell: u32) -> Result<(), AllocError> {
    let place = form.place_now(cell);
    write!(out, " {place}")
}

/// The form of a row: its beginning, and what its parts add.
fn whole_form(alloc: Global, cfa: &Cfa, from: &str, parts: &[&str]) -> Result<EdgeForm, RowFault> {
    let from_initial = is_initial(from)?;
    form_of(alloc, cfa, from_initial, &additions_of(alloc, parts)?)
}

/// `weight BEGINNING : ADDITION : ..`.
fn weight(
    alloc: Global,
    out: &mut String,
    cfa: &Cfa,
    from: &str,
    parts: &[&str],
) -> Result<(), RowFault> {
    let weight = whole_form(alloc, cfa, from, parts)?.weight();
    Ok(push_number(out, weight as i128)?)
}

/// `size BEGINNING : ADDITION : ..`: the numbers of the query's cells and wanted expressions.
fn size(
    alloc: Global,
    out: &mut String,
    cfa: &Cfa,
    from: &str,
    parts: &[&str],
) -> Result<(), RowFault> {
    Ok(push_size(out, &whole_form(alloc, cfa, from, parts)?)?)
}

/// The numbers of the query's cells and wanted expressions.
fn push_size(out: &mut String, form: &EdgeForm) -> Result<(), AllocError> {
    let query = form.query()?;
    let cells = query.cells.len();
    let wanted = query.wanted.len();
    write!(out, " {cells} {wanted}")
}

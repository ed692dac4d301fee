//! Rows on elements and states: what `holds`, `has_facts` and `copy_elem` of `cpa_model` answer.
//! Proved safe by the checker alone.

use crate::numbers::numbers_of;
use crate::replay_rows;
use cases_programs::{Table, elem_of};
use cases_reader::{RowFault, index_of_word, indices_of, push_word, words_of, yes_or_no};
use cpa_model::{Elem, Spell, State, Store, copy_elem, has_facts, holds};
use std::alloc::{AllocError, Global};
use std::thread::Threads;

/// Adds the answer of a row on elements and states alone. All others are on the program.
pub fn push_answer<R: Threads + Sync>(
    rt: &R,
    alloc: Global,
    out: &mut String,
    table: &Table,
    words: &[&str],
    parts: &[&str],
) -> Result<(), RowFault> {
    match (words, parts) {
        (["holds", point], [sites, values, elem]) => {
            push_holds(alloc, out, &state_of(alloc, point, sites, values)?, elem)
        }
        (["has_facts"], [elem, other]) => push_has_facts(alloc, out, elem, other),
        (["copy"], [elem]) => Ok(push_copy(out, &elem_of(alloc, elem)?)?),
        _ => replay_rows::push_answer(rt, alloc, out, table, words, parts),
    }
}

/// The state of a point, the sites of its stack from the bottom to the top, and the values of its
/// cells.
fn state_of(alloc: Global, point: &str, sites: &str, values: &str) -> Result<State, RowFault> {
    let point = index_of_word(point)?;
    let stack = indices_of(alloc, sites)?;
    let values = numbers_of(alloc, &words_of(alloc, values)?)?;
    Ok(State {
        point,
        stack,
        store: Store { values },
    })
}

/// `holds POINT : SITE .. : VALUE .. : ELEMENT`: whether the element holds of the state that the
/// first three parts give.
fn push_holds(alloc: Global, out: &mut String, state: &State, elem: &str) -> Result<(), RowFault> {
    let does_hold = holds(&elem_of(alloc, elem)?, state);
    Ok(push_word(out, yes_or_no(does_hold))?)
}

/// `has_facts : ELEMENT : OTHER`: whether each fact of the other one stands in the element.
fn push_has_facts(
    alloc: Global,
    out: &mut String,
    elem: &str,
    other: &str,
) -> Result<(), RowFault> {
    let elem = elem_of(alloc, elem)?;
    let has_all = has_facts(&elem, &elem_of(alloc, other)?);
    Ok(push_word(out, yes_or_no(has_all))?)
}

/// `copy : ELEMENT`: how a copy of the element is spelled in reports.
fn push_copy(out: &mut String, elem: &Elem) -> Result<(), AllocError> {
    out.push_str(" ")?;
    copy_elem(elem)?.spell(out)
}

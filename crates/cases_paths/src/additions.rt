//! What a row adds to a form: edges that are taken, an element that holds, elements that fail. Each
//! is tested before it is added. Proved safe by the checker alone.

use cases_programs::{are_elems, elem_of};
use cases_reader::{RowFault, indices_of};
use cpa_edgeform::EdgeForm;
use cpa_model::{Cfa, Elem, Seq, is_elem};
use std::alloc::Global;

/// One part of a row.
#[derive(Drop)]
pub enum Addition {
    /// These edges are taken, in order.
    Taken(Seq<u32>),
    Holding(Elem),
    /// Of each element some fact fails.
    Failing(Vec<Elem>),
}

/// `take EDGE ..`, `holds FACT, ..` or `fails FACT, .. ; FACT, .. ; ..`. Whether edges are there
/// and facts fit is tested when they are added.
pub fn addition_of(alloc: Global, text: &str) -> Result<Addition, RowFault> {
    let text = text.trim();
    let (word, rest) = text.split_once(' ').unwrap_or((text, ""));
    match word {
        "take" => Ok(Addition::Taken(indices_of(alloc, rest)?)),
        "holds" => Ok(Addition::Holding(elem_of(alloc, rest)?)),
        "fails" => Ok(Addition::Failing(failing(alloc, rest)?)),
        _ => Err(RowFault::Unreadable),
    }
}

/// Elements with semicolons between them; none where no words stand.
fn failing(alloc: Global, text: &str) -> Result<Vec<Elem>, RowFault> {
    let mut elems = Vec::new(alloc);
    if text.is_empty() {
        return Ok(elems);
    }
    for part in text.split(';') {
        elems.push(elem_of(alloc, part)?)?;
    }
    Ok(elems)
}

/// Adds it to the form, where it fits the automaton.
pub fn add(form: &mut EdgeForm, cfa: &Cfa, addition: &Addition) -> Result<(), RowFault> {
    match addition {
        Addition::Taken(edges) => take(form, cfa, edges.as_slice()),
        Addition::Holding(elem) => hold(form, cfa, elem),
        Addition::Failing(elems) => fail(form, cfa, elems),
    }
}

/// Takes edges, which are to be there.
fn take(form: &mut EdgeForm, cfa: &Cfa, edges: &[u32]) -> Result<(), RowFault> {
    for edge in edges {
        if *edge as usize >= cfa.edges.len() {
            return Err(RowFault::Unreadable);
        }
        form.take_edge(cfa, *edge)?;
    }
    Ok(())
}

/// An element holds now, whose facts are to fit the automaton.
fn hold(form: &mut EdgeForm, cfa: &Cfa, elem: &Elem) -> Result<(), RowFault> {
    if !is_elem(elem, cfa) {
        return Err(RowFault::Unreadable);
    }
    Ok(form.holds_now(elem)?)
}

/// Of each element some fact fails now. All facts are to fit the automaton.
fn fail(form: &mut EdgeForm, cfa: &Cfa, elems: &[Elem]) -> Result<(), RowFault> {
    if !are_elems(elems, cfa) {
        return Err(RowFault::Unreadable);
    }
    Ok(form.fails_now(elems)?)
}

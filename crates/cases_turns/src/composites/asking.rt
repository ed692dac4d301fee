//! Calls of a composite, and their answers as text. What a call asks of its arguments is tested
//! before it, which is shown with `proofs/composites/asking/`.

ghost use Rattle.std.specs.Prelude.{◌≡◌, ◌<◌, IsTrue, length};
ghost use Rattle.cpa_model.specs.Automata.{IsAutomaton};
ghost use Rattle.cpa_composite.specs.Components.{AreElems, ArePrecisions};
ghost use Rattle.cpa_composite.specs.Composites.{components};

use crate::composites::analysing::push_analysis;
use crate::composites::exploring::explore;
use crate::composites::questions::{Call, Question};
use cases_programs::{are_elems, are_precisions, is_path};
use cases_reader::{RowFault, yes_or_no};
use cpa_composite::Composite;
use cpa_iface::{Analysis, Precision, Settings};
use cpa_model::{Cfa, Elem, Path, push_list};
use std::alloc::{AllocError, Global};

/// Whether so many elements are shaped.
fn fit(elems: &[Elem], count: usize, cfa: &Cfa) -> bool
    ensures { IsTrue result → AreElems cfa.now count elems.now }
{
    elems.len() == count && are_elems(elems, cfa)
}

/// Whether so many precisions fit.
fn precisions_fit(precisions: &[Precision], count: usize, cfa: &Cfa) -> bool
    ensures { IsTrue result → ArePrecisions cfa.now count precisions.now }
{
    precisions.len() == count && are_precisions(precisions, cfa)
}

/// Adds the answer of a call, to a composite of so many components.
pub fn push_called<A: Analysis>(
    alloc: Global,
    out: &mut String,
    composite: &mut Composite<A>,
    count: usize,
    cfa: &Cfa,
    precisions: &[Precision],
    question: &Question,
) -> Result<(), RowFault>
    requires automaton { IsAutomaton cfa.now }
    requires size { length (components composite.old) ≡ count }
{
    match &question.call {
        Call::Initial { settings } => Ok(push_initial(alloc, out, composite, cfa, settings)?),
        Call::Explore {
            order,
            settings,
            turns,
        } => Ok(explore(alloc, out, composite, cfa, settings, *order, *turns)?),
        Call::Analyse { search, is_whole } => {
            push_analysis(alloc, out, composite, cfa, search, *is_whole)
        }
        _ => {
            if !precisions_fit(precisions, count, cfa) {
                return Err(RowFault::Unreadable);
            }
            push_at(alloc, out, composite, count, cfa, precisions, question)
        }
    }
}

/// Adds the answer of a call that takes elements or precisions.
fn push_at<A: Analysis>(
    alloc: Global,
    out: &mut String,
    composite: &mut Composite<A>,
    count: usize,
    cfa: &Cfa,
    precisions: &[Precision],
    question: &Question,
) -> Result<(), RowFault>
    requires automaton { IsAutomaton cfa.now }
    requires size { length (components composite.old) ≡ count }
    requires precisions { ArePrecisions cfa.now (length (components composite.old))
        precisions.now }
{
    let elems = question.elems.as_slice();
    match &question.call {
        Call::Successors { edge, times } => {
            if cfa.edges.len() <= *edge as usize || !fit(elems, count, cfa) {
                return Err(RowFault::Unreadable);
            }
            Ok(push_successors(alloc, out, composite, cfa, precisions, *edge, *times, elems)?)
        }
        Call::Merge => push_merge(alloc, out, composite, count, cfa, precisions, elems),
        Call::Covered => push_covered(out, composite, count, elems),
        Call::Adjust => push_adjust(alloc, out, composite, count, cfa, precisions, elems),
        Call::Refine => push_refine(alloc, out, composite, cfa, precisions, &question.path),
        Call::Initial { .. } | Call::Explore { .. } | Call::Analyse { .. } => {
            Err(RowFault::Unreadable)
        }
    }
}

/// `initial`: the elements and the first precisions, one of each for each component.
fn push_initial<A: Analysis>(
    alloc: Global,
    out: &mut String,
    composite: &mut Composite<A>,
    cfa: &Cfa,
    settings: &Settings,
) -> Result<(), AllocError>
    requires { IsAutomaton cfa.now }
{
    let first = composite.initial(alloc, cfa, settings)?;
    push_row(out, &first.0, &first.1)
}

/// The elements, and behind them the precisions.
fn push_row(out: &mut String, elems: &[Elem], precisions: &[Precision]) -> Result<(), AllocError> {
    push_list(out, elems)?;
    push_precisions(out, precisions)
}

/// `, limit LIMIT tracked [CELL,..]` for each. They are told without their predicates.
fn push_precisions(out: &mut String, precisions: &[Precision]) -> Result<(), AllocError> {
    for precision in precisions {
        let limit = precision.limit;
        write!(out, ", limit {limit} tracked ")?;
        push_list(out, precision.tracked.as_slice())?;
    }
    Ok(())
}

/// The call so many times, a semicolon between two answers.
fn push_successors<A: Analysis>(
    alloc: Global,
    out: &mut String,
    composite: &mut Composite<A>,
    cfa: &Cfa,
    precisions: &[Precision],
    edge: u32,
    times: u32,
    elems: &[Elem],
) -> Result<(), AllocError>
    requires automaton { IsAutomaton cfa.now }
    requires edge { edge < length cfa.now.edges }
    requires elems { AreElems cfa.now (length (components composite.old)) elems.now }
    requires precisions { ArePrecisions cfa.now (length (components composite.old))
        precisions.now }
{
    for time in 0..times {
        if 0 < time {
            out.push_str("; ")?;
        }
        push_once(alloc, out, composite, cfa, precisions, edge, elems)?;
    }
    Ok(())
}

/// The rows of one call. Want of memory is an answer, too: some analyses refuse a call.
fn push_once<A: Analysis>(
    alloc: Global,
    out: &mut String,
    composite: &mut Composite<A>,
    cfa: &Cfa,
    precisions: &[Precision],
    edge: u32,
    elems: &[Elem],
) -> Result<(), AllocError>
    requires automaton { IsAutomaton cfa.now }
    requires edge { edge < length cfa.now.edges }
    requires elems { AreElems cfa.now (length (components composite.old)) elems.now }
    requires precisions { ArePrecisions cfa.now (length (components composite.old))
        precisions.now }
    ensures kept { components composite.new ≡ components composite.old }
{
    match composite.successors(alloc, cfa, edge, elems, precisions) {
        Ok(rows) => push_rows(out, rows.as_slice()),
        Err(AllocError) => out.push_str("no memory"),
    }
}

/// Each row, a comma between two; `none` where there is none.
fn push_rows(out: &mut String, rows: &[Vec<Elem>]) -> Result<(), AllocError> {
    if rows.is_empty() {
        out.push_str("none")?;
    }
    let mut is_first = true;
    for row in rows {
        if !is_first {
            out.push_str(", ")?;
        }
        push_list(out, row.as_slice())?;
        is_first = false;
    }
    Ok(())
}

/// `merge`: the merged elements; `none` where the old ones stay.
fn push_merge<A: Analysis>(
    alloc: Global,
    out: &mut String,
    composite: &mut Composite<A>,
    count: usize,
    cfa: &Cfa,
    precisions: &[Precision],
    elems: &[Elem],
) -> Result<(), RowFault>
    requires automaton { IsAutomaton cfa.now }
    requires size { length (components composite.old) ≡ count }
    requires precisions { ArePrecisions cfa.now (length (components composite.old))
        precisions.now }
{
    let Some((new, old)) = elems.split_at_checked(count) else {
        return Err(RowFault::Unreadable);
    };
    if !fit(new, count, cfa) || !fit(old, count, cfa) {
        return Err(RowFault::Unreadable);
    }
    Ok(push_perhaps(out, &composite.merge(alloc, cfa, new, old, precisions)?)?)
}

/// The elements; `none` where there are none.
fn push_perhaps(out: &mut String, elems: &Option<Vec<Elem>>) -> Result<(), AllocError> {
    match elems {
        Some(elems) => push_list(out, elems.as_slice()),
        None => out.push_str("none"),
    }
}

/// `covered`: whether the second elements cover the first ones, which any may be.
fn push_covered<A: Analysis>(
    out: &mut String,
    composite: &Composite<A>,
    count: usize,
    elems: &[Elem],
) -> Result<(), RowFault> {
    let Some((elems, other)) = elems.split_at_checked(count) else {
        return Err(RowFault::Unreadable);
    };
    Ok(out.push_str(yes_or_no(composite.covered_by(elems, other)))?)
}

/// `adjust`: the elements and precisions after it, with no entry reached.
fn push_adjust<A: Analysis>(
    alloc: Global,
    out: &mut String,
    composite: &mut Composite<A>,
    count: usize,
    cfa: &Cfa,
    precisions: &[Precision],
    elems: &[Elem],
) -> Result<(), RowFault>
    requires automaton { IsAutomaton cfa.now }
    requires size { length (components composite.old) ≡ count }
    requires precisions { ArePrecisions cfa.now (length (components composite.old))
        precisions.now }
{
    if !fit(elems, count, cfa) {
        return Err(RowFault::Unreadable);
    }
    let after = composite.adjust(alloc, cfa, elems, precisions, &[])?;
    Ok(push_row(out, &after.0, &after.1)?)
}

/// `refine`: the precisions after a path that has no run; `none` where none of them grows.
fn push_refine<A: Analysis>(
    alloc: Global,
    out: &mut String,
    composite: &mut Composite<A>,
    cfa: &Cfa,
    precisions: &[Precision],
    path: &Path,
) -> Result<(), RowFault>
    requires automaton { IsAutomaton cfa.now }
    requires precisions { ArePrecisions cfa.now (length (components composite.old))
        precisions.now }
{
    if !is_path(path, cfa) {
        return Err(RowFault::Unreadable);
    }
    let refined = composite.refine(alloc, cfa, path, precisions)?;
    Ok(push_refined(out, &refined)?)
}

/// The precisions; `none` where there are none.
fn push_refined(out: &mut String, refined: &Option<Vec<Precision>>) -> Result<(), AllocError> {
    match refined {
        Some(precisions) => push_precisions(out, precisions),
        None => out.push_str("none"),
    }
}

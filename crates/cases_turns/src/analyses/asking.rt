//! Calls of an analysis, whichever it is, and their answers as text. What a call asks of its
//! arguments is tested before it.

ghost use Rattle.std.specs.Prelude.{IsTrue};
ghost use Rattle.std.specs.List.{AllByRecursion};
ghost use Rattle.cpa_model.specs.Automata.{IsAutomaton};
ghost use Rattle.cpa_iface.specs.Meanings.{HasPlace, IsPrecision};

use crate::analyses::questions::{Call, Question};
use cases_programs::{are_elems, are_precisions, is_path};
use cases_reader::{RowFault, yes_or_no};
use cpa_composite::Handed;
use cpa_iface::{
    Analysis, Entry, FewNumbers, MergeRule, Part, Precision, Row, Settings, copy_precision,
};
use cpa_model::{Cfa, Elem, Path, Seq, Spell, copy_elem, is_elem, push_list};
use std::alloc::Global;

/// Adds what the analysis answers behind ` = `, and what it answers through the box, where that is
/// something else. Nothing stands in front of it.
pub fn push_both<A: Analysis>(
    alloc: Global,
    out: &mut String,
    plain: &mut A,
    boxed: &mut Handed,
    cfa: &Cfa,
    precision: &Precision,
    question: &Question,
) -> Result<(), RowFault>
    requires automaton { IsAutomaton cfa.now }
    requires precision { IsPrecision cfa.now precision.now }
{
    out.push_str(" = ")?;
    push_called(alloc, out, plain, cfa, precision, question)?;
    let mut through = String::from_str(alloc, " = ")?;
    push_called(alloc, &mut through, boxed, cfa, precision, question)?;
    if out.as_str() != through.as_str() {
        write!(out, ", through the box{through}")?;
    }
    Ok(())
}

/// Adds the answer to a call.
pub fn push_called<A: Analysis>(
    alloc: Global,
    out: &mut String,
    analysis: &mut A,
    cfa: &Cfa,
    precision: &Precision,
    question: &Question,
) -> Result<(), RowFault>
    requires automaton { IsAutomaton cfa.now }
    requires precision { IsPrecision cfa.now precision.now }
{
    let elems = question.elems.as_slice();
    match question.call {
        Call::Means => push_meaning(out, analysis),
        Call::Initial => push_initial(alloc, out, analysis, cfa),
        Call::First { settings } => push_first(alloc, out, analysis, cfa, &settings),
        Call::Transfer { edge } => {
            push_transfer(alloc, out, analysis, cfa, precision, edge, elems)
        }
        Call::Strengthen => push_strengthen(alloc, out, analysis, cfa, precision, elems),
        Call::Merge { rule } => push_merge(alloc, out, analysis, cfa, precision, rule, elems),
        Call::Covered => push_covered(out, analysis, elems),
        Call::Adjust => push_adjust(alloc, out, analysis, cfa, precision, elems),
        Call::Refine => push_refine(alloc, out, analysis, cfa, precision, &question.path),
    }
}

/// `means`: `NAME, exact on PART`.
fn push_meaning<A: Analysis>(out: &mut String, analysis: &A) -> Result<(), RowFault> {
    let name = analysis.name();
    let part = match analysis.exact_on() {
        Part::Nothing => "nothing",
        Part::Point => "the point",
        Part::Stack => "the stack",
        Part::Store => "the store",
    };
    write!(out, "{name}, exact on {part}")?;
    Ok(())
}

/// `initial`: the element of the initial states.
fn push_initial<A: Analysis>(
    alloc: Global,
    out: &mut String,
    analysis: &mut A,
    cfa: &Cfa,
) -> Result<(), RowFault>
    requires { IsAutomaton cfa.now }
{
    analysis.initial(alloc, cfa)?.spell(out)?;
    Ok(())
}

/// `first`: the first precision under the settings.
fn push_first<A: Analysis>(
    alloc: Global,
    out: &mut String,
    analysis: &mut A,
    cfa: &Cfa,
    settings: &Settings,
) -> Result<(), RowFault>
    requires { IsAutomaton cfa.now }
{
    push_precision(out, &analysis.first_precision(alloc, cfa, settings)?)
}

/// `transfer`: the successors of the one element by the edge, which is to be there.
fn push_transfer<A: Analysis>(
    alloc: Global,
    out: &mut String,
    analysis: &mut A,
    cfa: &Cfa,
    precision: &Precision,
    edge: u32,
    elems: &[Elem],
) -> Result<(), RowFault>
    requires automaton { IsAutomaton cfa.now }
    requires precision { IsPrecision cfa.now precision.now }
{
    match elems {
        [elem] => {
            if cfa.edges.len() <= edge as usize || !is_elem(elem, cfa) {
                return Err(RowFault::Unreadable);
            }
            let next = analysis.transfer(alloc, cfa, edge, elem, precision)?;
            push_list(out, next.as_slice())?;
            Ok(())
        }
        _ => Err(RowFault::Unreadable),
    }
}

/// `strengthen`: the first element with what the others tell.
fn push_strengthen<A: Analysis>(
    alloc: Global,
    out: &mut String,
    analysis: &mut A,
    cfa: &Cfa,
    precision: &Precision,
    elems: &[Elem],
) -> Result<(), RowFault>
    requires automaton { IsAutomaton cfa.now }
    requires precision { IsPrecision cfa.now precision.now }
{
    match elems {
        [own, others @ ..] => {
            if !is_elem(own, cfa) || !are_elems(others, cfa) {
                return Err(RowFault::Unreadable);
            }
            push_perhaps(
                out,
                &analysis.strengthen(alloc, cfa, own, others, precision)?,
            )
        }
        [] => Err(RowFault::Unreadable),
    }
}

/// The element; `none` where no state is left.
fn push_perhaps(out: &mut String, elem: &Option<Elem>) -> Result<(), RowFault> {
    match elem {
        Some(elem) => elem.spell(out)?,
        None => out.push_str("none")?,
    }
    Ok(())
}

/// `merge`: the two elements, the new one before the old one, as one.
fn push_merge<A: Analysis>(
    alloc: Global,
    out: &mut String,
    analysis: &mut A,
    cfa: &Cfa,
    precision: &Precision,
    rule: MergeRule,
    elems: &[Elem],
) -> Result<(), RowFault>
    requires automaton { IsAutomaton cfa.now }
    requires precision { IsPrecision cfa.now precision.now }
{
    match elems {
        [new, old] => {
            if !is_elem(new, cfa) || !is_elem(old, cfa) {
                return Err(RowFault::Unreadable);
            }
            analysis
                .merge(alloc, cfa, rule, new, old, precision)?
                .spell(out)?;
            Ok(())
        }
        _ => Err(RowFault::Unreadable),
    }
}

/// `covered`: whether the other element covers the first one. Any two elements may be asked.
fn push_covered<A: Analysis>(
    out: &mut String,
    analysis: &A,
    elems: &[Elem],
) -> Result<(), RowFault> {
    match elems {
        [elem, other] => Ok(out.push_str(yes_or_no(analysis.covered_by(elem, other)))?),
        _ => Err(RowFault::Unreadable),
    }
}

/// `adjust`: the first element and its precision, where the others are reached.
fn push_adjust<A: Analysis>(
    alloc: Global,
    out: &mut String,
    analysis: &mut A,
    cfa: &Cfa,
    precision: &Precision,
    elems: &[Elem],
) -> Result<(), RowFault>
    requires automaton { IsAutomaton cfa.now }
    requires precision { IsPrecision cfa.now precision.now }
{
    match elems {
        [elem, others @ ..] => {
            let reached = entries(alloc, precision, others)?;
            push_among(
                alloc,
                out,
                analysis,
                cfa,
                precision,
                elem,
                reached.as_slice(),
            )
        }
        [] => Err(RowFault::Unreadable),
    }
}

/// The element and its precision after `adjust`, where these entries are reached.
fn push_among<A: Analysis>(
    alloc: Global,
    out: &mut String,
    analysis: &mut A,
    cfa: &Cfa,
    precision: &Precision,
    elem: &Elem,
    reached: &[Entry],
) -> Result<(), RowFault>
    requires automaton { IsAutomaton cfa.now }
    requires precision { IsPrecision cfa.now precision.now }
{
    if !is_elem(elem, cfa) || !have_place(reached, cfa) {
        return Err(RowFault::Unreadable);
    }
    push_adjusted(
        out,
        &analysis.adjust(alloc, cfa, elem, precision, reached, 0)?,
    )
}

/// `ELEMENT, PRECISION`.
fn push_adjusted(out: &mut String, after: &(Elem, Precision)) -> Result<(), RowFault> {
    after.0.spell(out)?;
    out.push_str(", ")?;
    push_precision(out, &after.1)
}

/// `refine`: the precision after a path that has no run.
fn push_refine<A: Analysis>(
    alloc: Global,
    out: &mut String,
    analysis: &mut A,
    cfa: &Cfa,
    precision: &Precision,
    path: &Path,
) -> Result<(), RowFault>
    requires automaton { IsAutomaton cfa.now }
    requires precision { IsPrecision cfa.now precision.now }
{
    if !is_path(path, cfa) {
        return Err(RowFault::Unreadable);
    }
    push_precision(out, &analysis.refine(alloc, cfa, path, precision)?)
}

/// `limit LIMIT, tracked [CELL,..], predicates [PREDICATE,..]`.
fn push_precision(out: &mut String, precision: &Precision) -> Result<(), RowFault> {
    let limit = precision.limit;
    write!(out, "limit {limit}, tracked ")?;
    push_list(out, precision.tracked.as_slice())?;
    out.push_str(", predicates ")?;
    push_list(out, precision.preds.as_slice())?;
    Ok(())
}

/// An entry for each element, with it and the precision at the place 0.
fn entries(alloc: Global, precision: &Precision, elems: &[Elem]) -> Result<Vec<Entry>, RowFault> {
    let mut entries = Vec::new(alloc);
    for elem in elems {
        entries.push(entry(alloc, precision, elem)?)?;
    }
    Ok(entries)
}

/// An entry without a parent, which waits for nothing. Its number is 0, whichever it is.
fn entry(alloc: Global, precision: &Precision, elem: &Elem) -> Result<Entry, RowFault> {
    let mut elems = Seq::new(alloc);
    elems.push(copy_elem(elem)?)?;
    let mut precisions = Seq::new(alloc);
    precisions.push(copy_precision(alloc, precision)?)?;
    Ok(Entry {
        number: 0,
        elems,
        precisions: Row::own(precisions),
        parent: None,
        uses: FewNumbers::new(alloc),
        waiting: false,
    })
}

/// Whether each entry has an element and a precision at the place 0, and all of its own fit.
fn have_place(entries: &[Entry], cfa: &Cfa) -> bool
    ensures { IsTrue result → AllByRecursion (HasPlace cfa.now 0) entries.now }
{
    for entry in entries {
        if !has_place(entry, cfa) {
            return false;
        }
    }
    true
}

/// Whether an entry has an element and a precision at the place 0, and all of its own fit.
fn has_place(entry: &Entry, cfa: &Cfa) -> bool
    ensures { IsTrue result → HasPlace cfa.now 0 entry.now }
{
    are_elems(entry.elems.as_slice(), cfa)
        && are_precisions(entry.precisions.as_slice(), cfa)
        && 0 < entry.elems.len()
        && 0 < entry.precisions.len()
}

//! What a reached set answers to the call that a row names. That each entry which the row names is
//! there is tested before the call, which is shown with `proofs/reached/answers/`.

ghost use Rattle.std.specs.Prelude.{◌≡◌, ◌==◌, IsTrue, IfOk};
ghost use Rattle.std.specs.List.{list_any};
ghost use Rattle.cpa_reached.specs.Entries.{IsLive};

use crate::reached::printing::{
    push_entries, push_key, push_path, push_some, push_turns, push_waiting,
};
use crate::reached::reading::{elems_at, pairs_of, precisions_of};
use cases_programs::order_of_word;
use cases_reader::{RowFault, index_of_word, indices_of, push_number, push_word};
use cpa_iface::{Entry, Turn};
use cpa_model::Seq;
use cpa_reached::{Key, Reached};
use std::alloc::{AllocError, Global};
use std::mem;

/// Adds the answer of a row behind ` =`, its words each behind a space. The whole row is read
/// before the call.
pub fn push_answer(
    alloc: Global,
    out: &mut String,
    reached: &mut Reached,
    words: &[&str],
    parts: &[&str],
) -> Result<(), RowFault> {
    out.push_str(" =")?;
    match (words, parts) {
        (["new"], [points, limits]) => new(alloc, out, reached, points, limits),
        (["add", parent, edge], [points, limits]) => {
            add(alloc, out, reached, parent, edge, points, limits)
        }
        (["replace", old], [points]) => replace(alloc, out, reached, old, points),
        (["refine", entry], [limits]) => refine(alloc, out, reached, entry, limits),
        (["turn", taken], [added, replaced]) => {
            turn(alloc, out, reached, taken, added, replaced)
        }
        (words, []) => push_without_parts(alloc, out, reached, words),
        ([word], [text]) => push_on_key(alloc, out, reached, word, text),
        _ => Err(RowFault::Unreadable),
    }
}

/// The answer to a call on keys.
fn push_on_key(
    alloc: Global,
    out: &mut String,
    reached: &mut Reached,
    word: &str,
    text: &str,
) -> Result<(), RowFault> {
    match word {
        "index" => index_by(alloc, out, reached, text),
        "key" => key(alloc, out, reached, text),
        "under" => under(alloc, out, reached, text),
        _ => Err(RowFault::Unreadable),
    }
}

/// The answer to a call whose row has no parts behind colons.
fn push_without_parts(
    alloc: Global,
    out: &mut String,
    reached: &mut Reached,
    words: &[&str],
) -> Result<(), RowFault> {
    match words {
        ["take", order] => take(out, reached, order),
        ["use", entry, by] => note_use(out, reached, entry, by),
        ["remove", pivot] => remove(out, reached, pivot),
        ["path", entry] => path(out, reached, entry),
        [word] => push_alone(alloc, out, reached, word),
        _ => Err(RowFault::Unreadable),
    }
}

/// The answer to a call whose row is its word alone. `round` leaves an empty journal.
fn push_alone(
    alloc: Global,
    out: &mut String,
    reached: &mut Reached,
    word: &str,
) -> Result<(), RowFault> {
    let pushed = match word {
        "live" => push_entries(out, reached.live()),
        "waiting" => push_waiting(alloc, out, reached.live()),
        "journal" => push_turns(out, reached.journal()),
        "round" => {
            reached.start_round();
            done(out)
        }
        "parts" => take_parts(alloc, out, reached),
        _ => return Err(RowFault::Unreadable),
    };
    Ok(pushed?)
}

/// The answer of a call that gives nothing.
fn done(out: &mut String) -> Result<(), AllocError> {
    push_word(out, "done")
}

/// `new : POINT .. : LIMIT ..`: another set, of one entry.
fn new(
    alloc: Global,
    out: &mut String,
    reached: &mut Reached,
    points: &str,
    limits: &str,
) -> Result<(), RowFault> {
    let elems = elems_at(alloc, points)?;
    let precisions = precisions_of(alloc, limits)?;
    *reached = Reached::new(alloc, elems, precisions)?;
    Ok(done(out)?)
}

/// `add PARENT EDGE : POINT .. : LIMIT ..`: the number of the new entry.
fn add(
    alloc: Global,
    out: &mut String,
    reached: &mut Reached,
    parent: &str,
    edge: &str,
    points: &str,
    limits: &str,
) -> Result<(), RowFault> {
    let parent = live_number(reached, parent)?;
    let edge = index_of_word(edge)?;
    let elems = elems_at(alloc, points)?;
    let precisions = precisions_of(alloc, limits)?;
    let number = reached.add(elems, precisions, (parent, edge))?;
    Ok(push_number(out, number as i128)?)
}

/// `replace OLD : POINT ..`: the number of the new entry.
fn replace(
    alloc: Global,
    out: &mut String,
    reached: &mut Reached,
    old: &str,
    points: &str,
) -> Result<(), RowFault> {
    let old = live_number(reached, old)?;
    let elems = elems_at(alloc, points)?;
    let number = reached.replace(old, elems)?;
    Ok(push_number(out, number as i128)?)
}

/// `refine ENTRY : LIMIT ..`: other precisions of an entry.
fn refine(
    alloc: Global,
    out: &mut String,
    reached: &mut Reached,
    entry: &str,
    limits: &str,
) -> Result<(), RowFault> {
    let entry = live_number(reached, entry)?;
    let precisions = precisions_of(alloc, limits)?;
    reached.set_precisions(entry, precisions);
    Ok(done(out)?)
}

/// `turn TAKEN : ADDED .. : OLD NEW OLD NEW ..`: a row more of the journal.
fn turn(
    alloc: Global,
    out: &mut String,
    reached: &mut Reached,
    taken: &str,
    added: &str,
    replaced: &str,
) -> Result<(), RowFault> {
    let taken = index_of_word(taken)?;
    let added = indices_of(alloc, added)?;
    let replaced = pairs_of(alloc, replaced)?;
    reached.close_turn(Turn {
        taken,
        added,
        replaced,
    })?;
    Ok(done(out)?)
}

/// `index : PLACE ..`: the elements at these places are keys from now on.
fn index_by(
    alloc: Global,
    out: &mut String,
    reached: &mut Reached,
    places: &str,
) -> Result<(), RowFault> {
    reached.index_by(indices_of(alloc, places)?.as_slice())?;
    Ok(done(out)?)
}

/// `key : POINT ..`: the elements of the key of a row.
fn key(alloc: Global, out: &mut String, reached: &Reached, points: &str) -> Result<(), RowFault> {
    let key = reached.key_of(&elems_at(alloc, points)?)?;
    Ok(push_key(out, &key)?)
}

/// `under : POINT ..`: the numbers under the key of these elements; `none` where there is none.
fn under(alloc: Global, out: &mut String, reached: &Reached, points: &str) -> Result<(), RowFault> {
    let elems = Seq::from_vec(elems_at(alloc, points)?);
    Ok(push_some(out, reached.under(&Key { elems }))?)
}

/// `take first` or `take last`: the entry that is next in the order; `none` where none waits.
fn take(out: &mut String, reached: &mut Reached, order: &str) -> Result<(), RowFault> {
    let order = order_of_word(order)?;
    let pushed = match reached.take_next(order) {
        Some(number) => push_number(out, number as i128),
        None => push_word(out, "none"),
    };
    Ok(pushed?)
}

/// `use ENTRY BY`: a use of an entry by another one.
fn note_use(
    out: &mut String,
    reached: &mut Reached,
    entry: &str,
    by: &str,
) -> Result<(), RowFault> {
    let entry = live_number(reached, entry)?;
    let by = live_number(reached, by)?;
    reached.note_use(entry, by)?;
    Ok(done(out)?)
}

/// `remove PIVOT`: the end of what lies below an entry.
fn remove(out: &mut String, reached: &mut Reached, pivot: &str) -> Result<(), RowFault> {
    let pivot = live_number(reached, pivot)?;
    reached.remove_below(pivot)?;
    Ok(done(out)?)
}

/// `path ENTRY`: the edges that lead to an entry.
fn path(out: &mut String, reached: &Reached, entry: &str) -> Result<(), RowFault> {
    let entry = live_number(reached, entry)?;
    Ok(push_path(out, &reached.path_to(entry)?)?)
}

/// `parts`: the entries and the journal, taken out of the set. A set of one entry is left.
fn take_parts(alloc: Global, out: &mut String, reached: &mut Reached) -> Result<(), AllocError> {
    let left = Reached::new(alloc, Vec::new(alloc), Vec::new(alloc))?;
    let (entries, turns) = mem::replace(reached, left).into_parts();
    push_parts(out, entries.as_slice(), turns.as_slice())
}

/// Entries and a journal, a semicolon between them.
fn push_parts(out: &mut String, entries: &[Entry], turns: &[Turn]) -> Result<(), AllocError> {
    push_entries(out, entries)?;
    out.push_str(";")?;
    push_turns(out, turns)
}

/// The number that a word spells, which is to be that of an entry.
fn live_number(reached: &Reached, word: &str) -> Result<u32, RowFault>
    ensures { IfOk result (IsLive reached.now.live) }
{
    let number = index_of_word(word)?;
    if is_live(reached, number) {
        Ok(number)
    } else {
        Err(RowFault::Unreadable)
    }
}

/// Whether an entry of the number is there.
fn is_live(reached: &Reached, number: u32) -> bool
    ensures { IsTrue result → IsLive reached.now.live number }
{
    has_number(reached.live(), number)
}

/// Whether some entry has the number. Apart from `is_live`, since `any` proves over a slice.
fn has_number(entries: &[Entry], number: u32) -> bool
    ensures { result ≡ list_any (λ entry. entry.number == number) entries.now }
{
    entries.iter().any(|entry| entry.number == number)
}

//! Entries, journals and paths as the rows spell them. Nothing is proved of a spelling but that it
//! comes.

use cases_reader::push_word;
use cpa_iface::{Entry, Precision, Turn};
use cpa_model::{Path, push_list};
use cpa_reached::Key;
use std::alloc::{AllocError, Global};

/// Each entry, a comma between two.
pub fn push_entries(out: &mut String, entries: &[Entry]) -> Result<(), AllocError> {
    let mut is_first = true;
    for entry in entries {
        push_comma(out, is_first)?;
        push_entry(out, entry)?;
        is_first = false;
    }
    Ok(())
}

/// A comma, but before the first of several.
fn push_comma(out: &mut String, is_first: bool) -> Result<(), AllocError> {
    out.push_str(if is_first { "" } else { "," })
}

/// `NUMBER ELEMENTS limits LIMITS`, and then `from PARENT by EDGE`, `uses NUMBERS` and `waits`
/// where it has a parent, where it uses an entry, and where it waits.
fn push_entry(out: &mut String, entry: &Entry) -> Result<(), AllocError> {
    let number = entry.number;
    write!(out, " {number} ")?;
    push_list(out, entry.elems.as_slice())?;
    push_limits(out, entry.precisions.as_slice())?;
    push_parent(out, entry.parent)?;
    push_uses(out, entry.uses.as_slice())?;
    out.push_str(if entry.waiting { " waits" } else { "" })
}

/// ` limits LIMIT ..`, all that is told of precisions.
fn push_limits(out: &mut String, precisions: &[Precision]) -> Result<(), AllocError> {
    push_word(out, "limits")?;
    for precision in precisions {
        let limit = precision.limit;
        write!(out, " {limit}")?;
    }
    Ok(())
}

/// ` from PARENT by EDGE`, or nothing where there is no parent.
fn push_parent(out: &mut String, parent: Option<(u32, u32)>) -> Result<(), AllocError> {
    match parent {
        Some((number, edge)) => write!(out, " from {number} by {edge}"),
        None => Ok(()),
    }
}

/// ` uses NUMBER ..`, or nothing where it uses none.
fn push_uses(out: &mut String, uses: &[u32]) -> Result<(), AllocError> {
    if uses.is_empty() {
        return Ok(());
    }
    push_word(out, "uses")?;
    push_numbers(out, uses)
}

/// The numbers, each behind a space.
pub fn push_numbers(out: &mut String, numbers: &[u32]) -> Result<(), AllocError> {
    for number in numbers {
        write!(out, " {number}")?;
    }
    Ok(())
}

/// The numbers of the entries that wait; `none` where none does.
pub fn push_waiting(alloc: Global, out: &mut String, entries: &[Entry]) -> Result<(), AllocError> {
    let mut numbers = Vec::new(alloc);
    for entry in entries {
        if entry.waiting {
            numbers.push(entry.number)?;
        }
    }
    push_some(out, numbers.as_slice())
}

/// The numbers, each behind a space; `none` where there is none.
pub fn push_some(out: &mut String, numbers: &[u32]) -> Result<(), AllocError> {
    if numbers.is_empty() {
        push_word(out, "none")?;
    }
    push_numbers(out, numbers)
}

/// The elements of a key, as those of an entry.
pub fn push_key(out: &mut String, key: &Key) -> Result<(), AllocError> {
    out.push_str(" ")?;
    push_list(out, key.elems.as_slice())
}

/// Each row of the journal, a comma between two; `none` where there is none.
pub fn push_turns(out: &mut String, turns: &[Turn]) -> Result<(), AllocError> {
    if turns.is_empty() {
        push_word(out, "none")?;
    }
    let mut is_first = true;
    for turn in turns {
        push_comma(out, is_first)?;
        push_turn(out, turn)?;
        is_first = false;
    }
    Ok(())
}

/// `TAKEN added NUMBERS replaced OLD by NEW ..`
fn push_turn(out: &mut String, turn: &Turn) -> Result<(), AllocError> {
    let taken = turn.taken;
    write!(out, " {taken} added")?;
    push_numbers(out, turn.added.as_slice())?;
    push_word(out, "replaced")?;
    for (old, next) in &turn.replaced {
        write!(out, " {old} by {next}")?;
    }
    Ok(())
}

/// The edges, each behind a space; `here` where there is none.
pub fn push_path(out: &mut String, path: &Path) -> Result<(), AllocError> {
    if path.edges.is_empty() {
        push_word(out, "here")?;
    }
    push_numbers(out, path.edges.as_slice())
}

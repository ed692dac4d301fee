//! The lines of a recheck: `checked_text` of `specs/Lines.antt`.
ghost use Rattle.std.specs.Prelude.{◌≡◌, ◌++◌, IfOk, option_map, codes};
ghost use Rattle.cpa_report_print.specs.Reports.{break_text};
ghost use Rattle.cpa_top_recheck.specs.Lines.{checked_text, numbered_line, stopped_text};

use cpa_model::State;
use cpa_recheck::{Confirmation, Why};
use cpa_report::print_break;
use std::alloc::{AllocError, Global};

/// A word and a number, as a line.
fn numbered_line(alloc: Global, word: &str, number: usize) -> Result<Vec<u8>, AllocError>
    ensures { IfOk result (λ line. line.items ≡ numbered_line word.now number) }
{
    Ok(format!(in alloc; "{word}{number}\n")?.into_bytes())
}

/// The lines of a state that breaks an obligation.
fn refused_text(
    alloc: Global,
    obligation: u32,
    state: &State,
    next: Option<&State>,
) -> Result<Vec<u8>, AllocError>
    ensures { IfOk result (λ text. text.items ≡ numbered_line (codes "REFUSED ") obligation
        ++ break_text state.now (option_map (λ s. s.now) next.entry)) }
{
    let mut text = numbered_line(alloc, "REFUSED ", obligation as usize)?;
    let line = print_break(alloc, state, next)?;
    text.extend_from_slice(&line)?;
    Ok(text)
}

/// The lines of an obligation that is not shown to hold.
fn stopped_text(alloc: Global, obligation: u32, why: &Why) -> Result<Vec<u8>, AllocError>
    ensures { IfOk result (λ text. text.items ≡ stopped_text obligation why.now) }
{
    match why {
        Why::Refused { state, next } => refused_text(alloc, obligation, state, next.as_ref()),
        Why::Learnt { .. } => numbered_line(alloc, "UNKNOWN learnt ", obligation as usize),
        Why::Gates { .. } => numbered_line(alloc, "UNKNOWN gates ", obligation as usize),
    }
}

/// The lines of a check.
pub(crate) fn checked_text(alloc: Global, checked: &Confirmation) -> Result<Vec<u8>, AllocError>
    ensures { IfOk result (λ text. text.items ≡ checked_text checked.now) }
{
    match checked {
        Confirmation::Confirmed { obligations } => {
            numbered_line(alloc, "CONFIRMED ", *obligations)
        }
        Confirmation::Stopped { obligation, why } => stopped_text(alloc, *obligation, why),
    }
}

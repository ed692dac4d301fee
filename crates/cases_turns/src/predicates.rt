//! Rows that call one `Predicate`, which lives from row to row. README.md says how the wanted
//! answers were made. What all calls ask of their arguments is tested before them.

use crate::analyses::{Call, Question, call_of, push_called, question_of};
use crate::setting::Setting;
use cases_programs::{are_elems, automaton, is_precision};
use cases_reader::RowFault;
use cpa_predicate::Predicate;
use std::alloc::{AllocError, Global};

/// Adds the answer to a call, or nothing where the analysis begins anew. `first` takes the settings
/// that were set last.
pub fn push_answer(
    alloc: Global,
    out: &mut String,
    predicate: &mut Predicate,
    setting: &Setting,
    words: &[&str],
    parts: &[&str],
) -> Result<(), RowFault> {
    let settings = setting.settings;
    let call = match words {
        ["new"] => {
            *predicate = Predicate::new();
            return Ok(());
        }
        ["first"] => Call::First { settings },
        _ => call_of(words)?,
    };
    let question = question_of(alloc, call, words, parts)?;
    push_asked(alloc, out, predicate, setting, &question)
}

/// Adds the answer behind ` = `, where the precision and all elements fit the automaton. The
/// automaton is made again for each call, as rows may change the program.
fn push_asked(
    alloc: Global,
    out: &mut String,
    predicate: &mut Predicate,
    setting: &Setting,
    question: &Question,
) -> Result<(), RowFault> {
    let cfa = automaton(alloc, &setting.table)?;
    if !is_precision(&setting.precision, &cfa) || !are_elems(&question.elems, &cfa) {
        return Err(RowFault::Unreadable);
    }
    out.push_str(" = ")?;
    let before = predicate.spent();
    push_called(alloc, out, predicate, &cfa, &setting.precision, question)?;
    let all_decided = predicate.spent() == before;
    Ok(push_decided(out, all_decided, question.call)?)
}

/// Behind the answer to `transfer` whether all that it asked was decided. How many questions were
/// not is left free: an analysis may ask as few as it likes.
fn push_decided(out: &mut String, all_decided: bool, call: Call) -> Result<(), AllocError> {
    match (call, all_decided) {
        (Call::Transfer { .. }, true) => out.push_str(", decided"),
        (Call::Transfer { .. }, false) => out.push_str(", undecided"),
        _ => Ok(()),
    }
}

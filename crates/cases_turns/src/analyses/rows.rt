//! The answer of a row that calls an analysis. Nothing is proved of it but that it comes: what is
//! right, the file `stdout` says.

ghost use Rattle.cpa_model.specs.Automata.{IsAutomaton};
ghost use Rattle.cpa_iface.specs.Meanings.{IsPrecision};

use crate::analyses::asking::push_both;
use crate::analyses::boxes::Boxes;
use crate::analyses::questions::{Question, call_of, question_of};
use crate::setting::Setting;
use cases_programs::{automaton, is_precision};
use cases_reader::RowFault;
use cpa_callstack::Callstack;
use cpa_iface::{Location, Plain, Precision};
use cpa_interval::Interval;
use cpa_model::Cfa;
use cpa_value::Value;
use std::alloc::Global;

/// Which analysis is called.
#[derive(Clone, Copy)]
enum Called {
    Location,
    Callstack,
    Value,
    Interval,
}

/// The analysis that a word names, as the analysis itself does.
fn called_of(word: &str) -> Result<Called, RowFault> {
    match word {
        "location" => Ok(Called::Location),
        "callstack" => Ok(Called::Callstack),
        "value" => Ok(Called::Value),
        "interval" => Ok(Called::Interval),
        _ => Err(RowFault::Unreadable),
    }
}

/// Adds the answer to the call that a row names.
pub fn push_answer(
    alloc: Global,
    out: &mut String,
    boxes: &mut Boxes,
    setting: &Setting,
    words: &[&str],
    parts: &[&str],
) -> Result<(), RowFault> {
    let [name, words @ ..] = words else {
        return Err(RowFault::Unreadable);
    };
    let called = called_of(name)?;
    let question = question_of(alloc, call_of(words)?, words, parts)?;
    push_asked(alloc, out, boxes, setting, called, &question)
}

/// Adds the answer to a call. The automaton is made again for each, as rows may change the program.
fn push_asked(
    alloc: Global,
    out: &mut String,
    boxes: &mut Boxes,
    setting: &Setting,
    called: Called,
    question: &Question,
) -> Result<(), RowFault> {
    let precision = &setting.precision;
    let cfa = automaton(alloc, &setting.table)?;
    if !is_precision(precision, &cfa) {
        return Err(RowFault::Unreadable);
    }
    push_asked_of(alloc, out, boxes, &cfa, precision, called, question)
}

/// Adds the answer of the analysis: a new one through the bound, one that lives on through the box.
fn push_asked_of(
    alloc: Global,
    out: &mut String,
    boxes: &mut Boxes,
    cfa: &Cfa,
    precision: &Precision,
    called: Called,
    question: &Question,
) -> Result<(), RowFault>
    requires automaton { IsAutomaton cfa.now }
    requires precision { IsPrecision cfa.now precision.now }
{
    match called {
        Called::Location => {
            push_both(
                alloc,
                out,
                &mut Plain(Location),
                &mut boxes.location,
                cfa,
                precision,
                question,
            )
        }
        Called::Callstack => {
            push_both(
                alloc,
                out,
                &mut Plain(Callstack),
                &mut boxes.callstack,
                cfa,
                precision,
                question,
            )
        }
        Called::Value => {
            push_both(
                alloc,
                out,
                &mut Value::new(),
                &mut boxes.value,
                cfa,
                precision,
                question,
            )
        }
        Called::Interval => {
            push_both(
                alloc,
                out,
                &mut Interval::new(),
                &mut boxes.interval,
                cfa,
                precision,
                question,
            )
        }
    }
}

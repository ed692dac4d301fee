//! Rows on the program: what `replay` of `cpa_interp` answers, and whether an element fits.
//! Proved safe by the checker alone.

ghost use Rattle.cpa_model.specs.Automata.{IsAutomaton};

use crate::edge_rows;
use crate::numbers::numbers_of;
use cases_programs::{Table, automaton, elem_of};
use cases_reader::{RowFault, push_word, yes_or_no};
use cpa_interp::{Outcome, replay};
use cpa_model::{Cfa, is_elem};
use std::alloc::{AllocError, Global};
use std::thread::Threads;

/// The most inputs of a row.
const MAX_INPUTS: usize = 1000;

/// Adds the answer of a row on the program that the rows have set.
pub fn push_answer<R: Threads + Sync>(
    rt: &R,
    alloc: Global,
    out: &mut String,
    table: &Table,
    words: &[&str],
    parts: &[&str],
) -> Result<(), RowFault> {
    let cfa = automaton(alloc, table)?;
    push_asked(rt, alloc, out, &cfa, words, parts)
}

/// Adds the answer of a row on replays, or on one element. All others are on edges.
fn push_asked<R: Threads + Sync>(
    rt: &R,
    alloc: Global,
    out: &mut String,
    cfa: &Cfa,
    words: &[&str],
    parts: &[&str],
) -> Result<(), RowFault>
    requires { IsAutomaton cfa.now }
{
    match (words, parts) {
        (["replay", steps, inputs @ ..], []) => push_replay(alloc, out, cfa, steps, inputs),
        (["is_elem"], [elem]) => push_is_elem(alloc, out, cfa, elem),
        _ => edge_rows::push_answer(rt, alloc, out, cfa, words, parts),
    }
}

/// `is_elem : ELEMENT`: whether the element fits the automaton of the program.
fn push_is_elem(alloc: Global, out: &mut String, cfa: &Cfa, elem: &str) -> Result<(), RowFault> {
    let fits = is_elem(&elem_of(alloc, elem)?, cfa);
    Ok(push_word(out, yes_or_no(fits))?)
}

/// `replay STEPS INPUT ..`: what comes of the replay within so many steps.
fn push_replay(
    alloc: Global,
    out: &mut String,
    cfa: &Cfa,
    steps: &str,
    inputs: &[&str],
) -> Result<(), RowFault>
    requires { IsAutomaton cfa.now }
{
    let steps = steps.parse::<u64>()?;
    let inputs = numbers_of(alloc, inputs)?;
    if inputs.len() > MAX_INPUTS {
        return Err(RowFault::Unreadable);
    }
    Ok(push_outcome(out, replay(alloc, cfa, inputs.as_slice(), steps)?)?)
}

/// The outcome, as the command `replay` writes it.
fn push_outcome(out: &mut String, outcome: Outcome) -> Result<(), AllocError> {
    match outcome {
        Outcome::Error { steps } => write!(out, " ERROR {steps}"),
        Outcome::Ended => write!(out, " ENDED"),
        Outcome::Trapped { point } => write!(out, " TRAPPED {point}"),
        Outcome::InputsShort { point } => write!(out, " SHORT {point}"),
        Outcome::BadInput { place } => write!(out, " BADINPUT {place}"),
        Outcome::StepsSpent => write!(out, " SPENT"),
    }
}

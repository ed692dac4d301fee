//! Rows on searches: each outcome is looked at again, a model by evaluation, lines by `check_line`.
//! Proved safe with `proofs/search_rows/`.

use crate::clause_rows;
use crate::formulas::{are_below, formula};
use crate::words::push_clause;
use cases_reader::{RowFault, index_of_word, push_word};
use cpa_cnf::{Clause, Cnf, Line, Marks, check_line};
use cpa_sat::{Found, search};
use std::alloc::{AllocError, Global};

/// What a row tells of searches in its formula.
#[derive(Clone, Copy)]
enum Told {
    /// `search VARS LEARNT : FORMULA`: the outcome, looked at again.
    Outcome,
    /// `budgets VARS LAST : FORMULA`: the outcomes of the budgets from 0 to the last, a letter
    /// each.
    Budgets,
    /// `effort VARS LEARNT : FORMULA`: the outcome, with the numbers of lines, steps and literals.
    Effort,
    /// `trace VARS LEARNT : FORMULA`: the model as literals, or each line behind a bar, as its
    /// clause, 0, its first clause, and its steps.
    Trace,
}

/// What a word asks to be told.
fn told_of(word: &str) -> Result<Told, RowFault> {
    match word {
        "search" => Ok(Told::Outcome),
        "budgets" => Ok(Told::Budgets),
        "effort" => Ok(Told::Effort),
        "trace" => Ok(Told::Trace),
        _ => Err(RowFault::Unreadable),
    }
}

/// Adds the answer of a row of three words and one part, which is on searches. All others are on
/// clauses.
pub fn push_answer(
    alloc: Global,
    out: &mut String,
    words: &[&str],
    parts: &[&str],
) -> Result<(), RowFault> {
    match (words, parts) {
        ([word, vars, learnt], [text]) => searched(alloc, out, word, vars, learnt, text),
        _ => clause_rows::push_answer(alloc, out, words, parts),
    }
}

/// `WORD VARS LEARNT : FORMULA`: what the word asks of searches in the formula.
fn searched(
    alloc: Global,
    out: &mut String,
    word: &str,
    vars: &str,
    learnt: &str,
    text: &str,
) -> Result<(), RowFault> {
    let told = told_of(word)?;
    let learnt = index_of_word(learnt)?;
    push_searched(alloc, out, told, learnt, &formula(alloc, vars, text)?)
}

/// What a row tells of searches in a formula.
fn push_searched(
    alloc: Global,
    out: &mut String,
    told: Told,
    learnt: u32,
    cnf: &Cnf,
) -> Result<(), RowFault> {
    match told {
        Told::Outcome => push_outcome(alloc, out, cnf, learnt),
        Told::Budgets => push_letters(alloc, out, cnf, learnt),
        Told::Effort | Told::Trace => push_found(alloc, out, told, cnf, learnt),
    }
}

/// The outcome within a budget.
fn push_outcome(alloc: Global, out: &mut String, cnf: &Cnf, learnt: u32) -> Result<(), RowFault> {
    Ok(push_word(out, outcome(alloc, cnf, learnt)?)?)
}

/// What is found within a budget, not looked at again.
fn push_found(
    alloc: Global,
    out: &mut String,
    told: Told,
    cnf: &Cnf,
    learnt: u32,
) -> Result<(), RowFault> {
    let found = find(alloc, cnf, learnt)?;
    let pushed = match told {
        Told::Trace => push_traced(out, &found),
        _ => push_effort(out, &found),
    };
    Ok(pushed?)
}

/// What a search within a budget finds; no answer where a variable is out of range.
fn find(alloc: Global, cnf: &Cnf, learnt: u32) -> Result<Found, RowFault> {
    if !are_below(cnf) {
        return Err(RowFault::Unreadable);
    }
    Ok(search(alloc, cnf, learnt)?)
}

/// The outcomes of the budgets from 0 to the last, a letter each.
fn push_letters(alloc: Global, out: &mut String, cnf: &Cnf, last: u32) -> Result<(), RowFault> {
    out.push_str(" ")?;
    for learnt in 0..last.min(1000) + 1 {
        out.push_str(letter(outcome(alloc, cnf, learnt)?))?;
    }
    Ok(())
}

/// The word of the outcome within a budget, looked at again.
fn outcome(alloc: Global, cnf: &Cnf, learnt: u32) -> Result<&'static str, RowFault> {
    let found = find(alloc, cnf, learnt)?;
    judged(alloc, cnf, learnt, &found)
}

/// The first letter of an outcome.
fn letter(outcome: &'static str) -> &'static str {
    match outcome {
        "model" => "m",
        "refuted" => "r",
        "spent" => "s",
        _ => "!",
    }
}

/// The word of an outcome that is what the search promises.
fn judged(alloc: Global, cnf: &Cnf, learnt: u32, found: &Found) -> Result<&'static str, RowFault> {
    match found {
        Found::Model(values) => Ok(judged_model(cnf, values)),
        Found::Refuted(lines) => judged_lines(alloc, cnf, learnt, lines),
        Found::Spent(lines) => judged_spent(alloc, cnf, learnt, lines),
    }
}

/// Whether a literal of the clause is true.
fn is_true(values: &[bool], clause: &Clause) -> bool {
    clause.literals().iter().any(|literal| {
        let value = values.get(literal.var() as usize).copied();
        value == Some(!literal.is_negative())
    })
}

/// A model, by evaluation.
fn judged_model(cnf: &Cnf, values: &[bool]) -> &'static str {
    if values.len() != cnf.vars as usize {
        return "model of another length";
    }
    if !cnf.clauses.iter().all(|clause| is_true(values, clause)) {
        return "no model";
    }
    "model"
}

/// Whether each line is good.
fn are_good(alloc: Global, cnf: &Cnf, lines: &[Line]) -> Result<bool, AllocError> {
    let mut marks = Marks::new(alloc, cnf.vars)?;
    for i in 0..lines.len().min(4294967295) {
        if !check_line(cnf, lines, i as u32, &mut marks) {
            return Ok(false);
        }
    }
    Ok(true)
}

/// The lines of a refutation.
fn judged_lines(
    alloc: Global,
    cnf: &Cnf,
    learnt: u32,
    lines: &[Line],
) -> Result<&'static str, RowFault> {
    if lines.len() > learnt as usize {
        return Ok("too many lines");
    }
    if !are_good(alloc, cnf, lines)? {
        return Ok("bad line");
    }
    match lines.last() {
        Some(line) if line.clause.is_empty() => Ok("refuted"),
        _ => Ok("no refutation"),
    }
}

/// The lines where the budget is spent.
fn judged_spent(
    alloc: Global,
    cnf: &Cnf,
    learnt: u32,
    lines: &[Line],
) -> Result<&'static str, RowFault> {
    if lines.len() != learnt as usize {
        return Ok("lines of another number");
    }
    if !are_good(alloc, cnf, lines)? {
        return Ok("bad line");
    }
    if !are_new(cnf, lines) {
        return Ok("line again");
    }
    Ok("spent")
}

/// Whether no line is empty, and each has a clause that neither the formula nor an earlier line
/// has.
fn are_new(cnf: &Cnf, lines: &[Line]) -> bool {
    for i in 0..lines.len() {
        let clause = &lines[i].clause;
        if clause.is_empty() || cnf.clauses.iter().any(|other| is_same(other, clause)) {
            return false;
        }
        if lines[..i].iter().any(|line| is_same(&line.clause, clause)) {
            return false;
        }
    }
    true
}

/// Whether two clauses have the same literals.
fn is_same(a: &Clause, b: &Clause) -> bool {
    a.literals() == b.literals()
}

/// The word of the outcome, and behind it what its lines take.
fn push_effort(out: &mut String, found: &Found) -> Result<(), AllocError> {
    match found {
        Found::Model(_) => out.push_str(" model"),
        Found::Refuted(lines) => push_sizes(out, "refuted", lines),
        Found::Spent(lines) => push_sizes(out, "spent", lines),
    }
}

/// The numbers of lines, steps and literals.
fn push_sizes(out: &mut String, outcome: &str, lines: &[Line]) -> Result<(), AllocError> {
    let mut steps: u64 = 0;
    let mut literals: u64 = 0;
    for line in lines {
        steps = steps.saturating_add(line.steps.len() as u64);
        literals = literals.saturating_add(line.clause.len() as u64);
    }
    let count = lines.len();
    write!(out, " {outcome} {count} {steps} {literals}")
}

/// The word of the outcome, and behind it all that was found.
fn push_traced(out: &mut String, found: &Found) -> Result<(), AllocError> {
    match found {
        Found::Model(values) => push_values(out, values),
        Found::Refuted(lines) => push_lines(out, " refuted", lines),
        Found::Spent(lines) => push_lines(out, " spent", lines),
    }
}

/// A digit for each variable.
fn push_values(out: &mut String, values: &[bool]) -> Result<(), AllocError> {
    out.push_str(" model")?;
    for value in values {
        out.push_str(if *value { " 1" } else { " 0" })?;
    }
    Ok(())
}

/// The outcome, and each line behind a bar.
fn push_lines(out: &mut String, outcome: &str, lines: &[Line]) -> Result<(), AllocError> {
    out.push_str(outcome)?;
    for line in lines {
        push_line(out, line)?;
    }
    Ok(())
}

/// One line.
fn push_line(out: &mut String, line: &Line) -> Result<(), AllocError> {
    let first = line.first;
    out.push_str(" |")?;
    if !line.clause.is_empty() {
        push_clause(out, &line.clause)?;
    }
    write!(out, " 0 {first}")?;
    for step in line.steps.as_slice() {
        let pivot = u64::from(step.pivot) + 1;
        let clause = step.clause;
        write!(out, " {pivot} {clause}")?;
    }
    Ok(())
}

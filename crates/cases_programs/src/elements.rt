//! Reads elements: facts with commas between them, as `at 3`, `stack 8 9`, `equals 0 5`,
//! `within 0 1 2` and `truth 1 EXPRESSION`.

use cases_reader::{RowFault, expr_of, index_of_word, indices_of_words, number_of_word, words_of};
use cpa_model::{Elem, Fact, Seq};
use std::alloc::Global;

/// The elements that texts spell, one each.
pub fn elems_of(alloc: Global, texts: &[&str]) -> Result<Vec<Elem>, RowFault> {
    let mut elems = Vec::new(alloc);
    for text in texts {
        elems.push(elem_of(alloc, text)?)?;
    }
    Ok(elems)
}

/// The element that a text spells. Where no words stand there is no fact.
pub fn elem_of(alloc: Global, text: &str) -> Result<Elem, RowFault> {
    let mut facts = Seq::new(alloc);
    for part in text.split(',') {
        push_fact(alloc, &mut facts, part)?;
    }
    Ok(Elem::new(alloc, facts)?)
}

/// Adds the fact that a part spells, if it has words.
fn push_fact(alloc: Global, facts: &mut Seq<Fact>, part: &str) -> Result<(), RowFault> {
    let words = words_of(alloc, part)?;
    if !words.is_empty() {
        facts.push(fact_of(alloc, &words)?)?;
    }
    Ok(())
}

/// The fact of these words.
fn fact_of(alloc: Global, words: &[&str]) -> Result<Fact, RowFault> {
    match words {
        ["at", point] => point_of(point),
        ["stack", sites @ ..] => stack_of(alloc, sites),
        ["equals", cell, value] => equals_of(cell, value),
        ["within", cell, lo, hi] => within_of(cell, lo, hi),
        ["truth", holds, expr @ ..] => truth_of(alloc, holds, expr),
        _ => Err(RowFault::Unreadable),
    }
}

/// `at POINT`.
fn point_of(point: &str) -> Result<Fact, RowFault> {
    let point = index_of_word(point)?;
    Ok(Fact::At { point })
}

/// `stack SITE ..`, with the sites of calls from the bottom to the top.
fn stack_of(alloc: Global, sites: &[&str]) -> Result<Fact, RowFault> {
    let sites = indices_of_words(alloc, sites)?;
    Ok(Fact::Stack { sites })
}

/// `equals CELL VALUE`.
fn equals_of(cell: &str, value: &str) -> Result<Fact, RowFault> {
    let cell = index_of_word(cell)?;
    let value = number_of_word(value)?;
    Ok(Fact::Equals { cell, value })
}

/// `within CELL LOWEST HIGHEST`.
fn within_of(cell: &str, lo: &str, hi: &str) -> Result<Fact, RowFault> {
    let cell = index_of_word(cell)?;
    let lo = number_of_word(lo)?;
    let hi = number_of_word(hi)?;
    Ok(Fact::Within { cell, lo, hi })
}

/// `truth 1 EXPRESSION`, or with 0 where the expression is false.
fn truth_of(alloc: Global, holds: &str, expr: &[&str]) -> Result<Fact, RowFault> {
    let holds = index_of_word(holds)? != 0;
    let expr = expr_of(alloc, expr)?;
    Ok(Fact::Truth { expr, holds })
}

//! The words of a row: types, and literals and clauses as in DIMACS: the literals of variable v are
//! v + 1 and -(v + 1), and a clause ends with 0.

use cases_reader::{RowFault, type_of_word};
use cpa_cnf::{Clause, Lit};
use cpa_ints::{IntType, Seq};
use std::alloc::{AllocError, Global};
use std::str::SplitWhitespace;

/// The types of words.
pub fn types_of(alloc: Global, words: &[&str]) -> Result<Seq<IntType>, RowFault> {
    let mut types = Seq::new(alloc);
    for word in words {
        types.push(type_of_word(word)?)?;
    }
    Ok(types)
}

/// The variable that a word names, counted from 1.
pub fn variable_of_word(word: &str) -> Result<u32, RowFault> {
    let number = word.parse::<u64>()?;
    if number == 0 || number > 4294967296 {
        return Err(RowFault::Unreadable);
    }
    Ok((number - 1) as u32)
}

/// The literal that a word spells.
fn literal_of_word(word: &str) -> Result<Lit, RowFault> {
    let (rest, is_negative) = match word.strip_prefix("-") {
        Some(rest) => (rest, true),
        None => (word, false),
    };
    Ok(Lit::new(variable_of_word(rest)?, is_negative))
}

/// The clause of the words up to a 0 or the end; None where no word is left.
pub fn next_clause(
    alloc: Global,
    words: &mut SplitWhitespace<'_>,
) -> Result<Option<Clause>, RowFault> {
    let mut literals = Vec::new(alloc);
    let mut is_there = false;
    for word in words {
        is_there = true;
        if word == "0" {
            break;
        }
        literals.push(literal_of_word(word)?)?;
    }
    if !is_there {
        return Ok(None);
    }
    Ok(Some(Clause::from_lits(literals)?))
}

/// The clause of a whole text.
pub fn clause_of(alloc: Global, text: &str) -> Result<Clause, RowFault> {
    let mut literals = Vec::new(alloc);
    for word in text.split_whitespace() {
        literals.push(literal_of_word(word)?)?;
    }
    Ok(Clause::from_lits(literals)?)
}

/// Writes a clause, each literal behind a space; `empty` where it has none.
pub fn push_clause(out: &mut String, clause: &Clause) -> Result<(), AllocError> {
    if clause.is_empty() {
        out.push_str(" empty")?;
    }
    for literal in clause.literals() {
        let sign = if literal.is_negative() { " -" } else { " " };
        let number = u64::from(literal.var()) + 1;
        write!(out, "{sign}{number}")?;
    }
    Ok(())
}

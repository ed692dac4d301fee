//! Rows on clauses, resolvents and lines: what the public calls of `cpa_cnf` answer.
//! Proved safe with `proofs/clause_rows/`.

use crate::formulas::{formula, lines_of};
use crate::operator_rows;
use crate::words::{clause_of, push_clause, variable_of_word};
use cases_reader::RowFault;
use cpa_cnf::{Clause, Cnf, Line, Marks, check_line, resolve};
use std::alloc::{AllocError, Global};

/// Adds the answer of a row on clauses. All others are on operators.
pub fn push_answer(
    alloc: Global,
    out: &mut String,
    words: &[&str],
    parts: &[&str],
) -> Result<(), RowFault> {
    match (words, parts) {
        (["clause"], [text]) => sorted(alloc, out, text),
        (["resolve", pivot], [first, second]) => resolvent(alloc, out, pivot, first, second),
        (["lines", vars], [text, lines @ ..]) => push_checked(alloc, out, vars, text, lines),
        _ => operator_rows::push_answer(alloc, out, words, parts),
    }
}

/// `clause : LITERALS`: the clause of the literals.
fn sorted(alloc: Global, out: &mut String, text: &str) -> Result<(), RowFault> {
    Ok(push_clause(out, &clause_of(alloc, text)?)?)
}

/// `resolve PIVOT : LITERALS : LITERALS`: the resolvent, or `none`.
fn resolvent(
    alloc: Global,
    out: &mut String,
    pivot: &str,
    first: &str,
    second: &str,
) -> Result<(), RowFault> {
    let pivot = variable_of_word(pivot)?;
    push_resolvent(alloc, out, pivot, &clause_of(alloc, first)?, second)
}

/// The resolvent of a clause and one of a text.
fn push_resolvent(
    alloc: Global,
    out: &mut String,
    pivot: u32,
    first: &Clause,
    second: &str,
) -> Result<(), RowFault> {
    let second = clause_of(alloc, second)?;
    Ok(push_some(out, &resolve(alloc, first, &second, pivot)?)?)
}

/// A clause, or `none`.
fn push_some(out: &mut String, found: &Option<Clause>) -> Result<(), AllocError> {
    match found {
        Some(clause) => push_clause(out, clause),
        None => out.push_str(" none"),
    }
}

/// `lines VARS : FORMULA : LINE : LINE ..`: which of the lines are good, a sign each.
fn push_checked(
    alloc: Global,
    out: &mut String,
    vars: &str,
    text: &str,
    lines: &[&str],
) -> Result<(), RowFault> {
    let cnf = formula(alloc, vars, text)?;
    out.push_str(" ")?;
    Ok(push_signs(alloc, out, &cnf, &lines_of(alloc, lines)?)?)
}

/// A sign for each line, all checked with one table.
fn push_signs(alloc: Global, out: &mut String, cnf: &Cnf, log: &[Line]) -> Result<(), AllocError> {
    let mut marks = Marks::new(alloc, cnf.vars)?;
    for i in 0..log.len().min(1000) {
        let is_good = check_line(cnf, log, i as u32, &mut marks);
        out.push_str(if is_good { "+" } else { "-" })?;
    }
    Ok(())
}

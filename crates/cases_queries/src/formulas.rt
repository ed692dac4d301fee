//! Formulas and lines from their words, and whether they meet the condition of a search.
//! That they do, `AreBelow` of `cpa_cnf`, is proved with `proofs/formulas/`.

ghost use Rattle.std.specs.Prelude.{IsTrue};
ghost use Rattle.std.specs.List.{AllByRecursion};
ghost use Rattle.cpa_cnf.specs.Lines.{AreBelow};

use crate::words::{next_clause, variable_of_word};
use cases_reader::{RowFault, index_of_word, next_index};
use cpa_cnf::{Clause, Cnf, Line, Step};
use cpa_ints::Seq;
use std::alloc::Global;
use std::str::SplitWhitespace;

/// The formula of a text, over as many variables as a word says.
pub fn formula(alloc: Global, vars: &str, text: &str) -> Result<Cnf, RowFault> {
    let vars = index_of_word(vars)?;
    let mut clauses = Seq::new(alloc);
    let mut words = text.split_whitespace();
    for _ in 0..text.len() {
        match next_clause(alloc, &mut words)? {
            Some(clause) => clauses.push(clause)?,
            None => break,
        }
    }
    Ok(Cnf { vars, clauses })
}

/// The line of a text: its clause, the number of the first clause, and the steps.
fn line(alloc: Global, text: &str) -> Result<Line, RowFault> {
    let mut words = text.split_whitespace();
    let clause = next_clause(alloc, &mut words)?.ok_or(RowFault::Unreadable)?;
    let first = next_index(&mut words)?;
    let steps = rest_steps(alloc, &mut words)?;
    Ok(Line {
        clause,
        first,
        steps,
    })
}

/// The steps of the words that are left, a pivot and the number of a clause each.
fn rest_steps(alloc: Global, words: &mut SplitWhitespace<'_>) -> Result<Seq<Step>, RowFault> {
    let mut steps = Seq::new(alloc);
    let mut pivot = None;
    for word in words {
        match pivot {
            None => pivot = Some(variable_of_word(word)?),
            Some(variable) => {
                let clause = index_of_word(word)?;
                steps.push(Step {
                    pivot: variable,
                    clause,
                })?;
                pivot = None;
            }
        }
    }
    if pivot.is_some() {
        return Err(RowFault::Unreadable);
    }
    Ok(steps)
}

/// The lines of texts.
pub fn lines_of(alloc: Global, texts: &[&str]) -> Result<Vec<Line>, RowFault> {
    let mut lines = Vec::new(alloc);
    for text in texts {
        lines.push(line(alloc, text)?)?;
    }
    Ok(lines)
}

/// Whether each variable of the clause is below `vars`.
fn is_below(vars: u32, clause: &Clause) -> bool
    ensures { IsTrue result → AreBelow vars clause.now }
{
    for literal in clause.literals() {
        if literal.var() >= vars {
            return false;
        }
    }
    true
}

/// Whether each variable of the formula is below its `vars`.
pub fn are_below(cnf: &Cnf) -> bool
    ensures { IsTrue result → AllByRecursion (AreBelow cnf.now.vars) cnf.now.clauses }
{
    for clause in &cnf.clauses {
        if !is_below(cnf.vars, clause) {
            return false;
        }
    }
    true
}

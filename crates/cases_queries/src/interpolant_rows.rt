//! Rows on interpolants: the partials of a refutation by one thread and by several, the expression
//! of the last one, and formulas joined. Proved safe with `proofs/interpolant_rows/`.

ghost use Rattle.std.specs.Prelude.{◌≡◌, ◌-◌, [], Some, map, length, slice_get, IsTrue, IfOk};
ghost use Rattle.cpa_cnf.specs.Lines.{IsRefutation};

use crate::formulas::{are_below, formula, lines_of};
use crate::query_rows;
use crate::words::{push_clause, variable_of_word};
use cases_reader::{RowFault, index_of_word, push_word};
use cpa_audit::NoGate;
use cpa_chains::{Partial, partials, partials_par};
use cpa_cnf::{Cnf, Line, Marks, check_line};
use cpa_expr::{Expr, push_expr};
use cpa_interpolant_bits::Bit;
use cpa_interpolant_conditions::interpolant;
use cpa_interpolant_joining::join;
use cpa_ints::{Boxed, IntType};
use std::alloc::{AllocError, Global};
use std::thread::Threads;

/// Adds the answer of a row on interpolants. All others have no threads.
pub fn push_answer<R: Threads + Sync>(
    rt: &R,
    alloc: Global,
    out: &mut String,
    words: &[&str],
    parts: &[&str],
) -> Result<(), RowFault> {
    match words {
        ["partials", workers, words @ ..] => all_partials(rt, alloc, out, workers, words, parts),
        ["interpolant", words @ ..] => last_partial(alloc, out, words, parts),
        ["join", words @ ..] => joined(alloc, out, words, parts),
        _ => query_rows::push_answer(alloc, out, words, parts),
    }
}

/// A formula with the side of each clause, and lines.
#[derive(Drop)]
struct Chains {
    cnf: Cnf,
    sides: Vec<bool>,
    log: Vec<Line>,
}

/// The sides that the letters of a word say: `a`, and `b` or any other one.
fn sides(alloc: Global, word: &str) -> Result<Vec<bool>, AllocError> {
    let mut sides = Vec::new(alloc);
    for letter in word.bytes() {
        sides.push(letter == b'a')?;
    }
    Ok(sides)
}

/// `VARS SIDES : FORMULA : LINE : LINE ..`
fn chains_of(alloc: Global, words: &[&str], parts: &[&str]) -> Result<Chains, RowFault> {
    let ([vars, letters], [text, lines @ ..]) = (words, parts) else {
        return Err(RowFault::Unreadable);
    };
    let cnf = formula(alloc, vars, text)?;
    let sides = sides(alloc, letters)?;
    let log = lines_of(alloc, lines)?;
    Ok(Chains { cnf, sides, log })
}

/// Whether each line is good, and the last one has no literal.
fn is_refutation(alloc: Global, cnf: &Cnf, log: &[Line]) -> Result<bool, AllocError>
    ensures { IfOk result (λ found. IsTrue found → IsRefutation cnf.now log.now) }
{
    let mut marks = Marks::new(alloc, cnf.vars)?;
    for i in 0..log.len() {
        if i > u32::MAX as usize || !check_line(cnf, log, i as u32, &mut marks) {
            return Ok(false);
        }
    }
    Ok(ends_empty(log))
}

/// Whether the last line has no literal.
fn ends_empty(log: &[Line]) -> bool
    ensures { IsTrue result
        → slice_get (map (λ line. line.clause) log.now) (length log.now - 1) ≡ Some [] }
{
    match log.last() {
        Some(line) => line.clause.is_empty(),
        None => false,
    }
}

/// `partials WORKERS VARS SIDES : FORMULA : LINE ..`: the partial of each line behind a bar. One
/// worker is `partials`, several are `partials_par`.
fn all_partials<R: Threads + Sync>(
    rt: &R,
    alloc: Global,
    out: &mut String,
    workers: &str,
    words: &[&str],
    parts: &[&str],
) -> Result<(), RowFault> {
    let workers = index_of_word(workers)?;
    let chains = chains_of(alloc, words, parts)?;
    Ok(push_partials(out, &some_partials(rt, alloc, workers, &chains)?)?)
}

/// The partials by so many workers.
fn some_partials<R: Threads + Sync>(
    rt: &R,
    alloc: Global,
    workers: u32,
    chains: &Chains,
) -> Result<Vec<Partial>, RowFault> {
    let cnf = &chains.cnf;
    let sides = &chains.sides;
    let log = &chains.log;
    if sides.len() != cnf.clauses.len() || !is_refutation(alloc, cnf, log)? {
        return Err(RowFault::Unreadable);
    }
    match workers {
        1 => Ok(partials(alloc, cnf, sides, log)?),
        2..=64 => Ok(partials_par(rt, alloc, cnf, sides, log, workers, &NoGate)?),
        _ => Err(RowFault::Unreadable),
    }
}

/// Writes partials: of each the first number, and `and` or `or` with each other one.
fn push_partials(out: &mut String, partials: &[Partial]) -> Result<(), AllocError> {
    for partial in partials {
        let first = partial.first;
        write!(out, " | {first}")?;
        push_joints(out, partial)?;
    }
    Ok(())
}

/// Writes the joints of a partial.
fn push_joints(out: &mut String, partial: &Partial) -> Result<(), AllocError> {
    for joint in &partial.joints {
        let word = if joint.or { "or" } else { "and" };
        let clause = joint.clause;
        write!(out, " {word} {clause}")?;
    }
    Ok(())
}

/// Variable v as bit v % 8 of the cell v / 8, an unsigned char.
fn bits(alloc: Global, vars: u32) -> Result<Vec<Option<Bit>>, AllocError> {
    let mut bits = Vec::new(alloc);
    for variable in 0..vars.min(4096) {
        bits.push(Some(Bit {
            cell: variable / 8,
            ty: IntType::U8,
            place: variable % 8,
        }))?;
    }
    Ok(bits)
}

/// `interpolant VARS SIDES : FORMULA : LINE ..`: the expression of the last partial, or `large`.
fn last_partial(
    alloc: Global,
    out: &mut String,
    words: &[&str],
    parts: &[&str],
) -> Result<(), RowFault> {
    let chains = chains_of(alloc, words, parts)?;
    push_interpolant(alloc, out, &chains)
}

/// The expression of the last partial of a refutation.
fn push_interpolant(alloc: Global, out: &mut String, chains: &Chains) -> Result<(), RowFault> {
    let cnf = &chains.cnf;
    let sides = &chains.sides;
    let log = &chains.log;
    if sides.len() != cnf.clauses.len() || !are_below(cnf) || !is_refutation(alloc, cnf, log)? {
        return Err(RowFault::Unreadable);
    }
    let bits = bits(alloc, cnf.vars)?;
    let found = interpolant(alloc, cnf, sides, log, &bits)?;
    Ok(push_found(out, &found)?)
}

/// An expression as reports spell it, or `large`.
fn push_found(out: &mut String, found: &Option<Boxed<Expr>>) -> Result<(), AllocError> {
    match found {
        Some(expression) => {
            out.push_str(" ")?;
            push_expr(out, expression.get())
        }
        None => push_word(out, "large"),
    }
}

/// The names of a text: a variable, or `-` for none.
fn names_of(alloc: Global, text: &str) -> Result<Vec<Option<u32>>, RowFault> {
    let mut names = Vec::new(alloc);
    for word in text.split_whitespace() {
        if word == "-" {
            names.push(None)?;
        } else {
            names.push(Some(variable_of_word(word)?))?;
        }
    }
    Ok(names)
}

/// `join VARS VARS : FORMULA : FORMULA : NAMES`: the variables of the joined formula, its sides as
/// letters, and its clauses behind bars.
fn joined(alloc: Global, out: &mut String, words: &[&str], parts: &[&str]) -> Result<(), RowFault> {
    let ([vars, others], [first, second, names]) = (words, parts) else {
        return Err(RowFault::Unreadable);
    };
    let second = formula(alloc, others, second)?;
    push_join(alloc, out, vars, first, &second, names)
}

/// A formula joined with a second one.
fn push_join(
    alloc: Global,
    out: &mut String,
    vars: &str,
    first: &str,
    second: &Cnf,
    names: &str,
) -> Result<(), RowFault> {
    let names = names_of(alloc, names)?;
    let first = formula(alloc, vars, first)?;
    let joined = join(alloc, first, second, &names)?;
    Ok(push_joined(out, &joined.cnf, &joined.sides)?)
}

/// Writes a formula with the sides of its clauses.
fn push_joined(out: &mut String, cnf: &Cnf, sides: &[bool]) -> Result<(), AllocError> {
    let vars = cnf.vars;
    write!(out, " {vars} ")?;
    for side in sides {
        out.push_str(if *side { "a" } else { "b" })?;
    }
    for clause in &cnf.clauses {
        out.push_str(" |")?;
        push_clause(out, clause)?;
    }
    Ok(())
}

//! Rows on interpolants along a path: what `along` and `along_par` of `cpa_interpolant` answer.
//! Proved safe by the checker alone.

ghost use Rattle.cpa_iface.specs.Meanings.{IsPathOf};
ghost use Rattle.cpa_model.specs.Automata.{IsAutomaton};

use crate::judging::{Limits, limits_of};
use crate::told::Told;
use cases_reader::{RowFault, index_of_word, push_word};
use cpa_audit::NoGate;
use cpa_expr::{Expr, push_expr};
use cpa_interpolant::{Along, along, along_par};
use cpa_model::{Cfa, Path};
use std::alloc::{AllocError, Global};
use std::thread::Threads;

/// `along LEARNT GATES WORKERS : EDGE ..`: `cuts EXPRESSIONS`, `model`, `learnt CUT LINES`,
/// `gates CUT WEIGHT` or `large CUT`. With `exprs` in the place of `along` the expressions are
/// told, for checkers outside. One worker is `along`, 2 to 64 are `along_par`.
pub fn push_along<R: Threads + Sync>(
    rt: &R,
    alloc: Global,
    out: &mut String,
    cfa: &Cfa,
    path: &Path,
    told: Told,
    limits: &[&str],
    workers: &str,
) -> Result<(), RowFault>
    requires automaton { IsAutomaton cfa.now }
    requires path { IsPathOf cfa.now path.now }
{
    let limits = limits_of(limits)?;
    let workers = index_of_word(workers)?;
    let pushed = push_found(
        out,
        told,
        &found_along(rt, alloc, cfa, path, limits, workers)?,
    );
    Ok(pushed?)
}

/// What comes of the cuts of the path, by so many workers.
fn found_along<R: Threads + Sync>(
    rt: &R,
    alloc: Global,
    cfa: &Cfa,
    path: &Path,
    limits: Limits,
    workers: u32,
) -> Result<Along, RowFault>
    requires automaton { IsAutomaton cfa.now }
    requires path { IsPathOf cfa.now path.now }
{
    let learnt = limits.learnt;
    let gates = limits.gates;
    let found = match workers {
        1 => along(alloc, cfa, path, learnt, gates),
        2..=64 => along_par(rt, alloc, cfa, path, learnt, gates, workers, &NoGate),
        _ => return Err(RowFault::Unreadable),
    };
    Ok(found?)
}

/// What was found of the cuts, with the expressions where they are told.
fn push_found(out: &mut String, told: Told, found: &Along) -> Result<(), AllocError> {
    push_outcome(out, found)?;
    match told {
        Told::Outcome => Ok(()),
        Told::All => push_exprs(out, exprs_of(found)),
    }
}

/// How the cuts end.
fn push_outcome(out: &mut String, found: &Along) -> Result<(), AllocError> {
    match found {
        Along::Cuts { exprs } => {
            let count = exprs.len();
            write!(out, " cuts {count}")
        }
        Along::Model { .. } => push_word(out, "model"),
        Along::Learnt { cut, lines, .. } => {
            let count = lines.len();
            write!(out, " learnt {cut} {count}")
        }
        Along::Gates { cut, weight, .. } => write!(out, " gates {cut} {weight}"),
        Along::Large { cut, .. } => write!(out, " large {cut}"),
    }
}

/// The expressions of the cuts so far.
fn exprs_of(found: &Along) -> &[Expr] {
    match found {
        Along::Cuts { exprs } => exprs,
        Along::Model { .. } => &[],
        Along::Learnt { exprs, .. } => exprs,
        Along::Gates { exprs, .. } => exprs,
        Along::Large { exprs, .. } => exprs,
    }
}

/// Expressions with bars in front.
fn push_exprs(out: &mut String, exprs: &[Expr]) -> Result<(), AllocError> {
    for expr in exprs {
        out.push_str(" | ")?;
        push_expr(out, expr)?;
    }
    Ok(())
}

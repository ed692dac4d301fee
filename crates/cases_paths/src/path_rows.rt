//! Rows on paths: what `judge`, `path_weight`, `needed` and `carried` of `cpa_path` answer, and
//! interpolants along them.
//! Proved safe by the checker alone.

ghost use Rattle.std.specs.Prelude.{IfOk};
ghost use Rattle.cpa_iface.specs.Meanings.{IsPathOf};
ghost use Rattle.cpa_model.specs.Automata.{IsAutomaton};

use crate::folding::{push_carried, push_needed, push_weight};
use crate::interpolant_rows::push_along;
use crate::judging::push_judged;
use crate::told::Told;
use cases_programs::is_path;
use cases_reader::{RowFault, indices_of};
use cpa_model::{Cfa, Path};
use std::alloc::Global;
use std::thread::Threads;

/// Adds the answer of a row on a path, the edges of its one part.
pub fn push_answer<R: Threads + Sync>(
    rt: &R,
    alloc: Global,
    out: &mut String,
    cfa: &Cfa,
    words: &[&str],
    parts: &[&str],
) -> Result<(), RowFault>
    requires { IsAutomaton cfa.now }
{
    let [edges] = parts else {
        return Err(RowFault::Unreadable);
    };
    let path = path_of(alloc, cfa, edges)?;
    push_asked(rt, alloc, out, cfa, &path, words)
}

/// The path of these edges, which are to be there.
fn path_of(alloc: Global, cfa: &Cfa, edges: &str) -> Result<Path, RowFault>
    ensures { IfOk result (IsPathOf cfa.now) }
{
    let edges = indices_of(alloc, edges)?;
    let path = Path { edges };
    if is_path(&path, cfa) {
        Ok(path)
    } else {
        Err(RowFault::Unreadable)
    }
}

/// Adds what a row's words ask of the path.
fn push_asked<R: Threads + Sync>(
    rt: &R,
    alloc: Global,
    out: &mut String,
    cfa: &Cfa,
    path: &Path,
    words: &[&str],
) -> Result<(), RowFault>
    requires automaton { IsAutomaton cfa.now }
    requires path { IsPathOf cfa.now path.now }
{
    match words {
        ["along", limits @ .., workers] => {
            push_along(rt, alloc, out, cfa, path, Told::Outcome, limits, workers)
        }
        ["exprs", limits @ .., workers] => {
            push_along(rt, alloc, out, cfa, path, Told::All, limits, workers)
        }
        ["judge", limits @ ..] => push_judged(alloc, out, cfa, path, Told::Outcome, limits),
        ["inputs", limits @ ..] => push_judged(alloc, out, cfa, path, Told::All, limits),
        _ => push_folded(alloc, out, cfa, path, words),
    }
}

/// Adds what a row of one word asks of the path.
fn push_folded(
    alloc: Global,
    out: &mut String,
    cfa: &Cfa,
    path: &Path,
    words: &[&str],
) -> Result<(), RowFault>
    requires automaton { IsAutomaton cfa.now }
    requires path { IsPathOf cfa.now path.now }
{
    let pushed = match words {
        ["path_weight"] => push_weight(out, cfa, path),
        ["needed"] => push_needed(alloc, out, cfa, path),
        ["carried"] => push_carried(alloc, out, cfa, path),
        _ => return Err(RowFault::Unreadable),
    };
    Ok(pushed?)
}

//! Paths judged, by `IsJudged` of specs/Judgements. Proved with `proofs/Along.antt` and
//! `proofs/Formed.antt`.

ghost use Rattle.std.specs.Prelude.{◌≡◌, ℕ, ◌<◌, ◌≤◌, false, length, IfOk};
ghost use Rattle.std.specs.List.{AllByRecursion};
ghost use Rattle.cpa_model.specs.Automata.{IsAutomaton};
ghost use Rattle.cpa_path.specs.Judgements.{IsJudged, WantsSolver};
ghost use Rattle.cpa_path.specs.Paths.{Chains, has_input, path_weight};

use crate::asking::form_of_path;
use crate::chaining::{chains, has_input};
use crate::walking::walk;
use crate::weighing::path_weight;
use cpa_cnf::Line;
use cpa_form_rules::forms_are_runs;
use cpa_model::{Cfa, Path, edges_are_sound, edges_are_steps, steps_keep_states};
use cpa_solver::{Decided, decide};
use std::alloc::{AllocError, Global};

/// What comes of judging a path.
#[derive(Drop)]
pub enum Judged {
    /// A run along the path takes exactly these inputs and so many steps.
    Run { inputs: Vec<i128>, steps: u64 },
    /// There is no run along the path.
    NoRun,
    /// The solver wrote all lines that were allowed, without a decision.
    Learnt { lines: Vec<Line> },
    /// The path weighs more than was allowed.
    Gates { weight: u64 },
}

/// Judges the path. One that does not chain from the start to a call of `reach_error` has no run;
/// one without an input is run step by step; one that weighs more than `gates` is not put to the
/// solver, which else decides the path's query within `learnt` lines.
pub fn judge(
    alloc: Global,
    cfa: &Cfa,
    path: &Path,
    learnt: u32,
    gates: u64,
) -> Result<Judged, AllocError>
    requires automaton { IsAutomaton cfa.now }
    requires path { AllByRecursion (λ edge. edge < length cfa.now.edges) path.now.edges }
    ensures judged { IfOk result (IsJudged cfa.now path.now.edges learnt gates) }
    ensures heavy { WantsSolver cfa.now path.now.edges → gates < path_weight cfa.now path.now.edges
        → IfOk result (λ j. j ≡ Judged.Gates (path_weight cfa.now path.now.edges)) }
{
    let edges = path.edges.as_slice();
    let chained = chains(alloc, cfa, edges)?;
    if !chained {
        return Ok(Judged::NoRun);
    }
    if !has_input(cfa, edges) {
        return walked(alloc, cfa, edges);
    }
    let weight = path_weight(cfa, path);
    if gates < weight {
        return Ok(Judged::Gates { weight });
    }
    asked(alloc, cfa, edges, learnt)
}

/// Judges a path that chains and has no input, by its stores one after the other.
fn walked(alloc: Global, cfa: &Cfa, path: &[u32]) -> Result<Judged, AllocError>
    requires automaton { IsAutomaton cfa.now }
    requires path { AllByRecursion (λ edge. edge < length cfa.now.edges) path.now }
    requires chains { Chains cfa.now path.now }
    requires settled { has_input cfa.now path.now ≡ false }
    ensures { (learnt gates : ℕ) → IfOk result (IsJudged cfa.now path.now learnt gates) }
{
    steps_keep_states();
    edges_are_steps();
    let leads = walk(alloc, cfa, path)?;
    if leads {
        Ok(Judged::Run {
            inputs: Vec::new(alloc),
            steps: path.len() as u64,
        })
    } else {
        Ok(Judged::NoRun)
    }
}

/// Judges a path that chains and has an input, by the solver's answer to its query.
fn asked(alloc: Global, cfa: &Cfa, path: &[u32], learnt: u32) -> Result<Judged, AllocError>
    requires automaton { IsAutomaton cfa.now }
    requires path { AllByRecursion (λ edge. edge < length cfa.now.edges) path.now }
    requires wants { WantsSolver cfa.now path.now }
    ensures { (gates : ℕ) → path_weight cfa.now path.now ≤ gates
        → IfOk result (IsJudged cfa.now path.now learnt gates) }
{
    steps_keep_states();
    edges_are_steps();
    edges_are_sound();
    forms_are_runs();
    let form = form_of_path(alloc, cfa, path)?;
    let query = form.query()?;
    let decided = decide(alloc, &query, learnt)?;
    match decided {
        Decided::Model(store) => {
            let inputs = form.inputs_of(&store)?;
            let steps = path.len() as u64;
            Ok(Judged::Run { inputs, steps })
        }
        Decided::NoModel(_) => Ok(Judged::NoRun),
        Decided::Learnt(lines) => Ok(Judged::Learnt { lines }),
    }
}

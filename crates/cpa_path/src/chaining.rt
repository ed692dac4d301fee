//! Whether the edges of a path chain, by `Chains` of specs/Paths, and whether one is an input.
//! Proved with `proofs/Linked.antt`.

ghost use Rattle.std.specs.Prelude.{◌≡◌, ◌<◌, ◌↔◌, IsTrue, length, IfOk};
ghost use Rattle.std.specs.List.{AllByRecursion};
ghost use Rattle.cpa_model.specs.Automata.{IsAutomaton};
ghost use Rattle.cpa_path.specs.Paths.{Chains, has_input, is_input};

use cpa_model::{Act, Cfa, is_error, step_stack};
use std::alloc::{AllocError, Global};

/// Whether the edges chain by points and by call sites from the start to a call of `reach_error`.
/// It takes memory for the calls that are open at once.
pub(crate) fn chains(alloc: Global, cfa: &Cfa, path: &[u32]) -> Result<bool, AllocError>
    requires automaton { IsAutomaton cfa.now }
    requires path { AllByRecursion (λ edge. edge < length cfa.now.edges) path.now }
    ensures { IfOk result (λ yes. IsTrue yes ↔ Chains cfa.now path.now) }
{
    let mut point = cfa.start;
    let mut calls = Vec::new(alloc);
    for number in path {
        let edge = cfa.edge(*number);
        if edge.from != point {
            return Ok(false);
        }
        let stepped = step_stack(&edge.act, &mut calls)?;
        if !stepped {
            return Ok(false);
        }
        point = edge.to;
    }
    Ok(is_error(cfa, point))
}

/// Whether the act is an input.
fn is_input(act: &Act) -> bool
    ensures { result ≡ is_input act.now }
{
    match act {
        Act::Input { .. } => true,
        _ => false,
    }
}

/// Whether some edge of the path is an input.
pub(crate) fn has_input(cfa: &Cfa, path: &[u32]) -> bool
    requires path { AllByRecursion (λ edge. edge < length cfa.now.edges) path.now }
    ensures { result ≡ has_input cfa.now path.now }
{
    for number in path {
        if is_input(&cfa.edge(*number).act) {
            return true;
        }
    }
    false
}

//! The stores of a path without inputs, one after the other, by `HasStores` of specs/Paths. The
//! store is changed in place. Proved with `proofs/Walked.antt`.

ghost use Rattle.std.specs.Prelude.{◌≡◌, ◌<◌, [], IsTrue, false, List, ℤ, length, map, IfOk};
ghost use Rattle.std.specs.List.{AllByRecursion};
ghost use Rattle.cpa_model.specs.Steps.{StepsStore};
ghost use Rattle.cpa_model.specs.declared.program.Cell.{Cell as ACell};
ghost use Rattle.cpa_path.specs.Paths.{HasStores, has_input, is_input};

use cpa_interp::{assign, starts};
use cpa_model::{Act, Cell, Cfa, Seq, Store, has_truth};
use std::alloc::{AllocError, Global};

/// The store of the initial state.
fn first_store(alloc: Global, cells: &[Cell]) -> Result<Store, AllocError>
    ensures { IfOk result (λ s. s.values ≡ map (λ cell. cell.start) cells.now) }
{
    let values = starts(alloc, cells)?;
    Ok(Store {
        values: Seq::from_vec(values),
    })
}

/// What the act, which is no input, makes of the store, or false where it has no step.
fn step_store(alloc: Global, store: &mut Store, act: &Act) -> bool
    requires { is_input act.now ≡ false }
    ensures done { (cells : List ACell) → IsTrue result
        → StepsStore cells act.now store.old.values store.new.values }
    ensures never { (cells : List ACell) → result ≡ false → (new : List ℤ)
        → StepsStore cells act.now store.old.values new → ⊥ }
{
    match act {
        Act::Assign {
            base,
            len,
            index,
            value,
        } => assign(alloc, store, *base, *len, index, value),
        Act::Assume { test, holds } => has_truth(test, *holds, store),
        Act::Input { .. } => false,
        Act::Skip | Act::Call { .. } | Act::Return { .. } => true,
    }
}

/// Whether stores lead along the edges, none of which is an input. It takes memory for one store.
pub(crate) fn walk(alloc: Global, cfa: &Cfa, path: &[u32]) -> Result<bool, AllocError>
    requires path { AllByRecursion (λ edge. edge < length cfa.now.edges) path.now }
    requires settled { has_input cfa.now path.now ≡ false }
    ensures yes { IfOk result (λ b. IsTrue b
        → (last : List ℤ) × HasStores cfa.now path.now [] last) }
    ensures no { IfOk result (λ b. b ≡ false
        → (inputs last : List ℤ) → HasStores cfa.now path.now inputs last → ⊥) }
{
    let mut store = first_store(alloc, cfa.cells.as_slice())?;
    for number in path {
        let stepped = step_store(alloc, &mut store, &cfa.edge(*number).act);
        if !stepped {
            return Ok(false);
        }
    }
    Ok(true)
}

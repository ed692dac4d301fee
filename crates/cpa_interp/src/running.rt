//! The replay of inputs on an automaton, by `Replay` of `specs/Replays.antt`; shown in
//! `proofs/Arriving.antt`.
ghost use Rattle.std.specs.Prelude.{◌≡◌, ◌<◌, ◌^◌, length, IfOk};
ghost use Rattle.cpa_model.specs.declared.program.Program.{Program};
ghost use Rattle.cpa_model.specs.Automata.{IsAutomaton, IsAutomatonOf, initial_state};
ghost use Rattle.cpa_model.specs.Programs.{IsWellFormed};
ghost use Rattle.cpa_interp.specs.declared.outcome.Outcome.{Outcome};
ghost use Rattle.cpa_interp.specs.Replays.{Replay};
ghost use Rattle.cpa_interp.specs.Turns.{IsLast, state_of};

use crate::edges::edges_from;
use crate::machine::Machine;
use crate::outcome::Outcome;
use cpa_model::{Cfa, edges_are_steps, initial_is_state, is_error, steps_keep_states};
use std::alloc::{AllocError, Global};

/// What comes of the one execution whose inputs are these numbers in order, within so many steps.
/// Numbers that no step takes are ignored. It takes memory for a value of each cell and for the
/// calls that are open at once.
pub fn replay(alloc: Global, cfa: &Cfa, inputs: &[i128], steps: u64) -> Result<Outcome, AllocError>
    requires automaton { IsAutomaton cfa.now }
    requires few { length inputs.now < 2 ^ 32 }
    ensures comes { (P : Program) → IsWellFormed P → IsAutomatonOf P cfa.now
        → IfOk result (λ outcome. Replay P inputs.now steps outcome) }
    ensures only { (P : Program) (outcome : Outcome) → IsWellFormed P → IsAutomatonOf P cfa.now
        → Replay P inputs.now steps outcome → IfOk result (λ answer. answer ≡ outcome) }
{
    steps_keep_states();
    initial_is_state();
    let mut machine = Machine::new(alloc, cfa)?;
    run(alloc, &mut machine, cfa, inputs, steps)
}

/// Runs the machine from its initial state to an outcome.
fn run(
    alloc: Global,
    machine: &mut Machine,
    cfa: &Cfa,
    inputs: &[i128],
    steps: u64,
) -> Result<Outcome, AllocError>
    requires automaton { IsAutomaton cfa.now }
    requires few { length inputs.now < 2 ^ 32 }
    requires state { state_of machine.old ≡ initial_state cfa.now }
    requires taken { machine.old.taken ≡ 0 }
    ensures { (P : Program) → IsWellFormed P → IsAutomatonOf P cfa.now
        → IfOk result (λ outcome. Replay P inputs.now steps outcome) }
{
    initial_is_state();
    edges_are_steps();
    for made in 0..steps {
        let edges = edges_from(cfa, machine.point);
        if edges.is_empty() {
            return Ok(last(cfa, machine.point, made));
        }
        if let Some(held) = machine.turn(alloc, cfa, edges, inputs)? {
            return Ok(held);
        }
    }
    if edges_from(cfa, machine.point).is_empty() {
        Ok(last(cfa, machine.point, steps))
    } else {
        Ok(Outcome::StepsSpent)
    }
}

/// What has come where no edge leaves the point.
fn last(cfa: &Cfa, point: u32, steps: u64) -> Outcome
    requires { IsAutomaton cfa.now }
    ensures { IsLast cfa.now point steps result }
{
    if is_error(cfa, point) {
        Outcome::Error { steps }
    } else {
        Outcome::Ended
    }
}

//! Laws on replays: functions whose contract is the law, and which do nothing. They are shown in
//! `specs/lemmas`.
ghost use Rattle.std.specs.Prelude.{◌≡◌, ℕ, ℤ, List};
ghost use Rattle.cpa_model.specs.declared.program.Program.{Program};
ghost use Rattle.cpa_model.specs.declared.states.State.{State};
ghost use Rattle.cpa_model.specs.Programs.{IsWellFormed};
ghost use Rattle.cpa_model.specs.Steps.{CallsError, IsExecution, Step};
ghost use Rattle.cpa_interp.specs.declared.outcome.Outcome.{Outcome};
ghost use Rattle.cpa_interp.specs.declared.outcome.Outcome.TheVariants as outcome;
ghost use Rattle.cpa_interp.specs.Replays.{Replay, input_of};

use cpa_model::{initial_is_state, steps_keep_states};

/// A law: of a well-formed program, the inputs and the budget give exactly one outcome.
pub fn replays_have_one_outcome()
    ensures some { (P : Program) (inputs : List ℤ) (budget : ℕ) → IsWellFormed P
        → (result : Outcome) × Replay P inputs budget result }
    ensures one { (P : Program) (inputs : List ℤ) (budget : ℕ) (a b : Outcome) → IsWellFormed P
        → Replay P inputs budget a → Replay P inputs budget b → a ≡ b }
{
    steps_keep_states();
    initial_is_state();
}

/// A law: two steps from one state that take the same input lead to the same state.
pub fn steps_are_chosen_by_inputs()
    ensures { (P : Program) (s t u : State) → IsWellFormed P → Step P s t → Step P s u
        → input_of P s t ≡ input_of P s u → t ≡ u }
{}

/// A law: where the outcome is the error, an execution calls it.
pub fn errors_are_called()
    ensures { (P : Program) (inputs : List ℤ) (budget steps : ℕ)
        → Replay P inputs budget (outcome.Error steps)
        → (states : List State) × IsExecution P states × CallsError P states }
{}

//! The job of the command `replay`: what comes of a program on given inputs (`IsReplayed` of
//! `specs/Ends.antt`); shown in `proofs/Stages.antt`.
ghost use Rattle.std.specs.Prelude.{◌≡◌, ◌<◌, ◌^◌, List, length, IfOk};
ghost use Rattle.std.specs.String.{string_bytes};
ghost use Rattle.cpa_model.specs.Programs.{IsWellFormed};
ghost use Rattle.cpa_iface.specs.Meanings.{Meaning};
ghost use Rattle.cpa_interp.specs.Replays.{Replay};
ghost use Rattle.cpa_top_jobs.specs.Files.{files_of};
ghost use Rattle.cpa_top_words.specs.Jobs.{replay};
ghost use Rattle.cpa_top_jobs.specs.Lines.{outcome_line};
ghost use Rattle.cpa_top_jobs.specs.Refusals.{IsDone, IsOutcome};
ghost use Rattle.cpa_top_jobs.specs.Statuses.{outcome_status};

use crate::Status;
use crate::conclusion::Conclusion;
use crate::files::{take_inputs, take_program};
use crate::refusal::Refusal;
use cfa_build::build;
use cpa_interp::Outcome;
use cpa_ints::DataModel;
use cpa_model::Program;
use cpa_outside::Inputs;
use std::alloc::{AllocError, Global};

/// The status of an outcome.
fn outcome_status(outcome: Outcome) -> Status
    ensures { result ≡ outcome_status outcome }
{
    match outcome {
        Outcome::Error { .. } => Status::Fails,
        Outcome::Ended | Outcome::Trapped { .. } => Status::Holds,
        Outcome::InputsShort { .. } | Outcome::BadInput { .. } | Outcome::StepsSpent => {
            Status::Unknown
        }
    }
}

/// The line of an outcome.
fn outcome_line(alloc: Global, outcome: Outcome) -> Result<String, AllocError>
    ensures { IfOk result (λ line. string_bytes line ≡ outcome_line outcome) }
{
    match outcome {
        Outcome::Error { steps } => format!(in alloc; "ERROR {steps}\n"),
        Outcome::Ended => String::from_str(alloc, "ENDED\n"),
        Outcome::Trapped { point } => format!(in alloc; "TRAPPED {point}\n"),
        Outcome::InputsShort { point } => format!(in alloc; "SHORT {point}\n"),
        Outcome::BadInput { place } => format!(in alloc; "BADINPUT {place}\n"),
        Outcome::StepsSpent => String::from_str(alloc, "SPENT\n"),
    }
}

/// The outcome of the program on the inputs.
fn outcome(
    alloc: Global,
    program: &Program,
    inputs: &[i128],
    steps: u64,
) -> Result<Outcome, AllocError>
    requires well_formed { IsWellFormed program.now }
    requires few { length inputs.now < 2 ^ 32 }
    ensures { IfOk result (λ outcome. Replay program.now inputs.now steps outcome) }
{
    let cfa = build(alloc, program)?;
    cpa_interp::replay(alloc, &cfa, inputs, steps)
}

/// What comes of the program on the inputs.
fn conclude(
    alloc: Global,
    program: &Program,
    inputs: &[i128],
    steps: u64,
) -> Result<Conclusion, AllocError>
    requires well_formed { IsWellFormed program.now }
    requires few { length inputs.now < 2 ^ 32 }
    ensures { IfOk result (λ conclusion. IsOutcome steps program.now inputs.now conclusion) }
{
    let outcome = outcome(alloc, program, inputs, steps)?;
    Ok(Conclusion {
        status: outcome_status(outcome),
        text: outcome_line(alloc, outcome)?.into_bytes(),
    })
}

/// Replays the program of the first name, read in the data model, on the inputs of the second, in
/// so many steps at most.
pub fn replay<I: Inputs>(
    alloc: Global,
    program: &str,
    list: &str,
    steps: u64,
    model: DataModel,
    inputs: &mut I,
) -> Result<Conclusion, Refusal>
    ensures { (analyses : List Meaning) → IsDone
        (files_of (I.bytes_of inputs.old) (I.faults_of inputs.old) (I.faults_of inputs.new))
        analyses (replay program.now list.now steps model) result }
{
    let program = take_program(alloc, inputs, program, model)?;
    let numbers = take_inputs(alloc, inputs, list)?;
    Ok(conclude(alloc, &program, numbers.as_slice(), steps)?)
}

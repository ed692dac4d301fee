//! The files of a job: read, and taken for what they stand for (`IsTaken`, `IsHalted` of
//! `specs/Refusals.antt`); shown in `proofs/Taking.antt`.
ghost use Rattle.std.specs.Prelude.{◌≡◌, ◌<◌, ◌≤◌, ◌^◌, length, IfOk, IfErr, IfSome, OnOk};
ghost use Rattle.c_lexer.specs.declared.lexer.TheConstants.{MAX_TEXT};
ghost use Rattle.cpa_model.specs.Programs.{IsWellFormed};
ghost use Rattle.c_program.specs.Programs.{IsTheProgram};
ghost use Rattle.cpa_top_jobs.specs.Inputs.{IsInputs};
ghost use Rattle.cpa_top_jobs.specs.declared.refusal.Refusal.TheVariants.{OutOfMemory};
ghost use Rattle.cpa_top_jobs.specs.Ends.{IsModelOf, NoInputs};
ghost use Rattle.cpa_top_jobs.specs.Files.{files_of};
ghost use Rattle.cpa_top_jobs.specs.Jobs.{ModelSource, limit_of, reading, program_stages};
ghost use Rattle.cpa_top_jobs.specs.Jobs.{inputs_stages};
ghost use Rattle.cpa_top_jobs.specs.Refusals.{IsRefusedAt, IsHalted, IsTaken, IsTextRefused};
ghost use Rattle.cpa_top_jobs.specs.Refusals.{IsListRefused};

use crate::Role;
use crate::input_list::read_inputs;
use crate::inputs_error::InputsError;
use crate::place::fault_line;
use crate::refusal::Refusal;
use c_lexer::TextError;
use c_program::program;
use cpa_ints::DataModel;
use cpa_model::Program;
use cpa_outside::{Inputs, ReadFault};
use std::alloc::Global;

/// The bytes of a file, of which there may be as many as its role allows.
pub fn read_file<I: Inputs>(
    alloc: Global,
    inputs: &mut I,
    role: Role,
    name: &str,
) -> Result<Vec<u8>, Refusal>
    ensures told { I.bytes_of inputs.new ≡ I.bytes_of inputs.old }
    ensures bytes { IfOk result (λ bytes.
        IfSome (I.bytes_of inputs.old name.now) (λ told. bytes.items ≡ told)) }
    ensures within { IfOk result (λ bytes. length bytes.items ≤ limit_of role) }
    ensures reads { OnOk result (I.faults_of inputs.new ≡ I.faults_of inputs.old) }
    ensures refused { IfErr result (λ refusal. IsRefusedAt
        (files_of (I.bytes_of inputs.old) (I.faults_of inputs.old) (I.faults_of inputs.new))
        (reading role name.now) refusal) }
{
    match inputs.read(alloc, name, role.limit()) {
        Ok(bytes) => Ok(bytes),
        Err(ReadFault::Failed) => Err(Refusal::ReadFailed { role }),
        Err(ReadFault::TooLong) => Err(Refusal::TooLong { role }),
        Err(ReadFault::OutOfMemory) => Err(Refusal::OutOfMemory),
    }
}

/// The program that the bytes stand for in the data model.
pub(crate) fn program_of(alloc: Global, bytes: &[u8], model: DataModel) -> Result<Program, Refusal>
    requires { length bytes.now ≤ MAX_TEXT }
    ensures program { IfOk result (λ program. IsTheProgram model bytes.now program) }
    ensures refused { IfErr result (λ refusal. IsTextRefused model bytes.now refusal) }
{
    match program(alloc, bytes, model) {
        Ok(program) => Ok(program),
        Err(TextError::Fault(fault)) => Err(Refusal::NoProgram {
            line: fault_line(alloc, bytes, fault)?,
        }),
        Err(TextError::OutOfMemory) => Err(Refusal::OutOfMemory),
    }
}

/// The inputs that the bytes list.
fn numbers_of(alloc: Global, bytes: &[u8]) -> Result<Vec<i128>, Refusal>
    ensures inputs { IfOk result (λ numbers. IsInputs bytes.now numbers.items) }
    ensures few { IfOk result (λ numbers. length numbers.items < 2 ^ 32) }
    ensures refused { IfErr result (λ refusal. IsListRefused bytes.now refusal) }
{
    match read_inputs(alloc, bytes) {
        Ok(numbers) => Ok(numbers),
        Err(InputsError::NoList) => Err(Refusal::NoInputs),
        Err(InputsError::OutOfMemory) => Err(Refusal::OutOfMemory),
    }
}

/// The program that the file of a name stands for in the data model.
pub fn take_program<I: Inputs>(
    alloc: Global,
    inputs: &mut I,
    name: &str,
    model: DataModel,
) -> Result<Program, Refusal>
    ensures told { I.bytes_of inputs.new ≡ I.bytes_of inputs.old }
    ensures program { IfOk result (λ program.
        IsTaken (I.bytes_of inputs.old name.now) (λ bytes. IsTheProgram model bytes program)) }
    ensures well_formed { IfOk result (λ program. IsWellFormed program) }
    ensures reads { OnOk result (I.faults_of inputs.new ≡ I.faults_of inputs.old) }
    ensures refused { (source : ModelSource) → IsModelOf (I.bytes_of inputs.old) source model
        → IfErr result (IsHalted
        (files_of (I.bytes_of inputs.old) (I.faults_of inputs.old) (I.faults_of inputs.new))
        (program_stages source name.now)) }
{
    let bytes = read_file(alloc, inputs, Role::Program, name)?;
    program_of(alloc, bytes.as_slice(), model)
}

/// The inputs that the file of a name lists.
pub(crate) fn take_inputs<I: Inputs>(
    alloc: Global,
    inputs: &mut I,
    name: &str,
) -> Result<Vec<i128>, Refusal>
    ensures told { I.bytes_of inputs.new ≡ I.bytes_of inputs.old }
    ensures inputs { IfOk result (λ numbers.
        IsTaken (I.bytes_of inputs.old name.now) (λ bytes. IsInputs bytes numbers.items)) }
    ensures few { IfOk result (λ numbers. length numbers.items < 2 ^ 32) }
    ensures reads { OnOk result (I.faults_of inputs.new ≡ I.faults_of inputs.old) }
    ensures refused { IfErr result (IsHalted
        (files_of (I.bytes_of inputs.old) (I.faults_of inputs.old) (I.faults_of inputs.new))
        (inputs_stages name.now)) }
{
    let bytes = read_file(alloc, inputs, Role::Inputs, name)?;
    numbers_of(alloc, bytes.as_slice())
}

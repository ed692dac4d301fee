//! The reader of an inputs file, over the JSON reader of serde_json (`IsInputs` of
//! `specs/Inputs.antt`); `proofs/Numbers.antt` has what is left of a list while it is read.
ghost use Rattle.std.specs.Prelude.{◌≡◌, ◌^◌, ◌<◌, ℤ, List, length, IfOk, IfErr, IfSome};
ghost use Rattle.std.specs.Prelude.{IsUtf8, Some, None};
ghost use Rattle.std.specs.List.{AllByRecursion};
ghost use Rattle.serde_json.specs.Errors.{IsMemory};
ghost use Rattle.serde_json.specs.Read.{read};
ghost use Rattle.serde_json.specs.View.{view, items_view};
ghost use Rattle.cpa_top_jobs.specs.declared.inputs_error.InputsError.TheVariants.{NoList};
ghost use Rattle.cpa_top_jobs.specs.Inputs.{IsInput, IsInputs, whole_number, whole_numbers};
ghost use Rattle.cpa_top_jobs.specs.Inputs.{numbers_in};

use crate::inputs_error::InputsError;
use serde_json::{Error, Value};
use std::alloc::Global;

/// What an error of the JSON reader is: of a text that is no JSON, or of memory.
fn fault_of(error: &Error) -> InputsError
    ensures { result ≡ NoList → IsMemory error.now → ⊥ }
{
    if error.is_memory() {
        InputsError::OutOfMemory
    } else {
        InputsError::NoList
    }
}

/// The JSON data that the bytes are.
fn data_of(alloc: Global, bytes: &[u8]) -> Result<Value, InputsError>
    ensures utf8 { IfOk result (λ value. IsUtf8 bytes.now) }
    ensures data { IfOk result (λ value. read bytes.now ≡ Some (view value)) }
    ensures none { IfErr result (λ error. error ≡ NoList → IsUtf8 bytes.now
        → read bytes.now ≡ None) }
{
    match Value::from_slice(alloc, bytes) {
        Ok(value) => Ok(value),
        Err(error) => Err(fault_of(&error)),
    }
}

/// The whole number of 64 bits that a value is, if it is one.
fn whole_number(value: &Value) -> Option<i128>
    ensures number { result ≡ whole_number (view value.now) }
    ensures range { IfSome result IsInput }
{
    match value.as_u64() {
        Some(number) => Some(i128::from(number)),
        None => value.as_i64().map(i128::from),
    }
}

/// The whole numbers that the values are, if each is one.
fn whole_numbers(alloc: Global, values: &[Value]) -> Result<Vec<i128>, InputsError>
    ensures numbers { IfOk result (λ numbers.
        whole_numbers (items_view values.now) ≡ Some numbers.items) }
    ensures range { IfOk result (λ numbers. AllByRecursion IsInput numbers.items) }
    ensures none { IfErr result (λ error. error ≡ NoList →
        whole_numbers (items_view values.now) ≡ None) }
{
    let mut numbers = Vec::with_capacity(alloc, values.len())?;
    for value in values {
        match whole_number(value) {
            Some(number) => numbers.push(number)?,
            None => return Err(InputsError::NoList),
        }
    }
    Ok(numbers)
}

/// The whole numbers of a value, if it is a list of them.
fn numbers_in(alloc: Global, value: &Value) -> Result<Vec<i128>, InputsError>
    ensures numbers { IfOk result (λ numbers. numbers_in (view value.now) ≡ Some numbers.items) }
    ensures range { IfOk result (λ numbers. AllByRecursion IsInput numbers.items) }
    ensures none { IfErr result (λ error. error ≡ NoList → numbers_in (view value.now) ≡ None) }
{
    match value.as_array() {
        Some(values) => whole_numbers(alloc, values.as_slice()),
        None => Err(InputsError::NoList),
    }
}

/// The numbers of an inputs file, in order.
///
/// The bytes are read whole. A list of 2^32 numbers counts as want of memory.
pub(crate) fn read_inputs(alloc: Global, bytes: &[u8]) -> Result<Vec<i128>, InputsError>
    ensures inputs { IfOk result (λ numbers. IsInputs bytes.now numbers.items) }
    ensures few { IfOk result (λ numbers. length numbers.items < 2 ^ 32) }
    ensures refused { IfErr result (λ error. error ≡ NoList →
        (numbers : List ℤ) → IsInputs bytes.now numbers → ⊥) }
{
    let value = data_of(alloc, bytes)?;
    let numbers = numbers_in(alloc, &value)?;
    if numbers.len() > u32::MAX as usize {
        return Err(InputsError::OutOfMemory);
    }
    Ok(numbers)
}

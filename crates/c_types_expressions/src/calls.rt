//! Noting the calls of functions that have a body (`called_body` of `c_types_rules`,
//! `specs/Items.antt`). Proved by the checker alone.
ghost use Rattle.std.specs.Prelude.{◌≡◌, ◌++◌, OnOk};
ghost use Rattle.c_types_rules.specs.Items.{called_body};
ghost use Rattle.c_types_expressions.specs.Read.{form_calls};

use c_types_recursion::Call;
use c_types_rules::{Form, Meaning};
use std::alloc::AllocError;

/// Notes a call of what a name stands for.
fn note_called(
    calls: &mut Vec<Call>,
    caller: u32,
    place: u32,
    meaning: Option<Meaning>,
) -> Result<(), AllocError>
    ensures { OnOk result (calls.new.items ≡ calls.old.items ++ called_body caller place meaning) }
{
    match meaning {
        Some(Meaning::Function(function)) => match function.body {
            Some(callee) => {
                calls.push(Call {
                    caller,
                    callee,
                    place,
                })?;
                Ok(())
            }
            None => Ok(()),
        },
        _ => Ok(()),
    }
}

/// Notes a call of what stands before the brackets.
pub(crate) fn note_call(calls: &mut Vec<Call>, caller: u32, form: Form) -> Result<(), AllocError>
    ensures { OnOk result (calls.new.items ≡ calls.old.items ++ form_calls caller form) }
{
    match form {
        Form::Bare { place, meaning } => note_called(calls, caller, place, meaning),
        Form::Element { .. } | Form::Plain => Ok(()),
    }
}

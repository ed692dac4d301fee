//! The program of a text and its automaton. It owes safety alone, proved by the checker alone.
ghost use Rattle.std.specs.Prelude.{◌≤◌, length};
ghost use Rattle.c_lexer.specs.declared.lexer.TheConstants.{MAX_TEXT};
ghost use Rattle.cpa_model.specs.Programs.{IsWellFormed};

use crate::words::{automaton_line, program_line};
use c_lexer::TextError;
use c_program::program;
use cfa_build::build;
use cpa_ints::DataModel;
use cpa_model::Program;
use std::alloc::{AllocError, Global};

/// The program of a text in a line.
pub(crate) fn statements(alloc: Global, text: &[u8], model: DataModel) -> Result<String, TextError>
    requires { length text.now ≤ MAX_TEXT }
{
    let program = program(alloc, text, model)?;
    Ok(program_line(alloc, &program)?)
}

/// The automaton of a text's program in a line.
pub(crate) fn edges(alloc: Global, text: &[u8], model: DataModel) -> Result<String, TextError>
    requires { length text.now ≤ MAX_TEXT }
{
    let program = program(alloc, text, model)?;
    Ok(edges_of(alloc, &program)?)
}

/// The automaton of a program in a line.
fn edges_of(alloc: Global, program: &Program) -> Result<String, AllocError>
    requires { IsWellFormed program.now }
{
    let cfa = build(alloc, program)?;
    automaton_line(alloc, &cfa)
}

//! The error points: the calls of `reach_error`, ascending, by `AreNumbersBelow`.
//! Proved with `proofs/Growth.antt`.

ghost use Rattle.std.specs.Prelude.{◌+◌, ◌<◌, ◌↔◌, length, IsTrue, IfOk, OnOk};
ghost use Rattle.cpa_model.specs.Programs.{IsWellFormed};
ghost use Rattle.cpa_model.specs.Steps.{IsError};
ghost use Rattle.cfa_build.specs.Edges.{AreNumbersBelow};

use cpa_model::{Program, Seq, Stmt};
use std::alloc::{AllocError, Global};

/// Whether the statement `n` is a call of `reach_error`.
fn is_error(program: &Program, n: u32) -> bool
    requires { n < length program.now.stmts }
    ensures { IsTrue result ↔ IsError program.now n }
{
    match program.statement(n) {
        Stmt::Error => true,
        _ => false,
    }
}

/// Adds the statement `n` if it is a call of `reach_error`.
fn add_error(program: &Program, n: u32, errors: &mut Seq<u32>) -> Result<(), AllocError>
    requires inside { n < length program.now.stmts }
    requires below { AreNumbersBelow (IsError program.now) n errors.old }
    ensures { OnOk result (AreNumbersBelow (IsError program.now) (n + 1) errors.new) }
{
    if is_error(program, n) {
        errors.push(n)
    } else {
        Ok(())
    }
}

/// The calls of `reach_error`.
pub(crate) fn errors(alloc: Global, program: &Program) -> Result<Seq<u32>, AllocError>
    requires { IsWellFormed program.now }
    ensures { IfOk result (AreNumbersBelow (IsError program.now) (length program.now.stmts)) }
{
    let mut errors = Seq::new(alloc);
    for n in 0..program.stmts.len() {
        add_error(program, n as u32, &mut errors)?;
    }
    Ok(errors)
}

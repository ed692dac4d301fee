//! The call sites of each function, ascending, by `AreSitesBelow`.
//! Proved with `proofs/Growth.antt`.

ghost use Rattle.std.specs.Prelude.{◌≡◌, ℕ, ◌+◌, ◌<◌, ◌↔◌, Some, length, IfOk, OnOk};
ghost use Rattle.cpa_model.specs.Programs.{IsWellFormed};
ghost use Rattle.cfa_build.specs.Edges.{AreSitesBelow, IsCallOf};

use cpa_model::{Program, Seq, Stmt};
use std::alloc::{AllocError, Global};

/// The function that the statement `n` calls, if it is a call.
fn callee(program: &Program, n: u32) -> Option<u32>
    requires { n < length program.now.stmts }
    ensures { (f : ℕ) → (result ≡ Some f) ↔ IsCallOf program.now f n }
{
    match program.statement(n) {
        Stmt::Call { function } => Some(*function),
        _ => None,
    }
}

/// An empty list for each function.
fn no_sites(alloc: Global, program: &Program) -> Result<Vec<Seq<u32>>, AllocError>
    ensures { IfOk result (λ sites. AreSitesBelow program.now 0 sites.items) }
{
    let mut sites = Vec::new(alloc);
    for _ in &program.bodies {
        sites.push(Seq::new(alloc))?;
    }
    Ok(sites)
}

/// Adds the statement `n` to the calls of the function that it calls, if it is a call.
fn add_site(program: &Program, n: u32, sites: &mut [Seq<u32>]) -> Result<(), AllocError>
    requires well_formed { IsWellFormed program.now }
    requires inside { n < length program.now.stmts }
    requires below { AreSitesBelow program.now n sites.old }
    ensures { OnOk result (AreSitesBelow program.now (n + 1) sites.new) }
{
    match callee(program, n) {
        Some(f) => sites[f as usize].push(n),
        None => Ok(()),
    }
}

/// The calls of each function.
pub(crate) fn call_sites(alloc: Global, program: &Program) -> Result<Vec<Seq<u32>>, AllocError>
    requires { IsWellFormed program.now }
    ensures { IfOk result
        (λ sites. AreSitesBelow program.now (length program.now.stmts) sites.items) }
{
    let mut sites = no_sites(alloc, program)?;
    for n in 0..program.stmts.len() {
        add_site(program, n as u32, &mut sites)?;
    }
    Ok(sites)
}

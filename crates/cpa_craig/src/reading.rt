//! Interpolants that read a cell, by `reads_some` of `cpa_folds`.
//! Proved with `proofs/ReadLemmas.antt`.

ghost use Rattle.std.specs.Prelude.{◌≡◌, ◌∷◌, ◌++◌, [], if◌then◌else◌, IfOk, OnOk};
ghost use Rattle.std.specs.List.{AllByRecursion, filter};
ghost use Rattle.cpa_model.specs.Automata.{IsAutomaton};
ghost use Rattle.cpa_model.specs.Expressions.{IsExpr};
ghost use Rattle.cpa_folds.specs.Carried.{reads_some};

use cpa_expr::{copy, may_read};
use cpa_model::{Cfa, Expr};
use std::alloc::{AllocError, Global};

/// Whether the expression reads a cell of the program.
fn reads_cell(cfa: &Cfa, e: &Expr) -> bool
    requires automaton { IsAutomaton cfa.now }
    requires expression { IsExpr cfa.now.cells e.now }
    ensures { result ≡ reads_some e.now }
{
    let count = cfa.cells.len() as u32;
    for cell in 0..count {
        if may_read(e, cell) {
            return true;
        }
    }
    false
}

/// Adds a copy of the expression at the end, if it reads a cell.
fn push_reading(alloc: Global, cfa: &Cfa, read: &mut Vec<Expr>, e: &Expr) -> Result<(), AllocError>
    requires automaton { IsAutomaton cfa.now }
    requires expression { IsExpr cfa.now.cells e.now }
    ensures { OnOk result (read.new.items
        ≡ (if reads_some e.now then read.old.items ++ e.now ∷ [] else read.old.items)) }
{
    if reads_cell(cfa, e) {
        read.push(copy(alloc, e)?)?;
    }
    Ok(())
}

/// Copies of those that read a cell, in order.
pub(crate) fn reading(alloc: Global, cfa: &Cfa, es: &[Expr]) -> Result<Vec<Expr>, AllocError>
    requires automaton { IsAutomaton cfa.now }
    requires expressions { AllByRecursion (IsExpr cfa.now.cells) es.now }
    ensures { IfOk result (λ read. read.items ≡ filter reads_some es.now) }
{
    let mut read = Vec::new(alloc);
    for e in es {
        push_reading(alloc, cfa, &mut read, e)?;
    }
    Ok(read)
}

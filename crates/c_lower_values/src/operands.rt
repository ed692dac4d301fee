//! Any number of operands (`hold_all` of `c_core_rules`, `specs/Acts.antt`). Proved with
//! `proofs/HeldOperands.antt`.
ghost use Rattle.std.specs.Prelude.{◌≡◌, IfOk, OnOk};
ghost use Rattle.c_core_rules.specs.Acts.{hold_all, statements_of, values_of};
ghost use Rattle.c_lower_values.specs.Held.{full_count, left_behind, held_where};
ghost use Rattle.c_lower_values.specs.Found.{so_far};

use crate::acts::{held, is_pure};
use crate::cells::Cells;
use c_core_rules::Valued;
use c_lower_choices::joined;
use cpa_expr::Expr;
use cpa_ints::{Boxed, Seq};
use cpa_model_trees::CoreTree;
use std::alloc::{AllocError, Global};

/// How many of these have statements.
fn full_count(operands: &[Valued]) -> usize
    ensures { result ≡ full_count operands.now }
{
    let mut count = 0;
    for v in operands {
        if !is_pure(v) {
            count += 1;
        }
    }
    count
}

/// How many of these stand behind the first.
fn left_behind(count: usize, first: &Valued) -> usize
    ensures { result ≡ left_behind count first.now }
{
    if is_pure(first) {
        count
    } else {
        count.saturating_sub(1)
    }
}

/// A value that is held where some behind it have statements.
fn held_where(cells: &mut Cells, origin: u32, count: usize, v: Valued) -> Result<Valued, AllocError>
    ensures taken { OnOk result (so_far cells.new
        ≡ (held_where origin count v (so_far cells.old)).taken) }
    ensures made { IfOk result (λ w. w ≡ (held_where origin count v (so_far cells.old)).made) }
{
    if count == 0 {
        Ok(v)
    } else {
        held(cells, origin, v)
    }
}

/// Operands, each held that has statements behind it.
pub fn hold_all(
    cells: &mut Cells,
    origin: u32,
    operands: Vec<Valued>,
) -> Result<Vec<Valued>, AllocError>
    ensures taken { OnOk result (so_far cells.new
        ≡ (hold_all origin operands.items (so_far cells.old)).taken) }
    ensures made { IfOk result (λ vs. vs.items
        ≡ (hold_all origin operands.items (so_far cells.old)).made) }
{
    let mut left = full_count(&operands);
    let mut kept = Vec::new(cells.alloc());
    for v in operands {
        left = left_behind(left, &v);
        kept.push(held_where(cells, origin, left, v)?)?;
    }
    Ok(kept)
}

/// The statements of operands, and their values.
pub fn divided(
    alloc: Global,
    operands: Vec<Valued>,
) -> Result<(Seq<CoreTree>, Vec<Boxed<Expr>>), AllocError>
    ensures statements { IfOk result (λ parts. parts.0 ≡ statements_of operands.items) }
    ensures values { IfOk result (λ parts. parts.1.items ≡ values_of operands.items) }
{
    let mut statements = Seq::new(alloc);
    let mut values = Vec::new(alloc);
    for v in operands {
        statements = joined(statements, v.statements)?;
        values.push(v.value)?;
    }
    Ok((statements, values))
}

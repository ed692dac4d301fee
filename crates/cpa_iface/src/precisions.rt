//! What an analysis is asked to keep, and an equal copy of it.
//! `no_precision` stands in `specs/Common.antt`. Proved with `proofs/precisions/`.

ghost use Rattle.std.specs.Prelude.{◌≡◌, ◌↔◌, IfOk, IsTrue};
ghost use Rattle.cpa_iface.specs.Common.{no_precision};

use crate::cells::Cells;
use cpa_expr::copy;
use cpa_model::{Expr, Seq, Shared};
use std::alloc::{AllocError, Global};

/// What an analysis is asked to keep (ASE 2008).
#[derive(Drop)]
pub struct Precision {
    /// The cells whose values are kept.
    pub tracked: Cells,
    /// The most distinct values that are kept of a cell, 0 for no limit.
    pub limit: u32,
    /// The predicates whose truth is kept.
    pub preds: Shared<Expr>,
}

/// The precision that asks for nothing. It takes no memory.
pub fn empty_precision(_alloc: Global) -> Precision
    ensures { result ≡ no_precision }
{
    Precision {
        tracked: Cells::new(),
        limit: 0,
        preds: Shared::new(),
    }
}

/// An equal precision, which shares the lists. It takes no memory.
pub fn copy_precision(_alloc: Global, precision: &Precision) -> Result<Precision, AllocError>
    ensures { IfOk result (λ p. p ≡ precision.now) }
{
    let tracked = precision.tracked.share()?;
    let preds = precision.preds.share()?;
    Ok(Precision {
        tracked,
        limit: precision.limit,
        preds,
    })
}

/// An equal list of cells.
pub fn copy_cells(alloc: Global, cells: &[u32]) -> Result<Seq<u32>, AllocError>
    ensures { IfOk result (λ list. list ≡ cells.now) }
{
    Ok(Seq::from_vec(cells.to_vec(alloc)?))
}

/// An equal list of predicates.
pub fn copy_preds(alloc: Global, preds: &[Expr]) -> Result<Seq<Expr>, AllocError>
    ensures { IfOk result (λ list. list ≡ preds.now) }
{
    let mut copies = Seq::new(alloc);
    for pred in preds {
        copies.push(copy(alloc, pred)?)?;
    }
    Ok(copies)
}

/// Whether two lists have the same predicates in the same order.
fn same_preds(preds: &Shared<Expr>, others: &Shared<Expr>) -> bool
    ensures { IsTrue result ↔ (preds.now ≡ others.now) }
{
    preds == others
}

/// Whether two precisions are the same.
fn same_precision(precision: &Precision, other: &Precision) -> bool
    ensures { IsTrue result ↔ (precision.now ≡ other.now) }
{
    precision.limit == other.limit
        && precision.tracked.is_same(&other.tracked)
        && same_preds(&precision.preds, &other.preds)
}

/// Whether two rows have the same precisions. It takes no memory.
pub fn same_precisions(precisions: &[Precision], others: &[Precision]) -> bool
    ensures { IsTrue result ↔ (precisions.now ≡ others.now) }
{
    match precisions {
        [] => others.is_empty(),
        [precision, precisions @ ..] => match others {
            [] => false,
            [other, others @ ..] => {
                same_precision(precision, other) && same_precisions(precisions, others)
            }
        },
    }
}

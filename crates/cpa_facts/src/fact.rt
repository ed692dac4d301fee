//! Facts on states, and copies of them that are equal to what they copy. What a fact says of a
//! state is `FactHolds` of `cpa_model`.
ghost use Rattle.std.specs.Prelude.{◌≡◌, IfOk};

use cpa_expr::Expr;
use cpa_ints::Seq;
use std::alloc::{AllocError, Global};

/// A fact on the point, the stack or the store of a state.
#[derive(Drop)]
pub enum Fact {
    At { point: u32 },
    /// The call sites from the bottom to the top.
    Stack { sites: Seq<u32> },
    Equals { cell: u32, value: i128 },
    /// The value of the cell is from `lo` to `hi`.
    Within { cell: u32, lo: i128, hi: i128 },
    /// The expression does not trap, and is nonzero exactly where `holds`.
    Truth { expr: Expr, holds: bool },
}

/// An equal fact. It fails only where memory runs out.
pub fn copy_fact(alloc: Global, fact: &Fact) -> Result<Fact, AllocError>
    ensures { IfOk result (λ f. f ≡ fact.now) }
{
    match fact {
        Fact::At { point } => Ok(Fact::At { point: *point }),
        Fact::Stack { sites } => Ok(Fact::Stack {
            sites: copy_sites(alloc, sites.as_slice())?,
        }),
        Fact::Equals { cell, value } => Ok(Fact::Equals {
            cell: *cell,
            value: *value,
        }),
        Fact::Within { cell, lo, hi } => Ok(Fact::Within {
            cell: *cell,
            lo: *lo,
            hi: *hi,
        }),
        Fact::Truth { expr, holds } => Ok(Fact::Truth {
            expr: cpa_expr::copy(alloc, expr)?,
            holds: *holds,
        }),
    }
}

/// An equal list of call sites. It fails only where memory runs out.
fn copy_sites(alloc: Global, sites: &[u32]) -> Result<Seq<u32>, AllocError>
    ensures { IfOk result (λ s. s ≡ sites.now) }
{
    Ok(Seq::from_vec(sites.to_vec(alloc)?))
}

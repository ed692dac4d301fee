//! Whether a query meets what a solver asks of it, `IsQuery` of `cpa_query`.
//! Proved with `proofs/queries/`.

ghost use Rattle.std.specs.Prelude.{IsTrue};
ghost use Rattle.std.specs.List.{AllByRecursion};
ghost use Rattle.cpa_query.specs.Queries.{IsAsked, IsQuery};

use cpa_expr::{Expr, is_expr};
use cpa_ints::IntType;
use cpa_query::Query;

/// Whether each wanted expression is well typed over the cells, and no higher than one of a program
/// may be. The condition of a query lets it be four times as high.
pub fn is_query(query: &Query) -> bool
    ensures { IsTrue result → IsQuery query.now }
{
    are_asked(query.wanted.as_slice(), query.cells.as_slice())
}

/// Whether each of the expressions may be wanted over the cells.
fn are_asked(wanted: &[(Expr, bool)], cells: &[IntType]) -> bool
    ensures { IsTrue result → AllByRecursion (λ one. IsAsked cells.now one.0) wanted.now }
{
    for one in wanted {
        if !is_asked(&one.0, cells) {
            return false;
        }
    }
    true
}

/// Whether the expression may be wanted over the cells.
fn is_asked(e: &Expr, cells: &[IntType]) -> bool
    ensures { IsTrue result → IsAsked cells.now e.now }
{
    is_expr(e, cells)
}

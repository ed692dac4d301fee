//! What a query is.
//! What its models are is `IsModel` of specs/Queries.

use cpa_expr::Expr;
use cpa_ints::{IntType, Seq};

/// The greatest height of a wanted expression.
pub const MAX_HEIGHT: u32 = 2000;

/// A question: whether there are values for some cells on which each wanted expression evaluates
/// without a trap, and is nonzero exactly where it is wanted true.
#[derive(Drop)]
pub struct Query {
    /// The type of each cell.
    pub cells: Seq<IntType>,
    /// Expressions over the cells, each with its wanted truth.
    pub wanted: Seq<(Expr, bool)>,
}

//! What a call adds to a query.
//! What that is for an edge or an element is said in specs/Drafts.

use cpa_expr::Expr;
use cpa_ints::{IntType, Seq};

/// Cells and wanted expressions that come behind a query.
#[derive(Drop)]
pub struct Draft {
    /// The number of the first cell.
    pub first: u32,
    pub cells: Seq<IntType>,
    pub wanted: Seq<(Expr, bool)>,
}

//! Trees of core statements, of any origin. The types have no functions to prove.

use cpa_expr::Expr;
use cpa_ints::{Boxed, Seq};

/// A core statement without its parts. Cells and functions are named by number, a label by its
/// number among those of its function. Expressions are in boxes, so that a statement without one is
/// no larger for it.
#[derive(Drop)]
pub enum Head {
    /// The parts in order.
    Block,
    /// The same, as a label's statement: the n-th of these in a function has the label n.
    Labeled,
    /// The first part where the test is nonzero, the second where it is zero.
    If {
        test: Boxed<Expr>,
    },
    /// The first part, then the second, and again without end.
    Loop,
    /// Writes `value` into the cell `base` + `index`, where the index is below `len`.
    Assign {
        base: u32,
        len: u32,
        index: Boxed<Expr>,
        value: Boxed<Expr>,
    },
    /// Gives the cell any value of its type.
    Input {
        cell: u32,
    },
    Call {
        function: u32,
    },
    Goto {
        label: u32,
    },
    Break,
    Continue,
    Leave,
    Stop,
    Error,
}

/// A core statement with its parts, and the place in the text that it comes from.
#[derive(Drop)]
pub enum CoreTree {
    Node {
        head: Head,
        parts: Seq<CoreTree>,
        place: u32,
    },
}

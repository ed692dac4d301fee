//! The parts of a node, said once (`parts` of `specs/Shape.antt`). A function that does the same
//! with each part goes by these; a new form of node is asked for here.

ghost use Rattle.std.specs.Prelude.{◌≡◌};
ghost use Rattle.cpa_expr.specs.declared.tree.Expr.{out-Expr};
ghost use Rattle.cpa_expr.specs.Shape.{parts};
ghost use Rattle.cpa_expr.specs.Parts.{part_list};

use crate::tree::Expr;

/// The parts of a node, from left to right. The index of a read is its part.
#[derive(Clone, Copy)]
pub enum Parts<'a> {
    None,
    One(&'a Expr),
    Two(&'a Expr, &'a Expr),
    Three(&'a Expr, &'a Expr, &'a Expr),
}

/// The parts of the node.
pub fn parts_of(e: &Expr) -> Parts<'_>
    ensures { part_list result ≡ parts (out-Expr e.now) }
{
    match e {
        Expr::Const { .. } => Parts::None,
        Expr::Read { index: part, .. }
        | Expr::Un { arg: part, .. }
        | Expr::Cast { arg: part, .. }
        | Expr::Not { arg: part } => Parts::One(part.get()),
        Expr::Bin { left, right, .. }
        | Expr::Cmp { left, right, .. }
        | Expr::And { left, right }
        | Expr::Or { left, right } => Parts::Two(left.get(), right.get()),
        Expr::Cond { test, yes, no, .. } => Parts::Three(test.get(), yes.get(), no.get()),
    }
}

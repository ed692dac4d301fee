//! Whether an expression may trap, read off its form alone, by `specs/Needed.antt`.
//! Proved by the checker alone.

ghost use Rattle.std.specs.Prelude.{◌≡◌};
ghost use Rattle.std.specs.List.{list_any};
ghost use Rattle.cpa_expr.specs.declared.tree.Expr.{out-Expr};
ghost use Rattle.cpa_expr.specs.Shape.{parts};
ghost use Rattle.cpa_folds.specs.Needed.{may_trap, stops_here, may_stop};

use cpa_expr::{BinOp, Expr, Parts, parts_of};

/// Whether some node of the expression may trap.
#[cycle(stopping)]
pub(crate) fn may_stop(e: &Expr) -> bool
    ensures { result ≡ may_stop e.now }
{
    stops_here(e) || may_parts_stop(e)
}

/// Whether some part may.
#[cycle(stopping)]
fn may_parts_stop(e: &Expr) -> bool
    ensures { result ≡ list_any may_stop (parts (out-Expr e.now)) }
{
    match parts_of(e) {
        Parts::None => false,
        Parts::One(part) => may_stop(part),
        Parts::Two(left, right) => may_stop(left) || may_stop(right),
        Parts::Three(test, yes, no) => may_stop(test) || may_stop(yes) || may_stop(no),
    }
}

/// Whether the node itself may trap.
fn stops_here(e: &Expr) -> bool
    ensures { result ≡ stops_here (out-Expr e.now) }
{
    match e {
        Expr::Bin { op, .. } => may_trap(*op),
        Expr::Read { len, .. } => 1 < *len,
        _ => false,
    }
}

/// Whether the operator traps for some operands.
fn may_trap(op: BinOp) -> bool
    ensures { result ≡ may_trap op }
{
    match op {
        BinOp::Div | BinOp::Rem | BinOp::Shl | BinOp::Shr => true,
        _ => false,
    }
}

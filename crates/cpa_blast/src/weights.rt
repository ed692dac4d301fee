//! The weight of an expression, `weight` of specs/Weights, by its parts: the lemma on the parts is
//! in proofs/WeightParts.

ghost use Rattle.std.specs.Prelude.{◌≡◌, min};
ghost use Rattle.cpa_expr.specs.declared.tree.Expr.{out-Expr};
ghost use Rattle.cpa_blast.specs.Weights.{bin_weight, read_weight, own_weight, weight};

use cpa_expr::{BinOp, Expr, Parts, parts_of};
use cpa_ints::IntType;

/// The weight of the expression, or the greatest `u64` where it is more. Takes no memory.
pub fn weight(e: &Expr) -> u64
    ensures { result ≡ min (weight e.now) u64.MAX }
{
    let own = own_weight(e);
    match parts_of(e) {
        Parts::None => own,
        Parts::One(part) => own.saturating_add(weight(part)),
        Parts::Two(left, right) => {
            let parts = weight(left).saturating_add(weight(right));
            own.saturating_add(parts)
        }
        Parts::Three(test, yes, no) => {
            let ends = weight(yes).saturating_add(weight(no));
            own.saturating_add(weight(test).saturating_add(ends))
        }
    }
}

/// What the node adds to the weights of its parts.
fn own_weight(e: &Expr) -> u64
    ensures { result ≡ own_weight (out-Expr e.now) }
{
    match e {
        Expr::Const { .. } => 0,
        Expr::Read { ty, len, .. } => read_weight(*ty, *len),
        Expr::Un { ty, .. } | Expr::Cmp { ty, .. } | Expr::Cond { ty, .. } => ty.width() as u64,
        Expr::Bin { op, ty, .. } => bin_weight(*op, *ty),
        Expr::Cast { .. } | Expr::And { .. } | Expr::Or { .. } | Expr::Not { .. } => 1,
    }
}

/// Nothing for a scalar, and a choice among the bits of all cells for an array.
fn read_weight(ty: IntType, len: u32) -> u64
    ensures { result ≡ read_weight ty len }
{
    if len == 1 {
        0
    } else {
        len as u64 * ty.width() as u64
    }
}

/// One row of gates, one for each bit, or one for each bit of the amount.
fn bin_weight(op: BinOp, ty: IntType) -> u64
    ensures { result ≡ bin_weight op ty }
{
    let width = ty.width() as u64;
    match op {
        BinOp::Add | BinOp::Sub | BinOp::BitAnd | BinOp::BitOr | BinOp::BitXor => width,
        BinOp::Mul | BinOp::Div | BinOp::Rem => width * width,
        BinOp::Shl | BinOp::Shr => 8 * width,
    }
}

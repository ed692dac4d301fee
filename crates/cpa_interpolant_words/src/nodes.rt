//! New expressions of others: denials, and conjunctions of a list.

use cpa_expr::{
    BinOp, CmpOp, Expr, Parts, both, comparison, constant, copied, negation, parts_of, same_expr,
};
use cpa_ints::{Boxed, IntType};
use std::alloc::{AllocError, Global};

/// The comparison that holds exactly where the other one does not.
fn opposite(op: CmpOp) -> CmpOp {
    match op {
        CmpOp::Eq => CmpOp::Ne,
        CmpOp::Ne => CmpOp::Eq,
        CmpOp::Lt => CmpOp::Ge,
        CmpOp::Le => CmpOp::Gt,
        CmpOp::Gt => CmpOp::Le,
        CmpOp::Ge => CmpOp::Lt,
    }
}

/// An expression that is nonzero exactly where the test is zero.
pub(crate) fn denied(alloc: Global, test: &Expr) -> Result<Boxed<Expr>, AllocError> {
    match test {
        Expr::Not { arg } => copied(alloc, arg.get()),
        Expr::Cmp {
            op,
            ty,
            left,
            right,
        } => {
            let left = copied(alloc, left.get())?;
            let right = copied(alloc, right.get())?;
            comparison(alloc, opposite(*op), *ty, left, right)
        }
        _ => {
            let arg = copied(alloc, test)?;
            negation(alloc, arg)
        }
    }
}

/// An expression that is nonzero exactly where the test has the truth.
pub(crate) fn assumed(alloc: Global, test: &Expr, holds: bool) -> Result<Boxed<Expr>, AllocError> {
    if !holds {
        return denied(alloc, test);
    }
    match test {
        Expr::Not { arg } => denied(alloc, arg.get()),
        _ => copied(alloc, test),
    }
}

/// Adds the expression, if it is not there.
pub(crate) fn push_new(
    alloc: Global,
    es: &mut Vec<Expr>,
    e: Boxed<Expr>,
) -> Result<(), AllocError> {
    if es.iter().any(|other| same_expr(e.get(), other)) {
        return Ok(());
    }
    es.push(e.into_inner())?;
    Ok(())
}

/// The expression that says that all are nonzero; the int 1 where there are none.
pub(crate) fn conjunction(alloc: Global, es: &[Expr]) -> Result<Boxed<Expr>, AllocError> {
    if es.is_empty() {
        return constant(alloc, IntType::I32, 1);
    }
    let mut all = copied(alloc, &es[0])?;
    for i in 1..es.len() {
        let next = copied(alloc, &es[i])?;
        all = both(alloc, all, next)?;
    }
    Ok(all)
}

/// Whether some node of the expression may trap, by its form alone.
#[cycle(trapping)]
pub(crate) fn may_trap(e: &Expr) -> bool {
    may_trap_here(e) || may_parts_trap(e)
}

/// Whether some part may.
#[cycle(trapping)]
fn may_parts_trap(e: &Expr) -> bool {
    match parts_of(e) {
        Parts::None => false,
        Parts::One(part) => may_trap(part),
        Parts::Two(left, right) => may_trap(left) || may_trap(right),
        Parts::Three(test, yes, no) => may_trap(test) || may_trap(yes) || may_trap(no),
    }
}

/// Whether the node itself may.
fn may_trap_here(e: &Expr) -> bool {
    match e {
        Expr::Bin { op, .. } => match op {
            BinOp::Div | BinOp::Rem | BinOp::Shl | BinOp::Shr => true,
            _ => false,
        },
        Expr::Read { len, .. } => 1 < *len,
        _ => false,
    }
}

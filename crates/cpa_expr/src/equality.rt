//! Whether two expressions are the same tree (`specs/Equality.antt`), proved in
//! `specs/lemmas/SameTrees.antt`.

ghost use Rattle.std.specs.Prelude.{◌≡◌, ◌↔◌, IsTrue, map};
ghost use Rattle.cpa_expr.specs.declared.tree.Expr.{out-Expr};
ghost use Rattle.cpa_expr.specs.Shape.{parts};
ghost use Rattle.cpa_expr.specs.Equality.{same_head, all_hold, same_expr};
ghost use Rattle.cpa_expr.specs.lemmas.SameTrees.{same_expr_per, same_expr_equivalence};

use crate::parts::{Parts, parts_of};
use crate::tree::Expr;

/// Whether the two are the same tree.
#[tactic(auto, using(crate::specs::lemmas::SameTrees::same_expr_decides))]
pub fn same_expr(a: &Expr, b: &Expr) -> bool
    ensures value { result ≡ same_expr a.now b.now }
    ensures same { IsTrue result ↔ (a.now ≡ b.now) }
{
    is_same(a, b)
}

/// Equal where they are the same tree.
impl PartialEq for Expr {
    ghost eq = { same_expr };

    ghost laws = { same_expr_per };

    fn eq(&self, other: &Self) -> bool {
        same_expr(self, other)
    }
}

impl Eq for Expr {
    ghost laws = { same_expr_equivalence };
}

/// The test, node by node.
#[cycle(comparing)]
#[tactic(auto, using(crate::specs::lemmas::SameTrees::same_parts))]
fn is_same(a: &Expr, b: &Expr) -> bool
    ensures { result ≡ same_expr a.now b.now }
{
    has_same_head(a, b) && has_same_parts(a, b)
}

/// Whether the two have the same parts.
#[cycle(comparing)]
fn has_same_parts(a: &Expr, b: &Expr) -> bool
    ensures { result ≡ all_hold (map same_expr (parts (out-Expr a.now))) (parts (out-Expr b.now)) }
{
    match (parts_of(a), parts_of(b)) {
        (Parts::None, Parts::None) => true,
        (Parts::One(part), Parts::One(other)) => is_same(part, other),
        (Parts::Two(left, right), Parts::Two(other_left, other_right)) => {
            is_same(left, other_left) && is_same(right, other_right)
        }
        (Parts::Three(test, yes, no), Parts::Three(other_test, other_yes, other_no)) => {
            is_same(test, other_test) && is_same(yes, other_yes) && is_same(no, other_no)
        }
        _ => false,
    }
}

/// Whether the two nodes are the same but for their parts.
fn has_same_head(a: &Expr, b: &Expr) -> bool
    ensures { result ≡ same_head (out-Expr a.now) (out-Expr b.now) }
{
    match (a, b) {
        (
            Expr::Const { ty, value },
            Expr::Const {
                ty: other_ty,
                value: other_value,
            },
        ) => ty == other_ty && value == other_value,
        (
            Expr::Read { ty, base, len, .. },
            Expr::Read {
                ty: other_ty,
                base: other_base,
                len: other_len,
                ..
            },
        ) => ty == other_ty && base == other_base && len == other_len,
        (
            Expr::Un { op, ty, .. },
            Expr::Un {
                op: other_op,
                ty: other_ty,
                ..
            },
        ) => op == other_op && ty == other_ty,
        (
            Expr::Bin { op, ty, .. },
            Expr::Bin {
                op: other_op,
                ty: other_ty,
                ..
            },
        ) => op == other_op && ty == other_ty,
        (
            Expr::Cmp { op, ty, .. },
            Expr::Cmp {
                op: other_op,
                ty: other_ty,
                ..
            },
        ) => op == other_op && ty == other_ty,
        (Expr::Cast { ty, .. }, Expr::Cast { ty: other_ty, .. }) => ty == other_ty,
        (Expr::Cond { ty, .. }, Expr::Cond { ty: other_ty, .. }) => ty == other_ty,
        (Expr::And { .. }, Expr::And { .. }) => true,
        (Expr::Or { .. }, Expr::Or { .. }) => true,
        (Expr::Not { .. }, Expr::Not { .. }) => true,
        _ => false,
    }
}

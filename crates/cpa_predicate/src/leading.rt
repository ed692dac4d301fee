//! Acts that lead on from each store: their form alone tells that what they evaluate cannot trap
//! (`specs/Leading.antt`).

ghost use Rattle.std.specs.Prelude.{ℤ, pos, ◌≤ℤ◌, ◌<ℤ◌, List, IsTrue, IsSomeAnd};
ghost use Rattle.cpa_expr.specs.declared.tree.Expr.{out-Expr};
ghost use Rattle.cpa_expr.specs.Evaluations.{IsTruthy};
ghost use Rattle.cpa_expr.specs.Shape.{OfParts};
ghost use Rattle.cpa_expr.specs.Traps.{HasNoValue, TrapsHere};
ghost use Rattle.cpa_expr.specs.Values.{value_of};
ghost use Rattle.cpa_model.specs.declared.automaton.Cfa.{Cfa as ACfa};
ghost use Rattle.cpa_model.specs.Acts.{IsActOf};
ghost use Rattle.cpa_predicate.specs.Leading.{NeverTraps, AlwaysSteps};

use cpa_expr::{BinOp, Expr, Parts, parts_of};
use cpa_ints::IntType;
use cpa_model::Act;

/// Whether the expression is a number from 0 to `limit` - 1.
fn is_number_below(e: &Expr, limit: u32) -> bool
    ensures { IsTrue result → (values : List ℤ)
        → IsSomeAnd (value_of e.now values) (λ n. (pos 0 ≤ℤ n) × (n <ℤ pos limit)) }
{
    match e {
        Expr::Const { value, .. } => 0 <= *value && *value < i128::from(limit),
        _ => false,
    }
}

/// Whether the expression is a number other than 0.
fn is_number_but_zero(e: &Expr) -> bool
    ensures { IsTrue result → (values : List ℤ) → IsTruthy values e.now }
{
    match e {
        Expr::Const { value, .. } => *value != 0,
        _ => false,
    }
}

/// Whether the operator, at this type, has a value wherever its operands have one.
fn has_values(op: BinOp, ty: IntType, right: &Expr) -> bool
    ensures { IsTrue result → (values : List ℤ)
        → IsSomeAnd (value_of right.now values) (HasNoValue op ty) → ⊥ }
{
    match op {
        BinOp::Div | BinOp::Rem => is_number_but_zero(right),
        BinOp::Shl | BinOp::Shr => is_number_below(right, ty.width()),
        _ => true,
    }
}

/// Whether the node itself traps on no store.
fn node_never_traps(e: &Expr) -> bool
    ensures { IsTrue result → (values : List ℤ) → TrapsHere values (out-Expr e.now) → ⊥ }
{
    match e {
        Expr::Read { len, index, .. } => is_number_below(index.get(), *len),
        Expr::Bin { op, ty, right, .. } => has_values(*op, *ty, right.get()),
        _ => true,
    }
}

/// Whether no part of the node traps on any store.
#[cycle(trapping)]
fn parts_never_trap(e: &Expr) -> bool
    ensures { IsTrue result → OfParts NeverTraps (out-Expr e.now) }
{
    match parts_of(e) {
        Parts::None => true,
        Parts::One(part) => never_traps(part),
        Parts::Two(left, right) => never_traps(left) && never_traps(right),
        Parts::Three(test, yes, no) => never_traps(test) && never_traps(yes) && never_traps(no),
    }
}

/// Whether the expression traps on no store.
#[cycle(trapping)]
fn never_traps(e: &Expr) -> bool
    ensures { IsTrue result → NeverTraps e.now }
{
    node_never_traps(e) && parts_never_trap(e)
}

/// Whether the act leads on from each store.
pub(crate) fn always_leads_on(act: &Act) -> bool
    ensures { IsTrue result → (cfa : ACfa) → IsActOf cfa act.now → AlwaysSteps cfa act.now }
{
    match act {
        Act::Skip => true,
        Act::Assign {
            len,
            index,
            value,
            ..
        } => is_number_below(index, *len) && never_traps(value),
        Act::Assume { .. } => false,
        Act::Input { .. } => true,
        Act::Call { .. } => true,
        Act::Return { .. } => true,
    }
}

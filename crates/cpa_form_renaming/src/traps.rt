//! The test of whether an expression traps, `trap_test` of specs/TrapTests; `proofs/traps` has what
//! is left.

ghost use Rattle.std.specs.Prelude.{◌≡◌, IfOk};
ghost use Rattle.cpa_ints.specs.declared.integers.IntType.TheVariants as ty;
ghost use Rattle.cpa_expr.specs.declared.tree.Expr.{Expr, out-Expr};
ghost use Rattle.cpa_expr.specs.declared.tree.Expr.TheVariants.{And, Or, Not, Cond};
ghost use Rattle.cpa_expr.specs.declared.tree.Expr.TheFolds.{map-Expr};
ghost use Rattle.cpa_form_renaming.specs.TrapTests.{is_outside, right_test, node_test};
ghost use Rattle.cpa_form_renaming.specs.TrapTests.{trap_test};
ghost use Rattle.cpa_form_renaming.specs.TrapTests.{Tested, tested};

use cpa_expr::{BinOp, CmpOp, Expr, both, cast, comparison, constant, copied, either, negation};
use cpa_ints::{Boxed, IntType};
use std::alloc::{AllocError, Global};

/// An expression that never traps: it is 1 where the expression traps, and else 0. It may have the
/// square of the expression's size, since the test of a node copies its parts.
pub fn trap_test(alloc: Global, e: &Expr) -> Result<Expr, AllocError>
    ensures { IfOk result (λ r. r ≡ trap_test e.now) }
{
    Ok(test_of(alloc, e)?.into_inner())
}

/// The test in a box, as a part of another one.
#[cycle(testing)]
fn test_of(alloc: Global, e: &Expr) -> Result<Boxed<Expr>, AllocError>
    ensures { IfOk result (λ r. r ≡ trap_test e.now) }
{
    node_test(alloc, e)
}

/// The test of a node, by those of its parts.
#[cycle(testing)]
fn node_test(alloc: Global, e: &Expr) -> Result<Boxed<Expr>, AllocError>
    ensures { IfOk result (λ r. r ≡ node_test (map-Expr Expr Tested tested (out-Expr e.now))) }
{
    match e {
        Expr::Const { .. } => constant(alloc, IntType::I32, 0),
        Expr::Read { len, index, .. } => {
            let outside = is_outside(alloc, index.get(), *len)?;
            or_trap(alloc, index.get(), outside)
        }
        Expr::Un { arg, .. } | Expr::Cast { arg, .. } | Expr::Not { arg } => {
            test_of(alloc, arg.get())
        }
        Expr::Bin {
            op,
            ty,
            left,
            right,
        } => {
            let by_right = right_test(alloc, right.get(), *op, *ty)?;
            or_trap(alloc, left.get(), by_right)
        }
        Expr::Cmp { left, right, .. } => {
            let by_right = test_of(alloc, right.get())?;
            or_trap(alloc, left.get(), by_right)
        }
        Expr::And { left, right } => {
            let by_right = test_of(alloc, right.get())?;
            let evaluated = where_nonzero(alloc, left.get(), by_right)?;
            or_trap(alloc, left.get(), evaluated)
        }
        Expr::Or { left, right } => {
            let by_right = test_of(alloc, right.get())?;
            let evaluated = where_zero(alloc, left.get(), by_right)?;
            or_trap(alloc, left.get(), evaluated)
        }
        Expr::Cond { test, yes, no, .. } => {
            let by_yes = test_of(alloc, yes.get())?;
            let by_no = test_of(alloc, no.get())?;
            let evaluated = choice(alloc, test.get(), by_yes, by_no)?;
            or_trap(alloc, test.get(), evaluated)
        }
    }
}

/// Whether the right operand traps, or makes the operator trap.
#[cycle(testing)]
fn right_test(
    alloc: Global,
    right: &Expr,
    op: BinOp,
    ty: IntType,
) -> Result<Boxed<Expr>, AllocError>
    ensures { IfOk result (λ r. r ≡ right_test op ty (tested right.now)) }
{
    match op {
        BinOp::Div | BinOp::Rem => {
            let zero = is_zero(alloc, right)?;
            or_trap(alloc, right, zero)
        }
        BinOp::Shl | BinOp::Shr => {
            let outside = is_outside(alloc, right, ty.width())?;
            or_trap(alloc, right, outside)
        }
        _ => test_of(alloc, right),
    }
}

/// Whether the expression traps, or else the other one is nonzero.
#[cycle(testing)]
fn or_trap(alloc: Global, e: &Expr, other: Boxed<Expr>) -> Result<Boxed<Expr>, AllocError>
    ensures { IfOk result (λ r. r ≡ Or (trap_test e.now) other) }
{
    let test = test_of(alloc, e)?;
    either(alloc, test, other)
}

/// Whether the expression and the other one are nonzero.
fn where_nonzero(alloc: Global, e: &Expr, other: Boxed<Expr>) -> Result<Boxed<Expr>, AllocError>
    ensures { IfOk result (λ r. r ≡ And e.now other) }
{
    let whole = copied(alloc, e)?;
    both(alloc, whole, other)
}

/// Whether the expression is zero, and the other one is nonzero.
fn where_zero(alloc: Global, e: &Expr, other: Boxed<Expr>) -> Result<Boxed<Expr>, AllocError>
    ensures { IfOk result (λ r. r ≡ And (Not e.now) other) }
{
    let zero = is_zero(alloc, e)?;
    both(alloc, zero, other)
}

/// One of two numbers of type `int`, picked by the expression.
fn choice(
    alloc: Global,
    e: &Expr,
    yes: Boxed<Expr>,
    no: Boxed<Expr>,
) -> Result<Boxed<Expr>, AllocError>
    ensures { IfOk result (λ r. r ≡ Cond ty.I32 e.now yes no) }
{
    let node = Expr::Cond {
        ty: IntType::I32,
        test: copied(alloc, e)?,
        yes,
        no,
    };
    Boxed::new(alloc, node)
}

/// Whether the expression is zero.
fn is_zero(alloc: Global, e: &Expr) -> Result<Boxed<Expr>, AllocError>
    ensures { IfOk result (λ r. r ≡ Not e.now) }
{
    negation(alloc, copied(alloc, e)?)
}

/// Whether the value does not lie from 0 to `count` - 1.
fn is_outside(alloc: Global, e: &Expr, count: u32) -> Result<Boxed<Expr>, AllocError>
    ensures { IfOk result (λ r. r ≡ is_outside e.now count) }
{
    let unsigned = cast(alloc, IntType::U64, copied(alloc, e)?)?;
    let end = constant(alloc, IntType::U64, count as i128)?;
    comparison(alloc, CmpOp::Ge, IntType::U64, unsigned, end)
}

//! Checks put together from checks, as specs/Checks gives them. Proved by the checker alone.

ghost use Rattle.std.specs.Prelude.{◌≡◌, IfOk, Some};
ghost use Rattle.cpa_ints.specs.declared.integers.IntType.TheVariants as ty;
ghost use Rattle.cpa_expr.specs.declared.tree.Expr.TheVariants.{Not, Cond};
ghost use Rattle.cpa_trap_checks.specs.Checks.{either, where_nonzero, unless, as_expr, picked};

use cpa_expr::{Expr, both, constant, copied, either, negation};
use cpa_ints::{Boxed, IntType};
use std::alloc::{AllocError, Global};

/// One check, or else another.
pub(crate) fn one_or_other(
    alloc: Global,
    first: Option<Boxed<Expr>>,
    second: Option<Boxed<Expr>>,
) -> Result<Option<Boxed<Expr>>, AllocError>
    ensures { IfOk result (λ r. r ≡ either first second) }
{
    match first {
        None => Ok(second),
        Some(first) => match second {
            None => Ok(Some(first)),
            Some(second) => Ok(Some(either(alloc, first, second)?)),
        },
    }
}

/// A check that counts where the expression is nonzero.
pub(crate) fn where_nonzero(
    alloc: Global,
    e: &Expr,
    check: Option<Boxed<Expr>>,
) -> Result<Option<Boxed<Expr>>, AllocError>
    ensures { IfOk result (λ r. r ≡ where_nonzero e.now check) }
{
    match check {
        None => Ok(None),
        Some(check) => {
            let guard = copied(alloc, e)?;
            Ok(Some(both(alloc, guard, check)?))
        }
    }
}

/// A check that counts where the expression is zero.
pub(crate) fn where_zero(
    alloc: Global,
    e: &Expr,
    check: Option<Boxed<Expr>>,
) -> Result<Option<Boxed<Expr>>, AllocError>
    ensures { IfOk result (λ r. r ≡ where_nonzero (Not e.now) check) }
{
    match check {
        None => Ok(None),
        Some(check) => {
            let guard = is_zero(alloc, e)?;
            Ok(Some(both(alloc, guard, check)?))
        }
    }
}

/// A check that counts where another one is zero.
pub(crate) fn unless(
    alloc: Global,
    other: Option<Boxed<Expr>>,
    check: Option<Boxed<Expr>>,
) -> Result<Option<Boxed<Expr>>, AllocError>
    ensures { IfOk result (λ r. r ≡ unless other check) }
{
    match other {
        None => Ok(check),
        Some(other) => match check {
            None => Ok(None),
            Some(check) => {
                let guard = negation(alloc, other)?;
                Ok(Some(both(alloc, guard, check)?))
            }
        },
    }
}

/// One of two checks, picked by the expression.
pub(crate) fn picked(
    alloc: Global,
    e: &Expr,
    first: Option<Boxed<Expr>>,
    second: Option<Boxed<Expr>>,
) -> Result<Option<Boxed<Expr>>, AllocError>
    ensures { IfOk result (λ r. r ≡ picked e.now first second) }
{
    match first {
        None => match second {
            None => Ok(None),
            Some(second) => {
                let never = constant(alloc, IntType::I32, 0)?;
                Ok(Some(choice(alloc, e, never, second)?))
            }
        },
        Some(first) => {
            let second = as_expr(alloc, second)?;
            Ok(Some(choice(alloc, e, first, second)?))
        }
    }
}

/// Whether the expression is zero.
fn is_zero(alloc: Global, e: &Expr) -> Result<Boxed<Expr>, AllocError>
    ensures { IfOk result (λ r. r ≡ Not e.now) }
{
    negation(alloc, copied(alloc, e)?)
}

/// The check as an expression.
fn as_expr(alloc: Global, check: Option<Boxed<Expr>>) -> Result<Boxed<Expr>, AllocError>
    ensures { IfOk result (λ r. r ≡ as_expr check) }
{
    match check {
        None => constant(alloc, IntType::I32, 0),
        Some(check) => Ok(check),
    }
}

/// One of two numbers of type `int`, picked by the expression.
fn choice(
    alloc: Global,
    e: &Expr,
    first: Boxed<Expr>,
    second: Boxed<Expr>,
) -> Result<Boxed<Expr>, AllocError>
    ensures { IfOk result (λ r. r ≡ Cond ty.I32 e.now first second) }
{
    let node = Expr::Cond {
        ty: IntType::I32,
        test: copied(alloc, e)?,
        yes: first,
        no: second,
    };
    Boxed::new(alloc, node)
}

//! The scalar that an expression reads, by `specs/Scalars.antt`.
//! That it has the expression's value is shown in `specs/lemmas/ScalarReads.antt`.

ghost use Rattle.std.specs.Prelude.{◌≡◌};
ghost use Rattle.cpa_expr.specs.declared.tree.Expr.{out-Expr};
ghost use Rattle.cpa_folds.specs.Scalars.{scalar_of, holds_type, held, read_of};

use crate::carrying::is_scalar;
use cpa_expr::Expr;
use cpa_ints::IntType;

/// A scalar that an expression reads.
#[derive(Clone, Copy)]
pub struct Scalar {
    pub cell: u32,
    pub ty: IntType,
}

/// The scalar that the node reads.
pub fn scalar_of(e: &Expr) -> Option<Scalar>
    ensures { result ≡ scalar_of (out-Expr e.now) }
{
    match e {
        Expr::Read {
            ty,
            base,
            len,
            index,
        } => {
            if is_scalar(*len, index.get()) {
                Some(Scalar {
                    cell: *base,
                    ty: *ty,
                })
            } else {
                None
            }
        }
        _ => None,
    }
}

/// The scalar whose value the expression has: it reads it, or converts it once to a type that holds
/// all its values.
pub fn read_of(e: &Expr) -> Option<Scalar>
    ensures { result ≡ read_of (out-Expr e.now) }
{
    match e {
        Expr::Cast { ty, arg } => held(*ty, scalar_of(arg.get())),
        _ => scalar_of(e),
    }
}

/// The scalar, where the type holds all its values.
fn held(ty: IntType, read: Option<Scalar>) -> Option<Scalar>
    ensures { result ≡ held ty read }
{
    match read {
        None => None,
        Some(read) => {
            if holds_type(ty, read.ty) {
                Some(read)
            } else {
                None
            }
        }
    }
}

/// Whether each value of the other type is one of this type.
fn holds_type(ty: IntType, other: IntType) -> bool
    ensures { result ≡ holds_type ty other }
{
    ty.least() <= other.least() && other.greatest() <= ty.greatest()
}

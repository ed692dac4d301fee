//! Numbers and places that are read (`c_core_rules`, `specs/Values.antt`). Proved by the checker
//! alone.
ghost use Rattle.std.specs.Prelude.{◌≡◌, IfOk};
ghost use Rattle.c_core_rules.specs.Trees.{pure};
ghost use Rattle.c_core_rules.specs.Values.{int, element, scalar, cell_at};

use crate::trees::pure;
use c_core_rules::{Location, Valued};
use cpa_expr::{Expr, constant};
use cpa_ints::{Boxed, IntType};
use std::alloc::{AllocError, Global};

/// A small number of type int.
pub fn int(alloc: Global, value: u32) -> Result<Boxed<Expr>, AllocError>
    ensures { IfOk result (λ e. e ≡ int value) }
{
    constant(alloc, IntType::I32, i128::from(value))
}

/// The same without statements.
pub fn number(alloc: Global, value: u32) -> Result<Valued, AllocError>
    ensures { IfOk result (λ v. v ≡ pure (int value)) }
{
    Ok(pure(alloc, int(alloc, value)?))
}

/// A place that is read.
pub fn element(
    alloc: Global,
    place: Location,
    index: Boxed<Expr>,
) -> Result<Boxed<Expr>, AllocError>
    ensures { IfOk result (λ e. e ≡ element place index) }
{
    let node = Expr::Read {
        ty: place.ty,
        base: place.base,
        len: place.len,
        index,
    };
    Boxed::new(alloc, node)
}

/// A scalar that is read.
pub fn scalar(alloc: Global, place: Location) -> Result<Boxed<Expr>, AllocError>
    ensures { IfOk result (λ e. e ≡ scalar place) }
{
    let index = int(alloc, 0)?;
    element(alloc, place, index)
}

/// One cell of this type.
pub fn cell_at(ty: IntType, base: u32) -> Location
    ensures { result ≡ cell_at ty base }
{
    Location { ty, base, len: 1 }
}

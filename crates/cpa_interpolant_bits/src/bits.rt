//! Bits of cells, and the expressions that are true where they are set, by specs/Bits.
//! Proved by the checker alone.

ghost use Rattle.std.specs.Prelude.{◌≡◌, IfOk};
ghost use Rattle.cpa_ints.specs.declared.integers.IntType.TheVariants as ty;
ghost use Rattle.cpa_expr.specs.declared.tree.BinOp.TheVariants as op;
ghost use Rattle.cpa_expr.specs.declared.tree.Expr.TheVariants.{Bin};
ghost use Rattle.cpa_expr.specs.Cells.{scalar_read};
ghost use Rattle.cpa_interpolant_bits.specs.Bits.{shifted, bit_read, bit_is};
ghost use Rattle.cpa_interpolant_bits.specs.Nodes.{bit_named};

use cpa_expr::{BinOp, CmpOp, Expr, cast, comparison, constant, negation, read_scalar};
use cpa_ints::{Boxed, IntType};
use std::alloc::{AllocError, Global};

/// One bit of a cell.
#[derive(Clone, Copy)]
pub struct Bit {
    /// The number of the cell.
    pub cell: u32,
    /// The type of the cell.
    pub ty: IntType,
    /// The place of the bit: 0 is the low one.
    pub place: u32,
}

/// An operator on two 64-bit numbers without a sign.
fn binary(
    alloc: Global,
    op: BinOp,
    left: Boxed<Expr>,
    right: Boxed<Expr>,
) -> Result<Boxed<Expr>, AllocError>
    ensures { IfOk result (λ e. e ≡ Bin op ty.U64 left right) }
{
    let node = Expr::Bin {
        op,
        ty: IntType::U64,
        left,
        right,
    };
    Boxed::new(alloc, node)
}

/// The cell's value.
fn scalar(alloc: Global, ty: IntType, cell: u32) -> Result<Boxed<Expr>, AllocError>
    ensures { IfOk result (λ e. e ≡ scalar_read ty cell) }
{
    Boxed::new(alloc, read_scalar(alloc, ty, cell)?)
}

/// The cell as a 64-bit number without a sign, the bit its lowest one.
fn shifted(alloc: Global, bit: Bit) -> Result<Boxed<Expr>, AllocError>
    ensures { IfOk result (λ e. e ≡ shifted bit) }
{
    let read = scalar(alloc, bit.ty, bit.cell)?;
    let wide = cast(alloc, IntType::U64, read)?;
    let place = constant(alloc, IntType::I32, bit.place as i128)?;
    binary(alloc, BinOp::Shr, wide, place)
}

/// An expression that is true where the bit is set.
fn bit_read(alloc: Global, bit: Bit) -> Result<Boxed<Expr>, AllocError>
    ensures { IfOk result (λ e. e ≡ bit_read bit) }
{
    let shifted = shifted(alloc, bit)?;
    let one = constant(alloc, IntType::U64, 1)?;
    let low = binary(alloc, BinOp::BitAnd, shifted, one)?;
    let zero = constant(alloc, IntType::U64, 0)?;
    comparison(alloc, CmpOp::Ne, IntType::U64, low, zero)
}

/// An expression that is true where the bit has this value: it reads the cell as a scalar, and
/// never traps.
pub fn bit_is(alloc: Global, bit: Bit, set: bool) -> Result<Boxed<Expr>, AllocError>
    ensures { IfOk result (λ e. e ≡ bit_is bit set) }
{
    let read = bit_read(alloc, bit)?;
    if set { Ok(read) } else { negation(alloc, read) }
}

/// The bit that a variable is, where it is one.
pub(crate) fn bit_named(bits: &[Option<Bit>], variable: u32) -> Option<Bit>
    ensures { result ≡ bit_named bits.now variable }
{
    match bits.get(variable as usize) {
        Some(bit) => *bit,
        None => None,
    }
}

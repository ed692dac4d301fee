//! The operators on numbers. Each takes any numbers, since a number that is too wide for 128 bits
//! is reduced on the way.

ghost use Rattle.std.specs.Prelude.{◌≡◌, ◌^◌, ◌≤◌, ◌<◌, pos, neg_ℤ, ◌+ℤ◌, ◌-ℤ◌, ◌*ℤ◌, ◌≤ℤ◌, ◌<ℤ◌};
ghost use Rattle.std.specs.Prelude.{int_div, IfSome};
ghost use Rattle.cpa_ints.specs.declared.integers.IntType.TheVariants.{Bool as Boolean};
ghost use Rattle.cpa_ints.specs.Bits.{bits_of};
ghost use Rattle.cpa_ints.specs.Wrapping.{wrapped};
ghost use Rattle.cpa_expr.specs.Values.{un_value, bin_value, amount_of, divided_by, compares};
ghost use Rattle.cpa_expr.specs.Values.{truth, is_nonzero};

use crate::tree::{BinOp, CmpOp, UnOp};
use cpa_ints::{IntType, wrap};

/// A number of at most 64 bits that wraps to the same number of the type.
fn reduced(ty: IntType, n: i128) -> i128
    ensures alike { wrapped ty result ≡ wrapped ty n }
    ensures boolean { ty ≡ Boolean → pos 0 ≤ℤ result }
    ensures low { neg_ℤ (pos (2 ^ 63)) ≤ℤ result }
    ensures high { result <ℤ pos (2 ^ 63) }
{
    match ty {
        IntType::Bool => wrap(IntType::Bool, n),
        _ => wrap(IntType::I64, n),
    }
}

/// Wraps -`a`.
fn negated(ty: IntType, a: i128) -> i128
    ensures { result ≡ wrapped ty (neg_ℤ a) }
{
    wrap(ty, -reduced(ty, a))
}

/// Wraps `a` + `b`.
fn sum(ty: IntType, a: i128, b: i128) -> i128
    ensures { result ≡ wrapped ty (a +ℤ b) }
{
    match a.checked_add(b) {
        Some(exact) => wrap(ty, exact),
        None => wrap(ty, reduced(ty, a) + reduced(ty, b)),
    }
}

/// Wraps `a` - `b`.
fn difference(ty: IntType, a: i128, b: i128) -> i128
    ensures { result ≡ wrapped ty (a -ℤ b) }
{
    match a.checked_sub(b) {
        Some(exact) => wrap(ty, exact),
        None => wrap(ty, reduced(ty, a) + negated(ty, b)),
    }
}

/// Wraps `a` * `b`.
fn product(ty: IntType, a: i128, b: i128) -> i128
    ensures { result ≡ wrapped ty (a *ℤ b) }
{
    wrap(ty, reduced(ty, a) * reduced(ty, b))
}

/// Wraps the quotient of `a` and `b`, rounded toward zero.
fn quotient(ty: IntType, a: i128, b: i128) -> Option<i128>
    ensures { result ≡ divided_by b (wrapped ty (int_div a b)) }
{
    if b == 0 {
        None
    } else if b == -1 {
        Some(negated(ty, a))
    } else {
        Some(wrap(ty, a / b))
    }
}

/// What is left of `a` beside the multiple of `b` that the quotient gives. It has the sign of `a`.
fn remainder(a: i128, b: i128) -> Option<i128>
    ensures { result ≡ divided_by b (a -ℤ int_div a b *ℤ b) }
{
    if b == 0 {
        None
    } else {
        Some(a.wrapping_rem(b))
    }
}

/// The two's complement of `n` at the type's width.
fn bits(ty: IntType, n: i128) -> u128
    ensures value { result ≡ bits_of ty n }
    ensures narrow { result < 2 ^ 64 }
{
    n.cast_unsigned() & ((1u128 << ty.width()) - 1)
}

/// Wraps a pattern of bits.
fn from_bits(ty: IntType, pattern: u128) -> i128
    requires { pattern < 2 ^ 64 }
    ensures { result ≡ wrapped ty (pos pattern) }
{
    wrap(ty, pattern as i128)
}

/// The amount of a shift, where it lies from 0 to the width less 1.
fn amount(ty: IntType, n: i128) -> Option<u32>
    ensures value { result ≡ amount_of ty n }
    ensures narrow { IfSome result (λ k. k < 64) }
{
    if 0 <= n && n < ty.width() as i128 {
        Some(n as u32)
    } else {
        None
    }
}

/// The value of an operator on `a`.
pub fn un_value(op: UnOp, ty: IntType, a: i128) -> i128
    ensures { result ≡ un_value op ty a }
{
    match op {
        UnOp::Neg => negated(ty, a),
        UnOp::Flip => wrap(ty, !a),
    }
}

/// 2 to the power of `n`.
fn power(n: u32) -> i128
    requires { n < 64 }
    ensures { result ≡ pos (2 ^ n) }
{
    1i128 << n
}

/// Wraps `a` times 2 to the power of `b`.
fn shifted_left(ty: IntType, a: i128, b: i128) -> Option<i128>
    ensures { result ≡ bin_value BinOp.Shl ty a b }
{
    let n = amount(ty, b)?;
    Some(product(ty, a, power(n)))
}

/// `a` divided by 2 to the power of `b`, rounded down.
fn shifted_right(ty: IntType, a: i128, b: i128) -> Option<i128>
    ensures { result ≡ bin_value BinOp.Shr ty a b }
{
    let n = amount(ty, b)?;
    Some(a >> n)
}

/// The value of an operator on `a` and `b`, or `None` where it traps.
pub fn bin_value(op: BinOp, ty: IntType, a: i128, b: i128) -> Option<i128>
    ensures { result ≡ bin_value op ty a b }
{
    match op {
        BinOp::Add => Some(sum(ty, a, b)),
        BinOp::Sub => Some(difference(ty, a, b)),
        BinOp::Mul => Some(product(ty, a, b)),
        BinOp::Div => quotient(ty, a, b),
        BinOp::Rem => remainder(a, b),
        BinOp::BitAnd => Some(from_bits(ty, bits(ty, a) & bits(ty, b))),
        BinOp::BitOr => Some(from_bits(ty, bits(ty, a) | bits(ty, b))),
        BinOp::BitXor => Some(from_bits(ty, bits(ty, a) ^ bits(ty, b))),
        BinOp::Shl => shifted_left(ty, a, b),
        BinOp::Shr => shifted_right(ty, a, b),
    }
}

/// Whether `a` and `b` compare so.
pub fn compares(op: CmpOp, a: i128, b: i128) -> bool
    ensures { result ≡ compares op a b }
{
    match op {
        CmpOp::Eq => a == b,
        CmpOp::Ne => a != b,
        CmpOp::Lt => a < b,
        CmpOp::Le => a <= b,
        CmpOp::Gt => a > b,
        CmpOp::Ge => a >= b,
    }
}

/// 1 where it is true, else 0.
pub fn truth(holds: bool) -> i128
    ensures { result ≡ truth holds }
{
    if holds { 1 } else { 0 }
}

/// Whether a value counts as true.
pub fn is_nonzero(a: i128) -> bool
    ensures { result ≡ is_nonzero a }
{
    a != 0
}

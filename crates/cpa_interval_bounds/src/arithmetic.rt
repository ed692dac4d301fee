//! The bounds of what operators give for numbers of two bounds, by `specs/Arithmetic.antt`. Ends
//! stop where 128 bits end (`saturated`), so that each function takes any bounds; no type sees it,
//! by `specs/lemmas/Saturated.antt`.

ghost use Rattle.std.specs.Prelude.{◌≡◌, ◌-◌, ◌^◌, ◌<◌, pos, ◌*ℤ◌, int_div};
ghost use Rattle.std.specs.Int.{w128, saturate_signed};
ghost use Rattle.cpa_interval_bounds.specs.Bounds.{only};
ghost use Rattle.cpa_interval_bounds.specs.Arithmetic.{negation, sum, difference, product};
ghost use Rattle.cpa_interval_bounds.specs.Arithmetic.{quotient};
ghost use Rattle.cpa_interval_bounds.specs.Arithmetic.{saturated, is_from_zero, remainder};
ghost use Rattle.cpa_interval_bounds.specs.Arithmetic.{all_ones, conjunction, disjunction};
ghost use Rattle.cpa_interval_bounds.specs.Arithmetic.{exclusion, clamped, halved, shifted_right};
ghost use Rattle.cpa_interval_bounds.specs.Arithmetic.{from_zero};
ghost use Rattle.cpa_interval_bounds.specs.Arithmetic.{un_bounds, bin_bounds};

use crate::bounds::{Bounds, fitted};
use cpa_expr::{BinOp, UnOp};
use cpa_ints::IntType;

/// The negated numbers.
fn negation(a: Bounds) -> Bounds
    ensures { result ≡ saturated (negation a) }
{
    Bounds {
        lo: 0i128.saturating_sub(a.hi),
        hi: 0i128.saturating_sub(a.lo),
    }
}

/// The sums.
fn sum(a: Bounds, b: Bounds) -> Bounds
    ensures { result ≡ saturated (sum a b) }
{
    Bounds {
        lo: a.lo.saturating_add(b.lo),
        hi: a.hi.saturating_add(b.hi),
    }
}

/// The differences.
fn difference(a: Bounds, b: Bounds) -> Bounds
    ensures { result ≡ saturated (difference a b) }
{
    Bounds {
        lo: a.lo.saturating_sub(b.hi),
        hi: a.hi.saturating_sub(b.lo),
    }
}

/// A product alone.
fn times(a: i128, b: i128) -> Bounds
    ensures { result ≡ saturated (only (a *ℤ b)) }
{
    Bounds::only(a.saturating_mul(b))
}

/// The hull of the products.
fn product(a: Bounds, b: Bounds) -> Bounds
    ensures { result ≡ saturated (product a b) }
{
    let low = times(a.lo, b.lo).hull(times(a.lo, b.hi));
    let high = times(a.hi, b.lo).hull(times(a.hi, b.hi));
    low.hull(high)
}

/// The quotient toward zero.
fn divided(a: i128, b: i128) -> i128
    ensures { result ≡ saturate_signed w128 (int_div a b) }
{
    if b == 0 {
        0
    } else if b == -1 {
        0i128.saturating_sub(a)
    } else {
        a / b
    }
}

/// A quotient alone.
fn over(a: i128, b: i128) -> Bounds
    ensures { result ≡ saturated (only (int_div a b)) }
{
    Bounds::only(divided(a, b))
}

/// The hull of the quotients.
fn quotient(a: Bounds, b: Bounds) -> Bounds
    ensures { result ≡ saturated (quotient a b) }
{
    let low = over(a.lo, b.lo).hull(over(a.lo, b.hi));
    let high = over(a.hi, b.lo).hull(over(a.hi, b.hi));
    low.hull(high)
}

/// Whether no number is negative.
fn is_from_zero(a: Bounds) -> bool
    ensures { result ≡ is_from_zero a }
{
    0 <= a.lo
}

/// What is left beside the quotient.
fn remainder(a: Bounds, b: Bounds) -> Bounds
    ensures { result ≡ remainder a b }
{
    Bounds {
        lo: 0,
        hi: if 0 < b.hi { a.hi.min(b.hi - 1) } else { a.hi },
    }
}

/// The number of this many bits, all set.
fn ones(bits: u32) -> i128
    requires { bits < 128 }
    ensures { result ≡ pos (2 ^ bits - 1) }
{
    ((1u128 << bits) - 1) as i128
}

/// The greatest number that has no more bits.
fn all_ones(n: i128) -> i128
    ensures { result ≡ all_ones n }
{
    if n < 0 {
        0
    } else {
        ones(128 - n.leading_zeros())
    }
}

/// Bits that both have.
fn conjunction(a: Bounds, b: Bounds) -> Bounds
    ensures { result ≡ conjunction a b }
{
    Bounds {
        lo: 0,
        hi: a.hi.min(b.hi),
    }
}

/// Bits that either has.
fn disjunction(a: Bounds, b: Bounds) -> Bounds
    ensures { result ≡ disjunction a b }
{
    Bounds {
        lo: a.lo.max(b.lo),
        hi: all_ones(a.hi.max(b.hi)),
    }
}

/// Bits that one of them has.
fn exclusion(a: Bounds, b: Bounds) -> Bounds
    ensures { result ≡ exclusion a b }
{
    Bounds {
        lo: 0,
        hi: all_ones(a.hi.max(b.hi)),
    }
}

/// The amount of a shift, or the next one from 0 to the width less 1.
fn clamped(ty: IntType, amount: i128) -> u32
    ensures value { result ≡ clamped ty amount }
    ensures narrow { result < 64 }
{
    amount.clamp(0, ty.width() as i128 - 1) as u32
}

/// A number divided by 2 to the power of the amount, rounded down.
fn halved(ty: IntType, a: i128, amount: i128) -> i128
    ensures { result ≡ halved ty a amount }
{
    a >> clamped(ty, amount)
}

/// The numbers shifted to the right.
fn shifted_right(ty: IntType, a: Bounds, b: Bounds) -> Bounds
    ensures { result ≡ shifted_right ty a b }
{
    Bounds {
        lo: halved(ty, a.lo, b.hi),
        hi: halved(ty, a.hi, b.lo),
    }
}

/// The bounds, where no number of `a` or `b` is negative, and else all numbers of the type.
fn from_zero(ty: IntType, a: Bounds, b: Bounds, inner: Bounds) -> Bounds
    ensures { result ≡ from_zero ty a b inner }
{
    if is_from_zero(a) && is_from_zero(b) {
        inner
    } else {
        Bounds::range_of(ty)
    }
}

/// The bounds of what an operator gives for the numbers of `a`.
pub fn un_bounds(op: UnOp, ty: IntType, a: Bounds) -> Bounds
    ensures { result ≡ un_bounds op ty a }
{
    match op {
        UnOp::Neg => fitted(ty, negation(a)),
        UnOp::Flip => Bounds::range_of(ty),
    }
}

/// The bounds of what an operator gives for the numbers of `a` and `b`.
pub fn bin_bounds(op: BinOp, ty: IntType, a: Bounds, b: Bounds) -> Bounds
    ensures { result ≡ bin_bounds op ty a b }
{
    match op {
        BinOp::Add => fitted(ty, sum(a, b)),
        BinOp::Sub => fitted(ty, difference(a, b)),
        BinOp::Mul => fitted(ty, product(a, b)),
        BinOp::Div => {
            if b.has(0) {
                Bounds::range_of(ty)
            } else {
                fitted(ty, quotient(a, b))
            }
        }
        BinOp::Rem => from_zero(ty, a, b, remainder(a, b)),
        BinOp::BitAnd => from_zero(ty, a, b, conjunction(a, b)),
        BinOp::BitOr => from_zero(ty, a, b, disjunction(a, b)),
        BinOp::BitXor => from_zero(ty, a, b, exclusion(a, b)),
        BinOp::Shl => Bounds::range_of(ty),
        BinOp::Shr => from_zero(ty, a, b, shifted_right(ty, a, b)),
    }
}

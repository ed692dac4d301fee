//! What a comparison leaves of bounds, by `specs/Cuts.antt`.

ghost use Rattle.std.specs.Prelude.{◌≡◌, pos, ◌+ℤ◌, ◌-ℤ◌, if◌then◌else◌};
ghost use Rattle.std.specs.Int.{w128, saturate_signed};
ghost use Rattle.cpa_expr.specs.declared.tree.CmpOp.TheVariants.{Ne as Differs};
ghost use Rattle.cpa_interval_bounds.specs.Cuts.{cut};
ghost use Rattle.cpa_interval_bounds.specs.Truths.{is_only};

use crate::bounds::Bounds;
use crate::truths::is_only;
use cpa_expr::CmpOp;

/// The hull of the numbers of `a` that compare so with some number of `b`, where there are any.
pub fn cut(op: CmpOp, a: Bounds, b: Bounds) -> Option<Bounds>
    ensures { result ≡ cut op a b }
{
    match op {
        CmpOp::Eq => a.meet(b),
        CmpOp::Ne => without(a, b),
        CmpOp::Lt => Bounds::between(a.lo, a.hi.min(b.hi.checked_sub(1)?)),
        CmpOp::Le => Bounds::between(a.lo, a.hi.min(b.hi)),
        CmpOp::Gt => Bounds::between(a.lo.max(b.lo.checked_add(1)?), a.hi),
        CmpOp::Ge => Bounds::between(a.lo.max(b.lo), a.hi),
    }
}

/// The lower end, or the next number where `b` has this one alone.
fn low_without(lo: i128, b: Bounds) -> i128
    ensures { result ≡ (if is_only b lo then saturate_signed w128 (lo +ℤ pos 1) else lo) }
{
    if is_only(b, lo) {
        lo.saturating_add(1)
    } else {
        lo
    }
}

/// The upper end, or the number before where `b` has this one alone.
fn high_without(hi: i128, b: Bounds) -> i128
    ensures { result ≡ (if is_only b hi then saturate_signed w128 (hi -ℤ pos 1) else hi) }
{
    if is_only(b, hi) {
        hi.saturating_sub(1)
    } else {
        hi
    }
}

/// The numbers of `a` that differ from some number of `b`: where `b` has one alone and it is an end
/// of `a`, that end is cut off.
fn without(a: Bounds, b: Bounds) -> Option<Bounds>
    ensures { result ≡ cut Differs a b }
{
    Bounds::between(low_without(a.lo, b), high_without(a.hi, b))
}

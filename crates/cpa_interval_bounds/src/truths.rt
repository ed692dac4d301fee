//! Which truths the values within bounds may have, by `specs/Truths.antt`.

ghost use Rattle.std.specs.Prelude.{◌≡◌};
ghost use Rattle.cpa_interval_bounds.specs.Truths.{is_only, truths_of, may_be, one_where};
ghost use Rattle.cpa_interval_bounds.specs.Truths.{numbers_of, opposite, exchanged, may_compare};
ghost use Rattle.cpa_interval_bounds.specs.Truths.{compared, both_hold, one_holds, it_fails};

use crate::bounds::{Bounds, hull_where_some};
use cpa_expr::CmpOp;

/// Which truths a value may have: whether it may hold, which is to differ from 0, and whether it
/// may fail. There is no value where neither may be.
#[derive(Clone, Copy, PartialEq, Eq)]
pub struct Truths {
    pub holds: bool,
    pub fails: bool,
}

impl Truths {
    /// Whether that truth is one of them.
    pub fn may_be(self, holds: bool) -> bool
        ensures { result ≡ may_be self holds }
    {
        if holds { self.holds } else { self.fails }
    }
}

/// Whether there is no other number than this one.
pub(crate) fn is_only(b: Bounds, n: i128) -> bool
    ensures { result ≡ is_only b n }
{
    b.lo == n && b.hi == n
}

/// Which truths the numbers have, none where there is no number.
pub fn truths_of(b: Option<Bounds>) -> Truths
    ensures { result ≡ truths_of b }
{
    match b {
        None => Truths {
            holds: false,
            fails: false,
        },
        Some(b) => Truths {
            holds: !is_only(b, 0),
            fails: b.has(0),
        },
    }
}

/// The number, where it may be.
fn one_where(may: bool, n: i128) -> Option<Bounds>
    ensures { result ≡ one_where may n }
{
    if may { Some(Bounds::only(n)) } else { None }
}

/// The numbers 0 and 1, as far as they may be.
pub(crate) fn numbers_of(t: Truths) -> Option<Bounds>
    ensures { result ≡ numbers_of t }
{
    hull_where_some(one_where(t.fails, 0), one_where(t.holds, 1))
}

/// The comparison that holds where this one fails.
pub fn opposite(op: CmpOp) -> CmpOp
    ensures { result ≡ opposite op }
{
    match op {
        CmpOp::Eq => CmpOp::Ne,
        CmpOp::Ne => CmpOp::Eq,
        CmpOp::Lt => CmpOp::Ge,
        CmpOp::Le => CmpOp::Gt,
        CmpOp::Gt => CmpOp::Le,
        CmpOp::Ge => CmpOp::Lt,
    }
}

/// The comparison of the sides exchanged.
pub fn exchanged(op: CmpOp) -> CmpOp
    ensures { result ≡ exchanged op }
{
    match op {
        CmpOp::Eq => CmpOp::Eq,
        CmpOp::Ne => CmpOp::Ne,
        CmpOp::Lt => CmpOp::Gt,
        CmpOp::Le => CmpOp::Ge,
        CmpOp::Gt => CmpOp::Lt,
        CmpOp::Ge => CmpOp::Le,
    }
}

/// Whether some number of `a` and some number of `b` compare so.
pub fn may_compare(op: CmpOp, a: Bounds, b: Bounds) -> bool
    ensures { result ≡ may_compare op a b }
{
    match op {
        CmpOp::Eq => a.lo <= b.hi && b.lo <= a.hi,
        CmpOp::Ne => !(a.lo == b.hi && a.hi == b.lo),
        CmpOp::Lt => a.lo < b.hi,
        CmpOp::Le => a.lo <= b.hi,
        CmpOp::Gt => b.lo < a.hi,
        CmpOp::Ge => b.lo <= a.hi,
    }
}

/// Which truths the comparison has.
pub(crate) fn compared(op: CmpOp, a: Bounds, b: Bounds) -> Truths
    ensures { result ≡ compared op a b }
{
    Truths {
        holds: may_compare(op, a, b),
        fails: may_compare(opposite(op), a, b),
    }
}

/// That both hold. The second one counts only where the first holds.
pub(crate) fn both_hold(first: Truths, second: Truths) -> Truths
    ensures { result ≡ both_hold first second }
{
    Truths {
        holds: first.holds && second.holds,
        fails: first.fails || first.holds && second.fails,
    }
}

/// That one holds. The second one counts only where the first fails.
pub(crate) fn one_holds(first: Truths, second: Truths) -> Truths
    ensures { result ≡ one_holds first second }
{
    Truths {
        holds: first.holds || first.fails && second.holds,
        fails: first.fails && second.fails,
    }
}

/// That it fails.
pub(crate) fn it_fails(t: Truths) -> Truths
    ensures { result ≡ it_fails t }
{
    Truths {
        holds: t.fails,
        fails: t.holds,
    }
}

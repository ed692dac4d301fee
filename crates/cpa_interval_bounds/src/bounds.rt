//! Bounds as sets of numbers, by `specs/Bounds.antt`.

ghost use Rattle.std.specs.Prelude.{◌≡◌, if◌then◌else◌};
ghost use Rattle.cpa_interval_bounds.specs.Bounds.{bounds, only, range_of, has, is_inside};
ghost use Rattle.cpa_interval_bounds.specs.Bounds.{between, hull, meet, hull_where_some, fitted};

use cpa_ints::IntType;

/// The numbers from a least to a greatest one.
#[derive(Clone, Copy, PartialEq, Eq)]
pub struct Bounds {
    pub lo: i128,
    pub hi: i128,
}

impl Bounds {
    /// One number alone.
    pub fn only(n: i128) -> Bounds
        ensures { result ≡ only n }
    {
        Bounds { lo: n, hi: n }
    }

    /// All numbers of a type.
    pub fn range_of(ty: IntType) -> Bounds
        ensures { result ≡ range_of ty }
    {
        Bounds {
            lo: ty.least(),
            hi: ty.greatest(),
        }
    }

    /// The numbers from `lo` to `hi`, where there are any.
    pub fn between(lo: i128, hi: i128) -> Option<Bounds>
        ensures { result ≡ between lo hi }
    {
        if lo <= hi {
            Some(Bounds { lo, hi })
        } else {
            None
        }
    }

    /// Whether the number is one of these.
    pub fn has(self, n: i128) -> bool
        ensures { result ≡ has self n }
    {
        self.lo <= n && n <= self.hi
    }

    /// Whether both ends are among the others, so that all numbers are.
    pub fn is_inside(self, other: Bounds) -> bool
        ensures { result ≡ is_inside self other }
    {
        other.has(self.lo) && other.has(self.hi)
    }

    /// The least bounds that have the numbers of both.
    pub fn hull(self, other: Bounds) -> Bounds
        ensures { result ≡ hull self other }
    {
        Bounds {
            lo: self.lo.min(other.lo),
            hi: self.hi.max(other.hi),
        }
    }

    /// The numbers of both, where there are any.
    pub fn meet(self, other: Bounds) -> Option<Bounds>
        ensures { result ≡ meet self other }
    {
        Bounds::between(self.lo.max(other.lo), self.hi.min(other.hi))
    }
}

/// The hull of what there is.
pub fn hull_where_some(a: Option<Bounds>, b: Option<Bounds>) -> Option<Bounds>
    ensures { result ≡ hull_where_some a b }
{
    match (a, b) {
        (Some(a), Some(b)) => Some(a.hull(b)),
        (Some(a), None) => Some(a),
        (None, b) => b,
    }
}

/// The bounds where they fit the type, and else all its numbers: a number beyond the range wraps to
/// any of them.
pub fn fitted(ty: IntType, exact: Bounds) -> Bounds
    ensures { result ≡ fitted ty exact }
{
    if exact.is_inside(Bounds::range_of(ty)) {
        exact
    } else {
        Bounds::range_of(ty)
    }
}

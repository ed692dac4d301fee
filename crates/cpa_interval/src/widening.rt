//! The widening of bounds, by `specs/Widening.antt`.

ghost use Rattle.std.specs.Prelude.{◌≡◌, int_le, int_lt, if◌then◌else◌};
ghost use Rattle.std.specs.Int.{int_max, int_min};
ghost use Rattle.cpa_interval_bounds.specs.Bounds.{bounds};
ghost use Rattle.cpa_interval.specs.Widening.{next_down, next_up, widened};

use cpa_interval_bounds::Bounds;
use cpa_ints::IntType;

/// The bounds that take the place of old ones where new ones have come: an end that has to move
/// goes on to the next of these numbers, or to the end of the type where there is none. No number
/// is looked at where both ends stand.
pub fn widened(numbers: &[i128], ty: IntType, old: Bounds, new: Bounds) -> Bounds
    ensures { result ≡ widened numbers.now ty old new }
{
    if new.lo < old.lo || old.hi < new.hi {
        moved(old, new, nearest(numbers, Bounds::range_of(ty), new))
    } else {
        old
    }
}

/// The old bounds, with each end that the new ones move as the far ones have it.
fn moved(old: Bounds, new: Bounds, far: Bounds) -> Bounds
    ensures { result ≡ bounds (if int_lt new.lo old.lo then far.lo else old.lo)
        (if int_lt old.hi new.hi then far.hi else old.hi) }
{
    if new.lo < old.lo {
        if old.hi < new.hi {
            return far;
        }
        return Bounds {
            lo: far.lo,
            hi: old.hi,
        };
    }
    if old.hi < new.hi {
        return Bounds {
            lo: old.lo,
            hi: far.hi,
        };
    }
    old
}

/// From the range on, the nearest of these numbers below and above the new bounds.
fn nearest(numbers: &[i128], range: Bounds, new: Bounds) -> Bounds
    ensures { result ≡ bounds (next_down numbers.now range.lo new.lo)
        (next_up numbers.now range.hi new.hi) }
{
    let mut own = range;
    for number in numbers {
        own = below(above(own, number, new), number, new);
    }
    own
}

/// The number as the lower end, where it lies below the new bounds and is greater than the own end.
fn below(own: Bounds, number: &i128, new: Bounds) -> Bounds
    ensures { result ≡ bounds
        (if int_le number.now new.lo then int_max own.lo number.now else own.lo) own.hi }
{
    if *number <= new.lo {
        Bounds {
            lo: own.lo.max(*number),
            hi: own.hi,
        }
    } else {
        own
    }
}

/// The number as the upper end, where it lies above the new bounds and is less than the own end.
fn above(own: Bounds, number: &i128, new: Bounds) -> Bounds
    ensures { result ≡ bounds own.lo
        (if int_le new.hi number.now then int_min own.hi number.now else own.hi) }
{
    if new.hi <= *number {
        Bounds {
            lo: own.lo,
            hi: own.hi.min(*number),
        }
    } else {
        own
    }
}

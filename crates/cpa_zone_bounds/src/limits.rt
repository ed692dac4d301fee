//! What two bounds of one difference are merged to, by `specs/Limits.antt`.

ghost use Rattle.std.specs.Prelude.{◌≡◌, int_le, if◌then◌else◌};
ghost use Rattle.std.specs.Int.{int_min};
ghost use Rattle.cpa_zone_bounds.specs.Limits.{next_number, joined, widened};

/// The greater bound.
pub fn joined(old: i128, new: i128) -> i128
    ensures { result ≡ joined old new }
{
    old.max(new)
}

/// The bound that takes the place of the old one where the new one has come: one that has to move
/// goes on to the next of these numbers, or to `top` where there is none below it. No number is
/// looked at where it does not have to move.
pub fn widened(numbers: &[i128], top: i128, old: i128, new: i128) -> i128
    ensures { result ≡ widened numbers.now top old new }
{
    if new <= old {
        old
    } else {
        next_number(numbers, top, new)
    }
}

/// The least of `top` and of the numbers that are at least `end`.
fn next_number(numbers: &[i128], top: i128, end: i128) -> i128
    ensures { result ≡ next_number numbers.now top end }
{
    let mut own = top;
    for number in numbers {
        own = nearer(own, number, end);
    }
    own
}

/// The number, where it is at least `end` and less than the own one.
fn nearer(own: i128, number: &i128, end: i128) -> i128
    ensures { result ≡ (if int_le end number.now then int_min own number.now else own) }
{
    if end <= *number {
        own.min(*number)
    } else {
        own
    }
}

//! The closure of bounds, by `specs/Closures.antt`. No sum wraps: before the ways through a row are
//! opened, no way to it and back is shorter than none, so that none to it or from it is too short.
//! Proved with `specs/lemmas/Ways.antt`, `Kept.antt` and `Fillings.antt`.

ghost use Rattle.std.specs.Prelude.{◌≡◌, ◌+◌, ◌<◌, ◌≤◌, ◌*◌, ◌+ℤ◌, length, if◌then◌else◌, Some};
ghost use Rattle.std.specs.Prelude.{None};
ghost use Rattle.std.specs.Prelude.{true, pos, int_le, slice_set};
ghost use Rattle.std.specs.List.{All};
ghost use Rattle.std.specs.Int.{int_min};
ghost use Rattle.cpa_zone_bounds.specs.Distances.{IsKept, AreOwn, entry};
ghost use Rattle.cpa_zone_bounds.specs.Closures.{by_way, through, come_back, opened};
ghost use Rattle.cpa_zone_bounds.specs.Closures.{closure};

use crate::places::{at, put};

/// Makes each bound the length of a shortest way, and says whether none that comes back is shorter
/// than none.
#[tactic(auto, using(crate::specs::lemmas::Ways::closing_rules))]
pub(crate) fn close(most: &mut [i64], rows: usize) -> bool
    requires square { length most.old ≡ rows * rows }
    requires few { rows ≤ 17 }
    requires kept { All IsKept most.old }
    requires own { AreOwn rows most.old }
    ensures kept { All IsKept most.new }
    ensures own { AreOwn rows most.new }
    ensures closed { (if result then Some most.new else None) ≡ closure rows most.old }
{
    for k in 0..rows {
        if !open(most, rows, k) {
            return false;
        }
    }
    true
}

/// Lets the ways go through row k, and says whether none that comes back is shorter than none.
#[tactic(auto, using(crate::specs::lemmas::Ways::opening_rules))]
fn open(most: &mut [i64], rows: usize, k: usize) -> bool
    requires square { length most.old ≡ rows * rows }
    requires few { rows ≤ 17 }
    requires row { k < rows }
    requires kept { All IsKept most.old }
    requires own { AreOwn rows most.old }
    ensures kept { All IsKept most.new }
    ensures own { AreOwn rows most.new }
    ensures opened { (if result then Some most.new else None) ≡ opened rows k most.old }
{
    if come_back(most, rows, k) {
        pass_through(most, rows, k);
        true
    } else {
        false
    }
}

/// Whether no way to row k and back is shorter than none.
#[tactic(auto, using(crate::specs::lemmas::Ways::back_rules))]
fn come_back(most: &[i64], rows: usize, k: usize) -> bool
    requires square { length most.now ≡ rows * rows }
    requires few { rows ≤ 17 }
    requires row { k < rows }
    requires kept { All IsKept most.now }
    ensures { result ≡ come_back rows k most.now rows }
{
    for i in 0..rows {
        if !comes_back(most, rows, k, i) {
            return false;
        }
    }
    true
}

/// Whether the way from row i to row k and back is no shorter than none.
#[tactic(auto, using(crate::specs::lemmas::Kept::kept_at))]
fn comes_back(most: &[i64], rows: usize, k: usize, i: usize) -> bool
    requires square { length most.now ≡ rows * rows }
    requires few { rows ≤ 17 }
    requires row { k < rows }
    requires other { i < rows }
    requires kept { All IsKept most.now }
    ensures { result ≡ int_le (pos 0) (entry rows most.now i k +ℤ entry rows most.now k i) }
{
    is_forward(at(most, rows, i, k), at(most, rows, k, i))
}

/// Whether the sum of two bounds is not negative.
fn is_forward(way: i64, back: i64) -> bool
    requires way { IsKept way }
    requires back { IsKept back }
    ensures { result ≡ int_le (pos 0) (way +ℤ back) }
{
    0 <= way + back
}

/// Each bound, or the sum of those through row k where that is less. That row and its column stay
/// as they are meanwhile.
#[tactic(auto, using(crate::specs::lemmas::Kept::by_way_rules))]
fn pass_through(most: &mut [i64], rows: usize, k: usize)
    requires square { length most.old ≡ rows * rows }
    requires few { rows ≤ 17 }
    requires row { k < rows }
    requires kept { All IsKept most.old }
    requires own { AreOwn rows most.old }
    requires back { come_back rows k most.old rows ≡ true }
    ensures { most.new ≡ through rows k most.old }
{
    for i in 0..rows {
        for j in 0..rows {
            shorten(most, rows, k, i, j);
        }
    }
}

/// The bound in row i and column j, or the sum of those through row k where that is less.
#[tactic(auto, using(crate::specs::lemmas::Kept::kept_at))]
fn shorten(most: &mut [i64], rows: usize, k: usize, i: usize, j: usize)
    requires square { length most.old ≡ rows * rows }
    requires few { rows ≤ 17 }
    requires mid { k < rows }
    requires row { i < rows }
    requires column { j < rows }
    requires kept { All IsKept most.old }
    ensures { most.new ≡ slice_set most.old (i * rows + j) (by_way rows k most.old i j) }
{
    let own = shorter(
        at(most, rows, i, j),
        at(most, rows, i, k),
        at(most, rows, k, j),
    );
    put(most, rows, i, j, own);
}

/// The bound, or the sum of the two where that is less.
fn shorter(own: i64, way: i64, next: i64) -> i64
    requires way { IsKept way }
    requires next { IsKept next }
    ensures { result ≡ int_min own (way +ℤ next) }
{
    own.min(way + next)
}

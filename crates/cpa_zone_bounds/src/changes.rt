//! What becomes of bounds where a number changes, by `specs/Changes.antt`. Proved with
//! `specs/lemmas/Changing.antt` and `Fillings.antt`.

ghost use Rattle.std.specs.Prelude.{◌≡◌, ◌+◌, ◌<◌, ◌≤◌, ◌*◌, ◌+ℤ◌, ◌-ℤ◌, length, slice_set, IfOk};
ghost use Rattle.std.specs.List.{All};
ghost use Rattle.cpa_zone_bounds.specs.Distances.{entry, table, widest, AreRanges};
ghost use Rattle.cpa_zone_bounds.specs.Distances.{IsKept};
ghost use Rattle.cpa_zone_bounds.specs.Changes.{lesser, kept_within, after_change, changed};
ghost use Rattle.cpa_zone_bounds.specs.Changes.{tightened, is_among, IsModest, IsSmall};
ghost use Rattle.cpa_zone_bounds.specs.declared.changes.Change.TheVariants.{Shifted};

use crate::places::{at, put};
use crate::ranges::{Range, widest};
use std::alloc::{AllocError, Global};

/// The least difference that is kept, negative: no numbers of 32 bits differ by so much.
const FAR: i64 = 1 << 34;

/// What happens to the numbers.
#[derive(Clone, Copy)]
pub enum Change {
    /// Nothing is known of any number.
    Everything,
    /// Nothing is known of the numbers of these rows.
    Forgotten { start: usize, end: usize },
    /// The number of this row grows by so much, and stays in its range.
    Shifted { row: usize, by: i128 },
}

/// What the ranges alone give.
#[tactic(auto, using(crate::specs::lemmas::Changing::widest_rules))]
pub(crate) fn widest_bounds(alloc: Global, ranges: &[Range]) -> Result<Vec<i64>, AllocError>
    requires { AreRanges ranges.now }
    ensures { IfOk result (λ most. most.items ≡ table (length ranges.now) (widest ranges.now)) }
{
    let mut most = vec![in alloc; 0; ranges.len() * ranges.len()]?;
    change_all(ranges, Change::Everything, most.as_mut_slice());
    Ok(most)
}

/// Changes the bounds.
#[tactic(auto, using(crate::specs::lemmas::Changing::changed_rules))]
pub(crate) fn change_all(ranges: &[Range], change: Change, most: &mut [i64])
    requires ranges { AreRanges ranges.now }
    requires square { length most.old ≡ length ranges.now * length ranges.now }
    requires kept { All IsKept most.old }
    requires small { IsSmall change }
    ensures { most.new ≡ changed ranges.now change most.old }
{
    for i in 0..ranges.len() {
        for j in 0..ranges.len() {
            change_at(ranges, change, most, i, j);
        }
    }
}

/// Changes the bound in row i and column j.
#[tactic(auto, using(crate::specs::lemmas::Kept::kept_at))]
fn change_at(ranges: &[Range], change: Change, most: &mut [i64], i: usize, j: usize)
    requires ranges { AreRanges ranges.now }
    requires square { length most.old ≡ length ranges.now * length ranges.now }
    requires row { i < length ranges.now }
    requires column { j < length ranges.now }
    requires kept { All IsKept most.old }
    requires small { IsSmall change }
    ensures { most.new ≡ slice_set most.old (i * length ranges.now + j)
        (after_change ranges.now change i j (entry (length ranges.now) most.old i j)) }
{
    let rows = ranges.len();
    let own = after_change(ranges, change, i, j, at(most, rows, i, j));
    put(most, rows, i, j, own);
}

/// The bound in row i and column j after the change.
fn after_change(ranges: &[Range], change: Change, i: usize, j: usize, own: i64) -> i64
    requires ranges { AreRanges ranges.now }
    requires row { i < length ranges.now }
    requires column { j < length ranges.now }
    requires small { IsSmall change }
    ensures { result ≡ after_change ranges.now change i j own }
{
    match change {
        Change::Everything => widest(ranges, i, j),
        Change::Forgotten { start, end } => {
            if is_among(start, end, i) || is_among(start, end, j) {
                widest(ranges, i, j)
            } else {
                own
            }
        }
        Change::Shifted { row, by } => shifted(ranges, row, by, i, j, own),
    }
}

/// Whether the row is one of these.
fn is_among(start: usize, end: usize, row: usize) -> bool
    ensures { result ≡ is_among start end row }
{
    start <= row && row < end
}

/// The bound in row i and column j where the number of a row grows by so much.
fn shifted(ranges: &[Range], row: usize, by: i128, i: usize, j: usize, own: i64) -> i64
    requires ranges { AreRanges ranges.now }
    requires row { i < length ranges.now }
    requires column { j < length ranges.now }
    requires by { IsModest by }
    ensures { result ≡ after_change ranges.now (Shifted row by) i j own }
{
    if i == j {
        own
    } else if i == row {
        kept_within(ranges, i, j, more(own, by))
    } else if j == row {
        kept_within(ranges, i, j, less(own, by))
    } else {
        own
    }
}

/// The bound and so much.
fn more(own: i64, by: i128) -> i128
    requires { IsModest by }
    ensures { result ≡ own +ℤ by }
{
    own as i128 + by
}

/// The bound less so much.
fn less(own: i64, by: i128) -> i128
    requires { IsModest by }
    ensures { result ≡ own -ℤ by }
{
    own as i128 - by
}

/// A bound, and what the two ranges give for it at most.
fn kept_within(ranges: &[Range], i: usize, j: usize, own: i128) -> i64
    requires ranges { AreRanges ranges.now }
    requires row { i < length ranges.now }
    requires column { j < length ranges.now }
    ensures { result ≡ kept_within ranges.now i j own }
{
    lesser(widest(ranges, i, j), own)
}

/// The lesser of two bounds, where it is kept.
fn lesser(own: i64, other: i128) -> i64
    ensures { result ≡ lesser own other }
{
    if other < own as i128 {
        other.max(-FAR as i128) as i64
    } else {
        own.max(-FAR)
    }
}

/// The number of the row minus that of the column is no more than this, too.
pub(crate) fn tighten(most: &mut [i64], rows: usize, row: usize, column: usize, own: i128)
    requires square { length most.old ≡ rows * rows }
    requires few { rows ≤ 17 }
    requires row { row < rows }
    requires column { column < rows }
    ensures { most.new ≡ tightened rows row column own most.old }
{
    let other = lesser(at(most, rows, row, column), own);
    put(most, rows, row, column, other);
}

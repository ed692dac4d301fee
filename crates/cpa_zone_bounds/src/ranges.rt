//! The ranges of numbers, and what they give for differences, by `specs/Distances.antt`.

ghost use Rattle.std.specs.Prelude.{◌≡◌, ◌<◌, ◌-ℤ◌, length};
ghost use Rattle.cpa_zone_bounds.specs.Distances.{range_at, widest, IsNarrow, AreRanges};

/// The numbers from a least to a greatest one.
#[derive(Clone, Copy)]
pub struct Range {
    pub least: i64,
    pub greatest: i64,
}

/// The range of a row's number.
pub(crate) fn range_at(ranges: &[Range], row: usize) -> Range
    requires { row < length ranges.now }
    ensures { result ≡ range_at ranges.now row }
{
    ranges[row]
}

/// What the ranges give for the difference of two numbers.
#[tactic(auto, using(crate::specs::lemmas::Changing::narrow_is))]
pub(crate) fn widest(ranges: &[Range], row: usize, column: usize) -> i64
    requires ranges { AreRanges ranges.now }
    requires row { row < length ranges.now }
    requires column { column < length ranges.now }
    ensures { result ≡ widest ranges.now row column }
{
    if row == column {
        0
    } else {
        difference(range_at(ranges, row), range_at(ranges, column))
    }
}

/// The greatest number of the one less the least of the other.
fn difference(range: Range, other: Range) -> i64
    requires range { IsNarrow range }
    requires other { IsNarrow other }
    ensures { result ≡ range.greatest -ℤ other.least }
{
    range.greatest - other.least
}

//! Bounds of the differences of numbers, by `specs/Distances.antt`: a square of rows and columns,
//! of which contracts see the ranges and the list of the bounds.

ghost use Rattle.std.specs.Prelude.{◌≡◌, ◌≢◌, ◌<◌, IfOk, if◌then◌else◌, Some, None, length};
ghost use Rattle.cpa_zone_bounds.specs.Distances.{rows_of, bound, range_at, widest, AreRanges};
ghost use Rattle.cpa_zone_bounds.specs.Distances.{table};
ghost use Rattle.cpa_zone_bounds.specs.Changes.{tightened, changed, IsSmall};
ghost use Rattle.cpa_zone_bounds.specs.Closures.{closure};

use crate::changes::{Change, change_all, tighten, widest_bounds};
use crate::closing::close;
use crate::places::at;
use crate::ranges::{Range, range_at, widest};
use std::alloc::{AllocError, Global};
use std::marker::Model;

/// Bounds of the differences of at most 17 numbers, the first of which is 0.
#[derive(Drop)]
pub struct Bounds {
    ranges: Vec<Range>,
    /// Row after row.
    most: Vec<i64>,
}

impl Model for Bounds {
    ghost use Rattle.cpa_zone_bounds.specs.Distances.{Square, AreBounds};

    ghost Value = { Square };

    ghost view = { λ b. record { ranges = b.ranges.items; most = b.most.items } };

    ghost invariant = { λ b. AreBounds b.ranges.items b.most.items };
}

impl Bounds {
    /// What the ranges alone give.
    #[tactic(auto, using(crate::specs::lemmas::Changing::bounds_rules))]
    pub fn of_ranges(alloc: Global, ranges: Vec<Range>) -> Result<Bounds, AllocError>
        requires { AreRanges ranges.items }
        ensures ranges { IfOk result (λ b. b.ranges ≡ ranges.items) }
        ensures most { IfOk result (λ b.
            b.most ≡ table (length ranges.items) (widest ranges.items)) }
    {
        let most = widest_bounds(alloc, ranges.as_slice())?;
        Ok(Bounds { ranges, most })
    }

    /// How many rows there are.
    pub fn rows(&self) -> usize
        ensures { result ≡ rows_of self.now }
    {
        self.ranges.len()
    }

    /// The range of a row's number.
    pub fn range(&self, row: usize) -> Range
        requires { row < rows_of self.now }
        ensures { result ≡ range_at self.now.ranges row }
    {
        range_at(self.ranges.as_slice(), row)
    }

    /// What the ranges give for the difference of two numbers.
    pub fn widest(&self, row: usize, column: usize) -> i64
        requires row { row < rows_of self.now }
        requires column { column < rows_of self.now }
        ensures { result ≡ widest self.now.ranges row column }
    {
        widest(self.ranges.as_slice(), row, column)
    }

    /// The bound of the number of the row minus that of the column.
    pub fn at(&self, row: usize, column: usize) -> i64
        requires row { row < rows_of self.now }
        requires column { column < rows_of self.now }
        ensures { result ≡ bound self.now row column }
    {
        at(self.most.as_slice(), self.ranges.len(), row, column)
    }

    /// The number of the row minus that of the column is no more than this, too.
    #[tactic(auto, using(crate::specs::lemmas::Changing::bounds_rules))]
    pub fn tighten(&mut self, row: usize, column: usize, most: i128)
        requires row { row < rows_of self.old }
        requires column { column < rows_of self.old }
        requires other { row ≢ column }
        ensures ranges { self.new.ranges ≡ self.old.ranges }
        ensures most { self.new.most
            ≡ tightened (rows_of self.old) row column most self.old.most }
    {
        let rows = self.ranges.len();
        tighten(self.most.as_mut_slice(), rows, row, column, most);
    }

    /// What becomes of the bounds where numbers change.
    pub fn change(&mut self, change: Change)
        requires { IsSmall change }
        ensures ranges { self.new.ranges ≡ self.old.ranges }
        ensures most { self.new.most ≡ changed self.old.ranges change self.old.most }
    {
        change_all(self.ranges.as_slice(), change, self.most.as_mut_slice());
    }

    /// Makes each bound the least one, and says whether there are such numbers.
    #[tactic(auto, using(crate::specs::lemmas::Changing::bounds_rules))]
    pub fn close(&mut self) -> bool
        ensures ranges { self.new.ranges ≡ self.old.ranges }
        ensures most { (if result then Some self.new.most else None)
            ≡ closure (rows_of self.old) self.old.most }
    {
        let rows = self.ranges.len();
        close(self.most.as_mut_slice(), rows)
    }
}

//! The cells that a precision tracks, found without a mark for each cell of the program where that
//! is no dearer. `is_tracked` stands in `cpa_folds`. Proved with `proofs/TrackedLemmas.antt`.

ghost use Rattle.std.specs.Prelude.{◌≡◌, ◌==◌, ◌↔◌, ℕ, ◌+◌, ◌<◌, ◌≤◌, true};
ghost use Rattle.std.specs.Prelude.{drop, length, IfOk, IsTrue};
ghost use Rattle.std.specs.List.{AllByRecursion, list_any};
ghost use Rattle.cpa_iface.specs.Cells.{own_places};
ghost use Rattle.cpa_folds.specs.Tracking.{is_tracked};

use cpa_folds::{is_marked, tracked_marks};
use cpa_iface::{Cells, Precision};
use std::alloc::{AllocError, Global};
use std::marker::Model;

/// So many cells at most, which do not stand at their own places, are looked through.
const FEW_CELLS: usize = 32;

/// The cells that a precision tracks; contracts see the precision.
#[derive(Drop)]
pub struct Tracked<'a> {
    precision: &'a Precision,
    /// The marks of the cells, where many do not stand at their own places in the list.
    marks: Option<Vec<bool>>,
}

impl<'a> Model for Tracked<'a> {
    ghost use Rattle.std.specs.Prelude.{◌≡◌, ℕ, IfSome};
    ghost use Rattle.cpa_expr.specs.contracts.tree.Expr as e;
    ghost use Rattle.std.specs.Coded.{codes};
    ghost use Rattle.cpa_iface.specs.declared.precisions.Precision.{Precision};
    ghost use Rattle.cpa_folds.specs.Tracking.{is_tracked};
    ghost use Rattle.cpa_query.specs.Queries.{is_marked};

    ghost Value = { Precision };

    ghost coded = { Prim.hlevel (codes, e.the_row.coded) };

    ghost view = { λ t. t.precision.now };

    ghost invariant = { λ t. IfSome t.marks (λ marks.
        (cell : ℕ) → is_marked marks.items cell ≡ is_tracked t.precision.now cell) };
}

impl<'a> Tracked<'a> {
    /// The cells of the precision, all of which are below `count`.
    pub fn of(
        alloc: Global,
        precision: &'a Precision,
        count: usize,
    ) -> Result<Tracked<'a>, AllocError>
        requires { AllByRecursion (λ cell. cell < count) precision.now.tracked }
        ensures { IfOk result (λ t. t ≡ precision.now) }
    {
        if is_short(&precision.tracked) {
            return Ok(Tracked {
                precision,
                marks: None,
            });
        }
        let marks = tracked_marks(alloc, precision, count)?;
        Ok(Tracked {
            precision,
            marks: Some(marks),
        })
    }

    /// Whether the cell is tracked.
    pub fn has(&self, cell: u32) -> bool
        ensures { result ≡ is_tracked self.now cell }
    {
        match &self.marks {
            Some(marks) => is_marked(marks.as_slice(), cell),
            None => is_listed(&self.precision.tracked, cell),
        }
    }

    /// Whether so many cells from one on stand at their own places in the precision. Then they are
    /// tracked; no cell is looked at.
    pub fn has_run(&self, first: usize, count: usize) -> bool
        ensures own { IsTrue result ↔ (first + count ≤ own_places self.now.tracked) }
        ensures tracked { result ≡ true → (cell : ℕ) → first ≤ cell → cell < first + count →
            is_tracked self.now cell ≡ true }
    {
        let own = self.precision.tracked.own_places();
        first <= own && count <= own - first
    }
}

/// Whether it costs little to look for a cell in the list: few do not stand at their own places.
fn is_short(cells: &Cells) -> bool {
    cells.len() - cells.own_places() <= FEW_CELLS
}

/// Whether the cell is listed: at its own place, or behind those that stand at theirs.
fn is_listed(cells: &Cells, cell: u32) -> bool
    ensures { result ≡ list_any (λ own. own == cell) cells.now }
{
    let own = cells.own_places();
    if (cell as usize) < own {
        return true;
    }
    rest_of(cells.as_slice(), own).contains(&cell)
}

/// The cells behind the first ones, so many.
fn rest_of(cells: &[u32], count: usize) -> &[u32]
    requires { count ≤ length cells.now }
    ensures { result.now ≡ drop count cells.now }
{
    &cells[count..]
}

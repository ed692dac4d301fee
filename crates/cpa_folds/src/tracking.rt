//! Which cells a precision tracks, by `specs/Tracking.antt`.
//! Proved with `proofs/MarkLemmas.antt`; the laws of these calls stand in
//! `specs/lemmas/Appending.antt`.

ghost use Rattle.std.specs.Prelude.{◌≡◌, ◌<◌, ◌^◌, ℕ, ◌++◌, ◌∷◌, [], ◌==◌, false, not, length};
ghost use Rattle.std.specs.Prelude.{if◌then◌else◌, IfOk, OnOk};
ghost use Rattle.std.specs.List.{AllByRecursion, filter, list_any, range_with_len};
ghost use Rattle.cpa_model.specs.Automata.{IsAutomaton};
ghost use Rattle.cpa_iface.specs.Meanings.{IsPathOf, IsPrecision};
ghost use Rattle.cpa_query.specs.Queries.{is_marked};
ghost use Rattle.cpa_folds.specs.Tracking.{is_tracked, first_tracking, with_cells, refined};

use crate::marks::is_marked;
use crate::needed_cells::needed;
use cpa_iface::{Cells, Precision, Settings, copy_cells};
use cpa_model::{Cfa, Path, Seq, Shared};
use std::alloc::{AllocError, Global};

/// The precision that tracks all cells, or none, by the settings, and has this limit.
pub fn first_tracking(
    alloc: Global,
    cfa: &Cfa,
    settings: &Settings,
    limit: u32,
) -> Result<Precision, AllocError>
    requires { IsAutomaton cfa.now }
    ensures { IfOk result (λ p. p ≡ first_tracking cfa.now settings.now limit) }
{
    let tracked = tracked_at_first(alloc, cfa.cells.len(), settings.tracked_all)?;
    Ok(Precision {
        tracked: Cells::from_seq(alloc, tracked)?,
        limit,
        preds: Shared::new(),
    })
}

/// The cells that the first precision tracks: all of them, or none.
fn tracked_at_first(alloc: Global, count: usize, is_all: bool) -> Result<Seq<u32>, AllocError>
    requires { count < 2 ^ 32 }
    ensures { IfOk result (λ cells. cells ≡ (if is_all then range_with_len 0 count else [])) }
{
    if is_all {
        all_cells(alloc, count)
    } else {
        Ok(Seq::new(alloc))
    }
}

/// The first `count` cells.
fn all_cells(alloc: Global, count: usize) -> Result<Seq<u32>, AllocError>
    requires { count < 2 ^ 32 }
    ensures { IfOk result (λ cells. cells ≡ range_with_len 0 count) }
{
    let mut cells = Seq::new(alloc);
    for cell in 0..count {
        cells.push(cell as u32)?;
    }
    Ok(cells)
}

/// A mark for each cell of `count`, set where it is tracked.
pub fn tracked_marks(
    alloc: Global,
    precision: &Precision,
    count: usize,
) -> Result<Vec<bool>, AllocError>
    requires { AllByRecursion (λ cell. cell < count) precision.now.tracked }
    ensures { IfOk result (λ marks.
        (cell : ℕ) → is_marked marks.items cell ≡ is_tracked precision.now cell) }
{
    let mut marks = vec![in alloc; false; count]?;
    mark_all(&mut marks, precision.tracked.as_slice());
    Ok(marks)
}

/// Sets the marks of the cells.
fn mark_all(marks: &mut [bool], cells: &[u32])
    requires none { (cell : ℕ) → is_marked marks.old cell ≡ false }
    requires within { AllByRecursion (λ cell. cell < length marks.old) cells.now }
    ensures { (cell : ℕ) → is_marked marks.new cell ≡ list_any (λ own. own == cell) cells.now }
{
    for cell in cells {
        marks[*cell as usize] = true;
    }
}

/// The precision that tracks these cells, too, each that it lacks behind those that it has. It has
/// a mark for each of `count` cells on the way.
pub fn with_cells(
    alloc: Global,
    count: usize,
    cells: &[u32],
    precision: &Precision,
) -> Result<Precision, AllocError>
    requires { AllByRecursion (λ cell. cell < count) precision.now.tracked }
    ensures { IfOk result (λ p. p ≡ with_cells cells.now precision.now) }
{
    let marks = tracked_marks(alloc, precision, count)?;
    let mut tracked = copy_cells(alloc, precision.tracked.as_slice())?;
    append_unmarked(&mut tracked, cells, &marks)?;
    let preds = precision.preds.share()?;
    Ok(Precision {
        tracked: Cells::from_seq(alloc, tracked)?,
        limit: precision.limit,
        preds,
    })
}

/// The precision that tracks the cells that are needed along the path, too.
pub fn refined(
    alloc: Global,
    cfa: &Cfa,
    path: &Path,
    precision: &Precision,
) -> Result<Precision, AllocError>
    requires automaton { IsAutomaton cfa.now }
    requires path { IsPathOf cfa.now path.now }
    requires precision { IsPrecision cfa.now precision.now }
    ensures { IfOk result (λ p. p ≡ refined cfa.now path.now precision.now) }
{
    let cells = needed(alloc, cfa, path)?;
    with_cells(alloc, cfa.cells.len(), cells.as_slice(), precision)
}

/// Adds those of the cells that are not marked.
fn append_unmarked(list: &mut Seq<u32>, cells: &[u32], marks: &[bool]) -> Result<(), AllocError>
    ensures { OnOk result (list.new
        ≡ list.old ++ filter (λ cell. not (is_marked marks.now cell)) cells.now) }
{
    for cell in cells {
        push_unless(list, *cell, is_marked(marks, *cell))?;
    }
    Ok(())
}

/// Adds the cell at the end, where it is not marked.
fn push_unless(list: &mut Seq<u32>, cell: u32, is_marked: bool) -> Result<(), AllocError>
    ensures { OnOk result (list.new ≡ list.old ++ (if not is_marked then cell ∷ [] else [])) }
{
    if !is_marked {
        list.push(cell)?;
    }
    Ok(())
}

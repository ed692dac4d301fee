//! A set of cells as a mark for each cell of an automaton, `is_marked` of `cpa_query`.
//! Proved with `proofs/MarkLemmas.antt`.

ghost use Rattle.std.specs.Prelude.{◌≡◌, ◌<◌, ◌^◌, length, [], ◌∷◌, ◌++◌, if◌then◌else◌, IfOk};
ghost use Rattle.std.specs.Prelude.{OnOk};
ghost use Rattle.std.specs.List.{filter, list_any, range_with_len};
ghost use Rattle.cpa_query.specs.Queries.{is_marked};

use cpa_model::Seq;
use std::alloc::{AllocError, Global};

/// Whether one of `len` cells from `base` on is marked.
pub(crate) fn some_marked(marks: &[bool], base: u32, len: u32) -> bool
    ensures { result ≡ list_any (is_marked marks.now) (range_with_len base len) }
{
    (base as usize..base as usize + len as usize).any(|cell| has_mark(marks, cell))
}

/// Whether there is a mark at the place, and it is set.
fn has_mark(marks: &[bool], place: usize) -> bool
    ensures { result ≡ is_marked marks.now place }
{
    match marks.get(place) {
        Some(mark) => *mark,
        None => false,
    }
}

/// Whether the cell is marked. One for which there is no mark is not.
pub fn is_marked(marks: &[bool], cell: u32) -> bool
    ensures { result ≡ is_marked marks.now cell }
{
    has_mark(marks, cell as usize)
}

/// The marked cells, ascending.
pub(crate) fn marked(alloc: Global, marks: &[bool]) -> Result<Seq<u32>, AllocError>
    requires { length marks.now < 2 ^ 32 }
    ensures { IfOk result (λ cells. cells
        ≡ filter (is_marked marks.now) (range_with_len 0 (length marks.now))) }
{
    let mut cells = Seq::new(alloc);
    for cell in 0..marks.len() {
        push_where(&mut cells, cell as u32, marks[cell])?;
    }
    Ok(cells)
}

/// Adds the cell at the end, where it is marked.
fn push_where(cells: &mut Seq<u32>, cell: u32, is_marked: bool) -> Result<(), AllocError>
    ensures { OnOk result (cells.new ≡ cells.old ++ (if is_marked then cell ∷ [] else [])) }
{
    if is_marked {
        cells.push(cell)?;
    }
    Ok(())
}

//! Where each cell of a program stands in the formulas of two parts of a path, `meetings_from` of
//! specs/Meetings. Proved with `proofs/Turns.antt`.

ghost use Rattle.std.specs.Prelude.{◌≡◌, ◌<◌, ◌^◌, ◌∷◌, ◌++◌, [], length, slice_index_or, IfOk};
ghost use Rattle.std.specs.Prelude.{OnOk};
ghost use Rattle.cpa_query.specs.Queries.{is_marked};
ghost use Rattle.cpa_interpolant_names.specs.Meetings.{meeting_of, meetings_from};

use cpa_edgeform::EdgeForm;
use cpa_ints::{IntType, Seq};
use cpa_model::Cell;
use std::alloc::{AllocError, Global};

/// A cell of the program at the cut between two parts of a path.
#[derive(Clone, Copy)]
pub struct Meeting {
    /// The number of the cell.
    pub cell: u32,
    /// The type of the cell.
    pub ty: IntType,
    /// The variable of its low bit in the formula of the part before the cut.
    pub before: u32,
    /// The variable of its low bit in the formula of the part behind the cut.
    pub behind: u32,
    /// Whether both parts read the cell there.
    pub is_shared: bool,
}

/// What is seen of a query and its formula.
#[derive(Drop)]
pub struct Seen {
    /// The variable of each cell's low bit.
    pub firsts: Seq<u32>,
    /// For each cell whether some wanted expression may read it.
    pub reads: Seq<bool>,
}

/// The number at this place, 0 where there is none.
fn number_at(firsts: &[u32], place: usize) -> u32
    ensures { result ≡ slice_index_or firsts.now place 0 }
{
    match firsts.get(place) {
        Some(first) => *first,
        None => 0,
    }
}

/// Whether the cell is marked; one that is not there is not.
fn is_marked(marks: &[bool], cell: usize) -> bool
    ensures { result ≡ is_marked marks.now cell }
{
    match marks.get(cell) {
        Some(mark) => *mark,
        None => false,
    }
}

/// Where one cell stands.
fn meeting_of(form: &EdgeForm, before: &Seen, behind: &Seen, cell: u32, ty: IntType) -> Meeting
    ensures { result ≡ meeting_of form.now before.now behind.now cell ty }
{
    let place = form.place_now(cell) as usize;
    Meeting {
        cell,
        ty,
        before: number_at(before.firsts.as_slice(), place),
        behind: number_at(behind.firsts.as_slice(), cell as usize),
        is_shared: is_marked(before.reads.as_slice(), place)
            && is_marked(behind.reads.as_slice(), cell as usize),
    }
}

/// Adds where one cell stands.
fn push_meeting(
    found: &mut Vec<Meeting>,
    form: &EdgeForm,
    before: &Seen,
    behind: &Seen,
    cell: u32,
    ty: IntType,
) -> Result<(), AllocError>
    ensures { OnOk result (found.new.items
        ≡ found.old.items ++ meeting_of form.now before.now behind.now cell ty ∷ []) }
{
    found.push(meeting_of(form, before, behind, cell, ty))?;
    Ok(())
}

/// Where each cell of the program stands at the cut. `form` is the part before it; the part behind
/// it begins with the program's cells.
pub fn meetings(
    alloc: Global,
    cells: &[Cell],
    form: &EdgeForm,
    before: &Seen,
    behind: &Seen,
) -> Result<Vec<Meeting>, AllocError>
    requires few { length cells.now < 2 ^ 32 }
    ensures { IfOk result (λ found. found.items
        ≡ meetings_from form.now before.now behind.now 0 cells.now) }
{
    let mut found = Vec::new(alloc);
    for i in 0..cells.len() {
        push_meeting(&mut found, form, before, behind, i as u32, cells[i].ty)?;
    }
    Ok(found)
}

//! What an act changes of the known values of cells, by `specs/Tables.antt`.
//! Proved with `proofs/ChangeLemmas.antt`.

ghost use Rattle.std.specs.Prelude.{◌≡◌, ℤ, List, Option, None, slice_set};
ghost use Rattle.cpa_value_changes.specs.Acts.{forgotten};
ghost use Rattle.cpa_value_changes.specs.Tables.{changed};

/// So many cells from the first on have this value, or none that is known.
#[derive(Clone, Copy)]
pub struct Change {
    pub first: usize,
    pub count: usize,
    pub value: Option<i128>,
}

impl Change {
    /// No cell changes.
    pub(crate) fn nothing() -> Change
        ensures { (cells : List (Option ℤ)) → changed result cells ≡ cells }
    {
        Change {
            first: 0,
            count: 0,
            value: None,
        }
    }

    /// One cell has this value.
    pub(crate) fn of_cell(cell: usize, value: Option<i128>) -> Change
        ensures { (cells : List (Option ℤ)) → changed result cells ≡ slice_set cells cell value }
    {
        Change {
            first: cell,
            count: 1,
            value,
        }
    }

    /// The cells of an array have no value that is known.
    pub(crate) fn of_array(base: u32, len: u32) -> Change
        ensures { (cells : List (Option ℤ)) → changed result cells ≡ forgotten base len cells }
    {
        Change {
            first: base as usize,
            count: len as usize,
            value: None,
        }
    }
}

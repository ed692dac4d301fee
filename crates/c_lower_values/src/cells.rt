//! The cells taken so far, with their names, and where those of each object begin, found by hash
//! (`c_core_rules`, `specs/Cells.antt`). Proved with `proofs/Filled.antt`.
ghost use Rattle.std.specs.Prelude.{◌≡◌, [], ◌∷◌, ◌++◌, length, replicate, IfOk, OnOk, None, Some};
ghost use Rattle.c_types_rules.specs.declared.meaning.Meaning.TheVariants as meaning;
ghost use Rattle.c_types_rules.specs.Tables.{cells_of};
ghost use Rattle.c_core_rules.specs.Cells.{nothing_taken, fresh, taking, begun};
ghost use Rattle.c_core_rules.specs.Cells.{location_in, scalar_place, cell, cells_with};
ghost use Rattle.c_lower_values.specs.Found.{found_starts, so_far, first_value, values_behind};

use c_core_rules::Location;
use c_lower_choices::cell_at;
use c_types_rules::{Meaning, Object, cells_of};
use cpa_ints::{IntType, Seq};
use cpa_model::Cell;
use std::alloc::{AllocError, Global};
use std::collections::HashMap;

/// Where the cells of an object begin, by its number.
type Starts = HashMap<u32, u32>;

/// The cells taken so far: `so_far` of `specs/Found.antt` says which.
#[derive(Drop)]
pub struct Cells {
    alloc: Global,
    cells: Vec<Cell>,
    names: Vec<Option<u32>>,
    starts: Starts,
}

/// All cells, in order, and of each of an object or of a parameter the place of its name.
#[derive(Drop)]
pub struct TakenCells {
    pub cells: Seq<Cell>,
    pub names: Seq<Option<u32>>,
}

impl Cells {
    /// No cell.
    #[tactic(auto, unfolding(crate::specs::Found::so_far))]
    pub fn new(alloc: Global) -> Cells
        ensures { so_far result ≡ nothing_taken }
    {
        Cells {
            alloc,
            cells: Vec::new(alloc),
            names: Vec::new(alloc),
            starts: no_starts(alloc),
        }
    }

    /// Where trees are kept.
    pub fn alloc(&self) -> Global {
        self.alloc
    }

    /// The number of the next free cell. More cells than a u32 counts are want of memory.
    #[tactic(auto, unfolding(crate::specs::Found::so_far))]
    pub fn next(&self) -> Result<u32, AllocError>
        ensures { IfOk result (λ number. number ≡ length (so_far self.now).cells) }
    {
        u32::try_from(self.cells.len()).ok().ok_or(AllocError)
    }

    /// Takes a fresh cell of this type.
    #[tactic(auto, unfolding(crate::specs::Found::so_far))]
    pub fn fresh(&mut self, ty: IntType) -> Result<Location, AllocError>
        ensures taken { OnOk result (so_far self.new ≡ (fresh ty (so_far self.old)).taken) }
        ensures made { IfOk result (λ place. place ≡ (fresh ty (so_far self.old)).made) }
    {
        let number = self.next()?;
        self.cells.push(Cell { ty, start: 0 })?;
        self.names.push(None)?;
        Ok(cell_at(ty, number))
    }

    /// Takes the cells of an object, which start at these values and at 0 behind them, and gives
    /// the first of them.
    #[tactic(auto, unfolding(crate::specs::Found::so_far))]
    pub fn take(&mut self, object: Object, values: &[i128]) -> Result<u32, AllocError>
        ensures taken { OnOk result (so_far self.new
            ≡ (taking object values.now (so_far self.old)).taken) }
        ensures made { IfOk result (λ first. first
            ≡ (taking object values.now (so_far self.old)).made) }
    {
        let first = self.next()?;
        fill(&mut self.cells, object.ty, cells_of(object), values)?;
        push_names(&mut self.names, cells_of(object), object.place)?;
        begin(&mut self.starts, object.number, first)?;
        Ok(first)
    }

    /// The cells of what a name stands for.
    pub fn located(&self, found: Option<Meaning>) -> Result<Location, AllocError>
        ensures { IfOk result (λ place. place ≡ location_in (so_far self.now) found) }
    {
        match found {
            Some(Meaning::Object(object)) => self.location(object),
            Some(Meaning::Function(_))
            | Some(Meaning::Known(_))
            | Some(Meaning::Enumerator(_))
            | None => Ok(cell_at(IntType::I32, 0)),
        }
    }

    /// The cells of an object.
    #[tactic(auto, unfolding(crate::specs::Found::so_far))]
    fn location(&self, object: Object) -> Result<Location, AllocError>
        ensures { IfOk result (λ place. place
            ≡ location_in (so_far self.now) (Some (meaning.Object object))) }
    {
        let len = u32::try_from(cells_of(object)).ok().ok_or(AllocError)?;
        Ok(Location {
            ty: object.ty,
            base: start(&self.starts, object.number).unwrap_or(0),
            len,
        })
    }

    /// The cell of a scalar.
    pub fn scalar_place(&self, found: Option<Meaning>) -> Result<Location, AllocError>
        ensures { IfOk result (λ place. place ≡ (scalar_place found (so_far self.now)).made) }
    {
        let place = self.located(found)?;
        Ok(cell_at(place.ty, place.base))
    }

    /// The cells, in order, and their names.
    #[tactic(auto, unfolding(crate::specs::Found::so_far))]
    pub fn into_cells(self) -> TakenCells
        ensures cells { result.cells ≡ (so_far self).cells }
        ensures names { result.names ≡ (so_far self).names }
    {
        TakenCells {
            cells: Seq::from_vec(self.cells),
            names: Seq::from_vec(self.names),
        }
    }
}

/// No object.
fn no_starts(alloc: Global) -> Starts
    ensures { found_starts result ≡ (λ number. None) }
{
    HashMap::new(alloc)
}

/// Where an object begins.
fn start(starts: &Starts, number: u32) -> Option<u32>
    ensures { result ≡ found_starts starts.now number }
{
    starts.get(&number).copied()
}

/// An object begins at this cell.
fn begin(starts: &mut Starts, number: u32, cell: u32) -> Result<(), AllocError>
    ensures { OnOk result (found_starts starts.new
        ≡ begun number cell (found_starts starts.old)) }
{
    starts.insert(number, cell)?;
    Ok(())
}

/// The first of these values, 0 where there is none.
#[tactic(auto, using(crate::proofs::Filled::no_value))]
fn first_value(values: &[i128]) -> i128
    ensures { result ≡ first_value values.now }
{
    match values {
        [] => 0,
        [first, ..] => *first,
    }
}

/// Adds a cell of this type that starts at the first of these values.
fn push_cell(cells: &mut Vec<Cell>, ty: IntType, values: &[i128]) -> Result<(), AllocError>
    ensures { OnOk result (cells.new.items
        ≡ cells.old.items ++ cell ty (first_value values.now) ∷ []) }
{
    let start = first_value(values);
    cells.push(Cell { ty, start })?;
    Ok(())
}

/// The values behind the first.
#[tactic(auto, using(crate::proofs::Filled::none_behind))]
fn values_behind(values: &[i128]) -> &[i128]
    ensures { result.now ≡ values_behind values.now }
{
    match values {
        [] => values,
        [_, rest @ ..] => rest,
    }
}

/// Adds so many cells of this type, which start at these values and at 0 behind them.
fn fill(cells: &mut Vec<Cell>, ty: IntType, count: u128, values: &[i128]) -> Result<(), AllocError>
    ensures { OnOk result (cells.new.items ≡ cells.old.items ++ cells_with ty count values.now) }
{
    let mut values = values;
    for _place in 0..count {
        push_cell(cells, ty, values)?;
        values = values_behind(values);
    }
    Ok(())
}

/// Adds so many cells of the name at this place.
fn push_names(
    names: &mut Vec<Option<u32>>,
    count: u128,
    place: Option<u32>,
) -> Result<(), AllocError>
    ensures { OnOk result (names.new.items ≡ names.old.items ++ replicate count place) }
{
    for _cell in 0..count {
        names.push(place)?;
    }
    Ok(())
}

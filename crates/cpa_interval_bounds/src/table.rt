//! The bounds of each cell as those of some, by `specs/Tables.antt`: a cell is looked for at a
//! likely place first, and then by halving. Proved with `specs/lemmas/TableLemmas.antt`.

ghost use Rattle.std.specs.Prelude.{◌≡◌, ◌<◌, ◌≤◌, List, Some, true, length, slice_get, slice_set};
ghost use Rattle.std.specs.Prelude.{IsTrue, OnOk};
ghost use Rattle.cpa_model.specs.declared.program.Cell.{Cell as ACell};
ghost use Rattle.cpa_interval_bounds.specs.Tables.{are_descending, known_bounds, ranges_of};
ghost use Rattle.cpa_interval_bounds.specs.Tables.{is_above, is_of, place_in, own_in, or_range};

use crate::bounds::Bounds;
use cpa_model::Cell;
use std::alloc::{AllocError, Global};
use std::marker::Model;

/// A cell and its bounds.
#[derive(Clone, Copy)]
pub struct CellBounds {
    pub cell: usize,
    pub own: Bounds,
}

/// The bounds of each cell. It takes memory for those cells alone that do not have all numbers of
/// their types.
#[derive(Drop)]
pub struct KnownBounds<'a> {
    cells: &'a [Cell],
    /// From the last cell to the first, so that a list in the order of the cells is put in place
    /// from its end on by pushes.
    known: Vec<CellBounds>,
}

impl<'a> Model for KnownBounds<'a> {
    ghost use Rattle.std.specs.Prelude.{◌≡◌, true, length};
    ghost use Rattle.cpa_interval_bounds.specs.Tables.{Bounded, are_descending, known_bounds};

    ghost Value = { Bounded };

    ghost view = { λ k. record {
      cells = k.cells.now;
      each = known_bounds k.cells.now k.known.items;
    } };

    ghost invariant = { λ k. are_descending (length k.cells.now) k.known.items ≡ true };
}

impl<'a> KnownBounds<'a> {
    /// All numbers of the type of each cell.
    pub fn of_types(alloc: Global, cells: &'a [Cell]) -> KnownBounds<'a>
        ensures cells { result.cells ≡ cells.now }
        ensures each { result.each ≡ ranges_of cells.now }
    {
        KnownBounds {
            cells,
            known: Vec::new(alloc),
        }
    }

    /// The cells.
    pub fn cells(&self) -> &'a [Cell]
        ensures { result.now ≡ self.now.cells }
    {
        self.cells
    }

    /// How many cells have bounds.
    #[tactic(auto, using(crate::specs::lemmas::TableLemmas::known_length))]
    pub fn count(&self) -> usize
        ensures { result ≡ length self.now.each }
    {
        self.cells.len()
    }

    /// The cells whose bounds are listed, from the last to the first.
    pub fn known(&self) -> &[CellBounds]
        ensures each { known_bounds self.now.cells result.now ≡ self.now.each }
        ensures order { are_descending (length self.now.cells) result.now ≡ true }
    {
        self.known.as_slice()
    }

    /// The bounds of the cell, if it is there.
    pub fn at(&self, cell: usize) -> Option<Bounds>
        ensures { result ≡ slice_get self.now.each cell }
    {
        self.at_near(cell, 0)
    }

    /// The same, looked for first at a place among the listed cells: who goes along a list of the
    /// same cells asks for each by its place there.
    pub fn at_near(&self, cell: usize, near: usize) -> Option<Bounds>
        ensures { result ≡ slice_get self.now.each cell }
    {
        bounds_among(self.cells, self.known.as_slice(), cell, near)
    }

    /// Gives the cell these bounds, if it is there. Its place is looked for first behind the listed
    /// cells.
    pub fn put(&mut self, cell: usize, own: Bounds) -> Result<(), AllocError>
        ensures cells { self.new.cells ≡ self.old.cells }
        ensures each { OnOk result (self.new.each ≡ slice_set self.old.each cell own) }
    {
        let near = self.known.len();
        self.put_near(cell, near, own)
    }

    /// The same, looked for first at a place among the listed cells.
    pub fn put_near(&mut self, cell: usize, near: usize, own: Bounds) -> Result<(), AllocError>
        ensures cells { self.new.cells ≡ self.old.cells }
        ensures each { OnOk result (self.new.each ≡ slice_set self.old.each cell own) }
    {
        put_among(self.cells, &mut self.known, cell, near, own)
    }
}

/// The bounds of the cell, if it is there.
fn bounds_among(cells: &[Cell], known: &[CellBounds], cell: usize, near: usize) -> Option<Bounds>
    requires { are_descending (length cells.now) known.now ≡ true }
    ensures { result ≡ slice_get (known_bounds cells.now known.now) cell }
{
    or_range(own_among(known, cells.len(), cell, near), cells, cell)
}

/// The bounds, or else all numbers of the type of the cell, if it is there.
fn or_range(own: Option<Bounds>, cells: &[Cell], cell: usize) -> Option<Bounds>
    ensures { result ≡ or_range own (slice_get cells.now cell) }
{
    match own {
        Some(own) => Some(own),
        None => match cells.get(cell) {
            Some(it) => Some(Bounds::range_of(it.ty)),
            None => None,
        },
    }
}

/// The bounds of the cell, if they are listed.
fn own_among(known: &[CellBounds], count: usize, cell: usize, near: usize) -> Option<Bounds>
    requires { are_descending count known.now ≡ true }
    ensures { result ≡ own_in cell known.now }
{
    match known.get(place_near(known, count, cell, near)) {
        Some(it) => { if it.cell == cell { Some(it.own) } else { None } }
        None => None,
    }
}

/// How many of the cells, which are below `count`, come behind this one: it is found in one step
/// where `near` is the place.
fn place_near(known: &[CellBounds], count: usize, cell: usize, near: usize) -> usize
    requires { are_descending count known.now ≡ true }
    ensures { result ≡ place_in cell known.now }
{
    if is_place(known, count, cell, near) {
        near
    } else {
        place_of(known, count, cell)
    }
}

/// Whether it is seen that so many of the cells come behind this one: the last of them does, and
/// the next one does not.
fn is_place(known: &[CellBounds], count: usize, cell: usize, place: usize) -> bool
    requires { are_descending count known.now ≡ true }
    ensures { IsTrue result → place ≡ place_in cell known.now }
{
    let is_from = place == 0 || is_above(known, place - 1, cell);
    is_from && !is_above(known, place, cell)
}

/// The same by halving.
fn place_of(known: &[CellBounds], count: usize, cell: usize) -> usize
    requires { are_descending count known.now ≡ true }
    ensures { result ≡ place_in cell known.now }
{
    let mut low = 0;
    let mut high = known.len();
    while low < high {
        let middle = low + (high - low) / 2;
        if is_above(known, middle, cell) {
            low = middle + 1;
        } else {
            high = middle;
        }
    }
    low
}

/// Whether the cell at this place comes behind this one.
fn is_above(known: &[CellBounds], place: usize, cell: usize) -> bool
    ensures { result ≡ is_above cell (slice_get known.now place) }
{
    match known.get(place) {
        Some(it) => cell < it.cell,
        None => false,
    }
}

/// Whether this is the cell at the place.
fn is_of(known: &[CellBounds], place: usize, cell: usize) -> bool
    ensures { result ≡ is_of cell (slice_get known.now place) }
{
    match known.get(place) {
        Some(it) => it.cell == cell,
        None => false,
    }
}

/// Gives the cell these bounds, if it is there. What it has already is not listed again.
fn put_among(
    cells: &[Cell],
    known: &mut Vec<CellBounds>,
    cell: usize,
    near: usize,
    own: Bounds,
) -> Result<(), AllocError>
    requires { are_descending (length cells.now) known.old.items ≡ true }
    ensures order { are_descending (length cells.now) known.new.items ≡ true }
    ensures each { OnOk result (known_bounds cells.now known.new.items
        ≡ slice_set (known_bounds cells.now known.old.items) cell own) }
{
    if cell < cells.len() {
        if is_same(bounds_among(cells, known.as_slice(), cell, near), own) {
            return Ok(());
        }
        list(known, cells.len(), cell, near, own)?;
    }
    Ok(())
}

/// Whether these are the bounds.
fn is_same(known: Option<Bounds>, own: Bounds) -> bool
    ensures { IsTrue result → known ≡ Some own }
{
    match known {
        Some(known) => known.lo == own.lo && known.hi == own.hi,
        None => false,
    }
}

/// Lists the bounds of a cell.
fn list(
    known: &mut Vec<CellBounds>,
    count: usize,
    cell: usize,
    near: usize,
    own: Bounds,
) -> Result<(), AllocError>
    requires order { are_descending count known.old.items ≡ true }
    requires below { cell < count }
    ensures order { are_descending count known.new.items ≡ true }
    ensures each { (cells : List ACell) → OnOk result (known_bounds cells known.new.items
        ≡ slice_set (known_bounds cells known.old.items) cell own) }
{
    let place = place_near(known.as_slice(), count, cell, near);
    if is_of(known.as_slice(), place, cell) {
        known[place] = CellBounds { cell, own };
    } else {
        known.insert(place, CellBounds { cell, own })?;
    }
    Ok(())
}

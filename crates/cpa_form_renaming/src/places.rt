//! Where the cells of a program stand among other cells, `number_at` and `stand_together` of
//! specs/Places.

ghost use Rattle.std.specs.Prelude.{◌≡◌};
ghost use Rattle.cpa_form_renaming.specs.Places.{number_at, stand_together};

use cpa_ints::IntType;

/// Where a cell stands.
#[derive(Clone, Copy)]
pub struct Place {
    /// The number of the cell that stands for it.
    pub number: u32,
    /// The type of the two.
    pub ty: IntType,
}

/// The number of the cell's place, 0 where there is no such cell.
pub fn number_at(places: &[Place], cell: usize) -> u32
    ensures { result ≡ number_at places.now cell }
{
    match places.get(cell) {
        Some(place) => place.number,
        None => 0,
    }
}

/// Whether `len` cells from `base` on stand one behind the other.
pub fn stand_together(places: &[Place], base: u32, len: u32) -> bool
    ensures { result ≡ stand_together places.now base len }
{
    let first = number_at(places, base as usize) as u64;
    let mut together = true;
    for i in 0..len {
        let number = number_at(places, base as usize + i as usize) as u64;
        together = together && number == first + i as u64;
    }
    together
}

//! Which elements of an array an index may name, by `specs/Elements.antt`.

ghost use Rattle.std.specs.Prelude.{◌≡◌, ◌+◌, ◌<◌, ◌^◌, ◌≤ℤ◌, ◌<ℤ◌, pos, IfSome};
ghost use Rattle.cpa_interval_bounds.specs.Elements.{places_of, cells_at, named, hull_from};
ghost use Rattle.cpa_interval_bounds.specs.Elements.{read_bounds};

use crate::bounds::{Bounds, hull_where_some};
use crate::table::KnownBounds;

/// So many cells in a row, from the first on.
#[derive(Clone, Copy, PartialEq, Eq)]
pub struct Places {
    pub first: usize,
    pub count: usize,
}

/// The places from 0 to the length less 1.
pub fn places_of(len: u32) -> Bounds
    ensures { result ≡ places_of len }
{
    Bounds {
        lo: 0,
        hi: len as i128 - 1,
    }
}

/// The cells at these places.
fn cells_at(base: u32, inside: Bounds) -> Places
    requires low { pos 0 ≤ℤ inside.lo }
    requires order { inside.lo ≤ℤ inside.hi }
    requires high { inside.hi <ℤ pos (2 ^ 32) }
    ensures value { result ≡ cells_at base inside }
    ensures few { result.first + result.count < 2 ^ 34 }
{
    Places {
        first: base as usize + inside.lo as usize,
        count: (inside.hi - inside.lo) as usize + 1,
    }
}

/// The cells that the index may name, of `len` cells from `base` on, where there are any.
pub fn named(base: u32, len: u32, index: Bounds) -> Option<Places>
    ensures value { result ≡ named base len index }
    ensures few { IfSome result (λ p. p.first + p.count < 2 ^ 34) }
{
    match index.meet(places_of(len)) {
        Some(inside) => Some(cells_at(base, inside)),
        None => None,
    }
}

/// The hull of the bounds of these cells, as far as they are there.
fn hull_from(cells: &KnownBounds, first: usize, count: usize) -> Option<Bounds>
    requires { first + count < 2 ^ 34 }
    ensures { result ≡ hull_from cells.now.each first count }
{
    let mut whole = None;
    for i in 0..count {
        whole = hull_where_some(whole, cells.at(first + i));
    }
    whole
}

/// The hull of the elements that the index may name.
pub(crate) fn read_bounds(cells: &KnownBounds, base: u32, len: u32, index: Bounds) -> Option<Bounds>
    ensures { result ≡ read_bounds cells.now.each base len index }
{
    let places = named(base, len, index)?;
    hull_from(cells, places.first, places.count)
}

//! The cells of a precision, of which it is known how many of the first stand at their own places,
//! as all do where all cells are tracked. What these are stands in `specs/Cells.antt`; proved with
//! `specs/lemmas/CellLaws.antt`.

ghost use Rattle.std.specs.Prelude.{◌≡◌, ◌≤◌, ◌↔◌, [], length, IfOk, IsTrue};
ghost use Rattle.cpa_iface.specs.Cells.{own_places};

use cpa_model::{Seq, Shared};
use std::alloc::{AllocError, Global};
use std::marker::Model;

/// Cells in order, in a list that copies share. Contracts see the list.
#[derive(Drop)]
pub struct Cells {
    listed: Shared<u32>,
    /// How many of the first cells stand at their own places.
    own: usize,
}

impl Model for Cells {
    ghost use Rattle.std.specs.Prelude.{◌≡◌, ℕ, List};
    ghost use Rattle.std.specs.Coded.{coded_list, coded_ℕ};
    ghost use Rattle.cpa_iface.specs.Cells.{own_places};

    ghost Value = { List ℕ };

    ghost coded = { coded_list coded_ℕ };

    ghost view = { λ c. c.listed };

    ghost invariant = { λ c. c.own ≡ own_places c.listed };
}

impl Cells {
    /// No cells. They take no memory.
    pub fn new() -> Cells
        ensures { result ≡ [] }
    {
        Cells {
            listed: Shared::new(),
            own: 0,
        }
    }

    /// These cells, in order.
    pub fn from_seq(alloc: Global, cells: Seq<u32>) -> Result<Cells, AllocError>
        ensures { IfOk result (λ c. c ≡ cells) }
    {
        let own = own_places(cells.as_slice());
        Ok(Cells {
            listed: Shared::from_seq(alloc, cells)?,
            own,
        })
    }

    /// The cells, in order.
    pub fn as_slice(&self) -> &[u32]
        ensures { result.now ≡ self.now }
    {
        self.listed.as_slice()
    }

    /// How many cells there are.
    pub fn len(&self) -> usize
        ensures { result ≡ length self.now }
    {
        self.listed.len()
    }

    /// How many of the first cells stand at their own places: the first one is cell 0, the one
    /// behind it cell 1, and so on.
    pub fn own_places(&self) -> usize
        ensures own { result ≡ own_places self.now }
        ensures within { result ≤ length self.now }
    {
        self.own
    }

    /// The same cells once more. It takes no memory, and fails only where so many share the list
    /// that they can't be counted.
    pub fn share(&self) -> Result<Cells, AllocError>
        ensures { IfOk result (λ c. c ≡ self.now) }
    {
        Ok(Cells {
            listed: self.listed.share()?,
            own: self.own,
        })
    }

    /// Whether the lists have the same cells in the same order. Where all stand at their own places
    /// no cell is looked at.
    pub fn is_same(&self, other: &Cells) -> bool
        ensures { IsTrue result ↔ (self.now ≡ other.now) }
    {
        if self.are_own() && other.are_own() {
            return self.len() == other.len();
        }
        self.as_slice() == other.as_slice()
    }

    /// Whether all stand at their own places.
    fn are_own(&self) -> bool
        ensures { IsTrue result ↔ (own_places self.now ≡ length self.now) }
    {
        self.own == self.len()
    }
}

/// How many of the first cells stand at their own places.
fn own_places(cells: &[u32]) -> usize
    ensures { result ≡ own_places cells.now }
{
    let mut own = 0;
    for cell in cells {
        if *cell as usize != own {
            return own;
        }
        own += 1;
    }
    own
}

//! Names, which the tree keeps by their bytes, since what comes after it gets no text.
//! Which name stands at a place is `name_of` of `specs/Parts.antt`.
ghost use Rattle.std.specs.Prelude.{◌≡◌, IfOk};

use cpa_ints::{Boxed, Seq};
use std::alloc::{AllocError, Global};
use std::marker::Model;

/// How many bytes of a name stand in the name itself.
const SHORT: usize = 14;

/// The bytes of a name, where they stand.
#[derive(Drop)]
enum Letters {
    /// The first bytes of the array.
    Inside { length: u8, bytes: [u8; 14] },
    /// In memory of their own.
    Outside(Boxed<Seq<u8>>),
}

/// The bytes of a name, of which contracts see the list. Those of a short name stand in the value
/// itself and take no memory.
#[derive(Drop)]
pub struct Spelling {
    letters: Letters,
}

impl Model for Spelling {
    ghost use Rattle.std.specs.Prelude.{ℕ, List};
    ghost use Rattle.std.specs.Coded.{coded_list, coded_ℕ};
    ghost use Rattle.c_grammar_tree.specs.Spelling.{spelling, IsWithin};

    ghost Value = { List ℕ };

    ghost coded = { coded_list coded_ℕ };

    ghost view = { λ s. spelling s.letters };

    ghost invariant = { λ s. IsWithin s.letters };
}

impl Spelling {
    /// The spelling of these bytes.
    pub fn new(alloc: Global, bytes: &[u8]) -> Result<Spelling, AllocError>
        ensures { IfOk result (λ spelling. spelling ≡ bytes.now) }
    {
        let length = bytes.len();
        if length > SHORT {
            let copied = Seq::from_vec(bytes.to_vec(alloc)?);
            let letters = Letters::Outside(Boxed::new(alloc, copied)?);
            return Ok(Spelling { letters });
        }
        let mut inside = [0; SHORT];
        inside[..length].copy_from_slice(bytes);
        let letters = Letters::Inside {
            length: length as u8,
            bytes: inside,
        };
        Ok(Spelling { letters })
    }

    /// The bytes, in order.
    pub fn as_slice(&self) -> &[u8]
        ensures { result.now ≡ self.now }
    {
        match &self.letters {
            Letters::Inside { length, bytes } => &bytes[..*length as usize],
            Letters::Outside(bytes) => bytes.get().as_slice(),
        }
    }
}

/// An identifier (C11 6.4.2) and the place of its first byte.
#[derive(Drop)]
pub struct Name {
    pub bytes: Spelling,
    pub place: u32,
}

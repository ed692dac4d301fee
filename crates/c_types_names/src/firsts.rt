//! Names in order, the first of each found by hash (`place_of` of `specs/Names.antt` of
//! `c_types_rules`). What the parts keep is `HasFirsts` of `specs/Found.antt`, proved in
//! `proofs/Places`.

ghost use Rattle.std.specs.Prelude.{◌≡◌, [], ◌++◌, ◌∷◌, length, OnOk, OnErr};
ghost use Rattle.std.specs.Str.{bytes_eq};
ghost use Rattle.c_types_rules.specs.Names.{place_of};
ghost use Rattle.c_types_names.specs.Found.{HasFirsts};

use crate::numbers::{Numbers, number_of, set_first};
use c_grammar_tree::Spelling;
use std::alloc::{AllocError, Global};
use std::collections::HashMap;
use std::marker::Model;

/// Names in order. One may stand twice.
#[derive(Drop)]
pub struct Firsts {
    names: Vec<Spelling>,
    /// How many stand before the first of each name.
    places: Numbers,
}

impl Model for Firsts {
    ghost use Rattle.std.specs.Prelude.{List, ℕ};
    ghost use Rattle.std.specs.Coded.{coded_list, coded_ℕ};
    ghost use Rattle.c_types_names.specs.Found.{HasFirsts};

    ghost Value = { List (List ℕ) };

    ghost coded = { coded_list (coded_list coded_ℕ) };

    ghost view = { λ f. f.names.items };

    ghost invariant = { λ f. HasFirsts f.names.items f.places };
}

impl Firsts {
    /// No names.
    pub fn new(alloc: Global) -> Firsts
        ensures { result ≡ [] }
    {
        Firsts {
            names: Vec::new(alloc),
            places: HashMap::new(alloc),
        }
    }

    /// How many names there are.
    pub fn len(&self) -> usize
        ensures { result ≡ length self.now }
    {
        self.names.len()
    }

    /// Adds a name at the end. Where memory runs out, or a u32 does not count them, the names stay
    /// as they were.
    pub fn push(&mut self, alloc: Global, name: &[u8]) -> Result<(), AllocError>
        ensures pushed { OnOk result (self.new ≡ self.old ++ name.now ∷ []) }
        ensures kept { OnErr result (self.new ≡ self.old) }
    {
        push(alloc, &mut self.names, &mut self.places, name)
    }

    /// How many names stand before the first one that is this.
    pub fn place_of(&self, name: &[u8]) -> Option<u32>
        ensures { result ≡ place_of (bytes_eq name.now) self.now }
    {
        number_of(&self.places, name)
    }
}

/// Adds a name at the end.
fn push(
    alloc: Global,
    names: &mut Vec<Spelling>,
    places: &mut Numbers,
    name: &[u8],
) -> Result<(), AllocError>
    requires { HasFirsts names.old.items places.old }
    ensures firsts { HasFirsts names.new.items places.new }
    ensures ok { OnOk result (names.new.items ≡ names.old.items ++ name.now ∷ []) }
    ensures err { OnErr result (names.new.items ≡ names.old.items) }
{
    let number = names.len();
    if number > u32::MAX as usize {
        return Err(AllocError);
    }
    let item = Spelling::new(alloc, name)?;
    names.reserve(1)?;
    set_first(alloc, places, name, number as u32)?;
    names.push_reserved(item);
    Ok(())
}

//! What is known at a place of file scope (`Before` of `specs/Items.antt` of `c_types_rules`), and
//! what an object starts at (`Start` of its `specs/Sound.antt`). Proved by the checker alone.
ghost use Rattle.std.specs.Prelude.{◌≡◌};
ghost use Rattle.c_types_rules.specs.Items.{nothing_before};
ghost use Rattle.c_types_globals.specs.Scopes.{before_of};

use crate::type_names::TypeNames;
use c_types_names::Names;
use cpa_ints::Seq;
use std::alloc::Global;
use std::marker::Model;

/// The names declared so far, the typedef names, how many objects, and how many bodies stand before
/// this place.
#[derive(Drop)]
pub struct Scope {
    pub names: Names,
    pub types: TypeNames,
    pub objects: u32,
    pub bodies: u32,
}

impl Scope {
    /// The beginning of a text.
    pub fn new(alloc: Global) -> Scope
        ensures { before_of result ≡ nothing_before }
    {
        Scope {
            names: Names::new(alloc),
            types: TypeNames::new(alloc),
            objects: 0,
            bodies: 0,
        }
    }
}

/// The values of an initializer in file scope, of the object of this name.
#[derive(Drop)]
pub struct Start {
    pub name: Seq<u8>,
    pub values: Seq<i128>,
}

impl Model for Start {
    ghost use Rattle.c_types_rules.specs.Sound.{Start as StartOfText};

    ghost Value = { StartOfText };

    ghost view = { λ a. record { name = a.name; values = a.values } };
}

//! The typedef names that are declared so far, and their types, found by hash: `typedef_type` of
//! `specs/Items.antt` of `c_types_rules`. Proved with `proofs/Typed`.
ghost use Rattle.std.specs.Prelude.{◌≡◌, [], ◌++◌, ◌∷◌, OnOk, OnErr, option_and_then};
ghost use Rattle.std.specs.List.{slice_get};
ghost use Rattle.c_types_rules.specs.Items.{typedef_type};

use c_types_names::Firsts;
use cpa_ints::IntType;
use std::alloc::{AllocError, Global};
use std::marker::Model;

/// Typedef names and their types, in order. A name may stand twice.
#[derive(Drop)]
pub struct TypeNames {
    names: Firsts,
    types: Vec<IntType>,
}

impl Model for TypeNames {
    ghost use Rattle.std.specs.Prelude.{◌≡◌, List, ℕ, length};
    ghost use Rattle.std.specs.List.{zip};
    ghost use Rattle.cpa_ints.specs.declared.integers.IntType.{IntType as Integer};

    ghost Value = { List (List ℕ × Integer) };

    ghost view = { λ t. zip t.names t.types.items };

    ghost invariant = { λ t. length t.names ≡ length t.types.items };
}

impl TypeNames {
    /// No names.
    pub fn new(alloc: Global) -> TypeNames
        ensures { result ≡ [] }
    {
        TypeNames {
            names: Firsts::new(alloc),
            types: Vec::new(alloc),
        }
    }

    /// The type of a name, by the first that is its.
    pub fn type_of(&self, name: &[u8]) -> Option<IntType>
        ensures { result ≡ typedef_type self.now name.now }
    {
        type_at(self.types.as_slice(), self.names.place_of(name))
    }

    /// Adds a name at the end. Where memory runs out, the names stay as they were.
    pub fn push(&mut self, alloc: Global, name: &[u8], ty: IntType) -> Result<(), AllocError>
        ensures pushed { OnOk result (self.new ≡ self.old ++ (name.now, ty) ∷ []) }
        ensures kept { OnErr result (self.new ≡ self.old) }
    {
        self.types.reserve(1)?;
        self.names.push(alloc, name)?;
        self.types.push_reserved(ty);
        Ok(())
    }
}

/// The type at this place, where there is one.
fn type_at(types: &[IntType], place: Option<u32>) -> Option<IntType>
    ensures { result ≡ option_and_then (slice_get types.now) place }
{
    types.get(place? as usize).copied()
}

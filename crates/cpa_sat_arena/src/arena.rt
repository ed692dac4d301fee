//! All clauses of a search. Contracts see the list of the clauses; the parts are a `Store`, whose
//! clauses they are.

ghost use Rattle.std.specs.Prelude.{◌≡◌, ◌≢◌, ◌<◌, ◌^◌, ℕ, [], ◌∷◌, ◌++◌, length, slice_index_or};
ghost use Rattle.std.specs.Prelude.{IfSome, IfNone, OnOk, OnErr};
ghost use Rattle.std.specs.List.{AllByRecursion};
ghost use Rattle.cpa_sat_arena.specs.declared.literal.TheConstants.{NO_CLAUSE};

use crate::literal::{ClauseRef, PackedLit};
use crate::store::Store;
use cpa_cnf::Clause;
use std::alloc::{AllocError, Global};
use std::marker::Model;

/// Clauses by number; literals as numbers, 2 * var and one more where negated. A clause that stands
/// is never changed or taken out.
#[derive(Drop)]
pub struct Arena {
    store: Store,
}

impl Model for Arena {
    ghost use Rattle.std.specs.Prelude.{List, ℕ};
    ghost use Rattle.std.specs.Coded.{coded_list, coded_ℕ};
    ghost use Rattle.cpa_sat_arena.specs.Extents.{clauses_of, IsStored};

    ghost Value = { List (List ℕ) };

    ghost coded = { coded_list (coded_list coded_ℕ) };

    ghost view = { λ a. clauses_of a.store.literals.items a.store.extents.items };

    ghost invariant = { λ a. IsStored a.store };
}

impl Arena {
    /// No clauses.
    pub fn new(alloc: Global) -> Arena
        ensures { result ≡ [] }
    {
        Arena {
            store: Store::new(alloc),
        }
    }

    /// The number of clauses.
    pub fn len(&self) -> usize
        ensures { result ≡ length self.now }
    {
        self.store.extents.len()
    }

    /// The literals of a clause.
    pub fn clause(&self, number: ClauseRef) -> &[PackedLit]
        requires { number < length self.now }
        ensures { result.now ≡ slice_index_or self.now number [] }
    {
        self.store.clause(number.index())
    }

    /// Adds a clause at the end. Where memory runs out, or a clause would have a number or a place
    /// that passes u32, the clauses stay as they are.
    pub fn push(&mut self, clause: &Clause) -> Result<(), AllocError>
        requires { AllByRecursion (λ l. l < 2 ^ 32) clause.now }
        ensures pushed { OnOk result (self.new ≡ self.old ++ clause.now ∷ []) }
        ensures few { OnOk result (length self.new < NO_CLAUSE) }
        ensures kept { OnErr result (self.new ≡ self.old) }
    {
        self.store.push(clause)
    }

    /// A clause that is equal to this one, if one stands.
    pub fn find(&self, clause: &Clause) -> Option<ClauseRef>
        ensures some { IfSome result (λ k. k < length self.now) }
        ensures equal { IfSome result (λ k. slice_index_or self.now k [] ≡ clause.now) }
        ensures none { IfNone result ((k : ℕ) → k < length self.now
            → slice_index_or self.now k [] ≢ clause.now) }
    {
        self.store.find(clause)
    }
}

//! Clauses: sorted lists of literals without repeats, an invariant of the type.
//! What such a list is, `IsClause`, stands in `specs/Clauses.antt`. Proved with `proofs/clause/`.

ghost use Rattle.std.specs.Prelude.{◌≡◌, ◌↔◌, ℕ, [], IfOk, IsTrue, length};
ghost use Rattle.cpa_cnf.specs.Clauses.{has, IsClause};

use crate::literal::Lit;
use std::alloc::AllocError;
use std::marker::Model;

/// A clause: the disjunction of its literals, sorted by variable, the positive one first, each
/// literal once. Contracts see it as the list of the literals.
#[derive(Drop)]
pub struct Clause {
    literals: Vec<Lit>,
}

impl Model for Clause {
    ghost use Rattle.std.specs.Prelude.{ℕ, List};
    ghost use Rattle.std.specs.Coded.{coded_list, coded_ℕ};
    ghost use Rattle.cpa_cnf.specs.Clauses.{IsClause};

    ghost Value = { List ℕ };

    ghost coded = { coded_list coded_ℕ };

    ghost view = { λ c. c.literals.items };

    ghost invariant = { λ c. IsClause c.literals.items };
}

impl Clause {
    /// The clause of these literals.
    pub fn from_lits(mut literals: Vec<Lit>) -> Result<Clause, AllocError>
        ensures literals { IfOk result (λ c. (l : ℕ) → has c l ≡ has literals.items l) }
        ensures sorted { IfOk result IsClause }
    {
        literals.sort()?;
        literals.dedup();
        Ok(Clause { literals })
    }

    /// The literals, sorted.
    pub fn literals(&self) -> &[Lit]
        ensures literals { result.now ≡ self.now }
        ensures sorted { IsClause self.now }
    {
        self.literals.as_slice()
    }

    /// The number of literals.
    pub fn len(&self) -> usize
        ensures { result ≡ length self.now }
    {
        self.literals.len()
    }

    /// Whether it is the empty clause, which nothing makes true.
    pub fn is_empty(&self) -> bool
        ensures { IsTrue result ↔ (self.now ≡ []) }
    {
        self.literals.is_empty()
    }

    /// Whether the literal stands in the clause.
    pub fn contains(&self, literal: Lit) -> bool
        ensures { result ≡ has self.now literal }
    {
        self.literals.as_slice().contains(&literal)
    }
}

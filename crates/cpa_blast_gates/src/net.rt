//! Nets under construction. Contracts see the list of the gates, the newest one first; each call
//! is an operator of specs/Nets, whose meaning is a law (laws.rt).

ghost use Rattle.std.specs.Prelude.{◌≡◌, [], IfOk, OnErr};
ghost use Rattle.cpa_blast_gates.specs.Nets.{vars, built, with_input, and_in, or_in, xor_in};
ghost use Rattle.cpa_blast_gates.specs.Nets.{majority_in};
ghost use Rattle.cpa_blast_gates.specs.Nets.{choice_in};
ghost use Rattle.cpa_blast_gates.specs.Clauses.{clauses_of};

use crate::table::{self, Table};
use crate::{clauses, folding};
use cpa_cnf::{Clause, Lit};
use cpa_ints::Seq;
use std::alloc::{AllocError, Global};
use std::marker::Model;

/// Gates, each the next variable behind variable 0, which is true. Where memory runs out, or there
/// would be 2^32 - 1 gates, a call leaves the net as it is.
#[derive(Drop)]
pub struct Net {
    table: Table,
}

impl Model for Net {
    ghost use Rattle.std.specs.Prelude.{List};
    ghost use Rattle.std.specs.Coded.{codes};
    ghost use Rattle.cpa_blast_gates.specs.declared.gate.Gate.{Gate};
    ghost use Rattle.cpa_blast_gates.specs.contracts.gate.Gate as gate;
    ghost use Rattle.cpa_blast_gates.specs.Tables.{net_of, IsTable};

    ghost Value = { List Gate };

    ghost coded = { Prim.hlevel (codes, gate.the_row.coded) };

    ghost view = { λ n. net_of n.table };

    ghost invariant = { λ n. IsTable n.table };
}

impl Net {
    /// No gates: variable 0 alone.
    pub fn new(alloc: Global) -> Net
        ensures { result ≡ [] }
    {
        Net {
            table: table::empty(alloc),
        }
    }

    /// How many variables there are.
    pub fn vars(&self) -> u32
        ensures { result ≡ vars self.now }
    {
        table::vars(&self.table)
    }

    /// A new variable of either value.
    pub fn input(&mut self) -> Result<Lit, AllocError>
        ensures built { IfOk result (λ l. built self.new l ≡ with_input self.old) }
        ensures kept { OnErr result (self.new ≡ self.old) }
    {
        table::input(&mut self.table)
    }

    /// Whether both are true.
    #[tactic(auto, unfolding(crate::specs::Nets::and_in))]
    pub fn and(&mut self, a: Lit, b: Lit) -> Result<Lit, AllocError>
        ensures built { IfOk result (λ l. built self.new l ≡ and_in self.old a b) }
        ensures kept { OnErr result (self.new ≡ self.old) }
    {
        table::settle(&mut self.table, folding::and_plan(a, b))
    }

    /// Whether one of two is true, or both.
    #[tactic(auto, unfolding(crate::specs::Nets::or_in))]
    pub fn or(&mut self, a: Lit, b: Lit) -> Result<Lit, AllocError>
        ensures built { IfOk result (λ l. built self.new l ≡ or_in self.old a b) }
        ensures kept { OnErr result (self.new ≡ self.old) }
    {
        table::settle(&mut self.table, folding::or_plan(a, b))
    }

    /// Whether one of two is true and the other is not.
    #[tactic(auto, unfolding(crate::specs::Nets::xor_in))]
    pub fn xor(&mut self, a: Lit, b: Lit) -> Result<Lit, AllocError>
        ensures built { IfOk result (λ l. built self.new l ≡ xor_in self.old a b) }
        ensures kept { OnErr result (self.new ≡ self.old) }
    {
        table::settle(&mut self.table, folding::xor_plan(a, b))
    }

    /// Whether two of three are true.
    #[tactic(auto, unfolding(crate::specs::Nets::majority_in))]
    pub fn majority(&mut self, a: Lit, b: Lit, c: Lit) -> Result<Lit, AllocError>
        ensures built { IfOk result (λ l. built self.new l ≡ majority_in self.old a b c) }
        ensures kept { OnErr result (self.new ≡ self.old) }
    {
        table::settle(&mut self.table, folding::majority_plan(a, b, c))
    }

    /// The first where the test is true, else the second.
    #[tactic(auto, unfolding(crate::specs::Nets::choice_in))]
    pub fn choice(&mut self, test: Lit, first: Lit, second: Lit) -> Result<Lit, AllocError>
        ensures built { IfOk result (λ l. built self.new l ≡ choice_in self.old test first second) }
        ensures kept { OnErr result (self.new ≡ self.old) }
    {
        table::settle(&mut self.table, folding::choice_plan(test, first, second))
    }

    /// The clauses of the gates.
    pub fn clauses(&self, alloc: Global) -> Result<Seq<Clause>, AllocError>
        ensures { IfOk result (λ cs. cs ≡ clauses_of self.now) }
    {
        clauses::all_of(alloc, &self.table.gates)
    }
}

//! The scratch table of `check_line`: a mark for each literal, none of them set between two calls.
//! By `specs/Marking.antt`; proved with `proofs/marks/` and `specs/lemmas/Marking.antt`.

ghost use Rattle.std.specs.Prelude.{◌≡◌, ◌↔◌, ◌||◌, ◌&&◌, ℕ, not, true, false, IsTrue, IfOk};
ghost use Rattle.std.specs.Bool.{OnTrue, OnFalse};
ghost use Rattle.cpa_cnf.specs.Clauses.{has};
ghost use Rattle.cpa_cnf.specs.Marking.{marked, HasBeyond};

use crate::literal::Lit;
use std::alloc::{AllocError, Global};
use std::marker::Model;

/// A scratch table for formulas over so many variables, which contracts see as that number.
#[derive(Drop)]
pub struct Marks {
    vars: u32,
    pub(crate) table: Vec<bool>,
}

impl Model for Marks {
    ghost use Rattle.std.specs.Prelude.{ℕ};
    ghost use Rattle.std.specs.Coded.{coded_ℕ};
    ghost use Rattle.cpa_cnf.specs.Marking.{IsBlankFor};

    ghost Value = { ℕ };

    ghost coded = { coded_ℕ };

    ghost view = { λ m. m.vars };

    ghost invariant = { λ m. IsBlankFor m.vars m.table.items };
}

impl Marks {
    /// A table for `vars` variables.
    pub fn new(alloc: Global, vars: u32) -> Result<Marks, AllocError>
        ensures { IfOk result (λ marks. marks ≡ vars) }
    {
        Ok(Marks {
            vars,
            table: vec![in alloc; false; vars as usize * 2]?,
        })
    }
}

/// Marks the literals; false, with some of them marked, where one lies beyond the table.
pub(crate) fn mark(table: &mut [bool], literals: &[Lit]) -> bool
    ensures all { OnTrue result ((l : ℕ)
        → marked table.new l ≡ (marked table.old l || has literals.now l)) }
    ensures beyond { OnFalse result (HasBeyond table.old literals.now) }
    ensures only { (l : ℕ) → marked table.new l ≡ true
        → (marked table.old l || has literals.now l) ≡ true }
{
    for literal in literals {
        let number = literal.number();
        if number >= table.len() {
            return false;
        }
        table[number] = true;
    }
    true
}

/// Takes the marks off the literals.
pub(crate) fn clear(table: &mut [bool], literals: &[Lit])
    ensures { (l : ℕ) → marked table.new l ≡ (marked table.old l && not (has literals.now l)) }
{
    for literal in literals {
        let number = literal.number();
        if number < table.len() {
            table[number] = false;
        }
    }
}

/// Whether the literal is marked.
pub(crate) fn is_marked(table: &[bool], literal: Lit) -> bool
    ensures { result ≡ marked table.now literal }
{
    let number = literal.number();
    number < table.len() && table[number]
}

/// Whether each of the literals is marked.
pub(crate) fn all_marked(table: &[bool], literals: &[Lit]) -> bool
    ensures { IsTrue result ↔ ((l : ℕ) → has literals.now l ≡ true → marked table.now l ≡ true) }
{
    for literal in literals {
        if !is_marked(table, *literal) {
            return false;
        }
    }
    true
}

/// Whether none of the literals is marked.
pub(crate) fn none_marked(table: &[bool], literals: &[Lit]) -> bool
    ensures { IsTrue result ↔ ((l : ℕ) → has literals.now l ≡ true → marked table.now l ≡ false) }
{
    for literal in literals {
        if is_marked(table, *literal) {
            return false;
        }
    }
    true
}

//! Formulas in conjunctive normal form, and the lines of a derivation.
//! What they mean stands in `specs/Models.antt` and `specs/Lines.antt`.

use crate::clause::Clause;
use cpa_ints::Seq;

/// A formula: the conjunction of its clauses over the variables below `vars`.
#[derive(Drop)]
pub struct Cnf {
    pub vars: u32,
    pub clauses: Seq<Clause>,
}

/// One resolution: the present clause with the clause of this number, on the pivot.
#[derive(Clone, Copy)]
pub struct Step {
    pub pivot: u32,
    pub clause: u32,
}

/// A derived clause with its chain. In a formula with n clauses the numbers below n name these, and
/// n + i names line i.
#[derive(Drop)]
pub struct Line {
    pub clause: Clause,
    /// The number of the clause that the chain begins with.
    pub first: u32,
    pub steps: Seq<Step>,
}

//! Partial interpolants as data: those of clauses, and those of the lines of a refutation.
//! What they are, and what value they have, stands in `specs/Partials.antt`.

use cpa_cnf::Lit;
use cpa_ints::Seq;

/// The partial of a clause of the formula.
#[derive(Drop)]
pub enum Leaf {
    /// It is true.
    Always,
    /// It is true where one of these literals is.
    Any(Seq<Lit>),
}

/// The present partial joined with that of the clause of this number: by disjunction, or else by
/// conjunction.
#[derive(Clone, Copy)]
pub struct Joint {
    pub or: bool,
    pub clause: u32,
}

/// The partial of a line. In a formula with n clauses the numbers below n name the partials of
/// these, and n + i names that of line i.
#[derive(Drop)]
pub struct Partial {
    /// The number that it begins with.
    pub first: u32,
    pub joints: Seq<Joint>,
}

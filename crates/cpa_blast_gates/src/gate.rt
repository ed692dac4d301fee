//! What a gate is.
//! What its variable stands for is `gate_value` of specs/Gates.

use cpa_cnf::Lit;

/// What a variable stands for, in terms of the literals of earlier variables.
#[derive(Clone, Copy, PartialEq, Eq, Hash)]
pub enum Gate {
    /// Either value.
    Input,
    /// Whether both are true.
    And(Lit, Lit),
    /// Whether one is true and the other is not.
    Xor(Lit, Lit),
    /// Whether two of the three are true.
    Majority(Lit, Lit, Lit),
    /// The second where the first is true, else the third.
    Choice(Lit, Lit, Lit),
}

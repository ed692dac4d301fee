//! Words of a type, and what an expression comes to.
//! What they mean is said in specs/Meanings.

use cpa_cnf::Lit;
use cpa_ints::{IntType, Seq};

/// The bits of a number of the type, the low bit first.
#[derive(Drop)]
pub struct Word {
    pub ty: IntType,
    pub bits: Seq<Lit>,
}

/// What an expression comes to: the bits of its value, and whether it is evaluated without a trap.
#[derive(Drop)]
pub struct Answer {
    pub ty: IntType,
    pub bits: Seq<Lit>,
    pub ok: Lit,
}

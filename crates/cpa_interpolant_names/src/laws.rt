//! The law of names and bits, stated in specs/Laws. The function does nothing: its contract is the
//! law. Proved in specs/lemmas.

ghost use Rattle.cpa_interpolant_names.specs.Laws.{NamesAreBits};

/// A name is that of a bit of a program's cell, each bit of each cell has its name, and the bits
/// that are noted are those of cells which both parts read.
#[tactic(auto, using(crate::specs::Laws::names_are_bits))]
pub fn names_are_bits()
    ensures { NamesAreBits }
{}

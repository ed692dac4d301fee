//! A law of numbered programs: a function with an empty body, whose contract is the law. It is
//! proved in `proofs/Regrown.antt`.
ghost use Rattle.c_laws.specs.TreesBack.{ProgramsHaveTrees};

/// A numbered program has trees: whatever made it, its statements are those of some trees, in which
/// each block is a labelled one.
pub fn programs_have_trees()
    ensures { ProgramsHaveTrees }
{}

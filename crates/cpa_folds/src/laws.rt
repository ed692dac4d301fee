//! The law of carried expressions, stated in specs/CarriedLaws. Its function does nothing: its
//! contract is the law.

ghost use Rattle.cpa_folds.specs.CarriedLaws.{CarriedAreExpressions};

/// Whatever a path of an automaton carries is an expression over the automaton's cells.
pub fn carried_are_expressions()
    ensures { CarriedAreExpressions }
{}

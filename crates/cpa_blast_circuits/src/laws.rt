//! The law of circuits, stated in specs/Laws. The function does nothing: its contract is the law.
//! Proved in specs/lemmas.

ghost use Rattle.cpa_blast_circuits.specs.Laws.{CircuitsHaveValues};

/// Under each assignment under which the net of an expression's circuit holds and the words of the
/// cells stand for a store, the answer is the expression's value on the store, or a trap.
pub fn circuits_have_values()
    ensures { CircuitsHaveValues }
{}

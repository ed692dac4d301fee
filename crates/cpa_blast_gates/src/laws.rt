//! Laws of nets, stated in specs/Laws. Each function does nothing: its contract is the law.
//! Proved in specs/lemmas.

ghost use Rattle.cpa_blast_gates.specs.Laws.{LiteralsHaveValues, NetsGrow, InputsAreFree};
ghost use Rattle.cpa_blast_gates.specs.Laws.{OperatorsAreMeant, ModelsAreAssignments};
ghost use Rattle.cpa_blast_gates.specs.Laws.{ClausesAreBelow};

/// A positive literal has its variable's value, the opposite literal the other one, and literals 0
/// and 1 are true and false under each assignment under which a net holds. Two assignments that
/// agree below n give a literal below it one value.
#[tactic(auto, using(crate::specs::Laws::literals_have_values))]
pub fn literals_have_values()
    ensures { LiteralsHaveValues }
{}

/// A net grows by itself, and growth follows on growth.
#[tactic(auto, using(crate::specs::Laws::nets_grow))]
pub fn nets_grow()
    ensures { NetsGrow }
{}

/// A net grows by an input, which has either value under some extension of each assignment.
#[tactic(auto, using(crate::specs::Laws::inputs_are_free))]
pub fn inputs_are_free()
    ensures { InputsAreFree }
{}

/// What an operator makes of literals has the operator's value under each assignment under which
/// the net holds; and each assignment of the old net extends to one of the new.
#[tactic(auto, using(crate::specs::Laws::gates_mean_their_operators))]
pub fn gates_mean_their_operators()
    ensures { OperatorsAreMeant }
{}

/// The models of a net's clauses are the assignments under which it holds, and its clauses name
/// its variables alone.
#[tactic(auto, using(crate::specs::Laws::models_are_assignments, crate::specs::Laws::clauses_are_below))]
pub fn models_are_assignments()
    ensures models { ModelsAreAssignments }
    ensures below { ClausesAreBelow }
{}

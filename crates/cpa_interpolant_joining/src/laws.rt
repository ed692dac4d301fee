//! The law of joined formulas, stated in specs/Laws. The function does nothing: its contract is the
//! law. Proved in specs/lemmas.

ghost use Rattle.cpa_interpolant_joining.specs.Laws.{PartsHaveModels};

/// A model of the joined formula is one of each part, and two models of the parts that agree on the
/// variables they share are one of the joined formula.
#[tactic(auto, using(crate::specs::Laws::parts_have_models))]
pub fn parts_have_models()
    ensures { PartsHaveModels }
{}

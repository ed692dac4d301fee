//! The law of the conditions of partials, stated in specs/Laws. The function does nothing: its
//! contract is the law. Proved in specs/lemmas.

ghost use Rattle.cpa_interpolant_conditions.specs.Laws.{ConditionsOfPartialsMean};

/// The condition of the last partial has its truth, and names only variables that both sides have.
#[tactic(auto, using(crate::specs::Laws::conditions_of_partials_mean))]
pub fn conditions_of_partials_mean()
    ensures { ConditionsOfPartialsMean }
{}

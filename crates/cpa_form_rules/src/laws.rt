//! The laws of forms, stated in specs/Laws, specs/Additions and specs/Stores. Each function does
//! nothing: its contract is the law.

ghost use Rattle.cpa_form_rules.specs.Laws.{FormsAreRuns, CallsAddBehind};
ghost use Rattle.cpa_form_rules.specs.Additions.{FurtherCallsAddBehind, FurtherCallsRead};
ghost use Rattle.cpa_form_rules.specs.Additions.{WeightsAreSums, AddingGoesOn};
ghost use Rattle.cpa_form_rules.specs.Stores.{HoldingHasTwoParts, FailingIsNotHolding};
ghost use Rattle.cpa_form_rules.specs.Stores.{StepsTakeInputs};

/// The query of a beginning and of what was added has a model exactly where a run of stores along
/// the edges meets all that was added. Its first and last store, its inputs and the present values
/// of cells are read off the model.
#[tactic(auto, using(crate::specs::Laws::forms_are_runs))]
pub fn forms_are_runs()
    ensures { FormsAreRuns }
{}

/// What a call adds stands behind the cells and the wanted expressions that were there.
#[tactic(auto, using(crate::specs::Laws::calls_add_behind))]
pub fn calls_add_behind()
    ensures { CallsAddBehind }
{}

/// After any number of further calls the cells and the wanted expressions that were there stand in
/// front.
#[tactic(auto, using(crate::specs::Additions::further_calls_add_behind))]
pub fn further_calls_add_behind()
    ensures { FurtherCallsAddBehind }
{}

/// Seen from any time: an expression that a later call adds reads only cells that came later, and
/// the places at that time of cells which the edge or the elements of the call read.
pub fn further_calls_read()
    ensures { FurtherCallsRead }
{}

/// The weight of a form is the sum of the weights of what was added, as far as 64 bits go.
#[tactic(auto, using(crate::specs::Additions::weights_are_sums))]
pub fn weights_are_sums()
    ensures { WeightsAreSums }
{}

/// What is added in two goes is what is added at once, and a run that meets it all is a run that
/// meets the first part, followed by one that meets the second.
#[tactic(auto, using(crate::specs::Additions::adding_goes_on))]
pub fn adding_goes_on()
    ensures { AddingGoesOn }
{}

/// What an element asks of a store is that its facts on the store hold of it. What else it asks of
/// a state are its facts on the point and on the stack, which a form passes over.
#[tactic(auto, using(crate::specs::Stores::holding_has_two_parts))]
pub fn holding_has_two_parts()
    ensures { HoldingHasTwoParts }
{}

/// An element fails on a store exactly where its facts on the store do not all hold. An expression
/// that traps has neither truth, so that each fact on its truth fails.
#[tactic(auto, using(crate::specs::Stores::failing_is_not_holding))]
pub fn failing_is_not_holding()
    ensures { FailingIsNotHolding }
{}

/// A step of stores along an edge is one with inputs: none, or the one that an input takes.
#[tactic(auto, using(crate::specs::Stores::steps_take_inputs))]
pub fn steps_take_inputs()
    ensures { StepsTakeInputs }
{}

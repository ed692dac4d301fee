//! The laws of obligations, stated in `specs/Laws.antt`. Each function does nothing: its contract
//! is the law.

ghost use Rattle.cpa_recheck_obligations.specs.Laws.{EntriesAreOne, ObligationsAreCovers};
ghost use Rattle.cpa_recheck_obligations.specs.Laws.{BrokenIsUnmet, AddedFit, UnmodelledIsMet};
ghost use Rattle.cpa_recheck_obligations.specs.Laws.{ObligationsAreNamed, ModelsBreak};
ghost use Rattle.cpa_recheck_obligations.specs.Laws.{RunlessIsMet};

use cpa_model::{automata_are_small, steps_keep_states};

/// An entry as one element, with the facts of all of its elements, holds of exactly the states that
/// lie in the entry.
#[tactic(auto, using(crate::specs::Laws::entries_are_one))]
pub fn entries_are_one()
    ensures { EntriesAreOne }
{}

/// The obligations of a list of entries are all met exactly where the entries are a cover.
#[tactic(auto, using(crate::specs::Laws::obligations_are_covers))]
pub fn obligations_are_covers()
    ensures { ObligationsAreCovers }
{}

/// No state breaks an obligation that is met.
#[tactic(auto, using(crate::specs::Laws::broken_is_unmet))]
pub fn broken_is_unmet()
    ensures { BrokenIsUnmet }
{}

/// Each obligation of the list names an entry and an edge or an error point that are there.
#[tactic(auto, using(crate::specs::Laws::obligations_are_named))]
pub fn obligations_are_named()
    ensures { ObligationsAreNamed }
{}

/// What is asked about an obligation is asked of the automaton, so that `forms_are_runs` speaks of
/// its form.
#[tactic(auto, using(crate::specs::Laws::added_fit))]
pub fn added_fit()
    ensures { AddedFit }
{}

/// An obligation is met where no run of stores meets what is asked about it: so it may be settled
/// without a query.
#[tactic(auto, using(crate::specs::Laws::runless_is_met))]
pub fn runless_is_met()
    ensures { RunlessIsMet }
{}

/// An obligation whose query has no model is met.
#[tactic(auto, using(crate::specs::Laws::unmodelled_is_met))]
pub fn unmodelled_is_met()
    ensures { UnmodelledIsMet }
{}

/// A model of an obligation's query gives a state that breaks the obligation, with its successor.
pub fn models_break()
    ensures { ModelsBreak }
{
    automata_are_small();
    steps_keep_states();
}

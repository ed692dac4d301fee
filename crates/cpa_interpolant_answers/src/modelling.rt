//! A model of a path's query from any store, where stores lead along the path.
//! Proved with `proofs/Modelled.antt`.

ghost use Rattle.std.specs.Prelude.{◌<◌, ℤ, List, length, IfOk};
ghost use Rattle.std.specs.List.{AllByRecursion};
ghost use Rattle.cpa_model.specs.Automata.{IsAutomaton};
ghost use Rattle.cpa_query.specs.Queries.{IsModel};
ghost use Rattle.cpa_folds.specs.Along.{acts_along};
ghost use Rattle.cpa_interpolant_rules.specs.Stores.{RunsFrom};
ghost use Rattle.cpa_interpolant_rules.specs.Parts.{behind_cut};

use cpa_expr::Store;
use cpa_form_rules::forms_are_runs;
use cpa_interpolant_words::part_behind;
use cpa_model::{Cfa, edges_are_sound, steps_keep_states};
use cpa_solver::{Decided, decide};
use std::alloc::{AllocError, Global};

/// A model of the path's query from any store, where stores lead along the path. The search ends
/// with it, or where the 2^32nd line would be needed, which is want of memory.
pub fn model_of(alloc: Global, cfa: &Cfa, path: &[u32]) -> Result<Store, AllocError>
    requires automaton { IsAutomaton cfa.now }
    requires path { AllByRecursion (λ edge. edge < length cfa.now.edges) path.now }
    requires run { (first : List ℤ) × RunsFrom cfa.now.cells (acts_along cfa.now path.now) first }
    ensures { IfOk result (λ store.
        IsModel (behind_cut cfa.now.cells (acts_along cfa.now path.now)).query store.values) }
{
    forms_are_runs();
    edges_are_sound();
    steps_keep_states();
    let form = part_behind(alloc, cfa, path)?;
    let query = form.query()?;
    let decided = decide(alloc, &query, u32::MAX)?;
    match decided {
        Decided::Model(store) => Ok(store),
        Decided::NoModel(_) => unreachable!(),
        Decided::Learnt(_) => Err(AllocError),
    }
}

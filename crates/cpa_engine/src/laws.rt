//! Laws on searches, for the functions of this crate: what holds of the path to an entry that may
//! be an error, what a round that begins keeps, and which answers come when. Shown in `proofs/`.

ghost use Rattle.std.specs.Prelude.{ℕ, List, length, ◌⊎◌};
ghost use Rattle.cpa_model.specs.declared.automaton.Cfa.{Cfa};
ghost use Rattle.cpa_model.specs.declared.automaton.Path.{Path};
ghost use Rattle.cpa_model.specs.declared.facts.Elem.{Elem};
ghost use Rattle.cpa_model.specs.Automata.{IsAutomaton};
ghost use Rattle.cpa_iface.specs.declared.analysis.Settings.{Settings};
ghost use Rattle.cpa_iface.specs.declared.precisions.Precision.{Precision};
ghost use Rattle.cpa_composite.specs.Components.{Component, ArePrecisions};
ghost use Rattle.cpa_composite.specs.Exact.{BindAll};
ghost use Rattle.cpa_composite.specs.Keys.{key_places};
ghost use Rattle.cpa_composite.specs.Laws.{InitialRow};
ghost use Rattle.cpa_config.specs.declared.config.Config.{Config};
ghost use Rattle.cpa_path.specs.Judgements.{WantsSolver};
ghost use Rattle.cpa_path.specs.Paths.{HasNoRun};
ghost use Rattle.cpa_reached.specs.Calls.{begun, indexed};
ghost use Rattle.cpa_reached.specs.Entries.{ReachedSet, IsNumbered};
ghost use Rattle.cpa_reached.specs.Paths.{IsPathTo};
ghost use Rattle.cpa_engine_rounds.specs.Clearing.{BeginsBelow};
ghost use Rattle.cpa_engine.specs.declared.answers.Answer.{Answer};
ghost use Rattle.cpa_engine.specs.Answers.{IsAnswer};
ghost use Rattle.cpa_engine.specs.Decided.{IsDecided};
ghost use Rattle.cpa_engine.specs.Kept.{IsExactRun, IsKeptPath};
ghost use Rattle.cpa_engine.specs.Searches.{Stands, IsErrorAt, IsSpared};

use cpa_composite::ranks_are_bounded;
use cpa_engine_laws::{
    lines_begin, pairs_bound_turns, paths_are_kept, pins_tell, states_bound_turns,
    turns_are_bounded,
};
use cpa_model::{covers_are_safe, edges_are_steps, initial_is_state};
use cpa_reached::calls_keep_cover;

/// A law: the path to an entry that may be an error is a kept one, where it has no run, and where
/// it is put to the solver.
pub(crate) fn error_paths_are_kept()
    ensures { (cfa : Cfa) (cs : List Component) (settings : Settings) (r : ReachedSet) (n : ℕ)
        (path : Path) → IsAutomaton cfa → Stands cfa cs settings r → IsErrorAt cfa r n
        → IsPathTo r.live n path.edges → HasNoRun cfa path.edges ⊎ WantsSolver cfa path.edges
        → IsKeptPath cfa cs settings path }
{
    paths_are_kept();
}

/// A law: of the first entry alone, indexed by what tells entries apart, all holds that lasts
/// between turns.
pub(crate) fn searches_begin()
    ensures stands { (cfa : Cfa) (cs : List Component) (settings : Settings) (es : List Elem)
        (ps : List Precision) → IsAutomaton cfa → InitialRow cs cfa settings es ps
        → Stands cfa cs settings (indexed (begun es ps) (key_places cs)) }
    ensures binds { (cfa : Cfa) (cs : List Component) (settings : Settings) (es : List Elem)
        (ps : List Precision) → InitialRow cs cfa settings es ps → IsExactRun cs settings
        → BindAll cfa cs ps }
{
    edges_are_steps();
    lines_begin();
    ranks_are_bounded();
    turns_are_bounded();
}

/// A law: what holds of a reached set holds of what a round that begins leaves of it.
pub(crate) fn rounds_begin()
    ensures { (cfa : Cfa) (cs : List Component) (settings : Settings) (pivot : ℕ)
        (newest : List Precision) (old new : ReachedSet) → IsNumbered old
        → ArePrecisions cfa (length cs) newest
        → (IsExactRun cs settings → BindAll cfa cs newest) → BeginsBelow pivot newest old new
        → Stands cfa cs settings old → Stands cfa cs settings new }
{
    calls_keep_cover();
    turns_are_bounded();
}

/// A law: an answer that comes of a search comes where it is promised.
pub(crate) fn answers_are_decided()
    ensures { (cfa : Cfa) (cs : List Component) (config : Config) (a : Answer)
        → IsAnswer cfa cs config a → IsSpared cfa cs config a → IsDecided cfa cs config a }
{
    covers_are_safe();
    edges_are_steps();
    initial_is_state();
    pairs_bound_turns();
    pins_tell();
    states_bound_turns();
}

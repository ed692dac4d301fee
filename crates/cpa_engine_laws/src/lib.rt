//! Laws of the turns of `cpa_engine_turn`: what an entry has of its parent, how long paths are, and
//! how many turns and refinements there can be. Shown in `specs/lemmas`.
#![tactic(auto)]

mod laws;

pub use laws::{
    keys_lose_nothing, keys_tell, lines_are_kept, lines_begin, pairs_bound_turns, paths_are_kept,
    pins_tell, refinements_are_few, states_bound_turns, turns_are_bounded,
};

//! The interpreter of automata: it runs a program on given inputs. What comes of a run is `Replay`
//! of `specs/Replays.antt`. What it does to a store is offered too.
#![tactic(auto)]

mod edges;
mod laws;
mod machine;
mod outcome;
mod running;
mod stores;

pub use laws::{errors_are_called, replays_have_one_outcome, steps_are_chosen_by_inputs};
pub use outcome::Outcome;
pub use running::replay;
pub use stores::{assign, put, starts};

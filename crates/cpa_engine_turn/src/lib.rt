//! The algorithm of configurable program analysis with precisions (CAV 2007, section 2, and ASE
//! 2008), turn by turn. What a turn does is `specs/Turns.antt`.
#![tactic(auto)]

mod edges;
mod expanding;
mod one_turn;
mod settling;
mod taking;
mod work;

pub use one_turn::turn;
pub use taking::copy_precisions;

//! The program as core statements, its states and steps, facts on states, and the automaton:
//! each is defined in the module of `specs/` of its name. Laws stand in `laws`.
#![tactic(auto)]

mod automaton;
mod copying;
mod expressions;
mod facts;
mod graph;
mod laws;
mod program;
mod spelling;
mod stacks;
mod standing;
mod states;

pub use automaton::{Act, Cfa, Edge, Path};
pub use copying::copy_elem;
pub use cpa_expr::{BinOp, CmpOp, Expr, Store, UnOp, value};
pub use cpa_facts::{Block, Fact, Facts, Iter, Pieces, Run, Shared, copy_fact, mixed};
pub use cpa_ints::{IntType, Seq};
pub use expressions::{has_truth, is_expr};
pub use facts::{Elem, holds, is_elem};
pub use graph::{is_error, leaving};
pub use laws::{
    automata_are_small, covers_are_safe, edges_are_sound, edges_are_steps, initial_is_state,
    moves_stay_inside, stacks_are_left, statements_are_trees, steps_keep_states,
};
pub use program::{Cell, MAX_CELLS, MAX_POINTS, Program, Stmt, Successor};
pub use spelling::{Spell, push_list};
pub use stacks::step_stack;
pub use standing::{facts_that_stand, has_facts, same_fact, same_sites};
pub use states::State;

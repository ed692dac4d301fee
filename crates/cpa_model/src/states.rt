//! The states of an execution, as data. Which of them are states of a program is `IsState` of
//! `specs/States.antt`.
use cpa_expr::Store;
use cpa_ints::Seq;

/// A state of an execution. The last item of the stack is its top: the call site to return to.
#[derive(Drop)]
pub struct State {
    pub point: u32,
    pub stack: Seq<u32>,
    pub store: Store,
}

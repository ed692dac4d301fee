//! The analysis: what it gives stands in `specs/Stacks.antt`, and that it keeps the laws is shown
//! in `proofs/StackLaws.antt`.

ghost use Rattle.cpa_callstack.specs.Stacks.{stacks};

use crate::stacks::{next_stacks, with_stack};
use cpa_iface::{Part, Steps};
use cpa_model::{Cfa, Elem, edges_are_sound};
use std::alloc::{AllocError, Global};

/// The analysis of call stacks: an element says which stack a state has, from the bottom to the
/// top.
#[derive(Drop)]
pub struct Callstack;

impl Steps for Callstack {
    ghost own = { stacks };

    fn name(&self) -> &str {
        "callstack"
    }

    fn exact_on(&self) -> Part {
        Part::Stack
    }

    fn initial(&mut self, alloc: Global, _cfa: &Cfa) -> Result<Elem, AllocError> {
        with_stack(alloc, &[])
    }

    fn transfer(
        &mut self,
        alloc: Global,
        cfa: &Cfa,
        edge: u32,
        elem: &Elem,
    ) -> Result<Vec<Elem>, AllocError> {
        edges_are_sound();
        next_stacks(alloc, elem, cfa.edge(edge))
    }
}

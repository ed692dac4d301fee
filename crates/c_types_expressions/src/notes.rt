//! What is noted of expressions as they are read. Proved by the checker alone.
ghost use Rattle.std.specs.Prelude.{◌≡◌};

use c_lexer::TextFault;
use c_types_recursion::Call;
use std::alloc::Global;
use std::mem;

/// The first fault so far, and the calls so far in order.
#[derive(Drop)]
pub struct Notes {
    pub first: Option<TextFault>,
    pub calls: Vec<Call>,
}

impl Notes {
    /// What is noted so far, lent by who keeps it: the calls are taken, and are to be put back.
    pub fn lent(alloc: Global, first: Option<TextFault>, calls: &mut Vec<Call>) -> Notes
        ensures first { result.first ≡ first }
        ensures calls { result.calls.items ≡ calls.old.items }
    {
        let calls = mem::replace(calls, Vec::new(alloc));
        Notes { first, calls }
    }
}

//! What a turn keeps beside the reached set. Each call does what `specs/Steps.antt` says, by the
//! checker alone.

ghost use Rattle.std.specs.Prelude.{◌≡◌, OnOk};

use cpa_iface::Turn;
use cpa_ints::Seq;
use std::alloc::{AllocError, Global};

/// A turn under way.
#[derive(Drop)]
pub(crate) struct Work {
    /// What it did so far.
    pub(crate) row: Turn,
    /// The number that stands for the taken entry: its own, or that of what took its place.
    pub(crate) current: u32,
}

impl Work {
    ghost use Rattle.cpa_engine_turn.specs.Steps.{begun, with_added, with_replaced};

    /// A turn that has taken an entry. Takes no memory.
    pub(crate) fn begin(alloc: Global, taken: u32) -> Work
        ensures { result ≡ begun taken }
    {
        let row = Turn {
            taken,
            added: Seq::new(alloc),
            replaced: Seq::new(alloc),
        };
        Work {
            row,
            current: taken,
        }
    }

    /// Names an entry that was added.
    pub(crate) fn note_added(&mut self, number: u32) -> Result<(), AllocError>
        ensures { OnOk result (self.new ≡ with_added number self.old) }
    {
        self.row.added.push(number)
    }

    /// Names an entry and what took its place, which stands for the taken one where that one did.
    pub(crate) fn note_replaced(&mut self, old: u32, next: u32) -> Result<(), AllocError>
        ensures { OnOk result (self.new ≡ with_replaced old next self.old) }
    {
        self.row.replaced.push((old, next))?;
        if self.current == old {
            self.current = next;
        }
        Ok(())
    }
}

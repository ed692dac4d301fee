//! A few facts that copies share, with the run that they are, by `run_of` of `specs/Runs.antt`.
ghost use Rattle.std.specs.Prelude.{◌≡◌, ◌≤◌, length, IfOk};
ghost use Rattle.cpa_facts.specs.Runs.{run_of};

use crate::fact::Fact;
use crate::run::{Run, run_of};
use crate::shared::trimmed;
use cpa_ints::Seq;
use std::alloc::{AllocError, Global};
use std::marker::Model;
use std::sync::Arc;

/// At most so many facts stand in a block.
pub(crate) const BLOCK: usize = 16;

/// Facts and the run that they are, found once. Contracts see the facts.
#[derive(Drop)]
struct Held {
    facts: Seq<Fact>,
    run: Option<Run>,
}

impl Model for Held {
    ghost use Rattle.std.specs.Prelude.{◌≡◌, List};
    ghost use Rattle.std.specs.Coded.{coded_list};
    ghost use Rattle.cpa_facts.specs.declared.fact.Fact.{Fact};
    ghost use Rattle.cpa_facts.specs.contracts.fact.Fact as e;
    ghost use Rattle.cpa_facts.specs.Runs.{run_of};

    ghost Value = { List Fact };

    ghost coded = { coded_list e.the_row.coded };

    ghost view = { λ h. h.facts };

    ghost invariant = { λ h. h.run ≡ run_of h.facts };
}

impl Held {
    /// These facts, in a place of their size.
    fn new(facts: Seq<Fact>) -> Held
        requires { length facts ≤ 16 }
        ensures { result ≡ facts }
    {
        let run = run_of(facts.as_slice());
        Held {
            facts: trimmed(facts),
            run,
        }
    }

    /// The facts, in order.
    fn facts(&self) -> &[Fact]
        ensures { result.now ≡ self.now }
    {
        self.facts.as_slice()
    }

    /// The run that they are.
    fn run(&self) -> Option<Run>
        ensures { result ≡ run_of self.now }
    {
        self.run
    }
}

/// A few facts of an element, which its copies share. What run they are is known without a look
/// at them. It is one pointer, so that a list of many facts is short.
#[derive(Drop)]
pub struct Block {
    held: Arc<Held>,
}

impl Model for Block {
    ghost use Rattle.std.specs.Prelude.{List};
    ghost use Rattle.std.specs.Arc.{arc_value};
    ghost use Rattle.std.specs.Coded.{coded_list};
    ghost use Rattle.cpa_facts.specs.declared.fact.Fact.{Fact};
    ghost use Rattle.cpa_facts.specs.contracts.fact.Fact as e;

    ghost Value = { List Fact };

    ghost coded = { coded_list e.the_row.coded };

    ghost view = { λ b. arc_value b.held };
}

impl Block {
    /// The block of these facts.
    pub(crate) fn new(alloc: Global, facts: Seq<Fact>) -> Result<Block, AllocError>
        requires { length facts ≤ 16 }
        ensures { IfOk result (λ b. b ≡ facts) }
    {
        Ok(Block {
            held: Arc::new(alloc, Held::new(facts))?,
        })
    }

    /// The facts, in order.
    pub fn facts(&self) -> &[Fact]
        ensures { result.now ≡ self.now }
    {
        self.held.facts()
    }

    /// The run of the facts, where each gives a value to the cell behind that of the one before.
    pub fn run(&self) -> Option<Run>
        ensures { result ≡ run_of self.now }
    {
        self.held.run()
    }

    /// The same block once more. It takes no memory.
    pub(crate) fn share(&self) -> Result<Block, AllocError>
        ensures { IfOk result (λ b. b ≡ self.now) }
    {
        Ok(Block {
            held: Arc::try_clone(&self.held)?,
        })
    }
}

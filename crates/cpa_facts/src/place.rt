//! Where the facts of a list stand. What facts they are is `facts_at` of `specs/Places.antt`.

ghost use Rattle.std.specs.Prelude.{◌≡◌, ◌≤◌, length, IfOk};
ghost use Rattle.cpa_facts.specs.Places.{facts_at, facts_in, AreCounted, AreKept};

use crate::block::Block;
use crate::fact::Fact;
use crate::pieces::Pieces;
use crate::shared::Shared;
use cpa_ints::Seq;
use std::alloc::{AllocError, Global};
use std::slice;
use std::sync::Arc;

/// Where facts stand. Only many stand in blocks, whose list would take more than a few facts do.
#[derive(Drop)]
pub(crate) enum Place {
    /// A single fact, in one piece of memory.
    One(Arc<Fact>),
    /// As many as a block has, at most.
    Few(Shared<Fact>),
    Many(Shared<Block>),
}

impl Place {
    /// The place of these facts, which are as many as a block has, at most.
    pub(crate) fn of_few(alloc: Global, facts: Seq<Fact>) -> Result<Place, AllocError>
        requires { length facts ≤ 16 }
        ensures facts { IfOk result (λ place. facts_at place ≡ facts) }
        ensures counted { IfOk result AreCounted }
    {
        if facts.len() == 1 {
            return of_one(alloc, facts);
        }
        Ok(Place::Few(Shared::from_seq(alloc, facts)?))
    }

    /// The pieces in which the facts stand.
    pub(crate) fn pieces(&self) -> Pieces<'_>
        requires { AreCounted self.now }
        ensures facts { facts_in result ≡ facts_at self.now }
        ensures kept { AreKept result }
    {
        match self {
            Place::One(fact) => Pieces::Slice(slice::from_ref(&**fact)),
            Place::Few(facts) => Pieces::Slice(facts.as_slice()),
            Place::Many(blocks) => Pieces::Blocks(blocks.as_slice()),
        }
    }

    /// The same facts once more. It takes no memory.
    pub(crate) fn share(&self) -> Result<Place, AllocError>
        ensures facts { IfOk result (λ place. facts_at place ≡ facts_at self.now) }
        ensures counted { AreCounted self.now → IfOk result AreCounted }
    {
        match self {
            Place::One(fact) => Ok(Place::One(Arc::try_clone(fact)?)),
            Place::Few(facts) => Ok(Place::Few(facts.share()?)),
            Place::Many(blocks) => Ok(Place::Many(blocks.share()?)),
        }
    }
}

/// The place of the only fact of the list.
fn of_one(alloc: Global, facts: Seq<Fact>) -> Result<Place, AllocError>
    requires { length facts ≡ 1 }
    ensures facts { IfOk result (λ place. facts_at place ≡ facts) }
    ensures counted { IfOk result AreCounted }
{
    let mut facts = facts.into_vec();
    match facts.pop() {
        Some(fact) => Ok(Place::One(Arc::new(alloc, fact)?)),
        None => Ok(Place::Few(Shared::new())),
    }
}

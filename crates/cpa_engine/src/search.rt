//! What lasts from round to round, and how it begins.

ghost use Rattle.std.specs.Prelude.{◌≡◌, [], IfOk};
ghost use Rattle.cpa_model.specs.Automata.{IsAutomaton};
ghost use Rattle.cpa_composite.specs.Composites.{components};
ghost use Rattle.cpa_engine.specs.Searches.{IsSearch};

use crate::answers::Answer;
use crate::laws::searches_begin;
use cpa_composite::Composite;
use cpa_config::Config;
use cpa_engine_turn::copy_precisions;
use cpa_iface::{Analysis, Precision, Refined};
use cpa_model::{Cfa, Seq};
use cpa_reached::Reached;
use std::alloc::{AllocError, Global};

/// A search under way.
#[derive(Drop)]
pub(crate) struct Search {
    pub(crate) reached: Reached,
    /// The newest precisions.
    pub(crate) newest: Seq<Precision>,
    /// The paths that had no run, with the precisions to which each led.
    pub(crate) history: Seq<Refined>,
    /// Whether a round began at the root with these newest precisions, since nothing new came.
    pub(crate) again: bool,
    /// Entries of lower numbers were looked at, and are no errors.
    pub(crate) checked: u64,
}

/// What a part of a round comes to.
#[derive(Drop)]
pub(crate) enum Came {
    /// The answer is there.
    Decided { answer: Answer },
    /// Nothing waits, and no entry may be an error.
    Safe,
    /// All turns of the round are taken, and an entry waits.
    Spent,
    /// A new round begins.
    Again,
}

/// The search before its first round: the first entry waits. Entries are indexed by the elements
/// that tell them apart.
pub(crate) fn start<A: Analysis>(
    alloc: Global,
    cfa: &Cfa,
    composite: &mut Composite<A>,
    config: &Config,
) -> Result<Search, AllocError>
    requires { IsAutomaton cfa.now }
    ensures search { IfOk result (IsSearch cfa.now (components composite.old) config.now) }
    ensures journal { IfOk result (λ s. s.reached.journal ≡ []) }
    ensures kept { components composite.new ≡ components composite.old }
{
    searches_begin();
    let (elems, precisions) = composite.initial(alloc, cfa, &config.settings)?;
    let newest = copy_precisions(alloc, &precisions)?;
    let places = composite.key_places(alloc)?;
    let mut reached = Reached::new(alloc, elems, precisions)?;
    reached.index_by(&places)?;
    Ok(Search {
        reached,
        newest: Seq::from_vec(newest),
        history: Seq::new(alloc),
        again: false,
        checked: 0,
    })
}

//! The answer on an automaton by handed analyses, of which the configuration picks some.
ghost use Rattle.std.specs.Prelude.{length, map, IfOk};
ghost use Rattle.cpa_model.specs.Automata.{IsAutomaton};
ghost use Rattle.cpa_composite.specs.Components.{ArePlaces, picked};
ghost use Rattle.cpa_engine.specs.Answers.{IsAnswer};
ghost use Rattle.cpa_engine.specs.Decided.{IsDecided};

use cpa_composite::Composite;
use cpa_config::Config;
use cpa_engine::{Answer, analyse};
use cpa_iface::Analysis;
use cpa_model::Cfa;
use std::alloc::{AllocError, Global};

/// The answer on an automaton, by the analyses that the configuration picks, in its order and by
/// its rules. Analyses of several types come as one, `Handed` of `cpa_composite`.
pub fn answer_on<A: Analysis>(
    alloc: Global,
    cfa: &Cfa,
    analyses: Vec<A>,
    config: &Config,
) -> Result<Answer, AllocError>
    requires automaton { IsAutomaton cfa.now }
    requires picks { ArePlaces (length analyses.items) config.now.picks }
    ensures answer { IfOk result (IsAnswer cfa.now
        (picked (map A.meaning analyses.items) config.now.picks) config.now) }
    ensures decided { IfOk result (IsDecided cfa.now
        (picked (map A.meaning analyses.items) config.now.picks) config.now) }
{
    let picks = Vec::from_slice(alloc, config.picks.as_slice())?;
    let mut composite = Composite::new(analyses, picks);
    analyse(alloc, cfa, &mut composite, config)
}

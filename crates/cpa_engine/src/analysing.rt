//! Round after round.

ghost use Rattle.std.specs.Prelude.{◌≡◌, IfOk};
ghost use Rattle.cpa_model.specs.Automata.{IsAutomaton};
ghost use Rattle.cpa_composite.specs.Composites.{components};
ghost use Rattle.cpa_engine.specs.Answers.{IsAnswer};
ghost use Rattle.cpa_engine.specs.Decided.{IsDecided};
ghost use Rattle.cpa_engine.specs.Searches.{IsSpared};

use crate::answers::{Answer, Why};
use crate::laws::answers_are_decided;
use crate::round::round;
use crate::search::{Came, Search, start};
use cpa_composite::Composite;
use cpa_config::Config;
use cpa_iface::Analysis;
use cpa_model::{Cfa, Seq};
use std::alloc::{AllocError, Global};

/// The answer where nothing waits, and no entry may be an error.
fn safe(search: Search) -> Answer
    ensures { result ≡ Answer.True search.reached.live }
{
    let (entries, _journal) = search.reached.into_parts();
    Answer::True {
        entries: Seq::from_vec(entries),
    }
}

/// The answer where all turns are taken, and an entry waits.
fn spent(search: Search) -> Answer
    ensures { result ≡ Answer.Unknown (Why.Turns search.reached.journal) }
{
    let (_entries, journal) = search.reached.into_parts();
    Answer::Unknown {
        why: Why::Turns {
            journal: Seq::from_vec(journal),
        },
    }
}

/// The answer after as many rounds as it takes.
fn answer<A: Analysis>(
    alloc: Global,
    cfa: &Cfa,
    composite: &mut Composite<A>,
    config: &Config,
) -> Result<Answer, AllocError>
    requires { IsAutomaton cfa.now }
    ensures answer { IfOk result (IsAnswer cfa.now (components composite.old) config.now) }
    ensures spared { IfOk result (IsSpared cfa.now (components composite.old) config.now) }
    ensures kept { components composite.new ≡ components composite.old }
{
    let mut search = start(alloc, cfa, composite, config)?;
    loop {
        let came = round(alloc, cfa, composite, config, &mut search)?;
        match came {
            Came::Decided { answer } => return Ok(answer),
            Came::Safe => return Ok(safe(search)),
            Came::Spent => return Ok(spent(search)),
            Came::Again => {}
        }
    }
}

/// Whether the program can call the error, by the analyses of the composite: turns by the rules of
/// the picks, refinement after each path that has no run, in as many turns and rounds as the
/// configuration allows. The picks of the configuration are not read.
pub fn analyse<A: Analysis>(
    alloc: Global,
    cfa: &Cfa,
    composite: &mut Composite<A>,
    config: &Config,
) -> Result<Answer, AllocError>
    requires { IsAutomaton cfa.now }
    ensures answer { IfOk result (IsAnswer cfa.now (components composite.old) config.now) }
    ensures decided { IfOk result (IsDecided cfa.now (components composite.old) config.now) }
    ensures kept { components composite.new ≡ components composite.old }
{
    answers_are_decided();
    answer(alloc, cfa, composite, config)
}

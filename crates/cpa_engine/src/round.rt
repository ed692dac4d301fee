//! One round: turn after turn, until something is come to.

ghost use Rattle.std.specs.Prelude.{◌≡◌, ◌+◌, ◌<◌, [], length, IfOk, IfSome, IfNone};
ghost use Rattle.std.specs.List.{list_any};
ghost use Rattle.cpa_model.specs.Automata.{IsAutomaton};
ghost use Rattle.cpa_composite.specs.Composites.{components};
ghost use Rattle.cpa_engine_rounds.specs.Errors.{NoneErr};
ghost use Rattle.cpa_engine.specs.Searches.{IsSearch, IsCome, rounds_left};

use crate::judging::judge_least;
use crate::search::{Came, Search};
use cpa_composite::Composite;
use cpa_config::Config;
use cpa_engine_laws::lines_are_kept;
use cpa_engine_rounds::beyond;
use cpa_engine_turn::turn;
use cpa_iface::{Analysis, Entry};
use cpa_model::Cfa;
use std::alloc::{AllocError, Global};

/// One turn, where no entry may be an error.
fn go_on<A: Analysis>(
    alloc: Global,
    cfa: &Cfa,
    composite: &mut Composite<A>,
    config: &Config,
    search: &mut Search,
) -> Result<Option<Came>, AllocError>
    requires automaton { IsAutomaton cfa.now }
    requires search { IsSearch cfa.now (components composite.old) config.now search.old }
    requires none { NoneErr cfa.now search.old.reached.live }
    requires room { length search.old.reached.journal < config.now.turns }
    ensures come { IfOk result (λ o. IfSome o (IsCome cfa.now (components composite.old)
        config.now (rounds_left config.now search.old) search.new)) }
    ensures search { IfOk result (λ o. IfNone o
        (IsSearch cfa.now (components composite.old) config.now search.new)) }
    ensures journal { IfOk result (λ o. IfNone o (length search.new.reached.journal
        ≡ length search.old.reached.journal + 1)) }
    ensures left { IfOk result (λ o. IfNone o
        (rounds_left config.now search.new ≡ rounds_left config.now search.old)) }
    ensures kept { components composite.new ≡ components composite.old }
{
    lines_are_kept();
    search.checked = beyond(search.reached.live());
    let goes = turn(alloc, cfa, composite, &mut search.reached, config.order)?;
    if goes { Ok(None) } else { Ok(Some(Came::Safe)) }
}

/// The least entry that may be an error is judged, or one turn is done.
fn advance<A: Analysis>(
    alloc: Global,
    cfa: &Cfa,
    composite: &mut Composite<A>,
    config: &Config,
    search: &mut Search,
) -> Result<Option<Came>, AllocError>
    requires automaton { IsAutomaton cfa.now }
    requires search { IsSearch cfa.now (components composite.old) config.now search.old }
    requires room { length search.old.reached.journal < config.now.turns }
    ensures come { IfOk result (λ o. IfSome o (IsCome cfa.now (components composite.old)
        config.now (rounds_left config.now search.old) search.new)) }
    ensures search { IfOk result (λ o. IfNone o
        (IsSearch cfa.now (components composite.old) config.now search.new)) }
    ensures journal { IfOk result (λ o. IfNone o (length search.new.reached.journal
        ≡ length search.old.reached.journal + 1)) }
    ensures left { IfOk result (λ o. IfNone o
        (rounds_left config.now search.new ≡ rounds_left config.now search.old)) }
    ensures kept { components composite.new ≡ components composite.old }
{
    let judged = judge_least(alloc, cfa, composite, config, search)?;
    match judged {
        Some(came) => Ok(Some(came)),
        None => go_on(alloc, cfa, composite, config, search),
    }
}

/// Whether an entry waits.
fn is_waiting(entries: &[Entry]) -> bool
    ensures { result ≡ list_any (λ e. e.waiting) entries.now }
{
    entries.iter().any(|entry| entry.waiting)
}

/// What comes of a round whose turns are all taken, where no entry may be an error.
fn ended<A: Analysis>(cfa: &Cfa, composite: &Composite<A>, config: &Config, search: &Search) -> Came
    requires search { IsSearch cfa.now (components composite.now) config.now search.now }
    requires none { NoneErr cfa.now search.now.reached.live }
    requires all { length search.now.reached.journal ≡ config.now.turns }
    ensures { IsCome cfa.now (components composite.now) config.now
        (rounds_left config.now search.now) search.now result }
{
    if is_waiting(search.reached.live()) {
        Came::Spent
    } else {
        Came::Safe
    }
}

/// What comes of a round whose turns are all taken.
fn last<A: Analysis>(
    alloc: Global,
    cfa: &Cfa,
    composite: &mut Composite<A>,
    config: &Config,
    search: &mut Search,
) -> Result<Came, AllocError>
    requires automaton { IsAutomaton cfa.now }
    requires search { IsSearch cfa.now (components composite.old) config.now search.old }
    requires all { length search.old.reached.journal ≡ config.now.turns }
    ensures come { IfOk result (IsCome cfa.now (components composite.old) config.now
        (rounds_left config.now search.old) search.new) }
    ensures kept { components composite.new ≡ components composite.old }
{
    let judged = judge_least(alloc, cfa, composite, config, search)?;
    match judged {
        Some(came) => Ok(came),
        None => Ok(ended(cfa, composite, config, search)),
    }
}

/// One round.
pub(crate) fn round<A: Analysis>(
    alloc: Global,
    cfa: &Cfa,
    composite: &mut Composite<A>,
    config: &Config,
    search: &mut Search,
) -> Result<Came, AllocError>
    requires automaton { IsAutomaton cfa.now }
    requires search { IsSearch cfa.now (components composite.old) config.now search.old }
    requires journal { search.old.reached.journal ≡ [] }
    ensures come { IfOk result (IsCome cfa.now (components composite.old) config.now
        (rounds_left config.now search.old) search.new) }
    ensures kept { components composite.new ≡ components composite.old }
{
    for _taken in 0..config.turns {
        let came = advance(alloc, cfa, composite, config, search)?;
        match came {
            Some(came) => return Ok(came),
            None => {}
        }
    }
    last(alloc, cfa, composite, config, search)
}

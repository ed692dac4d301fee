//! The least entry that may be an error is judged by its path.

ghost use Rattle.std.specs.Prelude.{◌≡◌, ℕ, ◌<◌, List, length, IfOk, IfSome, IfNone};
ghost use Rattle.std.specs.List.{AllByRecursion};
ghost use Rattle.cpa_model.specs.Automata.{IsAutomaton};
ghost use Rattle.cpa_composite.specs.Composites.{components};
ghost use Rattle.cpa_path.specs.Judgements.{IsJudged};
ghost use Rattle.cpa_reached.specs.Entries.{IsLive};
ghost use Rattle.cpa_reached.specs.Paths.{IsPathTo};
ghost use Rattle.cpa_engine_rounds.specs.Errors.{NoneErr, NoneErrBelow};
ghost use Rattle.cpa_engine.specs.Searches.{IsSearch, IsCome, rounds_left, IsErrorAt};

use crate::answers::{Answer, Why};
use crate::laws::error_paths_are_kept;
use crate::refining::refuted;
use crate::search::{Came, Search};
use cpa_composite::Composite;
use cpa_config::Config;
use cpa_engine_laws::paths_are_kept;
use cpa_engine_rounds::least_error;
use cpa_iface::{Analysis, Settings};
use cpa_model::{Cfa, Path, Seq};
use cpa_path::{Judged, judge};
use cpa_reached::Reached;
use std::alloc::{AllocError, Global};

/// The number of the least entry that may be an error.
fn least(cfa: &Cfa, search: &Search) -> Option<u32>
    requires automaton { IsAutomaton cfa.now }
    requires checked { NoneErrBelow cfa.now search.now.checked search.now.reached.live }
    ensures some { IfSome result (IsErrorAt cfa.now search.now.reached) }
    ensures none { IfNone result (NoneErr cfa.now search.now.reached.live) }
{
    least_error(cfa, search.reached.live(), search.checked)
}

/// The path to the entry, and what it is.
fn judged_path(
    alloc: Global,
    cfa: &Cfa,
    reached: &Reached,
    settings: &Settings,
    number: u32,
) -> Result<(Path, Judged), AllocError>
    requires automaton { IsAutomaton cfa.now }
    requires live { IsLive reached.now.live number }
    requires inside { (path : List ℕ) → IsPathTo reached.now.live number path
        → AllByRecursion (λ edge. edge < length cfa.now.edges) path }
    ensures path { IfOk result (λ pair. IsPathTo reached.now.live number pair.0.edges) }
    ensures judged { IfOk result (λ pair.
        IsJudged cfa.now pair.0.edges settings.now.learnt settings.now.gates pair.1) }
{
    let path = reached.path_to(number)?;
    let judged = judge(alloc, cfa, &path, settings.learnt, settings.gates)?;
    Ok((path, judged))
}

/// The answer where the analysis gives up.
fn given_up(why: Why) -> Came
    ensures { result ≡ Came.Decided (Answer.Unknown why) }
{
    Came::Decided {
        answer: Answer::Unknown { why },
    }
}

/// What the path to an entry that may be an error comes to.
fn concluded<A: Analysis>(
    alloc: Global,
    cfa: &Cfa,
    composite: &mut Composite<A>,
    config: &Config,
    search: &mut Search,
    number: u32,
    path: Path,
    judged: Judged,
) -> Result<Came, AllocError>
    requires automaton { IsAutomaton cfa.now }
    requires search { IsSearch cfa.now (components composite.old) config.now search.old }
    requires found { IsErrorAt cfa.now search.old.reached number }
    requires path { IsPathTo search.old.reached.live number path.edges }
    requires judged { IsJudged cfa.now path.edges config.now.settings.learnt
        config.now.settings.gates judged }
    ensures come { IfOk result (IsCome cfa.now (components composite.old) config.now
        (rounds_left config.now search.old) search.new) }
    ensures kept { components composite.new ≡ components composite.old }
{
    error_paths_are_kept();
    match judged {
        Judged::Run { inputs, steps } => Ok(Came::Decided {
            answer: Answer::False {
                inputs: Seq::from_vec(inputs),
                steps,
            },
        }),
        Judged::NoRun => refuted(alloc, cfa, composite, config, search, number, path),
        Judged::Learnt { lines } => Ok(given_up(Why::Learnt {
            path,
            lines: Seq::from_vec(lines),
        })),
        Judged::Gates { weight } => Ok(given_up(Why::Gates { path, weight })),
    }
}

/// The least entry that may be an error is judged, if there is one.
pub(crate) fn judge_least<A: Analysis>(
    alloc: Global,
    cfa: &Cfa,
    composite: &mut Composite<A>,
    config: &Config,
    search: &mut Search,
) -> Result<Option<Came>, AllocError>
    requires automaton { IsAutomaton cfa.now }
    requires search { IsSearch cfa.now (components composite.old) config.now search.old }
    ensures come { IfOk result (λ o. IfSome o (IsCome cfa.now (components composite.old)
        config.now (rounds_left config.now search.old) search.new)) }
    ensures none { IfOk result (λ o. IfNone o (NoneErr cfa.now search.old.reached.live)) }
    ensures same { IfOk result (λ o. IfNone o (search.new ≡ search.old)) }
    ensures kept { components composite.new ≡ components composite.old }
{
    paths_are_kept();
    match least(cfa, search) {
        None => Ok(None),
        Some(number) => {
            let (path, judged) = judged_path(
                alloc,
                cfa,
                &search.reached,
                &config.settings,
                number,
            )?;
            let came = concluded(alloc, cfa, composite, config, search, number, path, judged)?;
            Ok(Some(came))
        }
    }
}

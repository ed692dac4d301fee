//! A call of a composite, as a row names it: the call, its words, and behind colons the elements
//! that it takes. Words are read before what owns memory. Nothing is proved of what is read.

use crate::analyses::path_of;
use cases_programs::{elems_of, order_of_word, settings_of};
use cases_reader::{RowFault, index_of_word};
use cpa_iface::{Order, Settings};
use cpa_model::{Elem, Path};
use std::alloc::Global;

/// What a configuration says beside its picks.
#[derive(Clone, Copy)]
pub struct Search {
    pub order: Order,
    pub turns: u64,
    pub rounds: u32,
    pub settings: Settings,
}

/// Which call it is, with what it takes beside elements and a path.
#[derive(Clone, Copy)]
pub enum Call {
    /// `initial all LIMIT` or `initial none LIMIT`
    Initial {
        settings: Settings,
    },
    /// `successors EDGE TIMES : ELEMENT : ..`, the call so many times
    Successors {
        edge: u32,
        times: u32,
    },
    /// `merge : NEW : .. : OLD : ..`
    Merge,
    /// `covered : ELEMENT : .. : OTHER : ..`
    Covered,
    /// `adjust : ELEMENT : ..`, where nothing is reached
    Adjust,
    /// `refine EDGE ..`
    Refine,
    /// `explore first all LIMIT TURNS`, with `last` and `none`, too
    Explore {
        order: Order,
        settings: Settings,
        turns: u32,
    },
    /// `analyse first all LIMIT TURNS ROUNDS LEARNT GATES`, with `last` and `none`, too; or
    /// `verdict` in the place of `analyse`, which tells no more than the verdict
    Analyse {
        search: Search,
        is_whole: bool,
    },
}

/// A call with its path, which is empty where it takes none, and its elements.
#[derive(Drop)]
pub struct Question {
    pub call: Call,
    pub path: Path,
    pub elems: Vec<Elem>,
}

/// The call that the words and parts of a row name.
pub fn question_of(alloc: Global, words: &[&str], parts: &[&str]) -> Result<Question, RowFault> {
    let call = call_of(words)?;
    let path = path_of(alloc, words)?;
    let elems = elems_of(alloc, parts)?;
    Ok(Question { call, path, elems })
}

/// The call that words name, without its path and the elements behind colons.
fn call_of(words: &[&str]) -> Result<Call, RowFault> {
    match words {
        ["successors", edge, times] => successors_of(edge, times),
        ["analyse", search @ ..] => analyse_of(search, true),
        ["verdict", search @ ..] => analyse_of(search, false),
        ["merge"] => Ok(Call::Merge),
        ["covered"] => Ok(Call::Covered),
        ["adjust"] => Ok(Call::Adjust),
        ["refine", ..] => Ok(Call::Refine),
        _ => call_from_first(words),
    }
}

/// A call from the initial state on, of at most one loop: `initial SETTINGS`, or
/// `explore ORDER SETTINGS TURNS`.
fn call_from_first(words: &[&str]) -> Result<Call, RowFault> {
    match words {
        ["initial", cells, limit] => {
            let settings = settings_of(cells, limit)?;
            Ok(Call::Initial { settings })
        }
        ["explore", order, cells, limit, turns] => explore_of(order, cells, limit, turns),
        _ => Err(RowFault::Unreadable),
    }
}

/// `successors EDGE TIMES`
fn successors_of(edge: &str, times: &str) -> Result<Call, RowFault> {
    let edge = index_of_word(edge)?;
    let times = index_of_word(times)?;
    Ok(Call::Successors { edge, times })
}

/// `explore ORDER SETTINGS TURNS`
fn explore_of(order: &str, cells: &str, limit: &str, turns: &str) -> Result<Call, RowFault> {
    let order = order_of_word(order)?;
    let settings = settings_of(cells, limit)?;
    let turns = index_of_word(turns)?;
    Ok(Call::Explore {
        order,
        settings,
        turns,
    })
}

/// `ORDER SETTINGS TURNS ROUNDS LEARNT GATES`: a whole analysis with this configuration.
fn analyse_of(words: &[&str], is_whole: bool) -> Result<Call, RowFault> {
    let [order, cells, limit, turns, rounds, learnt, gates] = words else {
        return Err(RowFault::Unreadable);
    };
    let settings = with_budgets(settings_of(cells, limit)?, learnt, gates)?;
    let search = search_of(order, turns, rounds, settings)?;
    Ok(Call::Analyse { search, is_whole })
}

/// The settings with the budgets of searches and queries that two words spell.
fn with_budgets(settings: Settings, learnt: &str, gates: &str) -> Result<Settings, RowFault> {
    let learnt = index_of_word(learnt)?;
    let gates = gates.parse::<u64>()?;
    Ok(Settings {
        tracked_all: settings.tracked_all,
        limit: settings.limit,
        learnt,
        gates,
    })
}

/// What a configuration with these settings says.
fn search_of(
    order: &str,
    turns: &str,
    rounds: &str,
    settings: Settings,
) -> Result<Search, RowFault> {
    let order = order_of_word(order)?;
    let turns = turns.parse::<u64>()?;
    let rounds = index_of_word(rounds)?;
    Ok(Search {
        order,
        turns,
        rounds,
        settings,
    })
}

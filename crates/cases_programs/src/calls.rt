//! Reads what calls take beside elements: a rule of merging, an order, and settings. Nothing is
//! proved of what is read but that reading is safe and ends.

use cases_reader::{RowFault, index_of_word};
use cpa_iface::{DEFAULT_GATES, DEFAULT_LEARNT, MergeRule, Order, Settings};

/// The rule that a word names: `sep`, `join` or `widen`.
pub fn rule_of_word(word: &str) -> Result<MergeRule, RowFault> {
    match word {
        "sep" => Ok(MergeRule::Sep),
        "join" => Ok(MergeRule::Join),
        "widen" => Ok(MergeRule::Widen),
        _ => Err(RowFault::Unreadable),
    }
}

/// Which waiting entry is taken: `first` or `last`.
pub fn order_of_word(word: &str) -> Result<Order, RowFault> {
    match word {
        "first" => Ok(Order::First),
        "last" => Ok(Order::Last),
        _ => Err(RowFault::Unreadable),
    }
}

/// The settings that two words spell: `all LIMIT` or `none LIMIT`. Searches and queries have the
/// budgets of a run without a configuration.
pub fn settings_of(cells: &str, limit: &str) -> Result<Settings, RowFault> {
    let tracked_all = is_all(cells)?;
    let limit = index_of_word(limit)?;
    Ok(Settings {
        tracked_all,
        limit,
        learnt: DEFAULT_LEARNT,
        gates: DEFAULT_GATES,
    })
}

/// Whether a word names all cells, or none.
fn is_all(word: &str) -> Result<bool, RowFault> {
    match word {
        "all" => Ok(true),
        "none" => Ok(false),
        _ => Err(RowFault::Unreadable),
    }
}

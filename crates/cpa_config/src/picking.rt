//! The configuration of a table that breaks no rule (`IsConfig` of `specs/Configurations.antt`).
ghost use Rattle.std.specs.Prelude.{◌≡◌, ◌≤◌, ℕ, List, map, option_map, None, IfOk, IfSome, codes};
ghost use Rattle.std.specs.List.{AllZip};
ghost use Rattle.std.specs.String.{string_bytes};
ghost use Rattle.toml.specs.View.{view, table_view};
ghost use Rattle.cpa_config.specs.Configurations.{IsConfig, IsPick, merge_value, number_at};
ghost use Rattle.cpa_config.specs.Configurations.{rule_of_name, value_at};
ghost use Rattle.cpa_config.specs.Rules.{at, listed_in, rule_at};
ghost use Rattle.cpa_config.specs.Values.{tracked_words, word_in, is_widened};
ghost use Rattle.cpa_config.specs.declared.keys.TheConstants.{DEFAULT_TRACKED, GATES, LEARNT};
ghost use Rattle.cpa_config.specs.declared.keys.TheConstants.{LIMIT};

use crate::config::Config;
use crate::keys::{
    DEFAULT_MODEL, DEFAULT_ORDER, DEFAULT_TRACKED, GATES, LEARNT, LIMIT, MERGE_RULES, MODELS,
    ORDERS, ROUNDS, Range, TRACKED, TURNS, WIDENED,
};
use crate::listing::{listed_in, place_of, value_of};
use crate::values::{number_in, word_in};
use cpa_iface::{MergeRule, Pick, Settings};
use cpa_ints::Seq;
use std::alloc::{AllocError, Global};
use toml::{Table, Value};

/// The number at a key, or its default.
fn number_at(table: &Table, key: &str, range: Range) -> u64
    ensures number { result ≡ number_at range (at (table_view table.now)) key.now }
    ensures bound { range.default ≤ range.greatest → result ≤ range.greatest }
{
    value_of(table, key)
        .and_then(|value| number_in(range, value))
        .unwrap_or(range.default)
}

/// What the word at a key stands for, or its default.
fn word_at<T: Copy>(table: &Table, key: &str, rows: &[(&'static str, T)], default: T) -> T
    ensures { result ≡ value_at (word_in (map (λ row. (row.0.now, row.1)) rows.now)) default
        (at (table_view table.now)) key.now }
{
    value_of(table, key)
        .and_then(|value| word_in(rows, value))
        .unwrap_or(default)
}

/// What `merge` says of a name.
fn merge_value<'a>(table: &'a Table, name: &str) -> Option<&'a Value>
    ensures { option_map (λ value. view value.now) result
        ≡ merge_value (at (table_view table.now)) name.now }
{
    value_of(value_of(table, "merge")?.as_table()?, name)
}

/// Whether the elements of an analysis are widened where the text does not say.
fn is_widened(name: &str) -> bool
    ensures { result ≡ is_widened name.now }
{
    WIDENED.iter().any(|word| *word == name)
}

/// How the elements of an analysis are merged.
fn rule_of_name(table: &Table, name: &str) -> MergeRule
    ensures { result ≡ rule_of_name (at (table_view table.now)) name.now }
{
    match merge_value(table, name).and_then(|value| word_in(&MERGE_RULES, value)) {
        Some(rule) => rule,
        None if is_widened(name) => MergeRule::Widen,
        None => MergeRule::Sep,
    }
}

/// The pick of a listed name, where an analysis of that name is handed in at a place of 32 bits.
fn pick_of(handed: &[String], table: &Table, name: &str) -> Option<Pick>
    ensures { IfSome result
        (IsPick (map string_bytes handed.now) (at (table_view table.now)) name.now) }
{
    let place = u32::try_from(place_of(handed, name)?).ok()?;
    let rule = rule_of_name(table, name);
    Some(Pick { place, rule })
}

/// The picks of the listed names, in their order. A place beyond 32 bits counts as want of memory;
/// a name that is not handed in was refused before.
fn picks_of(alloc: Global, handed: &[String], table: &Table) -> Result<Seq<Pick>, AllocError>
    ensures { IfOk result
        (AllZip (IsPick (map string_bytes handed.now) (at (table_view table.now)))
        (listed_in (at (table_view table.now)))) }
{
    let names = listed_in(alloc, table)?;
    let mut picks = Seq::new(alloc);
    for name in names.iter() {
        match pick_of(handed, table, name) {
            Some(pick) => picks.push(pick)?,
            None => return Err(AllocError),
        }
    }
    Ok(picks)
}

/// What each analysis is told.
fn settings_of(table: &Table) -> Settings
    ensures tracked { result.tracked_all
        ≡ value_at (word_in tracked_words) DEFAULT_TRACKED
        (at (table_view table.now)) (codes "tracked") }
    ensures limit { result.limit ≡ number_at LIMIT (at (table_view table.now)) (codes "limit") }
    ensures learnt { result.learnt ≡ number_at LEARNT (at (table_view table.now)) (codes "learnt") }
    ensures gates { result.gates ≡ number_at GATES (at (table_view table.now)) (codes "gates") }
{
    Settings {
        tracked_all: word_at(table, "tracked", &TRACKED, DEFAULT_TRACKED),
        limit: number_at(table, "limit", LIMIT) as u32,
        learnt: number_at(table, "learnt", LEARNT) as u32,
        gates: number_at(table, "gates", GATES),
    }
}

/// The configuration of a table that breaks no rule.
pub(crate) fn config_of(
    alloc: Global,
    handed: &[String],
    table: &Table,
) -> Result<Config, AllocError>
    ensures { IfOk result (λ config. ((key : List ℕ) →
        rule_at (map string_bytes handed.now) (at (table_view table.now)) key ≡ None) →
        IsConfig (map string_bytes handed.now) (at (table_view table.now)) config) }
{
    Ok(Config {
        picks: picks_of(alloc, handed, table)?,
        order: word_at(table, "order", &ORDERS, DEFAULT_ORDER),
        turns: number_at(table, "turns", TURNS),
        rounds: number_at(table, "rounds", ROUNDS) as u32,
        settings: settings_of(table),
        model: word_at(table, "model", &MODELS, DEFAULT_MODEL),
    })
}

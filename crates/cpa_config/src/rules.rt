//! The rule that a table breaks, and where (`specs/Rules.antt`).
ghost use Rattle.std.specs.Prelude.{◌≡◌, ℕ, List, map, Option, None, IfOk, IfSome, IfNone, is_some};
ghost use Rattle.std.specs.List.{list_all};
ghost use Rattle.std.specs.String.{string_bytes};
ghost use Rattle.toml.specs.View.{view, items_view, table_view};
ghost use Rattle.cpa_config.specs.Configurations.{IsFirstFault};
ghost use Rattle.cpa_config.specs.Rules.{at, rule_at, kind_rule, list_rule, merge_rule, name_rule};
ghost use Rattle.cpa_config.specs.Rules.{names_rule, value_rule};
ghost use Rattle.cpa_config.specs.Values.{keys, named, place_of};

use crate::faults::{ConfigFault, ConfigRule};
use crate::keys::{KEYS, Kind, MERGE_RULES, MODELS, ORDERS, TRACKED};
use crate::listing::{are_texts, has_repeats, is_among, listed_in, place_of, texts_in};
use crate::values::{named, number_in, word_in};
use std::alloc::{AllocError, Global};
use toml::{Table, Value};

/// The rule that a value breaks which means nothing at its key.
fn kind_rule<T: Drop>(meaning: Option<T>) -> Option<ConfigRule>
    ensures { result ≡ kind_rule meaning }
{
    match meaning {
        Some(_) => None,
        None => Some(ConfigRule::C3),
    }
}

/// Whether each name is that of a handed analysis.
fn are_handed(handed: &[String], names: &[&str]) -> bool
    ensures { result ≡ list_all (λ name. is_some (place_of (map string_bytes handed.now) name))
        (map (λ name. name.now) names.now) }
{
    names.iter().all(|name| place_of(handed, name).is_some())
}

/// The rule that a list of names breaks.
fn names_rule(handed: &[String], names: &[&str]) -> Option<ConfigRule>
    ensures { result
        ≡ names_rule (map string_bytes handed.now) (map (λ name. name.now) names.now) }
{
    if !are_handed(handed, names) {
        Some(ConfigRule::C4)
    } else if names.is_empty() || has_repeats(names) {
        Some(ConfigRule::C5)
    } else {
        None
    }
}

/// The rule that a list of analyses breaks.
fn list_rule(
    alloc: Global,
    handed: &[String],
    items: &[Value],
) -> Result<Option<ConfigRule>, AllocError>
    ensures { IfOk result (λ rule. rule
        ≡ list_rule (map string_bytes handed.now) (items_view items.now)) }
{
    if !are_texts(items) {
        return Ok(Some(ConfigRule::C3));
    }
    let names = texts_in(alloc, items)?;
    Ok(names_rule(handed, names.as_slice()))
}

/// The rule that is broken at a name of `merge`.
fn name_rule(listed: &[&str], name: &str, value: &Value) -> Option<ConfigRule>
    ensures { result
        ≡ name_rule (map (λ other. other.now) listed.now) name.now (view value.now) }
{
    if word_in(&MERGE_RULES, value).is_none() {
        Some(ConfigRule::C3)
    } else if is_among(listed, name) {
        None
    } else {
        Some(ConfigRule::C4)
    }
}

/// The rule that is broken at the first name of `merge` that breaks one.
fn merge_rule(listed: &[&str], merge: &Table) -> Option<ConfigRule>
    ensures { result ≡ merge_rule (map (λ other. other.now) listed.now) (table_view merge.now) }
{
    for (name, value) in merge.iter() {
        if let Some(rule) = name_rule(listed, name.as_str(), value) {
            return Some(rule);
        }
    }
    None
}

/// The rule that a value breaks at a key.
fn value_rule(
    alloc: Global,
    handed: &[String],
    listed: &[&str],
    key: &str,
    value: &Value,
) -> Result<Option<ConfigRule>, AllocError>
    ensures { IfOk result (λ rule. rule ≡ value_rule (map string_bytes handed.now)
        (map (λ name. name.now) listed.now) (view value.now) (named keys key.now)) }
{
    match named(&KEYS, key) {
        None => Ok(Some(ConfigRule::C2)),
        Some(Kind::Analyses) => match value.as_array() {
            Some(items) => list_rule(alloc, handed, items.as_slice()),
            None => Ok(Some(ConfigRule::C3)),
        },
        Some(Kind::Merge) => match value.as_table() {
            Some(merge) => Ok(merge_rule(listed, merge)),
            None => Ok(Some(ConfigRule::C3)),
        },
        Some(Kind::Model) => Ok(kind_rule(word_in(&MODELS, value))),
        Some(Kind::Number(range)) => Ok(kind_rule(number_in(range, value))),
        Some(Kind::Order) => Ok(kind_rule(word_in(&ORDERS, value))),
        Some(Kind::Tracked) => Ok(kind_rule(word_in(&TRACKED, value))),
    }
}

/// The first fault of a table, whose keys come in byte order.
pub(crate) fn first_fault(
    alloc: Global,
    handed: &[String],
    table: &Table,
) -> Result<Option<ConfigFault>, AllocError>
    ensures some { IfOk result (λ found. IfSome found (λ fault.
        IsFirstFault (map string_bytes handed.now) (at (table_view table.now))
        fault.rule (string_bytes fault.key))) }
    ensures none { IfOk result (λ found. IfNone found ((key : List ℕ) →
        rule_at (map string_bytes handed.now) (at (table_view table.now)) key ≡ None)) }
{
    let listed = listed_in(alloc, table)?;
    for (key, value) in table.iter() {
        if let Some(rule) = value_rule(alloc, handed, listed.as_slice(), key.as_str(), value)? {
            return Ok(Some(ConfigFault {
                rule,
                key: key.clone()?,
            }));
        }
    }
    Ok(None)
}

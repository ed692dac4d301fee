//! Lists of names: those that a value lists, and where a name stands in one (`specs/Values.antt`).
ghost use Rattle.std.specs.Prelude.{◌≡◌, map, option_map, IfOk};
ghost use Rattle.std.specs.String.{string_bytes};
ghost use Rattle.toml.specs.View.{view, items_view, table_view};
ghost use Rattle.cpa_config.specs.Rules.{at, listed_in};
ghost use Rattle.cpa_config.specs.Values.{are_texts, has_repeats, is_among, place_of, texts_in};

use std::alloc::{AllocError, Global};
use toml::{Table, Value};

/// What stands at a key.
pub(crate) fn value_of<'a>(table: &'a Table, key: &str) -> Option<&'a Value>
    ensures { option_map (λ value. view value.now) result ≡ at (table_view table.now) key.now }
{
    table.get(key)
}

/// Whether each item is a text.
pub(crate) fn are_texts(items: &[Value]) -> bool
    ensures { result ≡ are_texts (items_view items.now) }
{
    items.iter().all(|item| item.is_str())
}

/// The texts among the items.
pub(crate) fn texts_in<'a>(alloc: Global, items: &'a [Value]) -> Result<Vec<&'a str>, AllocError>
    ensures { IfOk result (λ names. map (λ name. name.now) names.items
        ≡ texts_in (items_view items.now)) }
{
    let mut names = Vec::new(alloc);
    for item in items {
        if let Some(name) = item.as_str() {
            names.push(name)?;
        }
    }
    Ok(names)
}

/// The names that a table lists.
pub(crate) fn listed_in<'a>(alloc: Global, table: &'a Table) -> Result<Vec<&'a str>, AllocError>
    ensures { IfOk result (λ names. map (λ name. name.now) names.items
        ≡ listed_in (at (table_view table.now))) }
{
    match value_of(table, "analyses").and_then(|value| value.as_array()) {
        Some(items) => texts_in(alloc, items.as_slice()),
        None => Ok(Vec::new(alloc)),
    }
}

/// The place of the first handed analysis of this name.
pub(crate) fn place_of(handed: &[String], name: &str) -> Option<usize>
    ensures { result ≡ place_of (map string_bytes handed.now) name.now }
{
    handed.iter().position(|other| other.as_str() == name)
}

/// Whether a name is one of these.
pub(crate) fn is_among(names: &[&str], name: &str) -> bool
    ensures { result ≡ is_among (map (λ other. other.now) names.now) name.now }
{
    names.iter().any(|other| *other == name)
}

/// Whether a name stands twice.
pub(crate) fn has_repeats(names: &[&str]) -> bool
    ensures { result ≡ has_repeats (map (λ name. name.now) names.now) }
{
    for (place, name) in names.iter().enumerate() {
        if is_among(&names[place + 1..], name) {
            return true;
        }
    }
    false
}

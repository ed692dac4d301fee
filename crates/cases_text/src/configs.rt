//! The configuration of a text, or the line that refuses it: what `read` of `cpa_config` answers.
//! Proved safe by the checker alone.

use crate::commands::model_word;
use cases_reader::bytes_of;
use cpa_config::{Config, ConfigError};
use cpa_iface::{MergeRule, Order, Pick};
use std::alloc::{AllocError, Global};

/// The word of a rule.
fn rule_word(rule: MergeRule) -> &'static str {
    match rule {
        MergeRule::Sep => "sep",
        MergeRule::Join => "join",
        MergeRule::Widen => "widen",
    }
}

/// The word of an order.
fn order_word(order: Order) -> &'static str {
    match order {
        Order::First => "first",
        Order::Last => "last",
    }
}

/// A configuration in a line.
fn line_of(alloc: Global, config: &Config) -> Result<String, AllocError> {
    let mut line = String::new(alloc);
    push_picks(&mut line, config.picks.as_slice())?;
    push_numbers(&mut line, config)?;
    Ok(line)
}

/// Adds picks, each by its place among the handed analyses, with its rule.
fn push_picks(line: &mut String, picks: &[Pick]) -> Result<(), AllocError> {
    for pick in picks {
        let rule = rule_word(pick.rule);
        write!(line, "{} {rule}, ", pick.place)?;
    }
    Ok(())
}

/// Adds what stands behind the picks.
fn push_numbers(line: &mut String, config: &Config) -> Result<(), AllocError> {
    let order = order_word(config.order);
    let settings = config.settings;
    let tracked = if settings.tracked_all { "all" } else { "none" };
    write!(
        line,
        "{order}, turns {}, rounds {}, ",
        config.turns, config.rounds
    )?;
    write!(line, "tracked {tracked}, limit {}, ", settings.limit)?;
    write!(line, "learnt {}, gates {}", settings.learnt, settings.gates)?;
    line.push_str(model_word(config.model))
}

/// The names of a row, one blank between two of them.
fn names_of(alloc: Global, row: &str) -> Result<Vec<String>, AllocError> {
    let mut names = Vec::new(alloc);
    for name in row.split_whitespace() {
        names.push(String::from_str(alloc, name)?)?;
    }
    Ok(names)
}

/// The configuration, for the names of the handed analyses, of the text behind `|`; or its refusal.
pub(crate) fn answer(alloc: Global, row: &str) -> Result<String, AllocError> {
    match row.split_once('|') {
        Some((names, text)) => configuration(alloc, names, 0, text),
        None => String::from_str(alloc, "no row"),
    }
}

/// The same of a text behind a comment of so many bytes, whose number stands before the names.
pub(crate) fn answer_behind_comment(alloc: Global, row: &str) -> Result<String, AllocError> {
    if let Some((front, text)) = row.split_once('|') {
        let (count, names) = front.split_once(' ').unwrap_or((front, ""));
        if let Ok(bytes) = count.parse::<usize>() {
            return configuration(alloc, names, bytes, text);
        }
    }
    String::from_str(alloc, "no row")
}

/// The configuration, for these names, of a comment of so many bytes `#` and a written text behind
/// it, or its refusal.
fn configuration(
    alloc: Global,
    names: &str,
    comment: usize,
    row: &str,
) -> Result<String, AllocError> {
    match text_of(alloc, comment, row)? {
        Some(text) => read_for(alloc, names, &text),
        None => String::from_str(alloc, "no text"),
    }
}

/// The bytes of a comment and of a written text behind it, if it is one.
fn text_of(alloc: Global, comment: usize, row: &str) -> Result<Option<Vec<u8>>, AllocError> {
    match bytes_of(alloc, row)? {
        Some(written) => Ok(Some(behind_comment(alloc, comment, &written)?)),
        None => Ok(None),
    }
}

/// A comment of so many bytes, and these bytes.
fn behind_comment(alloc: Global, comment: usize, written: &[u8]) -> Result<Vec<u8>, AllocError> {
    let mut text = vec![in alloc; b'#'; comment]?;
    text.extend_from_slice(written)?;
    Ok(text)
}

/// The configuration of a text for these names, or its refusal.
fn read_for(alloc: Global, names: &str, text: &[u8]) -> Result<String, AllocError> {
    let names = names_of(alloc, names)?;
    match cpa_config::read(alloc, text, &names) {
        Ok(config) => line_of(alloc, &config),
        Err(ConfigError::Fault(fault)) => format!(in alloc; "{fault}"),
        Err(ConfigError::OutOfMemory) => Err(AllocError),
    }
}

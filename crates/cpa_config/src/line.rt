//! The line that refuses a configuration (`fault_line` of `specs/Lines.antt`).
ghost use Rattle.std.specs.Prelude.{◌≡◌, Some};
ghost use Rattle.std.specs.String.{string_bytes};
ghost use Rattle.cpa_config.specs.Lines.{fault_line, rule_word, shown, shown_character};

use crate::faults::{ConfigFault, ConfigRule};
use std::fmt;

/// The word of a rule.
fn rule_word(rule: ConfigRule) -> &'static str
    ensures { result.now ≡ rule_word rule }
{
    match rule {
        ConfigRule::C1 => "C1",
        ConfigRule::C2 => "C2",
        ConfigRule::C3 => "C3",
        ConfigRule::C4 => "C4",
        ConfigRule::C5 => "C5",
    }
}

/// The character itself, where it has a shape of its own in ASCII.
fn shown_character(character: char) -> char
    ensures { result ≡ shown_character character }
{
    match character {
        '!'..='~' => character,
        _ => '?',
    }
}

/// A key as a line shows it.
#[derive(Clone, Copy)]
struct Shown<'a> {
    key: &'a str,
}

impl<'a> fmt::Display for Shown<'a> {
    ghost output = { λ shown_key. Some (shown shown_key.key.now) };

    fn fmt<W: fmt::Write>(&self, f: &mut fmt::Formatter<W>) -> fmt::Result {
        for character in self.key.chars() {
            f.write_char(shown_character(character))?;
        }
        Ok(())
    }
}

/// The line without its end, as `refused config C3 turns`.
impl fmt::Display for ConfigFault {
    ghost output = { λ fault. Some (fault_line fault.rule (string_bytes fault.key)) };

    fn fmt<W: fmt::Write>(&self, f: &mut fmt::Formatter<W>) -> fmt::Result {
        let word = rule_word(self.rule);
        let key = Shown {
            key: self.key.as_str(),
        };
        match self.rule {
            ConfigRule::C1 => write!(f, "refused config {word}"),
            _ => write!(f, "refused config {word} {key}"),
        }
    }
}

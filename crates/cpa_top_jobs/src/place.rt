//! Where in a text a fault stands, as a reader counts, and the line that says so (`fault_line` of
//! `specs/Lines.antt`).
ghost use Rattle.std.specs.Prelude.{◌≡◌, ◌++◌, take, decimal, IfOk, OnOk};
ghost use Rattle.std.specs.String.{string_bytes};
ghost use Rattle.cpa_top_jobs.specs.Lines.{line_behind, column_behind, rule_word, placed_line};
ghost use Rattle.cpa_top_jobs.specs.Lines.{fault_line};

use c_lexer::{LINE_FEED, Rule, TextFault};
use std::alloc::{AllocError, Global};

/// The text before a place.
fn before(text: &[u8], place: usize) -> &[u8]
    ensures { result.now ≡ take place text.now }
{
    &text[..place.min(text.len())]
}

/// The line, from 1 on, of what stands behind this text.
fn line_behind(text: &[u8]) -> usize
    ensures { result ≡ line_behind text.now }
{
    let mut line = 1;
    for byte in text {
        if *byte == LINE_FEED {
            line += 1;
        }
    }
    line
}

/// The column in its line, in bytes and from 1 on, of what stands behind this text.
fn column_behind(text: &[u8]) -> usize
    ensures { result ≡ column_behind text.now }
{
    let mut column = 1;
    for byte in text {
        if *byte == LINE_FEED {
            column = 1;
        } else {
            column += 1;
        }
    }
    column
}

/// The word of a rule.
fn rule_word(rule: Rule) -> &'static str
    ensures { result.now ≡ rule_word rule }
{
    match rule {
        Rule::L1 => "L1",
        Rule::L2 => "L2",
        Rule::L3 => "L3",
        Rule::L4 => "L4",
        Rule::S1 => "S1",
        Rule::S2 => "S2",
        Rule::S3 => "S3",
        Rule::N1 => "N1",
        Rule::N2 => "N2",
        Rule::N3 => "N3",
        Rule::N4 => "N4",
        Rule::N5 => "N5",
        Rule::N6 => "N6",
        Rule::N7 => "N7",
        Rule::N8 => "N8",
        Rule::N9 => "N9",
        Rule::N10 => "N10",
        Rule::N11 => "N11",
        Rule::N12 => "N12",
        Rule::N13 => "N13",
        Rule::N14 => "N14",
        Rule::N15 => "N15",
        Rule::N16 => "N16",
        Rule::N17 => "N17",
        Rule::N18 => "N18",
        Rule::N19 => "N19",
    }
}

/// Adds a number.
fn push_number(out: &mut String, number: usize) -> Result<(), AllocError>
    ensures { OnOk result (string_bytes out.new ≡ string_bytes out.old ++ decimal number) }
{
    write!(out, "{number}")
}

/// The line that refuses a text for a rule, with the place at which it is broken.
fn placed_line(alloc: Global, word: &str, line: usize, column: usize) -> Result<String, AllocError>
    ensures { IfOk result (λ text. string_bytes text ≡ placed_line word.now line column) }
{
    let mut out = String::from_str(alloc, "refused text ")?;
    out.push_str(word)?;
    out.push_str(" at ")?;
    push_number(&mut out, line)?;
    out.push_str(":")?;
    push_number(&mut out, column)?;
    out.push_str("\n")?;
    Ok(out)
}

/// The line that refuses a text for a fault.
pub(crate) fn fault_line(alloc: Global, text: &[u8], fault: TextFault) -> Result<String, AllocError>
    ensures { IfOk result (λ line. string_bytes line ≡ fault_line text.now fault) }
{
    let before = before(text, fault.place as usize);
    let word = rule_word(fault.rule);
    let line = line_behind(before);
    let column = column_behind(before);
    placed_line(alloc, word, line, column)
}

//! Readers of tokens that are skipped: in brackets, and attributes. They are `round_brackets`,
//! `skipped_body` and `attributes` of `c_grammar_tree`.
ghost use Rattle.std.specs.Prelude.{◌≢◌, ◌+◌, ◌^◌, ◌<◌, length};
ghost use Rattle.c_grammar_forms.specs.Forms.{Balanced};
ghost use Rattle.c_grammar_symbols.specs.Sources.{leaf_at, is, GoesOn};
ghost use Rattle.c_grammar_tree.specs.Parts.{is_end};
ghost use Rattle.c_grammar_tree.specs.Expressions.{round_brackets};
ghost use Rattle.c_grammar_tree.specs.Declarations.{attribute, attributes};
ghost use Rattle.c_grammar_tree.specs.Items.{skipped_body};
ghost use Rattle.c_parser_words.specs.Answers.{Skips};
ghost use Rattle.c_parser_words.specs.Steps.{DepthBehind};

use crate::classes::is_end;
use c_grammar_forms::ReadError;
use c_grammar_symbols::{Source, Terminal};

/// How many brackets are open behind the token at this place, where `depth` are open before it;
/// None where it closes and none is open.
fn depth_behind(
    source: &Source,
    at: usize,
    opens: Terminal,
    closes: Terminal,
    depth: usize,
) -> Option<usize>
    requires within { at < length source.now }
    requires apart { opens ≢ closes }
    requires room { depth + 1 < 2 ^ 64 }
    ensures { DepthBehind opens closes (leaf_at source.now at) depth result }
{
    if source.is(at, closes) {
        if depth == 0 { None } else { Some(depth - 1) }
    } else if source.is(at, opens) {
        Some(depth + 1)
    } else {
        Some(depth)
    }
}

/// The place behind the bracket that closes the one before this place.
fn balanced(
    source: &Source,
    at: usize,
    opens: Terminal,
    closes: Terminal,
) -> Result<usize, ReadError>
    requires within { at < length source.now }
    requires apart { opens ≢ closes }
    ensures { Skips (Balanced (is opens) (is closes) is_end) source.now at result }
{
    let mut depth = 0;
    let mut here = at;
    while !is_end(source, here) {
        match depth_behind(source, here, opens, closes, depth) {
            Some(behind) => depth = behind,
            None => return Ok(here + 1),
        }
        here += 1;
    }
    Err(ReadError::Unexpected { at: here })
}

/// The place behind the round bracket that closes the one before this place.
pub fn round_brackets(source: &Source, at: usize) -> Result<usize, ReadError>
    requires { at < length source.now }
    ensures { Skips round_brackets source.now at result }
{
    balanced(source, at, Terminal::LeftParen, Terminal::RightParen)
}

/// The place behind the brace that closes the one before this place: the tokens of a body that is
/// skipped.
#[tactic(auto, unfolding(c_grammar_tree::specs::Items::skipped_body))]
pub fn skipped_body(source: &Source, at: usize) -> Result<usize, ReadError>
    requires { at < length source.now }
    ensures { Skips skipped_body source.now at result }
{
    balanced(source, at, Terminal::LeftBrace, Terminal::RightBrace)
}

/// The place behind the attribute that begins here with its word.
fn attribute(source: &Source, at: usize) -> Result<usize, ReadError>
    requires { GoesOn source.now at }
    ensures { Skips attribute source.now at result }
{
    let outer = source.expect(at + 1, Terminal::LeftParen)?;
    let inner = source.expect(outer, Terminal::LeftParen)?;
    let closer = round_brackets(source, inner)?;
    source.expect(closer, Terminal::RightParen)
}

/// The place behind the attributes that stand here, if any do.
pub fn attributes(source: &Source, at: usize) -> Result<usize, ReadError>
    requires { at < length source.now }
    ensures { Skips attributes source.now at result }
{
    let mut here = at;
    while source.is(here, Terminal::Attribute) {
        here = attribute(source, here)?;
    }
    Ok(here)
}

//! Readers of primary and postfix expressions (C11 6.5.1 and 6.5.2): `primary` and `postfix` of
//! `Expressions.antt` of `c_grammar_tree`. Proved in `proofs/Tight.antt`.
ghost use Rattle.std.specs.Prelude.{◌≡◌, ◌<◌, ℕ, length, false};
ghost use Rattle.c_grammar_symbols.specs.declared.words.Terminal.TheVariants.{LeftParen};
ghost use Rattle.c_grammar_symbols.specs.Sources.{leaf_at, is};
ghost use Rattle.c_grammar_tree.specs.Expressions.{primary, postfix};
ghost use Rattle.c_grammar_tree.specs.Reading.{Gives, HasRoom};

use crate::arguments::{begins_suffix, suffixes};
use crate::nested::inner_comma;
use crate::parts::{character, names_assert, number, suffixed};
use c_grammar_forms::ReadError;
use c_grammar_symbols::{Source, Symbol, Terminal};
use c_grammar_tree::Expression;
use c_parser_words::name;
use cpa_ints::Boxed;
use std::alloc::Global;

/// The name or constant that stands here; no bracket does.
fn leaf(alloc: Global, source: &Source, at: usize) -> Result<(Expression, usize), ReadError>
    requires within { at < length source.now }
    requires no_bracket { is LeftParen (leaf_at source.now at) ≡ false }
    ensures { (left : ℕ) → Gives primary source.now left at result }
{
    let place = source.place(at);
    match source.symbol(at) {
        Symbol::Name => Ok((Expression::Name(name(alloc, source, at)?), at + 1)),
        Symbol::Number { ty, value } => Ok((number(ty, value, place), at + 1)),
        Symbol::Character { value } => Ok((character(value, place), at + 1)),
        _ => Err(ReadError::Unexpected { at }),
    }
}

/// The primary expression that begins here.
#[cycle(expression)]
fn primary(
    alloc: Global,
    source: &Source,
    at: usize,
    left: u32,
) -> Result<(Expression, usize), ReadError>
    requires within { at < length source.now }
    requires room { HasRoom left at }
    ensures { Gives primary source.now left at result }
{
    if !source.is(at, Terminal::LeftParen) {
        return leaf(alloc, source, at);
    }
    let (inside, closer) = inner_comma(alloc, source, at + 1, left)?;
    let inner = Boxed::new(alloc, inside)?;
    let behind = source.expect(closer, Terminal::RightParen)?;
    let place = source.place(at);
    Ok((Expression::Bracketed { inner, place }, behind))
}

/// The postfix expression that begins here.
#[cycle(expression)]
pub(crate) fn postfix(
    alloc: Global,
    source: &Source,
    at: usize,
    left: u32,
) -> Result<(Expression, usize), ReadError>
    requires within { at < length source.now }
    requires room { HasRoom left at }
    ensures { Gives postfix source.now left at result }
{
    let (made, behind) = primary(alloc, source, at, left)?;
    if !begins_suffix(source, behind) {
        return Ok((made, behind));
    }
    let asserts = names_assert(&made);
    let base = Boxed::new(alloc, made)?;
    let (suffixes, end) = suffixes(alloc, source, behind, left, asserts)?;
    let place = source.place(at);
    Ok((suffixed(place, base, suffixes), end))
}

//! Readers of the arguments of a call, and of suffixes (C11 6.5.2): `arguments` and `suffixes` of
//! `Expressions.antt` of `c_grammar_tree`. Proved in `proofs/Tight.antt`.
ghost use Rattle.std.specs.Prelude.{◌≡◌, ◌<◌, ℕ, length, false, IsTrue};
ghost use Rattle.c_grammar_symbols.specs.declared.words.Terminal.TheVariants.{LeftBracket};
ghost use Rattle.c_grammar_symbols.specs.declared.words.Terminal.TheVariants.{LeftParen};
ghost use Rattle.c_grammar_symbols.specs.Sources.{leaf_at, is, GoesOn};
ghost use Rattle.c_grammar_forms.specs.Forms.{Nearest};
ghost use Rattle.c_grammar_tree.specs.Parts.{begins_suffix};
ghost use Rattle.c_grammar_tree.specs.Expressions.{arguments, any_suffix, suffixes, skipped_call};
ghost use Rattle.c_grammar_tree.specs.Expressions.{opens_skipped};
ghost use Rattle.c_grammar_tree.specs.Reading.{Gives, HasRoom, HasRoomBelow};
ghost use Rattle.c_parser_words.specs.Answers.{Finds};
ghost use Rattle.c_parser_expressions.specs.Steps.{more_arguments};

use crate::nested::{inner_assignment, inner_comma};
use crate::parts::{list_of, list_of_skipped};
use c_grammar_forms::ReadError;
use c_grammar_symbols::{Source, Symbol, Terminal};
use c_grammar_tree::{Expression, Suffix};
use c_parser_words::{round_brackets, trimmed};
use cpa_ints::{Boxed, Seq};
use std::alloc::Global;

/// The first argument, which is read already, and those behind it, each behind a comma.
#[cycle(expression)]
fn more_arguments(
    alloc: Global,
    source: &Source,
    at: usize,
    left: u32,
    first: Expression,
) -> Result<(Seq<Expression>, usize), ReadError>
    requires within { at < length source.now }
    requires room { HasRoom left at }
    ensures { Gives (more_arguments first) source.now left at result }
{
    let mut arguments = list_of(alloc, first)?;
    let mut here = at;
    'list: while source.is(here, Terminal::Comma) {
        let (argument, behind) = inner_assignment(alloc, source, here + 1, left)?;
        arguments.push(argument)?;
        here = behind;
    }
    Ok((arguments, here))
}

/// The arguments of a call up to the bracket that closes it, behind the one that opens it.
#[cycle(expression)]
fn arguments(
    alloc: Global,
    source: &Source,
    at: usize,
    left: u32,
) -> Result<(Seq<Expression>, usize), ReadError>
    requires within { at < length source.now }
    requires room { HasRoomBelow left at }
    ensures { Gives arguments source.now left at result }
{
    if source.is(at, Terminal::RightParen) {
        return Ok((Seq::new(alloc), at + 1));
    }
    let (first, behind) = inner_assignment(alloc, source, at, left)?;
    let (arguments, closer) = more_arguments(alloc, source, behind, left, first)?;
    let behind = source.expect(closer, Terminal::RightParen)?;
    Ok((trimmed(arguments), behind))
}

/// Whether the token begins a suffix.
pub(crate) fn begins_suffix(source: &Source, at: usize) -> bool
    requires { at < length source.now }
    ensures { result ≡ begins_suffix (leaf_at source.now at) }
{
    matches!(
        source.symbol(at),
        Symbol::Terminal(Terminal::LeftBracket | Terminal::LeftParen) | Symbol::Step(_)
    )
}

/// The `++` or `--` behind an operand that stands here; no other suffix does.
fn step(source: &Source, at: usize) -> Result<(Suffix, usize), ReadError>
    requires within { at < length source.now }
    requires no_index { is LeftBracket (leaf_at source.now at) ≡ false }
    requires no_call { is LeftParen (leaf_at source.now at) ≡ false }
    ensures { (left : ℕ) → Gives any_suffix source.now left at result }
{
    match source.symbol(at) {
        Symbol::Step(operator) => {
            let place = source.place(at);
            Ok((Suffix::Step { operator, place }, at + 1))
        }
        _ => Err(ReadError::Unexpected { at }),
    }
}

/// The suffix that begins here.
#[cycle(expression)]
fn suffix(
    alloc: Global,
    source: &Source,
    at: usize,
    left: u32,
) -> Result<(Suffix, usize), ReadError>
    requires within { at < length source.now }
    requires room { HasRoom left at }
    ensures { Gives any_suffix source.now left at result }
{
    let place = source.place(at);
    if source.is(at, Terminal::LeftBracket) {
        let (inside, closer) = inner_comma(alloc, source, at + 1, left)?;
        let index = Boxed::new(alloc, inside)?;
        let behind = source.expect(closer, Terminal::RightBracket)?;
        return Ok((Suffix::Index { index, place }, behind));
    }
    if source.is(at, Terminal::LeftParen) {
        let (arguments, behind) = arguments(alloc, source, at + 1, left)?;
        return Ok((Suffix::Call { arguments, place }, behind));
    }
    step(source, at)
}

/// The call of `__assert_fail` that stands here, where the base names it and a bracket opens.
fn skipped_call(
    source: &Source,
    at: usize,
    asserts: bool,
) -> Result<(Option<Suffix>, usize), ReadError>
    requires { at < length source.now }
    ensures { Finds (Nearest (opens_skipped asserts) skipped_call) source.now at result }
{
    if !opens_skipped(source, at, asserts) {
        return Ok((None, at));
    }
    let behind = round_brackets(source, at + 1)?;
    let place = source.place(at);
    Ok((Some(Suffix::Skipped { place }), behind))
}

/// Whether the brackets of `__assert_fail` open here; then the text goes on.
fn opens_skipped(source: &Source, at: usize, asserts: bool) -> bool
    requires { at < length source.now }
    ensures value { result ≡ opens_skipped asserts (leaf_at source.now at) }
    ensures more { IsTrue result → GoesOn source.now at }
{
    asserts && source.is(at, Terminal::LeftParen)
}

/// The suffixes behind a base. Where the base names `__assert_fail`, the arguments of its call are
/// skipped.
#[cycle(expression)]
pub(crate) fn suffixes(
    alloc: Global,
    source: &Source,
    at: usize,
    left: u32,
    asserts: bool,
) -> Result<(Seq<Suffix>, usize), ReadError>
    requires within { at < length source.now }
    requires room { HasRoom left at }
    ensures { Gives (λ G. suffixes G asserts) source.now left at result }
{
    let (skipped, start) = skipped_call(source, at, asserts)?;
    let mut suffixes = list_of_skipped(alloc, skipped)?;
    let mut here = start;
    'list: while begins_suffix(source, here) {
        let (next, behind) = suffix(alloc, source, here, left)?;
        suffixes.push(next)?;
        here = behind;
    }
    Ok((suffixes, here))
}

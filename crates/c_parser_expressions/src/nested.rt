//! Readers of expressions one level deeper: `Deeper` of the forms in `Nested.antt` of
//! `c_grammar_tree`. Proved by `answers_deeper` and `answers_no_level` of the crates below.
ghost use Rattle.std.specs.Prelude.{◌≡◌, ◌<◌, length};
ghost use Rattle.c_grammar_symbols.specs.Sources.{leaf_at};
ghost use Rattle.c_grammar_tree.specs.Parts.{begins, begins_expression};
ghost use Rattle.c_grammar_tree.specs.Reading.{Gives, HasRoomBelow, no_level, deeper_comma};
ghost use Rattle.c_grammar_tree.specs.Reading.{deeper_assignment, deeper_conditional, deeper_cast};
ghost use Rattle.c_grammar_tree.specs.Reading.{deeper_unary};

use crate::assignments::{assignment, comma, conditional};
use crate::unary::{cast, unary};
use c_grammar_forms::ReadError;
use c_grammar_symbols::{BinaryOperator, Source, Symbol, Terminal};
use c_grammar_tree::Expression;
use std::alloc::Global;

/// Whether an expression may begin with this symbol.
fn begins(symbol: Symbol) -> bool
    ensures { result ≡ begins symbol }
{
    matches!(
        symbol,
        Symbol::Name
            | Symbol::Number { .. }
            | Symbol::Character { .. }
            | Symbol::Step(_)
            | Symbol::Terminal(Terminal::LeftParen | Terminal::Tilde | Terminal::Exclamation)
            | Symbol::Binary(BinaryOperator::Add | BinaryOperator::Subtract)
    )
}

/// Whether an expression may begin with the token at this place.
pub fn begins_expression(source: &Source, at: usize) -> bool
    requires { at < length source.now }
    ensures { result ≡ begins_expression (leaf_at source.now at) }
{
    begins(source.symbol(at))
}

/// The error at the first token of an expression for which no level is left.
fn no_level(source: &Source, at: usize) -> ReadError
    requires { at < length source.now }
    ensures { result ≡ no_level (begins_expression (leaf_at source.now at)) at }
{
    if begins_expression(source, at) {
        ReadError::TooDeep { at }
    } else {
        ReadError::Unexpected { at }
    }
}

/// A comma expression one level deeper.
#[cycle(expression)]
pub fn inner_comma(
    alloc: Global,
    source: &Source,
    at: usize,
    left: u32,
) -> Result<(Expression, usize), ReadError>
    requires within { at < length source.now }
    requires room { HasRoomBelow left at }
    ensures { Gives deeper_comma source.now left at result }
{
    if left == 0 {
        return Err(no_level(source, at));
    }
    comma(alloc, source, at, left - 1)
}

/// An assignment one level deeper.
#[cycle(expression)]
pub fn inner_assignment(
    alloc: Global,
    source: &Source,
    at: usize,
    left: u32,
) -> Result<(Expression, usize), ReadError>
    requires within { at < length source.now }
    requires room { HasRoomBelow left at }
    ensures { Gives deeper_assignment source.now left at result }
{
    if left == 0 {
        return Err(no_level(source, at));
    }
    assignment(alloc, source, at, left - 1)
}

/// A conditional one level deeper.
#[cycle(expression)]
pub fn inner_conditional(
    alloc: Global,
    source: &Source,
    at: usize,
    left: u32,
) -> Result<(Expression, usize), ReadError>
    requires within { at < length source.now }
    requires room { HasRoomBelow left at }
    ensures { Gives deeper_conditional source.now left at result }
{
    if left == 0 {
        return Err(no_level(source, at));
    }
    conditional(alloc, source, at, left - 1)
}

/// A cast one level deeper.
#[cycle(expression)]
pub(crate) fn inner_cast(
    alloc: Global,
    source: &Source,
    at: usize,
    left: u32,
) -> Result<(Expression, usize), ReadError>
    requires within { at < length source.now }
    requires room { HasRoomBelow left at }
    ensures { Gives deeper_cast source.now left at result }
{
    if left == 0 {
        return Err(no_level(source, at));
    }
    cast(alloc, source, at, left - 1)
}

/// A unary one level deeper.
#[cycle(expression)]
pub(crate) fn inner_unary(
    alloc: Global,
    source: &Source,
    at: usize,
    left: u32,
) -> Result<(Expression, usize), ReadError>
    requires within { at < length source.now }
    requires room { HasRoomBelow left at }
    ensures { Gives deeper_unary source.now left at result }
{
    if left == 0 {
        return Err(no_level(source, at));
    }
    unary(alloc, source, at, left - 1)
}

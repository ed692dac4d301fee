//! Readers of unary expressions and casts (C11 6.5.3 and 6.5.4): `unary` and `cast` of
//! `Expressions.antt` of `c_grammar_tree`. Proved in `proofs/Tight.antt`.
ghost use Rattle.std.specs.Prelude.{◌≡◌, ◌<◌, length};
ghost use Rattle.c_grammar_symbols.specs.Symbols.{symbol_of};
ghost use Rattle.c_grammar_symbols.specs.Sources.{leaf_at, GoesOn};
ghost use Rattle.c_grammar_tree.specs.Expressions.{unary, cast};
ghost use Rattle.c_grammar_tree.specs.Reading.{Gives, HasRoom, HasRoomBelow};
ghost use Rattle.c_parser_expressions.specs.Steps.{sign_of, group, begins_type};
ghost use Rattle.c_parser_expressions.specs.Steps.{deeper_type_name};

use crate::arguments::{begins_suffix, suffixes};
use crate::nested::{inner_cast, inner_comma, inner_unary};
use crate::parts::{names_assert, suffixed};
use crate::postfix::postfix;
use c_grammar_forms::ReadError;
use c_grammar_symbols::{BinaryOperator, Source, Symbol, Terminal};
use c_grammar_tree::{Expression, TypeName, UnaryOperator};
use c_parser_words::type_name;
use cpa_ints::Boxed;
use std::alloc::Global;

/// The operator on one operand that the symbol is.
fn sign_of(symbol: Symbol) -> Option<UnaryOperator>
    ensures { result ≡ sign_of symbol }
{
    match symbol {
        Symbol::Binary(BinaryOperator::Add) => Some(UnaryOperator::Plus),
        Symbol::Binary(BinaryOperator::Subtract) => Some(UnaryOperator::Minus),
        Symbol::Terminal(Terminal::Tilde) => Some(UnaryOperator::Complement),
        Symbol::Terminal(Terminal::Exclamation) => Some(UnaryOperator::Not),
        _ => None,
    }
}

/// Whether the type of a cast begins with the token.
fn begins_type(source: &Source, at: usize) -> bool
    requires { at < length source.now }
    ensures { result ≡ begins_type (symbol_of (leaf_at source.now at)) }
{
    matches!(
        source.symbol(at),
        Symbol::TypeWord(_) | Symbol::TypedefName(_) | Symbol::Terminal(Terminal::Enum)
    )
}

/// The unary expression that begins here.
#[cycle(expression)]
pub(crate) fn unary(
    alloc: Global,
    source: &Source,
    at: usize,
    left: u32,
) -> Result<(Expression, usize), ReadError>
    requires within { at < length source.now }
    requires room { HasRoom left at }
    ensures { Gives unary source.now left at result }
{
    let place = source.place(at);
    let symbol = source.symbol(at);
    if let Symbol::Step(operator) = symbol {
        let (inner, behind) = inner_unary(alloc, source, at + 1, left)?;
        let operand = Boxed::new(alloc, inner)?;
        return Ok((
            Expression::PrefixStep {
                operator,
                operand,
                place,
            },
            behind,
        ));
    }
    match sign_of(symbol) {
        Some(operator) => {
            let (inner, behind) = inner_cast(alloc, source, at + 1, left)?;
            let operand = Boxed::new(alloc, inner)?;
            Ok((
                Expression::Unary {
                    operator,
                    operand,
                    place,
                },
                behind,
            ))
        }
        None => postfix(alloc, source, at, left),
    }
}

/// The type of a cast, one level deeper than the cast.
fn inner_type_name(
    alloc: Global,
    source: &Source,
    at: usize,
    left: u32,
) -> Result<(TypeName, usize), ReadError>
    requires within { at < length source.now }
    requires room { HasRoomBelow left at }
    ensures { Gives deeper_type_name source.now left at result }
{
    if left == 0 {
        return Err(ReadError::TooDeep { at });
    }
    type_name(alloc, source, at)
}

/// A cast, or an expression in brackets with its suffixes, whose bracket stands here.
#[cycle(expression)]
fn group(
    alloc: Global,
    source: &Source,
    at: usize,
    left: u32,
) -> Result<(Expression, usize), ReadError>
    requires more { GoesOn source.now at }
    requires room { HasRoom left at }
    ensures { Gives group source.now left at result }
{
    let place = source.place(at);
    if begins_type(source, at + 1) {
        let (named, closer) = inner_type_name(alloc, source, at + 1, left)?;
        let to = Boxed::new(alloc, named)?;
        let start = source.expect(closer, Terminal::RightParen)?;
        let (inner, behind) = inner_cast(alloc, source, start, left)?;
        let operand = Boxed::new(alloc, inner)?;
        return Ok((Expression::Cast { to, operand, place }, behind));
    }
    let (inside, closer) = inner_comma(alloc, source, at + 1, left)?;
    let asserts = names_assert(&inside);
    let inner = Boxed::new(alloc, inside)?;
    let behind = source.expect(closer, Terminal::RightParen)?;
    if !begins_suffix(source, behind) {
        return Ok((Expression::Bracketed { inner, place }, behind));
    }
    let base = Boxed::new(alloc, Expression::Bracketed { inner, place })?;
    let (suffixes, end) = suffixes(alloc, source, behind, left, asserts)?;
    Ok((suffixed(place, base, suffixes), end))
}

/// The cast or unary expression that begins here.
#[cycle(expression)]
pub(crate) fn cast(
    alloc: Global,
    source: &Source,
    at: usize,
    left: u32,
) -> Result<(Expression, usize), ReadError>
    requires within { at < length source.now }
    requires room { HasRoom left at }
    ensures { Gives cast source.now left at result }
{
    if source.is(at, Terminal::LeftParen) {
        group(alloc, source, at, left)
    } else {
        unary(alloc, source, at, left)
    }
}

//! Readers of chains of operators of one precedence (C11 6.5.5 to 6.5.14): `chain` of
//! `Expressions.antt` of `c_grammar_tree`. Proved in `proofs/Climbing.antt`.
ghost use Rattle.std.specs.Prelude.{◌≡◌, ◌<◌, ◌≤◌, length};
ghost use Rattle.c_grammar_tree.specs.Parts.{looseness, loosest};
ghost use Rattle.c_grammar_tree.specs.Expressions.{chain};
ghost use Rattle.c_grammar_tree.specs.Reading.{Gives, HasRoom};
ghost use Rattle.c_parser_expressions.specs.Steps.{operands, operator_of, looseness_between};

use crate::unary::cast;
use c_grammar_forms::ReadError;
use c_grammar_symbols::{BinaryOperator, Source, Symbol};
use c_grammar_tree::Expression;
use cpa_ints::{Boxed, Seq};
use std::alloc::Global;

/// How loosely an operator binds.
fn looseness(operator: BinaryOperator) -> u32
    ensures { result ≡ looseness operator }
{
    match operator {
        BinaryOperator::Multiply | BinaryOperator::Divide | BinaryOperator::Remainder => 1,
        BinaryOperator::Add | BinaryOperator::Subtract => 2,
        BinaryOperator::ShiftLeft | BinaryOperator::ShiftRight => 3,
        BinaryOperator::Less
        | BinaryOperator::Greater
        | BinaryOperator::LessEqual
        | BinaryOperator::GreaterEqual => 4,
        BinaryOperator::Equal | BinaryOperator::NotEqual => 5,
        BinaryOperator::BitAnd => 6,
        BinaryOperator::BitXor => 7,
        BinaryOperator::BitOr => 8,
        BinaryOperator::LogicalAnd => 9,
        BinaryOperator::LogicalOr => 10,
    }
}

/// The operator of this looseness that the symbol is.
fn operator_of(symbol: Symbol, rank: u32) -> Option<BinaryOperator>
    ensures { result ≡ operator_of rank symbol }
{
    match symbol {
        Symbol::Binary(operator) if looseness(operator) == rank => Some(operator),
        _ => None,
    }
}

/// How loosely the operator binds that the symbol is, if that is looser than the one number and no
/// looser than the other.
fn looseness_between(symbol: Symbol, tighter: u32, rank: u32) -> Option<u32>
    ensures { result ≡ looseness_between tighter rank symbol }
{
    match symbol {
        Symbol::Binary(operator) => {
            let found = looseness(operator);
            if tighter < found && found <= rank {
                Some(found)
            } else {
                None
            }
        }
        _ => None,
    }
}

/// The later operands of a chain, each behind its operator.
#[cycle(expression)]
fn operands(
    alloc: Global,
    source: &Source,
    at: usize,
    left: u32,
    tighter: u32,
) -> Result<(Seq<(BinaryOperator, Expression)>, usize), ReadError>
    requires within { at < length source.now }
    requires room { HasRoom left at }
    requires rank { tighter < loosest }
    ensures { Gives (operands tighter) source.now left at result }
{
    let room = Vec::with_capacity(alloc, 1)?;
    let mut operands = Seq::from_vec(room);
    let mut here = at;
    'list: while let Some(operator) = operator_of(source.symbol(here), tighter + 1) {
        let (operand, behind) = chain(alloc, source, here + 1, left, tighter)?;
        operands.push((operator, operand))?;
        here = behind;
    }
    Ok((operands, here))
}

/// The chain of operators of this looseness at most that begins here: the operators behind it are
/// taken from the tightest on.
#[cycle(expression)]
pub(crate) fn chain(
    alloc: Global,
    source: &Source,
    at: usize,
    left: u32,
    rank: u32,
) -> Result<(Expression, usize), ReadError>
    requires within { at < length source.now }
    requires room { HasRoom left at }
    requires rank { rank ≤ loosest }
    ensures { Gives (chain rank) source.now left at result }
{
    let (mut whole, mut behind) = cast(alloc, source, at, left)?;
    let mut tighter = 0;
    'climb: while let Some(next) = looseness_between(source.symbol(behind), tighter, rank) {
        let first = Boxed::new(alloc, whole)?;
        let (rest, end) = operands(alloc, source, behind, left, next - 1)?;
        let place = source.place(at);
        whole = Expression::Chain { place, first, rest };
        behind = end;
        tighter = next;
    }
    Ok((whole, behind))
}

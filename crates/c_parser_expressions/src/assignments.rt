//! Readers of conditionals, assignments and comma expressions (C11 6.5.15 to 6.5.17): the forms of
//! these names in `Expressions.antt` of `c_grammar_tree`. Proved in `proofs/Productions.antt`.
ghost use Rattle.std.specs.Prelude.{◌<◌, length, IfSome};
ghost use Rattle.c_grammar_symbols.specs.Sources.{leaf_at, GoesOn};
ghost use Rattle.c_grammar_tree.specs.Expressions.{conditional, assignment, comma};
ghost use Rattle.c_grammar_tree.specs.Reading.{Gives, HasRoom};
ghost use Rattle.c_parser_expressions.specs.Steps.{more_items, FindsOperator};

use crate::chains::chain;
use crate::nested::{inner_assignment, inner_comma, inner_conditional};
use crate::parts::{is_unary, list_of};
use c_grammar_forms::ReadError;
use c_grammar_symbols::{AssignmentOperator, Source, Symbol, Terminal};
use c_grammar_tree::Expression;
use cpa_ints::{Boxed, Seq};
use std::alloc::Global;

/// The looseness of `||`, which binds the loosest.
const LOOSEST: u32 = 10;

/// The conditional expression that begins here.
#[cycle(expression)]
pub(crate) fn conditional(
    alloc: Global,
    source: &Source,
    at: usize,
    left: u32,
) -> Result<(Expression, usize), ReadError>
    requires within { at < length source.now }
    requires room { HasRoom left at }
    ensures { Gives conditional source.now left at result }
{
    let (condition, mark) = chain(alloc, source, at, left, LOOSEST)?;
    if !source.is(mark, Terminal::Question) {
        return Ok((condition, mark));
    }
    let test = Boxed::new(alloc, condition)?;
    let (chosen, colon) = inner_comma(alloc, source, mark + 1, left)?;
    let yes = Boxed::new(alloc, chosen)?;
    let start = source.expect(colon, Terminal::Colon)?;
    let (other, end) = inner_conditional(alloc, source, start, left)?;
    let no = Boxed::new(alloc, other)?;
    let place = source.place(at);
    Ok((
        Expression::Conditional {
            test,
            yes,
            no,
            place,
        },
        end,
    ))
}

/// The operator of an assignment to this expression that stands here, if one does.
fn operator_behind(target: &Expression, source: &Source, at: usize) -> Option<AssignmentOperator>
    requires { at < length source.now }
    ensures found { FindsOperator target.now (leaf_at source.now at) result }
    ensures more { IfSome result (λ operator. GoesOn source.now at) }
{
    match source.symbol(at) {
        Symbol::Assign(operator) if is_unary(target) => Some(operator),
        _ => None,
    }
}

/// The assignment expression that begins here.
#[cycle(expression)]
pub(crate) fn assignment(
    alloc: Global,
    source: &Source,
    at: usize,
    left: u32,
) -> Result<(Expression, usize), ReadError>
    requires within { at < length source.now }
    requires room { HasRoom left at }
    ensures { Gives assignment source.now left at result }
{
    let (target, mark) = conditional(alloc, source, at, left)?;
    let Some(operator) = operator_behind(&target, source, mark) else {
        return Ok((target, mark));
    };
    let left_side = Boxed::new(alloc, target)?;
    let (value, end) = inner_assignment(alloc, source, mark + 1, left)?;
    let right_side = Boxed::new(alloc, value)?;
    let place = source.place(at);
    Ok((
        Expression::Assignment {
            left: left_side,
            operator,
            right: right_side,
            place,
        },
        end,
    ))
}

/// The first expression of a comma list, which is read already, and those behind it, each behind a
/// comma.
#[cycle(expression)]
fn more_items(
    alloc: Global,
    source: &Source,
    at: usize,
    left: u32,
    first: Expression,
) -> Result<(Seq<Expression>, usize), ReadError>
    requires within { at < length source.now }
    requires room { HasRoom left at }
    ensures { Gives (more_items first) source.now left at result }
{
    let mut items = list_of(alloc, first)?;
    let mut here = at;
    'list: while source.is(here, Terminal::Comma) {
        let (item, behind) = assignment(alloc, source, here + 1, left)?;
        items.push(item)?;
        here = behind;
    }
    Ok((items, here))
}

/// The comma expression that begins here.
#[cycle(expression)]
pub fn comma(
    alloc: Global,
    source: &Source,
    at: usize,
    left: u32,
) -> Result<(Expression, usize), ReadError>
    requires within { at < length source.now }
    requires room { HasRoom left at }
    ensures { Gives comma source.now left at result }
{
    let (first, mark) = assignment(alloc, source, at, left)?;
    if !source.is(mark, Terminal::Comma) {
        return Ok((first, mark));
    }
    let (items, end) = more_items(alloc, source, mark, left, first)?;
    let place = source.place(at);
    Ok((Expression::Comma { items, place }, end))
}

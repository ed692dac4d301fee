//! Readers of the parts of statements that are no statements, which are `condition`, `optional` and
//! `for_start` of `Statements.antt` of `c_grammar_tree`.
ghost use Rattle.std.specs.Prelude.{◌≡◌, ◌<◌, length};
ghost use Rattle.c_grammar_forms.specs.Forms.{Choice};
ghost use Rattle.c_grammar_tree.specs.Parts.{is_local_specifier, bare_name};
ghost use Rattle.c_grammar_tree.specs.Statements.{condition, optional, for_start};
ghost use Rattle.c_grammar_tree.specs.Reading.{Gives, HasRoom, HasRoomBelow};
ghost use Rattle.c_parser_statements.specs.Forms.{case_value, optional_comma, test_and_step};
ghost use Rattle.c_parser_statements.specs.Forms.{for_head};

use c_grammar_forms::ReadError;
use c_grammar_symbols::{Source, Terminal};
use c_grammar_tree::{Expression, ForStart, Name};
use c_parser_declarations::{begins_declaration, inner_declaration};
use c_parser_expressions::{inner_comma, inner_conditional};
use cpa_ints::Boxed;
use std::alloc::Global;

/// The name that the expression is, where it is one and nothing more.
pub(crate) fn bare_name(expression: Expression) -> Option<Name>
    ensures { result ≡ bare_name expression }
{
    match expression {
        Expression::Name(name) => Some(name),
        _ => None,
    }
}

/// The expression in brackets that a statement tests.
pub(crate) fn condition(
    alloc: Global,
    source: &Source,
    at: usize,
    left: u32,
) -> Result<(Boxed<Expression>, usize), ReadError>
    requires within { at < length source.now }
    requires room { HasRoom left at }
    ensures { Gives condition source.now left at result }
{
    let start = source.expect(at, Terminal::LeftParen)?;
    let (inside, closer) = inner_comma(alloc, source, start, left)?;
    let test = Boxed::new(alloc, inside)?;
    let behind = source.expect(closer, Terminal::RightParen)?;
    Ok((test, behind))
}

/// The value of a `case` that begins here, and its colon.
pub(crate) fn case_value(
    alloc: Global,
    source: &Source,
    at: usize,
    left: u32,
) -> Result<(Boxed<Expression>, usize), ReadError>
    requires within { at < length source.now }
    requires room { HasRoomBelow left at }
    ensures { Gives case_value source.now left at result }
{
    let (given, colon) = inner_conditional(alloc, source, at, left)?;
    let value = Boxed::new(alloc, given)?;
    let behind = source.expect(colon, Terminal::Colon)?;
    Ok((value, behind))
}

/// The expression that stands here, where the terminal does not stand at once.
fn optional_comma(
    alloc: Global,
    source: &Source,
    at: usize,
    left: u32,
    closer: Terminal,
) -> Result<(Boxed<Option<Expression>>, usize), ReadError>
    requires within { at < length source.now }
    requires room { HasRoomBelow left at }
    ensures { Gives (optional_comma closer) source.now left at result }
{
    if source.is(at, closer) {
        let nothing = Boxed::new(alloc, None)?;
        return Ok((nothing, at));
    }
    let (inside, behind) = inner_comma(alloc, source, at, left)?;
    let whole = Boxed::new(alloc, Some(inside))?;
    Ok((whole, behind))
}

/// The same with the terminal.
pub(crate) fn optional(
    alloc: Global,
    source: &Source,
    at: usize,
    left: u32,
    closer: Terminal,
) -> Result<(Boxed<Option<Expression>>, usize), ReadError>
    requires within { at < length source.now }
    requires room { HasRoomBelow left at }
    ensures { Gives (optional closer) source.now left at result }
{
    let (expression, mark) = optional_comma(alloc, source, at, left, closer)?;
    let behind = source.expect(mark, closer)?;
    Ok((expression, behind))
}

/// The first part of a `for`, with its semicolon.
pub(crate) fn for_start(
    alloc: Global,
    source: &Source,
    at: usize,
    left: u32,
) -> Result<(ForStart, usize), ReadError>
    requires within { at < length source.now }
    requires room { HasRoomBelow left at }
    ensures { Gives (λ G. Choice is_local_specifier (for_start G)) source.now left at result }
{
    if begins_declaration(source, at) {
        let (declaration, behind) = inner_declaration(alloc, source, at, left)?;
        return Ok((ForStart::Declaration(declaration), behind));
    }
    let (expression, behind) = optional(alloc, source, at, left, Terminal::Semicolon)?;
    Ok((ForStart::Expression(expression.into_inner()), behind))
}

/// The test and the step of a `for`, each in a box.
pub(crate) type ForEnds = (Boxed<Option<Expression>>, Boxed<Option<Expression>>);

/// The test and the step of a `for`, each with the token that ends it.
fn test_and_step(
    alloc: Global,
    source: &Source,
    at: usize,
    left: u32,
) -> Result<(ForEnds, usize), ReadError>
    requires within { at < length source.now }
    requires room { HasRoomBelow left at }
    ensures { Gives test_and_step source.now left at result }
{
    let (test, next) = optional(alloc, source, at, left, Terminal::Semicolon)?;
    let (step, behind) = optional(alloc, source, next, left, Terminal::RightParen)?;
    Ok(((test, step), behind))
}

/// The parts of a `for` that its brackets hold: the first one, the test and the step.
pub(crate) type ForHead = (Boxed<ForStart>, ForEnds);

/// What stands in the brackets of a `for`, with its brackets. Each part comes in a box, which is
/// given back by one call where the body behind it cannot be read.
pub(crate) fn for_head(
    alloc: Global,
    source: &Source,
    at: usize,
    left: u32,
) -> Result<(ForHead, usize), ReadError>
    requires within { at < length source.now }
    requires room { HasRoom left at }
    ensures { Gives for_head source.now left at result }
{
    let opened = source.expect(at, Terminal::LeftParen)?;
    let (first, next) = for_start(alloc, source, opened, left)?;
    let start = Boxed::new(alloc, first)?;
    let (ends, behind) = test_and_step(alloc, source, next, left)?;
    Ok(((start, ends), behind))
}

//! Readers of `if`, `while`, `do` and `for` (C11 6.8.4 and 6.8.5), which are arms of `statement_at`
//! of `Statements.antt` of `c_grammar_tree`.
ghost use Rattle.std.specs.Prelude.{◌<◌, length};
ghost use Rattle.c_grammar_symbols.specs.declared.words.Terminal.TheVariants.{If, While, Do, For};
ghost use Rattle.c_grammar_symbols.specs.Sources.{GoesOn};
ghost use Rattle.c_grammar_tree.specs.Reading.{Gives, HasRoom, HasRoomBelow};
ghost use Rattle.c_parser_statements.specs.Forms.{optional_else, branches, statement_with};

use crate::blocks::boxed_statement;
use crate::parts::{condition, for_head};
use c_grammar_forms::ReadError;
use c_grammar_symbols::{Source, Terminal};
use c_grammar_tree::Statement;
use cpa_ints::Boxed;
use std::alloc::Global;

/// The statement behind the `else` that stands here, if one does.
#[cycle(statement)]
fn optional_else(
    alloc: Global,
    source: &Source,
    at: usize,
    left: u32,
) -> Result<(Option<Boxed<Statement>>, usize), ReadError>
    requires within { at < length source.now }
    requires room { HasRoom left at }
    ensures { Gives optional_else source.now left at result }
{
    if !source.is(at, Terminal::Else) {
        return Ok((None, at));
    }
    let (other, behind) = boxed_statement(alloc, source, at + 1, left)?;
    Ok((Some(other), behind))
}

/// The statement of an `if`, and the one behind its `else`, if one stands there.
#[cycle(statement)]
fn branches(
    alloc: Global,
    source: &Source,
    at: usize,
    left: u32,
) -> Result<((Boxed<Statement>, Option<Boxed<Statement>>), usize), ReadError>
    requires within { at < length source.now }
    requires room { HasRoomBelow left at }
    ensures { Gives branches source.now left at result }
{
    let (yes, mark) = boxed_statement(alloc, source, at, left)?;
    let (no, behind) = optional_else(alloc, source, mark, left)?;
    Ok(((yes, no), behind))
}

/// The `if` that begins here, with the `else` that stands behind its statement.
#[cycle(statement)]
pub(crate) fn if_statement(
    alloc: Global,
    source: &Source,
    at: usize,
    left: u32,
) -> Result<(Statement, usize), ReadError>
    requires more { GoesOn source.now at }
    requires room { HasRoom left at }
    ensures { Gives (statement_with If) source.now left at result }
{
    let (test, start) = condition(alloc, source, at + 1, left)?;
    let ((yes, no), behind) = branches(alloc, source, start, left)?;
    let place = source.place(at);
    let statement = Statement::If {
        test,
        yes,
        no,
        place,
    };
    Ok((statement, behind))
}

/// The `while` that begins here.
#[cycle(statement)]
pub(crate) fn while_statement(
    alloc: Global,
    source: &Source,
    at: usize,
    left: u32,
) -> Result<(Statement, usize), ReadError>
    requires more { GoesOn source.now at }
    requires room { HasRoom left at }
    ensures { Gives (statement_with While) source.now left at result }
{
    let (test, start) = condition(alloc, source, at + 1, left)?;
    let (body, behind) = boxed_statement(alloc, source, start, left)?;
    let place = source.place(at);
    Ok((Statement::While { test, body, place }, behind))
}

/// The `do` that begins here.
#[cycle(statement)]
pub(crate) fn do_statement(
    alloc: Global,
    source: &Source,
    at: usize,
    left: u32,
) -> Result<(Statement, usize), ReadError>
    requires more { GoesOn source.now at }
    requires room { HasRoom left at }
    ensures { Gives (statement_with Do) source.now left at result }
{
    let (body, word) = boxed_statement(alloc, source, at + 1, left)?;
    let start = source.expect(word, Terminal::While)?;
    let (test, mark) = condition(alloc, source, start, left)?;
    let behind = source.expect(mark, Terminal::Semicolon)?;
    let place = source.place(at);
    Ok((Statement::Do { body, test, place }, behind))
}

/// The `for` that begins here.
#[cycle(statement)]
pub(crate) fn for_statement(
    alloc: Global,
    source: &Source,
    at: usize,
    left: u32,
) -> Result<(Statement, usize), ReadError>
    requires more { GoesOn source.now at }
    requires room { HasRoom left at }
    ensures { Gives (statement_with For) source.now left at result }
{
    let ((start, (test, step)), closed) = for_head(alloc, source, at + 1, left)?;
    let (body, behind) = boxed_statement(alloc, source, closed, left)?;
    let place = source.place(at);
    let statement = Statement::For {
        start,
        test,
        step,
        body,
        place,
    };
    Ok((statement, behind))
}

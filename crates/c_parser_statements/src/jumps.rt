//! Readers of jumps (C11 6.8.6), which are arms of `statement_at` of `Statements.antt` of
//! `c_grammar_tree`. Proved with `proofs/Steadies.antt` and `proofs/Dispatch.antt`.
ghost use Rattle.std.specs.Prelude.{◌<◌, length};
ghost use Rattle.c_grammar_symbols.specs.declared.words.Terminal.TheVariants.{Goto, Break};
ghost use Rattle.c_grammar_symbols.specs.declared.words.Terminal.TheVariants.{Continue};
ghost use Rattle.c_grammar_symbols.specs.declared.words.Terminal.TheVariants.{Return};
ghost use Rattle.c_grammar_symbols.specs.Sources.{GoesOn};
ghost use Rattle.c_grammar_tree.specs.Reading.{Gives, HasRoom};
ghost use Rattle.c_parser_statements.specs.Forms.{optional_value, statement_with};

use c_grammar_forms::ReadError;
use c_grammar_symbols::{Source, Terminal};
use c_grammar_tree::{Expression, Statement};
use c_parser_expressions::comma;
use c_parser_words::identifier;
use cpa_ints::Boxed;
use std::alloc::Global;

/// The `goto` that begins here.
pub(crate) fn goto(
    alloc: Global,
    source: &Source,
    at: usize,
    left: u32,
) -> Result<(Statement, usize), ReadError>
    requires more { GoesOn source.now at }
    ensures { Gives (statement_with Goto) source.now left at result }
{
    let (label, mark) = identifier(alloc, source, at + 1)?;
    let behind = source.expect(mark, Terminal::Semicolon)?;
    let place = source.place(at);
    Ok((Statement::Goto { label, place }, behind))
}

/// The `break` that begins here.
pub(crate) fn break_statement(
    source: &Source,
    at: usize,
    left: u32,
) -> Result<(Statement, usize), ReadError>
    requires more { GoesOn source.now at }
    ensures { Gives (statement_with Break) source.now left at result }
{
    let behind = source.expect(at + 1, Terminal::Semicolon)?;
    let place = source.place(at);
    Ok((Statement::Break { place }, behind))
}

/// The `continue` that begins here.
pub(crate) fn continue_statement(
    source: &Source,
    at: usize,
    left: u32,
) -> Result<(Statement, usize), ReadError>
    requires more { GoesOn source.now at }
    ensures { Gives (statement_with Continue) source.now left at result }
{
    let behind = source.expect(at + 1, Terminal::Semicolon)?;
    let place = source.place(at);
    Ok((Statement::Continue { place }, behind))
}

/// The value of a `return`, where its semicolon does not stand at once. It has the level of the
/// whole.
fn optional_value(
    alloc: Global,
    source: &Source,
    at: usize,
    left: u32,
) -> Result<(Option<Boxed<Expression>>, usize), ReadError>
    requires within { at < length source.now }
    requires room { HasRoom left at }
    ensures { Gives optional_value source.now left at result }
{
    if source.is(at, Terminal::Semicolon) {
        return Ok((None, at));
    }
    let (made, behind) = comma(alloc, source, at, left)?;
    let value = Boxed::new(alloc, made)?;
    Ok((Some(value), behind))
}

/// The `return` that begins here.
pub(crate) fn return_statement(
    alloc: Global,
    source: &Source,
    at: usize,
    left: u32,
) -> Result<(Statement, usize), ReadError>
    requires more { GoesOn source.now at }
    requires room { HasRoom left at }
    ensures { Gives (statement_with Return) source.now left at result }
{
    let (value, mark) = optional_value(alloc, source, at + 1, left)?;
    let behind = source.expect(mark, Terminal::Semicolon)?;
    let place = source.place(at);
    Ok((Statement::Return { value, place }, behind))
}

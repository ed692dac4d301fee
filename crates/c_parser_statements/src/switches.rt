//! Readers of `switch` and of the labels of its body (C11 6.8.4.2 and 6.8.1), which are arms of
//! `statement_at` of `Statements.antt` of `c_grammar_tree`.
ghost use Rattle.std.specs.Prelude.{◌<◌};
ghost use Rattle.c_grammar_symbols.specs.declared.words.Terminal.TheVariants.{Switch, Case};
ghost use Rattle.c_grammar_symbols.specs.declared.words.Terminal.TheVariants.{Default};
ghost use Rattle.c_grammar_symbols.specs.Sources.{GoesOn};
ghost use Rattle.c_grammar_tree.specs.Reading.{Gives, HasRoom};
ghost use Rattle.c_parser_statements.specs.Forms.{statement_with};

use crate::blocks::boxed_statement;
use crate::parts::{case_value, condition};
use c_grammar_forms::ReadError;
use c_grammar_symbols::{Source, Terminal};
use c_grammar_tree::Statement;
use std::alloc::Global;

/// The `switch` that begins here.
#[cycle(statement)]
pub(crate) fn switch_statement(
    alloc: Global,
    source: &Source,
    at: usize,
    left: u32,
) -> Result<(Statement, usize), ReadError>
    requires more { GoesOn source.now at }
    requires room { HasRoom left at }
    ensures { Gives (statement_with Switch) source.now left at result }
{
    let (value, start) = condition(alloc, source, at + 1, left)?;
    let (body, behind) = boxed_statement(alloc, source, start, left)?;
    let place = source.place(at);
    Ok((Statement::Switch { value, body, place }, behind))
}

/// The `case` that begins here, and the statement behind it.
#[cycle(statement)]
pub(crate) fn case_statement(
    alloc: Global,
    source: &Source,
    at: usize,
    left: u32,
) -> Result<(Statement, usize), ReadError>
    requires more { GoesOn source.now at }
    requires room { HasRoom left at }
    ensures { Gives (statement_with Case) source.now left at result }
{
    let (value, start) = case_value(alloc, source, at + 1, left)?;
    let (body, behind) = boxed_statement(alloc, source, start, left)?;
    let place = source.place(at);
    Ok((Statement::Case { value, body, place }, behind))
}

/// The `default` that begins here, and the statement behind it.
#[cycle(statement)]
pub(crate) fn default_statement(
    alloc: Global,
    source: &Source,
    at: usize,
    left: u32,
) -> Result<(Statement, usize), ReadError>
    requires more { GoesOn source.now at }
    requires room { HasRoom left at }
    ensures { Gives (statement_with Default) source.now left at result }
{
    let start = source.expect(at + 1, Terminal::Colon)?;
    let (body, behind) = boxed_statement(alloc, source, start, left)?;
    let place = source.place(at);
    Ok((Statement::Default { body, place }, behind))
}

//! Readers of what begins with an expression: expression statements and labels (C11 6.8.3 and
//! 6.8.1), which are the last arm of `statement_at` of `Statements.antt` of `c_grammar_tree`.
ghost use Rattle.std.specs.Prelude.{◌≡◌, ◌<◌, length, true};
ghost use Rattle.c_grammar_symbols.specs.declared.words.Terminal.TheVariants.{Colon};
ghost use Rattle.c_grammar_symbols.specs.Sources.{leaf_at, is, GoesOn};
ghost use Rattle.c_grammar_tree.specs.Reading.{Gives, HasRoom};
ghost use Rattle.c_parser_statements.specs.Forms.{behind_comma, expression_statement};

use crate::blocks::boxed_statement;
use crate::parts::bare_name;
use c_grammar_forms::ReadError;
use c_grammar_symbols::{Source, Terminal};
use c_grammar_tree::{Expression, Statement};
use c_parser_expressions::comma;
use cpa_ints::Boxed;
use std::alloc::Global;

/// The statement that this expression labels, behind the colon that stands here. An expression that
/// is no bare name labels none.
#[cycle(statement)]
fn labeled(
    alloc: Global,
    source: &Source,
    at: usize,
    left: u32,
    made: Expression,
    place: u32,
) -> Result<(Statement, usize), ReadError>
    requires colon { is Colon (leaf_at source.now at) ≡ true }
    requires more { GoesOn source.now at }
    requires room { HasRoom left at }
    ensures { Gives (behind_comma place made) source.now left at result }
{
    match bare_name(made) {
        Some(label) => {
            let (body, behind) = boxed_statement(alloc, source, at + 1, left)?;
            Ok((Statement::Labeled { label, body }, behind))
        }
        None => Err(ReadError::Unexpected { at }),
    }
}

/// The statement that begins with this expression, which is read already: what stands behind it.
#[cycle(statement)]
fn behind_comma(
    alloc: Global,
    source: &Source,
    at: usize,
    left: u32,
    made: Expression,
    place: u32,
) -> Result<(Statement, usize), ReadError>
    requires within { at < length source.now }
    requires room { HasRoom left at }
    ensures { Gives (behind_comma place made) source.now left at result }
{
    if source.is(at, Terminal::Colon) {
        return labeled(alloc, source, at, left, made, place);
    }
    let whole = Boxed::new(alloc, made)?;
    let behind = source.expect(at, Terminal::Semicolon)?;
    let statement = Statement::Expression {
        expression: Some(whole),
        place,
    };
    Ok((statement, behind))
}

/// The statement that begins here with an expression.
#[cycle(statement)]
pub(crate) fn expression_statement(
    alloc: Global,
    source: &Source,
    at: usize,
    left: u32,
) -> Result<(Statement, usize), ReadError>
    requires within { at < length source.now }
    requires room { HasRoom left at }
    ensures { Gives expression_statement source.now left at result }
{
    let (made, mark) = comma(alloc, source, at, left)?;
    let place = source.place(at);
    behind_comma(alloc, source, mark, left, made, place)
}

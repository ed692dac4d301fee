//! Readers of statements by their first token and of blocks, which are `statement`, `item` and
//! `items` of `Statements.antt` of `c_grammar_tree`, and of bodies, `closed_items` of `Items.antt`.
ghost use Rattle.std.specs.Prelude.{◌<◌, length};
ghost use Rattle.c_grammar_symbols.specs.declared.words.Terminal.TheVariants.{LeftBrace, Semicolon};
ghost use Rattle.c_grammar_symbols.specs.Sources.{GoesOn};
ghost use Rattle.c_grammar_tree.specs.Statements.{block_items, items, item, statement};
ghost use Rattle.c_grammar_tree.specs.Items.{closed_items};
ghost use Rattle.c_grammar_tree.specs.Reading.{Gives, HasRoom, HasRoomBelow};
ghost use Rattle.c_parser_statements.specs.Forms.{deeper_item, deeper_statement};
ghost use Rattle.c_parser_statements.specs.Forms.{statement_with};

use crate::jumps::{break_statement, continue_statement, goto, return_statement};
use crate::kinds::{StatementKind, begins_item, begins_statement, kind_at};
use crate::labels::expression_statement;
use crate::loops::{do_statement, for_statement, if_statement, while_statement};
use crate::switches::{case_statement, default_statement, switch_statement};
use c_grammar_forms::ReadError;
use c_grammar_symbols::{Source, Terminal};
use c_grammar_tree::{BlockItem, Statement};
use c_parser_declarations::{begins_declaration, block_declaration, no_level};
use c_parser_words::trimmed;
use cpa_ints::{Boxed, Seq};
use std::alloc::Global;

/// The empty statement that stands here.
fn empty(source: &Source, at: usize, left: u32) -> Result<(Statement, usize), ReadError>
    requires more { GoesOn source.now at }
    ensures { Gives (statement_with Semicolon) source.now left at result }
{
    let place = source.place(at);
    let statement = Statement::Expression {
        expression: None,
        place,
    };
    Ok((statement, at + 1))
}

/// The block that begins here.
#[cycle(statement)]
fn block(
    alloc: Global,
    source: &Source,
    at: usize,
    left: u32,
) -> Result<(Statement, usize), ReadError>
    requires more { GoesOn source.now at }
    requires room { HasRoom left at }
    ensures { Gives (statement_with LeftBrace) source.now left at result }
{
    let (items, behind) = items(alloc, source, at + 1, left)?;
    let place = source.place(at);
    Ok((Statement::Block { items, place }, behind))
}

/// The statement that begins here.
#[cycle(statement)]
fn statement(
    alloc: Global,
    source: &Source,
    at: usize,
    left: u32,
) -> Result<(Statement, usize), ReadError>
    requires within { at < length source.now }
    requires room { HasRoom left at }
    ensures { Gives statement source.now left at result }
{
    match kind_at(source, at) {
        StatementKind::Block => block(alloc, source, at, left),
        StatementKind::Empty => empty(source, at, left),
        StatementKind::If => if_statement(alloc, source, at, left),
        StatementKind::While => while_statement(alloc, source, at, left),
        StatementKind::Do => do_statement(alloc, source, at, left),
        StatementKind::For => for_statement(alloc, source, at, left),
        StatementKind::Switch => switch_statement(alloc, source, at, left),
        StatementKind::Case => case_statement(alloc, source, at, left),
        StatementKind::Default => default_statement(alloc, source, at, left),
        StatementKind::Goto => goto(alloc, source, at, left),
        StatementKind::Break => break_statement(source, at, left),
        StatementKind::Continue => continue_statement(source, at, left),
        StatementKind::Return => return_statement(alloc, source, at, left),
        StatementKind::Expression => expression_statement(alloc, source, at, left),
    }
}

/// The statement that begins here, one level deeper.
#[cycle(statement)]
fn inner_statement(
    alloc: Global,
    source: &Source,
    at: usize,
    left: u32,
) -> Result<(Statement, usize), ReadError>
    requires within { at < length source.now }
    requires room { HasRoomBelow left at }
    ensures { Gives deeper_statement source.now left at result }
{
    if left == 0 {
        return Err(no_level(begins_statement(source, at), at));
    }
    statement(alloc, source, at, left - 1)
}

/// The same in a box, as a part of another statement.
#[cycle(statement)]
pub(crate) fn boxed_statement(
    alloc: Global,
    source: &Source,
    at: usize,
    left: u32,
) -> Result<(Boxed<Statement>, usize), ReadError>
    requires within { at < length source.now }
    requires room { HasRoomBelow left at }
    ensures { Gives deeper_statement source.now left at result }
{
    let (inner, behind) = inner_statement(alloc, source, at, left)?;
    let whole = Boxed::new(alloc, inner)?;
    Ok((whole, behind))
}

/// What begins here in a block: a declaration or a statement.
#[cycle(statement)]
fn item(
    alloc: Global,
    source: &Source,
    at: usize,
    left: u32,
) -> Result<(BlockItem, usize), ReadError>
    requires within { at < length source.now }
    requires room { HasRoom left at }
    ensures { Gives item source.now left at result }
{
    if begins_declaration(source, at) {
        let (made, behind) = block_declaration(alloc, source, at, left)?;
        let declaration = Boxed::new(alloc, made)?;
        return Ok((BlockItem::Declaration(declaration), behind));
    }
    let (statement, behind) = statement(alloc, source, at, left)?;
    Ok((BlockItem::Statement(statement), behind))
}

/// The same one level deeper.
#[cycle(statement)]
fn inner_item(
    alloc: Global,
    source: &Source,
    at: usize,
    left: u32,
) -> Result<(BlockItem, usize), ReadError>
    requires within { at < length source.now }
    requires room { HasRoomBelow left at }
    ensures { Gives deeper_item source.now left at result }
{
    if left == 0 {
        return Err(no_level(begins_item(source, at), at));
    }
    item(alloc, source, at, left - 1)
}

/// What stands in a block, up to the brace that ends it.
#[cycle(statement)]
fn block_items(
    alloc: Global,
    source: &Source,
    at: usize,
    left: u32,
) -> Result<(Seq<BlockItem>, usize), ReadError>
    requires within { at < length source.now }
    requires room { HasRoomBelow left at }
    ensures { Gives block_items source.now left at result }
{
    let mut items = Seq::new(alloc);
    let mut here = at;
    'list: while !source.is(here, Terminal::RightBrace) {
        let (item, behind) = inner_item(alloc, source, here, left)?;
        items.push(item)?;
        here = behind;
    }
    Ok((trimmed(items), here))
}

/// What stands in a block, with the brace that ends it, behind the one that opens it: each one
/// level deeper.
#[cycle(statement)]
fn items(
    alloc: Global,
    source: &Source,
    at: usize,
    left: u32,
) -> Result<(Seq<BlockItem>, usize), ReadError>
    requires within { at < length source.now }
    requires room { HasRoomBelow left at }
    ensures { Gives items source.now left at result }
{
    let (items, closer) = block_items(alloc, source, at, left)?;
    let behind = source.expect(closer, Terminal::RightBrace)?;
    Ok((items, behind))
}

/// The same in the body of a function, and the place of the brace that ends it.
pub fn closed_items(
    alloc: Global,
    source: &Source,
    at: usize,
    left: u32,
) -> Result<((Seq<BlockItem>, u32), usize), ReadError>
    requires within { at < length source.now }
    requires room { HasRoomBelow left at }
    ensures { Gives closed_items source.now left at result }
{
    let (items, closer) = block_items(alloc, source, at, left)?;
    let behind = source.expect(closer, Terminal::RightBrace)?;
    let end = source.place(closer);
    Ok(((items, end), behind))
}

//! Readers of initializers, which are `initializer_of`, `list` and their parts of
//! `Declarations.antt` of `c_grammar_tree`.
ghost use Rattle.std.specs.Prelude.{◌<◌, length};
ghost use Rattle.c_grammar_forms.specs.Forms.{Choice};
ghost use Rattle.c_grammar_symbols.specs.declared.words.Terminal.TheVariants.{RightBrace};
ghost use Rattle.c_grammar_symbols.specs.Symbols.{symbol_of};
ghost use Rattle.c_grammar_tree.specs.Declarations.{comma_or_end_at, list, initializer_of};
ghost use Rattle.c_grammar_tree.specs.Reading.{Gives, HasRoom, HasRoomBelow};
ghost use Rattle.c_parser_words.specs.Answers.{Skips};
ghost use Rattle.c_parser_declarations.specs.Forms.{listed_value, elements, deeper_list};

use crate::classes::no_level;
use c_grammar_forms::ReadError;
use c_grammar_symbols::{Source, Terminal};
use c_grammar_tree::{Expression, Initializer};
use c_parser_expressions::inner_assignment;
use c_parser_words::trimmed;
use cpa_ints::Seq;
use std::alloc::Global;

/// The place behind the comma that stands here; before the brace that ends a list none need stand.
pub(crate) fn comma_or_end(source: &Source, at: usize) -> Result<usize, ReadError>
    requires { at < length source.now }
    ensures { Skips (Choice symbol_of comma_or_end_at) source.now at result }
{
    if source.is(at, Terminal::Comma) {
        Ok(at + 1)
    } else if source.is(at, Terminal::RightBrace) {
        Ok(at)
    } else {
        Err(ReadError::Unexpected { at })
    }
}

/// The expression of a list that begins here, one level deeper, and the comma behind it.
fn element(
    alloc: Global,
    source: &Source,
    at: usize,
    left: u32,
) -> Result<(Expression, usize), ReadError>
    requires within { at < length source.now }
    requires room { HasRoomBelow left at }
    ensures { Gives listed_value source.now left at result }
{
    let (value, next) = inner_assignment(alloc, source, at, left)?;
    let behind = comma_or_end(source, next)?;
    Ok((value, behind))
}

/// The expressions of a list, up to the brace that ends it.
fn elements(
    alloc: Global,
    source: &Source,
    at: usize,
    left: u32,
) -> Result<(Seq<Expression>, usize), ReadError>
    requires within { at < length source.now }
    requires room { HasRoomBelow left at }
    ensures { Gives elements source.now left at result }
{
    let mut items = Seq::new(alloc);
    let mut here = at;
    'list: while !source.is(here, Terminal::RightBrace) {
        let (item, behind) = element(alloc, source, here, left)?;
        items.push(item)?;
        here = behind;
    }
    Ok((trimmed(items), here))
}

/// The list in braces that begins here.
fn list(
    alloc: Global,
    source: &Source,
    at: usize,
    left: u32,
) -> Result<(Initializer, usize), ReadError>
    requires within { at < length source.now }
    requires room { HasRoom left at }
    ensures { Gives list source.now left at result }
{
    let start = source.expect(at, Terminal::LeftBrace)?;
    let (items, closer) = elements(alloc, source, start, left)?;
    let behind = source.expect(closer, Terminal::RightBrace)?;
    let place = source.place(at);
    Ok((Initializer::List { items, place }, behind))
}

/// The list that begins here, one level deeper.
fn inner_list(
    alloc: Global,
    source: &Source,
    at: usize,
    left: u32,
) -> Result<(Initializer, usize), ReadError>
    requires within { at < length source.now }
    requires room { HasRoomBelow left at }
    ensures { Gives deeper_list source.now left at result }
{
    if left == 0 {
        return Err(no_level(source.is(at, Terminal::LeftBrace), at));
    }
    list(alloc, source, at, left - 1)
}

/// What an object is initialized with: a list where it is an array, an expression where it is none.
pub(crate) fn initializer(
    alloc: Global,
    source: &Source,
    at: usize,
    left: u32,
    is_array: bool,
) -> Result<(Initializer, usize), ReadError>
    requires within { at < length source.now }
    requires room { HasRoomBelow left at }
    ensures { Gives (λ G. initializer_of G is_array) source.now left at result }
{
    if is_array {
        return inner_list(alloc, source, at, left);
    }
    let (value, behind) = inner_assignment(alloc, source, at, left)?;
    Ok((Initializer::Scalar(value), behind))
}

//! Readers of declarators, which are `declarator` and its parts of `Declarations.antt` of
//! `c_grammar_tree`. Proved with `proofs/Steadies.antt`.
ghost use Rattle.std.specs.Prelude.{◌≡◌, ◌<◌, length, IfOk, IfErr, [], ◌∷◌};
ghost use Rattle.c_grammar_forms.specs.Forms.{Skip, Perhaps};
ghost use Rattle.c_grammar_forms.specs.declared.fault.ReadError.TheVariants.{OutOfMemory};
ghost use Rattle.c_grammar_symbols.specs.declared.words.Terminal.TheVariants.{LeftBracket};
ghost use Rattle.c_grammar_symbols.specs.Sources.{is};
ghost use Rattle.c_grammar_tree.specs.Parts.{is_initializing};
ghost use Rattle.c_grammar_tree.specs.Declarations.{array, declarator, declarators, initializer_of};
ghost use Rattle.c_grammar_tree.specs.Reading.{Gives, HasRoom, HasRoomBelow};
ghost use Rattle.c_parser_declarations.specs.Forms.{optional_length, declarator_behind};
ghost use Rattle.c_parser_declarations.specs.Forms.{declarators_behind};

use crate::classes::is_initializing;
use crate::initializers::initializer;
use c_grammar_forms::ReadError;
use c_grammar_symbols::{Source, Terminal};
use c_grammar_tree::{Array, Declarator, Expression, Initializer, Name};
use c_parser_expressions::inner_conditional;
use c_parser_words::{attributes, identifier};
use cpa_ints::{Boxed, Seq};
use std::alloc::Global;

/// The length of an array, where the bracket does not close at once.
fn optional_length(
    alloc: Global,
    source: &Source,
    at: usize,
    left: u32,
) -> Result<(Option<Expression>, usize), ReadError>
    requires within { at < length source.now }
    requires room { HasRoomBelow left at }
    ensures { Gives optional_length source.now left at result }
{
    if source.is(at, Terminal::RightBracket) {
        return Ok((None, at));
    }
    let (length, behind) = inner_conditional(alloc, source, at, left)?;
    Ok((Some(length), behind))
}

/// The brackets of an array with its length, where they stand here.
fn optional_array(
    alloc: Global,
    source: &Source,
    at: usize,
    left: u32,
) -> Result<(Option<Boxed<Array>>, usize), ReadError>
    requires within { at < length source.now }
    requires room { HasRoom left at }
    ensures { Gives (λ G. Perhaps (is LeftBracket) (array G)) source.now left at result }
{
    if !source.is(at, Terminal::LeftBracket) {
        return Ok((None, at));
    }
    let (length, closer) = optional_length(alloc, source, at + 1, left)?;
    let place = source.place(at);
    let array = Boxed::new(alloc, Array { length, place })?;
    let behind = source.expect(closer, Terminal::RightBracket)?;
    Ok((Some(array), behind))
}

/// The initializer, where its `=` stands here: a list where what is declared is an array.
fn optional_initializer(
    alloc: Global,
    source: &Source,
    at: usize,
    left: u32,
    is_array: bool,
) -> Result<(Option<Boxed<Initializer>>, usize), ReadError>
    requires within { at < length source.now }
    requires room { HasRoom left at }
    ensures { Gives (λ G. Perhaps is_initializing (Skip (initializer_of G is_array)))
        source.now left at result }
{
    if !is_initializing(source, at) {
        return Ok((None, at));
    }
    let (made, behind) = initializer(alloc, source, at + 1, left, is_array)?;
    let whole = Boxed::new(alloc, made)?;
    Ok((Some(whole), behind))
}

/// The declarator of which this name is read already: what stands behind it, in any function or
/// none.
pub fn declarator_behind(
    alloc: Global,
    source: &Source,
    at: usize,
    left: u32,
    name: Name,
) -> Result<(Declarator, usize), ReadError>
    requires within { at < length source.now }
    requires room { HasRoom left at }
    ensures { Gives (declarator_behind name) source.now left at result }
{
    let (array, next) = optional_array(alloc, source, at, left)?;
    let mark = attributes(source, next)?;
    let is_array = array.is_some();
    let (initializer, behind) = optional_initializer(alloc, source, mark, left, is_array)?;
    let declarator = Declarator {
        name,
        array,
        initializer,
    };
    Ok((declarator, behind))
}

/// The declarator that begins here.
fn declarator(
    alloc: Global,
    source: &Source,
    at: usize,
    left: u32,
) -> Result<(Declarator, usize), ReadError>
    requires within { at < length source.now }
    requires room { HasRoom left at }
    ensures { Gives declarator source.now left at result }
{
    let (name, next) = identifier(alloc, source, at)?;
    declarator_behind(alloc, source, next, left, name)
}

/// The declarators that stand here, of which there is one at least.
pub(crate) fn declarators(
    alloc: Global,
    source: &Source,
    at: usize,
    left: u32,
) -> Result<(Seq<Declarator>, usize), ReadError>
    requires within { at < length source.now }
    requires room { HasRoom left at }
    ensures { Gives declarators source.now left at result }
{
    let (first, mark) = declarator(alloc, source, at, left)?;
    declarators_behind(alloc, source, mark, left, first)
}

/// The list of this one declarator.
fn list_of(alloc: Global, first: Declarator) -> Result<Seq<Declarator>, ReadError>
    ensures listed { IfOk result (λ list. list ≡ first ∷ []) }
    ensures memory { IfErr result (λ error. error ≡ OutOfMemory) }
{
    let mut items = Vec::with_capacity(alloc, 1)?;
    items.push(first)?;
    Ok(Seq::from_vec(items))
}

/// The first declarator, which is read already, and those behind it, each behind a comma.
pub fn declarators_behind(
    alloc: Global,
    source: &Source,
    at: usize,
    left: u32,
    first: Declarator,
) -> Result<(Seq<Declarator>, usize), ReadError>
    requires within { at < length source.now }
    requires room { HasRoom left at }
    ensures { Gives (declarators_behind first) source.now left at result }
{
    let mut declarators = list_of(alloc, first)?;
    let mut here = at;
    'list: while source.is(here, Terminal::Comma) {
        let (next, behind) = declarator(alloc, source, here + 1, left)?;
        declarators.push(next)?;
        here = behind;
    }
    Ok((declarators, here))
}

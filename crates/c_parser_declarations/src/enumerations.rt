//! Readers of enumerated types (C11 6.7.2.2), which are `enumeration` and its parts of
//! `Declarations.antt` of `c_grammar_tree`. Proved with `proofs/Steadies.antt`.
ghost use Rattle.std.specs.Prelude.{◌≡◌, ◌<◌, length, true, false};
ghost use Rattle.c_grammar_forms.specs.Forms.{Skip, Deeper, Perhaps};
ghost use Rattle.c_grammar_symbols.specs.declared.words.Terminal.TheVariants.{LeftBrace};
ghost use Rattle.c_grammar_symbols.specs.Sources.{is};
ghost use Rattle.c_grammar_tree.specs.Parts.{is_initializing};
ghost use Rattle.c_grammar_tree.specs.Declarations.{enumerator, enumerators, enumerator_list};
ghost use Rattle.c_grammar_tree.specs.Declarations.{tagged, enumeration_by, enumeration};
ghost use Rattle.c_grammar_tree.specs.Reading.{Gives, HasRoom, HasRoomBelow, deeper_enumerator};
ghost use Rattle.c_parser_declarations.specs.Forms.{listed_enumerator};

use crate::classes::{is_initializing, no_level};
use crate::initializers::comma_or_end;
use c_grammar_forms::ReadError;
use c_grammar_symbols::{Source, Terminal};
use c_grammar_tree::{Enumeration, Enumerator, Expression, Name};
use c_parser_expressions::inner_conditional;
use c_parser_words::{identifier, is_name};
use cpa_ints::{Boxed, Seq};
use std::alloc::Global;

/// The value of an enumerator, where its `=` stands here.
fn optional_value(
    alloc: Global,
    source: &Source,
    at: usize,
    left: u32,
) -> Result<(Option<Expression>, usize), ReadError>
    requires within { at < length source.now }
    requires room { HasRoom left at }
    ensures { Gives (λ G. Perhaps is_initializing (Skip (Deeper G.conditional)))
        source.now left at result }
{
    if !is_initializing(source, at) {
        return Ok((None, at));
    }
    let (value, behind) = inner_conditional(alloc, source, at + 1, left)?;
    Ok((Some(value), behind))
}

/// The enumerator that begins here.
fn enumerator(
    alloc: Global,
    source: &Source,
    at: usize,
    left: u32,
) -> Result<(Enumerator, usize), ReadError>
    requires within { at < length source.now }
    requires room { HasRoom left at }
    ensures { Gives enumerator source.now left at result }
{
    let (name, next) = identifier(alloc, source, at)?;
    let (value, behind) = optional_value(alloc, source, next, left)?;
    Ok((Enumerator { name, value }, behind))
}

/// The enumerator that begins here, one level deeper.
fn inner_enumerator(
    alloc: Global,
    source: &Source,
    at: usize,
    left: u32,
) -> Result<(Enumerator, usize), ReadError>
    requires within { at < length source.now }
    requires room { HasRoomBelow left at }
    ensures { Gives deeper_enumerator source.now left at result }
{
    if left == 0 {
        return Err(no_level(is_name(source, at), at));
    }
    enumerator(alloc, source, at, left - 1)
}

/// The enumerator of a list that begins here, one level deeper, and the comma behind it.
fn listed_enumerator(
    alloc: Global,
    source: &Source,
    at: usize,
    left: u32,
) -> Result<(Enumerator, usize), ReadError>
    requires within { at < length source.now }
    requires room { HasRoomBelow left at }
    ensures { Gives listed_enumerator source.now left at result }
{
    let (value, next) = inner_enumerator(alloc, source, at, left)?;
    let behind = comma_or_end(source, next)?;
    Ok((value, behind))
}

/// The enumerators of a list, of which there is one at least, up to the brace that ends it.
fn enumerators(
    alloc: Global,
    source: &Source,
    at: usize,
    left: u32,
) -> Result<(Seq<Enumerator>, usize), ReadError>
    requires within { at < length source.now }
    requires room { HasRoomBelow left at }
    ensures { Gives enumerators source.now left at result }
{
    let (first, next) = listed_enumerator(alloc, source, at, left)?;
    let mut items = Seq::new(alloc);
    items.push(first)?;
    let mut here = next;
    'list: while !source.is(here, Terminal::RightBrace) {
        let (item, behind) = listed_enumerator(alloc, source, here, left)?;
        items.push(item)?;
        here = behind;
    }
    Ok((items, here))
}

/// The enumerators in braces that stand here.
fn enumerator_list(
    alloc: Global,
    source: &Source,
    at: usize,
    left: u32,
) -> Result<(Seq<Enumerator>, usize), ReadError>
    requires within { at < length source.now }
    requires room { HasRoom left at }
    ensures { Gives enumerator_list source.now left at result }
{
    let start = source.expect(at, Terminal::LeftBrace)?;
    let (items, closer) = enumerators(alloc, source, start, left)?;
    let behind = source.expect(closer, Terminal::RightBrace)?;
    Ok((items, behind))
}

/// The enumerators behind a tag, where their brace stands here.
fn optional_list(
    alloc: Global,
    source: &Source,
    at: usize,
    left: u32,
) -> Result<(Option<Seq<Enumerator>>, usize), ReadError>
    requires within { at < length source.now }
    requires room { HasRoom left at }
    ensures { Gives (λ G. Perhaps (is LeftBrace) (enumerator_list G)) source.now left at result }
{
    if !source.is(at, Terminal::LeftBrace) {
        return Ok((None, at));
    }
    let (items, behind) = enumerator_list(alloc, source, at, left)?;
    Ok((Some(items), behind))
}

/// The type with this tag, with enumerators or without.
fn tagged(tag: Name, listed: Option<Seq<Enumerator>>) -> Enumeration
    ensures { result ≡ tagged (tag, listed) }
{
    match listed {
        None => Enumeration::Tag(tag),
        Some(enumerators) => Enumeration::Listed {
            tag: Some(tag),
            enumerators,
        },
    }
}

/// The enumerated type whose tag stands here.
fn with_tag(
    alloc: Global,
    source: &Source,
    at: usize,
    left: u32,
) -> Result<(Boxed<Enumeration>, usize), ReadError>
    requires within { at < length source.now }
    requires room { HasRoom left at }
    ensures { Gives (λ G. enumeration_by G true) source.now left at result }
{
    let (name, next) = identifier(alloc, source, at)?;
    let (listed, behind) = optional_list(alloc, source, next, left)?;
    let found = Boxed::new(alloc, tagged(name, listed))?;
    Ok((found, behind))
}

/// The enumerated type without a tag whose brace is to stand here.
fn without_tag(
    alloc: Global,
    source: &Source,
    at: usize,
    left: u32,
) -> Result<(Boxed<Enumeration>, usize), ReadError>
    requires within { at < length source.now }
    requires room { HasRoom left at }
    ensures { Gives (λ G. enumeration_by G false) source.now left at result }
{
    let (enumerators, behind) = enumerator_list(alloc, source, at, left)?;
    let tag = None;
    let found = Boxed::new(alloc, Enumeration::Listed { tag, enumerators })?;
    Ok((found, behind))
}

/// The enumerated type behind `enum`, where braces may stand.
pub(crate) fn enumeration(
    alloc: Global,
    source: &Source,
    at: usize,
    left: u32,
) -> Result<(Boxed<Enumeration>, usize), ReadError>
    requires within { at < length source.now }
    requires room { HasRoom left at }
    ensures { Gives (λ G. enumeration G true) source.now left at result }
{
    if is_name(source, at) {
        with_tag(alloc, source, at, left)
    } else {
        without_tag(alloc, source, at, left)
    }
}

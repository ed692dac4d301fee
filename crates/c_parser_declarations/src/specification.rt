//! The reader of specifiers among which enumerators may stand, which are `specifiers` of
//! `Declarations.antt` of `c_grammar_tree`. Proved with `proofs/Enums.antt`.
ghost use Rattle.std.specs.Prelude.{◌≡◌, ◌<◌, length, true, IsTrue, not, ◌&&◌};
ghost use Rattle.c_grammar_symbols.specs.declared.words.Terminal.TheVariants.{Enum};
ghost use Rattle.c_grammar_symbols.specs.Sources.{leaf_at, is, GoesOn};
ghost use Rattle.c_grammar_tree.specs.Parts.{is_listed};
ghost use Rattle.c_grammar_tree.specs.Declarations.{enumeration, declared_type, specifiers};
ghost use Rattle.c_grammar_tree.specs.Reading.{Gives, HasRoom};
ghost use Rattle.c_parser_words.specs.Storage.{goes_in};
ghost use Rattle.c_parser_declarations.specs.Forms.{enum_type};

use crate::enumerations::enumeration;
use c_grammar_forms::ReadError;
use c_grammar_symbols::{Source, Terminal};
use c_grammar_tree::{Enumeration, Specifiers};
use c_parser_words::{
    AllowedStorage, Words, declared_type, enum_words, have_word, keywords, qualifiers,
    specifiers_of,
};
use std::alloc::Global;

/// Whether the enumerators of its type stand among these.
pub fn is_listed(specifiers: &Specifiers) -> bool
    ensures { result ≡ is_listed specifiers.now.enumeration }
{
    match &specifiers.enumeration {
        Some(found) => matches!(found.get(), Enumeration::Listed { .. }),
        None => false,
    }
}

/// The `enum` that stands here with the type behind it, and the keywords behind that which are no
/// words of types.
fn enum_type(
    alloc: Global,
    source: &Source,
    at: usize,
    left: u32,
    allowed: AllowedStorage,
) -> Result<(Words, usize), ReadError>
    requires more { GoesOn source.now at }
    requires room { HasRoom left at }
    ensures { Gives (enum_type (goes_in allowed)) source.now left at result }
{
    let (enumeration, next) = enumeration(alloc, source, at + 1, left)?;
    let (behind, end) = qualifiers(alloc, source, next, allowed)?;
    let place = source.place(at);
    let words = enum_words(alloc, place, enumeration, behind.as_slice())?;
    Ok((words, end))
}

/// Whether an enumerated type begins here behind keywords, among which a word of a type is or not.
fn opens_enum(source: &Source, at: usize, typed: bool) -> bool
    requires { at < length source.now }
    ensures value { result ≡ not typed && is Enum (leaf_at source.now at) }
    ensures more { IsTrue result → GoesOn source.now at }
{
    !typed && source.is(at, Terminal::Enum)
}

/// What stands here behind keywords of specifiers, among which a word of a type is or not.
fn any_type(
    alloc: Global,
    source: &Source,
    at: usize,
    left: u32,
    allowed: AllowedStorage,
    typed: bool,
) -> Result<(Words, usize), ReadError>
    requires within { at < length source.now }
    requires room { HasRoom left at }
    ensures { Gives (λ G. declared_type (enumeration G true) (goes_in allowed) typed)
        source.now left at result }
{
    if opens_enum(source, at, typed) {
        enum_type(alloc, source, at, left, allowed)
    } else {
        declared_type(alloc, source, at, allowed, typed)
    }
}

/// The specifiers that stand here, with the words of one type among them, in any order, or a
/// typedef name, or `enum` with a tag or enumerators.
pub fn specifiers(
    alloc: Global,
    source: &Source,
    at: usize,
    left: u32,
    allowed: AllowedStorage,
) -> Result<(Specifiers, usize), ReadError>
    requires within { at < length source.now }
    requires room { HasRoom left at }
    ensures { Gives (λ G. specifiers (enumeration G true) (goes_in allowed))
        source.now left at result }
{
    let (front, next) = keywords(alloc, source, at, allowed)?;
    let typed = have_word(front.as_slice());
    let (words, behind) = any_type(alloc, source, next, left, allowed, typed)?;
    let place = source.place(at);
    let specifiers = specifiers_of(front, words, place)?;
    Ok((specifiers, behind))
}

//! What a typedef makes its names stand for: `named_type` of `Parts.antt` of `c_grammar_tree`.
ghost use Rattle.std.specs.Prelude.{◌≡◌, ◌≤◌, length};
ghost use Rattle.c_grammar_tree.specs.Parts.{is_the_word, times, size_of, named_type};

use c_grammar_symbols::{NamedType, Size, TypeWord};
use c_grammar_tree::{Specifier, SpecifierKind, have_const, named_among};

/// Whether it is this word of a type.
fn is_the_word(wanted: TypeWord, found: Specifier) -> bool
    ensures { result ≡ is_the_word wanted found }
{
    match found.kind {
        SpecifierKind::TypeWord(word) => word == wanted,
        SpecifierKind::Storage(_)
        | SpecifierKind::Other(_)
        | SpecifierKind::TypedefName(_)
        | SpecifierKind::Enum => false,
    }
}

/// How often this word of a type stands among these.
fn times(wanted: TypeWord, words: &[Specifier]) -> usize
    ensures value { result ≡ times wanted words.now }
    ensures bound { result ≤ length words.now }
{
    words
        .iter()
        .filter(|found| is_the_word(wanted, **found))
        .count()
}

/// How wide the type is that these name.
fn size_of(words: &[Specifier]) -> Size
    ensures { result ≡ size_of words.now }
{
    if times(TypeWord::Bool, words) > 0 {
        Size::Bool
    } else if times(TypeWord::Char, words) > 0 {
        Size::Char
    } else if times(TypeWord::Short, words) > 0 {
        Size::Short
    } else if times(TypeWord::Long, words) > 1 {
        Size::LongLong
    } else if times(TypeWord::Long, words) > 0 {
        Size::Long
    } else {
        Size::Int
    }
}

/// What a name stands for that is declared with these and typedef.
pub fn named_type(words: &[Specifier]) -> NamedType
    ensures { result ≡ named_type words.now }
{
    let is_const = have_const(words);
    match named_among(words) {
        Some(named) => NamedType {
            size: named.size,
            is_unsigned: named.is_unsigned,
            is_const,
        },
        None => NamedType {
            size: size_of(words),
            is_unsigned: times(TypeWord::Unsigned, words) > 0,
            is_const,
        },
    }
}

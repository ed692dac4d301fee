//! What the words of specifiers say of const and of typedef names (`named_among`, `have_const` of
//! `specs/Parts.antt`).
ghost use Rattle.std.specs.Prelude.{◌≡◌};
ghost use Rattle.c_grammar_tree.specs.Parts.{named_by, named_among, is_const_word, have_const};

use crate::{Specifier, SpecifierKind};
use c_grammar_symbols::{NamedType, SpecifierWord};

/// What the word stands for, where it is a typedef name.
fn named_by(word: Specifier) -> Option<NamedType>
    ensures { result ≡ named_by word }
{
    match word.kind {
        SpecifierKind::TypedefName(named) => Some(named),
        SpecifierKind::Storage(_)
        | SpecifierKind::Other(_)
        | SpecifierKind::TypeWord(_)
        | SpecifierKind::Enum => None,
    }
}

/// What the first typedef name among these stands for.
pub fn named_among(words: &[Specifier]) -> Option<NamedType>
    ensures { result ≡ named_among words.now }
{
    for word in words {
        if let Some(named) = named_by(*word) {
            return Some(named);
        }
    }
    None
}

/// Whether the word makes what is declared const.
fn is_const_word(word: Specifier) -> bool
    ensures { result ≡ is_const_word word }
{
    match word.kind {
        SpecifierKind::Other(SpecifierWord::Const) => true,
        SpecifierKind::TypedefName(named) => named.is_const,
        SpecifierKind::Storage(_)
        | SpecifierKind::Other(_)
        | SpecifierKind::TypeWord(_)
        | SpecifierKind::Enum => false,
    }
}

/// Whether one of these does (C11 6.7.3).
pub fn have_const(words: &[Specifier]) -> bool
    ensures { result ≡ have_const words.now }
{
    words.iter().any(|word| is_const_word(*word))
}

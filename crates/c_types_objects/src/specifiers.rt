//! What specifiers say of an object or a function (`kind_of` and `has_const` of `c_types_rules`,
//! `specs/Declarations.antt`). Proved with `proofs/Words.antt`.
ghost use Rattle.std.specs.Prelude.{◌≡◌, ◌++◌, ◌∷◌, [], IfOk, OnOk};
ghost use Rattle.c_grammar_tree.specs.Parts.{type_words};
ghost use Rattle.c_types_rules.specs.Declarations.{is_void_word, kind_by, kind_of, has_const};
ghost use Rattle.c_types_rules.specs.Types.{kind_of_words};

use c_grammar_symbols::TypeWord;
use c_grammar_tree::{Specifier, SpecifierKind, Specifiers, have_const, named_among};
use c_types_names::Survey;
use c_types_rules::{Kind, kind_of_words, type_of_named};
use cpa_ints::{DataModel, IntType};
use std::alloc::{AllocError, Global};

/// What specifiers say of an object: its type, and whether it is const.
#[derive(Clone, Copy, PartialEq, Eq)]
pub struct Qualified {
    pub kind: Kind,
    pub is_const: bool,
}

/// What these specifiers of a text say.
pub fn read_specifiers(
    alloc: Global,
    survey: &Survey,
    specifiers: &Specifiers,
) -> Result<Qualified, AllocError>
    ensures kind { IfOk result (λ q. q.kind ≡ kind_of survey.now specifiers.now) }
    ensures is_const { IfOk result (λ q. q.is_const ≡ has_const specifiers.now) }
{
    let kind = kind_of(alloc, survey, specifiers)?;
    Ok(Qualified {
        kind,
        is_const: has_const(specifiers),
    })
}

/// The type that specifiers of a text name.
pub(crate) fn kind_of(
    alloc: Global,
    survey: &Survey,
    specifiers: &Specifiers,
) -> Result<Kind, AllocError>
    ensures { IfOk result (λ kind. kind ≡ kind_of survey.now specifiers.now) }
{
    let model = survey.model();
    let words = specifiers.words.as_slice();
    if let [word] = words {
        return Ok(kind_of_one(model, *word));
    }
    match named_among(words) {
        Some(named) => Ok(Kind::Value(type_of_named(model, named))),
        None => {
            let words = type_words(alloc, words)?;
            Ok(kind_of_words(model, words.as_slice()))
        }
    }
}

/// The type that a word of a type names where it stands alone.
fn kind_of_word(model: DataModel, word: TypeWord) -> Kind
    ensures { result ≡ kind_of_words model (word ∷ []) }
{
    match word {
        TypeWord::Void => Kind::Void,
        TypeWord::Bool => Kind::Value(IntType::Bool),
        TypeWord::Char => Kind::Value(IntType::I8),
        TypeWord::Short => Kind::Value(IntType::I16),
        TypeWord::Int | TypeWord::Signed => Kind::Value(IntType::I32),
        TypeWord::Long => Kind::Value(model.long()),
        TypeWord::Unsigned => Kind::Value(IntType::U32),
    }
}

/// The type that a single word names, without a list of it.
fn kind_of_one(model: DataModel, word: Specifier) -> Kind
    ensures { result ≡ kind_by model (word ∷ []) }
{
    match word.kind {
        SpecifierKind::TypedefName(named) => Kind::Value(type_of_named(model, named)),
        SpecifierKind::TypeWord(type_word) => kind_of_word(model, type_word),
        SpecifierKind::Storage(_) | SpecifierKind::Other(_) | SpecifierKind::Enum => {
            kind_of_words(model, &[])
        }
    }
}

/// Whether specifiers have `const` among them.
pub(crate) fn has_const(specifiers: &Specifiers) -> bool
    ensures { result ≡ has_const specifiers.now }
{
    have_const(specifiers.words.as_slice())
}

/// Whether the word is `void`.
pub(crate) fn is_void_word(word: Specifier) -> bool
    ensures { result ≡ is_void_word word }
{
    match word.kind {
        SpecifierKind::TypeWord(TypeWord::Void) => true,
        SpecifierKind::Storage(_)
        | SpecifierKind::Other(_)
        | SpecifierKind::TypeWord(_)
        | SpecifierKind::TypedefName(_)
        | SpecifierKind::Enum => false,
    }
}

/// Adds the word, if it is one of a type.
fn push_type_word(found: &mut Vec<TypeWord>, word: Specifier) -> Result<(), AllocError>
    ensures { OnOk result (found.new.items ≡ found.old.items ++ type_words (word ∷ [])) }
{
    match word.kind {
        SpecifierKind::TypeWord(type_word) => {
            found.push(type_word)?;
            Ok(())
        }
        SpecifierKind::Storage(_)
        | SpecifierKind::Other(_)
        | SpecifierKind::TypedefName(_)
        | SpecifierKind::Enum => Ok(()),
    }
}

/// The words of types among these.
#[tactic(auto, using(crate::proofs::Words::type_words_more))]
fn type_words(alloc: Global, words: &[Specifier]) -> Result<Vec<TypeWord>, AllocError>
    ensures { IfOk result (λ found. found.items ≡ type_words words.now) }
{
    let mut found = Vec::new(alloc);
    for word in words {
        push_type_word(&mut found, *word)?;
    }
    Ok(found)
}

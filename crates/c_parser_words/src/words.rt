//! The reader of specifiers, which are `specifiers` of `Declarations.antt` of `c_grammar_tree`.
//! Proved with `proofs/SpecifierWords.antt`.
ghost use Rattle.std.specs.Prelude.{◌≡◌, ◌<◌, [], ◌∷◌, false, length, IfOk, IfSome};
ghost use Rattle.c_grammar_forms.specs.Forms.{Node, Skip, Pair};
ghost use Rattle.c_grammar_symbols.specs.Sources.{GoesOn};
ghost use Rattle.c_grammar_tree.specs.Parts.{is_word, have_word};
ghost use Rattle.c_grammar_tree.specs.Declarations.{keywords, qualifiers, tag, typedef_words};
ghost use Rattle.c_grammar_tree.specs.Declarations.{enum_words, declared_type, specifiers};
ghost use Rattle.c_parser_words.specs.Answers.{Finds};
ghost use Rattle.c_grammar_symbols.specs.declared.symbol.Symbol.TheVariants as stands;
ghost use Rattle.c_parser_words.specs.Storage.{goes, goes_in};
ghost use Rattle.c_parser_words.specs.Steps.{IsKind, IsOnly, IsQualifier};
ghost use Rattle.c_parser_words.specs.Specified.{AreEnumWords, AreSpecified};

use crate::names::identifier;
use crate::types::push_type;
use c_grammar_forms::ReadError;
use c_grammar_symbols::{NamedType, Source, StorageWord, Symbol, Terminal, TypeWord};
use c_grammar_tree::{Enumeration, Specifier, SpecifierKind, Specifiers};
use cpa_ints::{Boxed, Seq};
use std::alloc::{AllocError, Global};

/// Which storage classes may stand among specifiers (C11 6.7.1).
#[derive(Clone, Copy, PartialEq, Eq)]
pub enum AllowedStorage {
    /// All of them, as before items and parameters.
    Any,
    /// `register` alone, as in a function.
    Register,
    /// None, as behind `typedef`, where `void` may not stand either.
    InTypedef,
}

impl AllowedStorage {
    /// Whether this one may stand there.
    fn allows(self, word: StorageWord) -> bool
        ensures { result ≡ goes self (stands.Storage word) }
    {
        match self {
            AllowedStorage::Any => true,
            AllowedStorage::Register => word == StorageWord::Register,
            AllowedStorage::InTypedef => false,
        }
    }

    /// Whether this word of a type may stand there.
    fn allows_type(self, word: TypeWord) -> bool
        ensures { result ≡ goes self (stands.TypeWord word) }
    {
        match self {
            AllowedStorage::Any | AllowedStorage::Register => true,
            AllowedStorage::InTypedef => !matches!(word, TypeWord::Void),
        }
    }
}

/// What the keyword is among specifiers, where it may stand there.
fn specifier_kind(allowed: AllowedStorage, symbol: Symbol) -> Option<SpecifierKind>
    ensures { IsKind allowed symbol result }
{
    match symbol {
        Symbol::Storage(word) => {
            if allowed.allows(word) {
                Some(SpecifierKind::Storage(word))
            } else {
                None
            }
        }
        Symbol::Specifier(word) => Some(SpecifierKind::Other(word)),
        Symbol::TypeWord(word) => {
            if allowed.allows_type(word) {
                Some(SpecifierKind::TypeWord(word))
            } else {
                None
            }
        }
        _ => None,
    }
}

/// What the symbol is among specifiers behind a typedef name, where it may stand there.
fn qualifier_kind(allowed: AllowedStorage, symbol: Symbol) -> Option<SpecifierKind>
    ensures { IsQualifier allowed symbol result }
{
    match symbol {
        Symbol::TypeWord(_) => None,
        _ => specifier_kind(allowed, symbol),
    }
}

/// Words of specifiers, and the enumerated type of the word `enum` among them.
pub type Words = (Seq<Specifier>, Option<Boxed<Enumeration>>);

/// The keyword that stands here alone among specifiers: what stands behind it is none.
fn only_keyword(source: &Source, at: usize, allowed: AllowedStorage) -> Option<SpecifierKind>
    requires { at < length source.now }
    ensures { IfSome result (IsOnly allowed source.now at) }
{
    match specifier_kind(allowed, source.symbol(at)) {
        Some(kind) => match specifier_kind(allowed, source.symbol(at + 1)) {
            Some(_) => None,
            None => Some(kind),
        },
        None => None,
    }
}

/// The specifier of one keyword.
fn one_specifier(
    alloc: Global,
    kind: SpecifierKind,
    place: u32,
) -> Result<Seq<Specifier>, AllocError>
    ensures { IfOk result (λ words. words ≡ record { kind = kind; place = place } ∷ []) }
{
    let mut words = Vec::with_capacity(alloc, 1)?;
    words.push(Specifier { kind, place })?;
    Ok(Seq::from_vec(words))
}

/// The keywords of specifiers that stand here, as they are listed: with the words of their type
/// beside them, by which one that does not stand with these is found.
fn listed_keywords(
    alloc: Global,
    source: &Source,
    at: usize,
    allowed: AllowedStorage,
) -> Result<(Seq<Specifier>, usize), ReadError>
    requires { at < length source.now }
    ensures { Finds (keywords (goes_in allowed)) source.now at result }
{
    let mut words = Vec::with_capacity(alloc, 1)?;
    let mut types = Vec::new(alloc);
    let mut here = at;
    while let Some(kind) = specifier_kind(allowed, source.symbol(here)) {
        push_type(&mut types, kind, here)?;
        let place = source.place(here);
        words.push(Specifier { kind, place })?;
        here += 1;
    }
    Ok((Seq::from_vec(words), here))
}

/// The keywords of specifiers that stand here, with words of one type among them, or none, in any
/// order. A word that no type has with those before it is the fault. Most specifiers are one
/// keyword, for which no words of a type are listed.
pub fn keywords(
    alloc: Global,
    source: &Source,
    at: usize,
    allowed: AllowedStorage,
) -> Result<(Seq<Specifier>, usize), ReadError>
    requires { at < length source.now }
    ensures { Finds (keywords (goes_in allowed)) source.now at result }
{
    match only_keyword(source, at, allowed) {
        Some(kind) => {
            let behind = at + 1;
            let words = one_specifier(alloc, kind, source.place(at))?;
            Ok((words, behind))
        }
        None => listed_keywords(alloc, source, at, allowed),
    }
}

/// Whether it is a word of a type.
fn is_word(word: Specifier) -> bool
    ensures { result ≡ is_word word }
{
    match word.kind {
        SpecifierKind::TypeWord(_) => true,
        SpecifierKind::Storage(_)
        | SpecifierKind::Other(_)
        | SpecifierKind::TypedefName(_)
        | SpecifierKind::Enum => false,
    }
}

/// Whether a word of a type is among these.
pub fn have_word(words: &[Specifier]) -> bool
    ensures { result ≡ have_word words.now }
{
    words.iter().any(|word| is_word(*word))
}

/// The keywords that stand here and are no words of types.
pub fn qualifiers(
    alloc: Global,
    source: &Source,
    at: usize,
    allowed: AllowedStorage,
) -> Result<(Seq<Specifier>, usize), ReadError>
    requires { at < length source.now }
    ensures { Finds (qualifiers (goes_in allowed)) source.now at result }
{
    let mut words = Vec::new(alloc);
    let mut here = at;
    while let Some(kind) = qualifier_kind(allowed, source.symbol(here)) {
        let place = source.place(here);
        words.push(Specifier { kind, place })?;
        here += 1;
    }
    Ok((Seq::from_vec(words), here))
}

/// The word, and those behind it.
fn in_front(
    alloc: Global,
    kind: SpecifierKind,
    place: u32,
    behind: &[Specifier],
) -> Result<Seq<Specifier>, AllocError>
    ensures { IfOk result (λ words. words ≡ record { kind = kind; place = place } ∷ behind.now) }
{
    let mut words = Vec::with_capacity(alloc, 1)?;
    words.push(Specifier { kind, place })?;
    words.extend_from_slice(behind)?;
    Ok(Seq::from_vec(words))
}

/// The typedef name that stands here, and the keywords behind it that are no words of types.
fn typedef_type(
    alloc: Global,
    source: &Source,
    at: usize,
    allowed: AllowedStorage,
    named: NamedType,
) -> Result<(Words, usize), ReadError>
    requires { GoesOn source.now at }
    ensures { Finds (Node (typedef_words named) (Skip (qualifiers (goes_in allowed))))
        source.now at result }
{
    let (behind, end) = qualifiers(alloc, source, at + 1, allowed)?;
    let kind = SpecifierKind::TypedefName(named);
    let place = source.place(at);
    let words = in_front(alloc, kind, place, behind.as_slice())?;
    Ok(((words, None), end))
}

/// The word `enum` at this place, the enumerated type behind it, and the words behind that.
pub fn enum_words(
    alloc: Global,
    place: u32,
    enumeration: Boxed<Enumeration>,
    behind: &[Specifier],
) -> Result<Words, AllocError>
    ensures { IfOk result (λ words. AreEnumWords place enumeration behind.now words) }
{
    let words = in_front(alloc, SpecifierKind::Enum, place, behind)?;
    Ok((words, Some(enumeration)))
}

/// The tag that stands here.
fn tag(alloc: Global, source: &Source, at: usize) -> Result<(Boxed<Enumeration>, usize), ReadError>
    requires { at < length source.now }
    ensures { Finds tag source.now at result }
{
    let (name, behind) = identifier(alloc, source, at)?;
    let tag = Boxed::new(alloc, Enumeration::Tag(name))?;
    Ok((tag, behind))
}

/// The `enum` that stands here with its tag, and the keywords behind it that are no words of types.
fn enum_type(
    alloc: Global,
    source: &Source,
    at: usize,
    allowed: AllowedStorage,
) -> Result<(Words, usize), ReadError>
    requires { GoesOn source.now at }
    ensures { Finds (Node enum_words (Skip (Pair tag (qualifiers (goes_in allowed)))))
        source.now at result }
{
    let (enumeration, next) = tag(alloc, source, at + 1)?;
    let (behind, end) = qualifiers(alloc, source, next, allowed)?;
    let place = source.place(at);
    let words = enum_words(alloc, place, enumeration, behind.as_slice())?;
    Ok((words, end))
}

/// What stands here behind keywords of specifiers, among which a word of a type is or not.
pub fn declared_type(
    alloc: Global,
    source: &Source,
    at: usize,
    allowed: AllowedStorage,
    typed: bool,
) -> Result<(Words, usize), ReadError>
    requires { at < length source.now }
    ensures { Finds (declared_type tag (goes_in allowed) typed) source.now at result }
{
    if typed {
        return Ok(((Seq::new(alloc), None), at));
    }
    if source.is(at, Terminal::Enum) {
        return enum_type(alloc, source, at, allowed);
    }
    let Symbol::TypedefName(named) = source.symbol(at) else {
        return Err(ReadError::Unexpected { at });
    };
    typedef_type(alloc, source, at, allowed, named)
}

/// The words one behind the other, as specifiers that begin at this place.
pub fn specifiers_of(
    front: Seq<Specifier>,
    words: Words,
    place: u32,
) -> Result<Specifiers, AllocError>
    ensures { IfOk result (λ specifiers. AreSpecified front words place specifiers) }
{
    let (behind, enumeration) = words;
    let mut words = front.into_vec();
    words.extend_from_slice(behind.as_slice())?;
    Ok(Specifiers {
        words: Seq::from_vec(words),
        enumeration,
        place,
    })
}

/// The specifiers that stand here, with the words of one type among them, in any order, or a
/// typedef name, or `enum` and a tag. A word that no type has with those before it is the fault;
/// without a type it is what stands behind them.
pub fn specifiers(
    alloc: Global,
    source: &Source,
    at: usize,
    allowed: AllowedStorage,
) -> Result<(Specifiers, usize), ReadError>
    requires { at < length source.now }
    ensures { Finds (specifiers tag (goes_in allowed)) source.now at result }
{
    let (front, next) = keywords(alloc, source, at, allowed)?;
    let typed = have_word(front.as_slice());
    let (words, behind) = declared_type(alloc, source, next, allowed, typed)?;
    let place = source.place(at);
    let specifiers = specifiers_of(front, words, place)?;
    Ok((specifiers, behind))
}

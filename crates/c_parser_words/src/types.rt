//! The words of a type: which may stand together, and their reader, which is `type_name` of
//! `Expressions.antt` of `c_grammar_tree`.
ghost use Rattle.std.specs.Prelude.{◌≡◌, ◌<◌, ◌≤◌, true, length, OnOk, IfErr, Vec};
ghost use Rattle.c_grammar_tree.specs.Parts.{occurrences, at_most, at_most_one_sign};
ghost use Rattle.c_grammar_tree.specs.Parts.{is_part_of_type};
ghost use Rattle.c_grammar_symbols.specs.declared.symbol.Symbol.TheVariants as stands;
ghost use Rattle.c_grammar_symbols.specs.declared.words.Terminal.TheVariants.{Enum};
ghost use Rattle.c_grammar_symbols.specs.Sources.{GoesOn};
ghost use Rattle.c_grammar_tree.specs.Expressions.{words_of_type, type_name_at, type_name};
ghost use Rattle.c_parser_words.specs.Answers.{Finds};
ghost use Rattle.c_parser_words.specs.Steps.{AreGrown, IsRefused, has_no_size};

use crate::names::identifier;
use c_grammar_forms::ReadError;
use c_grammar_symbols::{Source, Symbol, Terminal, TypeWord};
use c_grammar_tree::{SpecifierKind, TypeName};
use cpa_ints::Seq;
use std::alloc::Global;

/// How often a word stands among these.
fn occurrences(wanted: TypeWord, words: &[TypeWord]) -> usize
    ensures value { result ≡ occurrences wanted words.now }
    ensures bound { result ≤ length words.now }
{
    words.iter().filter(|found| **found == wanted).count()
}

/// Whether a word stands at most this often among these.
fn at_most(most: usize, wanted: TypeWord, words: &[TypeWord]) -> bool
    ensures { result ≡ at_most most wanted words.now }
{
    occurrences(wanted, words) <= most
}

/// Whether there is one sign at most.
fn at_most_one_sign(words: &[TypeWord]) -> bool
    ensures { result ≡ at_most_one_sign words.now }
{
    let signed = occurrences(TypeWord::Signed, words);
    let unsigned = occurrences(TypeWord::Unsigned, words);
    signed + unsigned <= 1
}

/// Whether these are some of the words of one type, or all of them.
pub fn is_part_of_type(words: &[TypeWord]) -> bool
    ensures { result ≡ is_part_of_type words.now }
{
    let is_alone = words.len() == 1;
    (is_alone || at_most(0, TypeWord::Void, words))
        && (is_alone || at_most(0, TypeWord::Bool, words))
        && at_most_one_sign(words)
        && at_most(1, TypeWord::Char, words)
        && at_most(1, TypeWord::Short, words)
        && at_most(1, TypeWord::Int, words)
        && at_most(2, TypeWord::Long, words)
        && (at_most(0, TypeWord::Char, words) || has_no_size(words))
        && (at_most(0, TypeWord::Short, words) || at_most(0, TypeWord::Long, words))
}

/// Whether no word of an integer type stands here that cannot stand with `char`.
fn has_no_size(words: &[TypeWord]) -> bool
    ensures { result ≡ has_no_size words.now }
{
    at_most(0, TypeWord::Short, words)
        && at_most(0, TypeWord::Int, words)
        && at_most(0, TypeWord::Long, words)
}

/// Appends the word to those of a type, if it is one of a type. Where they then are no part of a
/// type, the error names the place of the word.
pub fn push_type(types: &mut Vec<TypeWord>, kind: SpecifierKind, at: usize) -> Result<(), ReadError>
    requires { is_part_of_type types.old.items ≡ true }
    ensures pushed { OnOk result (AreGrown types.old.items kind types.new.items) }
    ensures refused { IfErr result (λ error. IsRefused types.old.items kind at error) }
{
    match kind {
        SpecifierKind::TypeWord(word) => {
            types.push(word)?;
            if is_part_of_type(types.as_slice()) {
                Ok(())
            } else {
                Err(ReadError::Unexpected { at })
            }
        }
        SpecifierKind::Storage(_)
        | SpecifierKind::Other(_)
        | SpecifierKind::TypedefName(_)
        | SpecifierKind::Enum => Ok(()),
    }
}

/// The words of a type that stand here. A word that no type has with those before it is the fault,
/// and so is what stands here where it is no such word. Never more than five words are kept.
fn words_of_type(alloc: Global, source: &Source, at: usize) -> Result<(TypeName, usize), ReadError>
    requires { at < length source.now }
    ensures { Finds words_of_type source.now at result }
{
    let mut words = Vec::with_capacity(alloc, 1)?;
    let mut here = at;
    while let Symbol::TypeWord(word) = source.symbol(here) {
        push_type(&mut words, SpecifierKind::TypeWord(word), here)?;
        here += 1;
    }
    if words.is_empty() {
        return Err(ReadError::Unexpected { at: here });
    }
    let place = source.place(at);
    let words = Seq::from_vec(words);
    Ok((TypeName::Words { words, place }, here))
}

/// The `enum` that stands here, with its tag.
fn enum_name(alloc: Global, source: &Source, at: usize) -> Result<(TypeName, usize), ReadError>
    requires { GoesOn source.now at }
    ensures { Finds (type_name_at (stands.Terminal Enum)) source.now at result }
{
    let (tag, behind) = identifier(alloc, source, at + 1)?;
    let place = source.place(at);
    Ok((TypeName::Enum { tag, place }, behind))
}

/// The typedef name that stands here, or `enum` and a tag, or else the words of a type.
pub fn type_name(alloc: Global, source: &Source, at: usize) -> Result<(TypeName, usize), ReadError>
    requires { at < length source.now }
    ensures { Finds type_name source.now at result }
{
    if source.is(at, Terminal::Enum) {
        return enum_name(alloc, source, at);
    }
    match source.symbol(at) {
        Symbol::TypedefName(named) => {
            let place = source.place(at);
            Ok((TypeName::Typedef { named, place }, at + 1))
        }
        _ => words_of_type(alloc, source, at),
    }
}

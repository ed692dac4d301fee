//! Readers of a function's parameters, which are `parameter`, `parameter_list` and `function_rest`
//! of `Items.antt` of `c_grammar_tree`.
ghost use Rattle.std.specs.Prelude.{◌≡◌, ◌<◌, length};
ghost use Rattle.c_grammar_forms.specs.Forms.{Perhaps, Deeper};
ghost use Rattle.c_grammar_symbols.specs.Sources.{leaf_at, GoesOn};
ghost use Rattle.c_grammar_symbols.specs.declared.words.Terminal.TheVariants.{RightParen};
ghost use Rattle.c_grammar_tree.specs.Parts.{is_not, is_specifier, have_char};
ghost use Rattle.c_grammar_tree.specs.Items.{parameter, parameter_list, function_rest};
ghost use Rattle.c_grammar_tree.specs.Items.{is_void, is_only_void, parameters_of};
ghost use Rattle.c_grammar_tree.specs.Reading.{Gives, HasRoom, HasRoomBelow, no_level};
ghost use Rattle.c_parser_words.specs.Answers.{Finds};
ghost use Rattle.c_parser_words.specs.Steps.{HasPointer, is_char, is_void_alone};

use crate::brackets::attributes;
use crate::classes::is_pointer;
use crate::lists::trimmed;
use crate::names::optional_identifier;
use crate::words::{AllowedStorage, specifiers};
use c_grammar_forms::ReadError;
use c_grammar_symbols::{Source, Symbol, Terminal, TypeWord};
use c_grammar_tree::{Parameter, Parameters, Specifier, SpecifierKind};
use cpa_ints::Seq;
use std::alloc::Global;

/// Whether the specifier is `char`.
fn is_char(specifier: &Specifier) -> bool
    ensures { result ≡ is_char specifier.now }
{
    matches!(specifier.kind, SpecifierKind::TypeWord(TypeWord::Char))
}

/// Whether `char` stands among these.
fn have_char(words: &[Specifier]) -> bool
    ensures { result ≡ have_char words.now }
{
    words.iter().any(is_char)
}

/// Whether a pointer stands here, where one may, and the place behind it.
fn pointer(source: &Source, at: usize, allowed: bool) -> (bool, usize)
    requires { at < length source.now }
    ensures { HasPointer allowed source.now at result.0 result.1 }
{
    if allowed && is_pointer(source, at) {
        (true, at + 1)
    } else {
        (false, at)
    }
}

/// The parameter that begins here. A pointer is taken only behind `char`.
pub fn parameter(alloc: Global, source: &Source, at: usize) -> Result<(Parameter, usize), ReadError>
    requires { at < length source.now }
    ensures { Finds parameter source.now at result }
{
    let (specifiers, next) = specifiers(alloc, source, at, AllowedStorage::Any)?;
    let allowed = have_char(specifiers.words.as_slice());
    let (is_pointer, behind) = pointer(source, next, allowed);
    let (name, end) = optional_identifier(alloc, source, behind)?;
    let parameter = Parameter {
        specifiers,
        is_pointer,
        name,
    };
    Ok((parameter, end))
}

/// The parameter that begins here, one level deeper.
fn inner_parameter(
    alloc: Global,
    source: &Source,
    at: usize,
    left: u32,
) -> Result<(Parameter, usize), ReadError>
    requires within { at < length source.now }
    requires room { HasRoomBelow left at }
    ensures { Gives (λ G. Deeper parameter) source.now left at result }
{
    if left == 0 {
        return Err(no_level(source, at));
    }
    parameter(alloc, source, at)
}

/// The error at the first token of a parameter for which no level is left.
fn no_level(source: &Source, at: usize) -> ReadError
    requires { at < length source.now }
    ensures { result ≡ no_level (is_specifier (leaf_at source.now at)) at }
{
    match source.symbol(at) {
        Symbol::Storage(_)
        | Symbol::Specifier(_)
        | Symbol::TypeWord(_)
        | Symbol::TypedefName(_)
        | Symbol::Terminal(Terminal::Enum) => ReadError::TooDeep { at },
        _ => ReadError::Unexpected { at },
    }
}

/// The parameters that stand here, of which there is one at least, each one level deeper.
pub fn parameter_list(
    alloc: Global,
    source: &Source,
    at: usize,
    left: u32,
) -> Result<(Seq<Parameter>, usize), ReadError>
    requires within { at < length source.now }
    requires room { HasRoomBelow left at }
    ensures { Gives (λ G. parameter_list) source.now left at result }
{
    let mut listed = Vec::with_capacity(alloc, 1)?;
    let (first, next) = inner_parameter(alloc, source, at, left)?;
    listed.push(first)?;
    let mut here = next;
    while source.is(here, Terminal::Comma) {
        let (parameter, behind) = inner_parameter(alloc, source, here + 1, left)?;
        listed.push(parameter)?;
        here = behind;
    }
    Ok((trimmed(Seq::from_vec(listed)), here))
}

/// The parameters that stand here, where no bracket closes them at once.
fn optional_parameters(
    alloc: Global,
    source: &Source,
    at: usize,
    left: u32,
) -> Result<(Option<Seq<Parameter>>, usize), ReadError>
    requires within { at < length source.now }
    requires room { HasRoomBelow left at }
    ensures { Gives (λ G. Perhaps (is_not RightParen) parameter_list) source.now left at result }
{
    if source.is(at, Terminal::RightParen) {
        Ok((None, at))
    } else {
        let (listed, behind) = parameter_list(alloc, source, at, left)?;
        Ok((Some(listed), behind))
    }
}

/// Whether the parameter is `void` alone.
fn is_only_void(parameter: &Parameter) -> bool
    ensures { let p = parameter.now in
        result ≡ is_only_void p.specifiers.words p.is_pointer p.name }
{
    match parameter.specifiers.words.as_slice() {
        [only] => !parameter.is_pointer && parameter.name.is_none() && is_void(only.kind),
        _ => false,
    }
}

/// Whether the specifier is `void`.
fn is_void(kind: SpecifierKind) -> bool
    ensures { result ≡ is_void kind }
{
    matches!(kind, SpecifierKind::TypeWord(TypeWord::Void))
}

/// Whether the parameters are `void` alone.
fn is_void_alone(parameters: &[Parameter]) -> bool
    ensures { result ≡ is_void_alone parameters.now }
{
    match parameters {
        [only] => is_only_void(only),
        _ => false,
    }
}

/// What stands between the brackets of a declarator, where the list may be absent. A list that is
/// there has a parameter.
fn parameters_of(listed: Option<Seq<Parameter>>) -> Parameters
    ensures { result ≡ parameters_of listed }
{
    match listed {
        None => Parameters::Unspecified,
        Some(parameters) => {
            if is_void_alone(parameters.as_slice()) {
                Parameters::Void
            } else {
                Parameters::Listed(parameters)
            }
        }
    }
}

/// What stands behind a function's name: its parameters in brackets, and attributes. The token here
/// is the bracket that opens, as the caller has seen. Parameters stand one level deeper.
pub fn function_rest(
    alloc: Global,
    source: &Source,
    at: usize,
    left: u32,
) -> Result<(Parameters, usize), ReadError>
    requires more { GoesOn source.now at }
    requires room { HasRoom left at }
    ensures { Gives (λ G. function_rest) source.now left at result }
{
    let (listed, closer) = optional_parameters(alloc, source, at + 1, left)?;
    let next = source.expect(closer, Terminal::RightParen)?;
    let behind = attributes(source, next)?;
    Ok((parameters_of(listed), behind))
}

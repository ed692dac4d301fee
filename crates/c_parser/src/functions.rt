//! Readers of functions behind their name, which are `function_end_at`, `body_of` and an arm of
//! `named_at` of `Items.antt` of `c_grammar_tree`.
ghost use Rattle.std.specs.Prelude.{◌≡◌, ◌<◌, length, true, Some, IsTrue, not, ◌&&◌};
ghost use Rattle.std.specs.List.{list_any};
ghost use Rattle.std.specs.Str.{bytes_eq};
ghost use Rattle.c_grammar_forms.specs.Forms.{Choice};
ghost use Rattle.c_grammar_symbols.specs.declared.words.Terminal.TheVariants.{LeftBrace, LeftParen};
ghost use Rattle.c_grammar_symbols.specs.Symbols.{symbol_of};
ghost use Rattle.c_grammar_symbols.specs.Sources.{leaf_at, is, GoesOn};
ghost use Rattle.c_grammar_tree.specs.Parts.{is_listed};
ghost use Rattle.c_grammar_tree.specs.Items.{is_known, have_pointer, body_of, function_end_at};
ghost use Rattle.c_grammar_tree.specs.Items.{declared_of};
ghost use Rattle.c_grammar_tree.specs.Items.{function};
ghost use Rattle.c_grammar_tree.specs.Reading.{Gives, HasRoom};
ghost use Rattle.c_parser.specs.Forms.{item_named};

use c_grammar_forms::ReadError;
use c_grammar_symbols::{Source, Terminal};
use c_grammar_tree::{Body, FunctionDeclarator, Item, Name, Parameter, Parameters, Specifiers};
use c_parser_statements::closed_items;
use c_parser_words::{function_rest, skipped_body};
use std::alloc::Global;

/// Whether the name has this spelling.
fn is_spelled(name: &Name, spelling: &[u8]) -> bool
    ensures { result ≡ bytes_eq name.now.bytes spelling.now }
{
    name.bytes.as_slice() == spelling
}

/// Whether the function of this name is one whose meaning the checker gives itself.
#[tactic(auto, unfolding(c_grammar_tree::specs::Items::is_known))]
fn is_known(name: &Name) -> bool
    ensures { result ≡ is_known name.now }
{
    is_spelled(name, b"reach_error")
        || is_spelled(name, b"abort")
        || is_spelled(name, b"exit")
        || is_spelled(name, b"__assert_fail")
        || is_spelled(name, b"__VERIFIER_nondet_bool")
        || is_spelled(name, b"__VERIFIER_nondet_char")
        || is_spelled(name, b"__VERIFIER_nondet_uchar")
        || is_spelled(name, b"__VERIFIER_nondet_short")
        || is_spelled(name, b"__VERIFIER_nondet_ushort")
        || is_spelled(name, b"__VERIFIER_nondet_int")
        || is_spelled(name, b"__VERIFIER_nondet_uint")
        || is_spelled(name, b"__VERIFIER_nondet_long")
        || is_spelled(name, b"__VERIFIER_nondet_ulong")
        || is_spelled(name, b"__VERIFIER_nondet_longlong")
        || is_spelled(name, b"__VERIFIER_nondet_ulonglong")
}

/// Whether one of these is a pointer.
fn any_pointer(listed: &[Parameter]) -> bool
    ensures { result ≡ list_any (λ parameter. parameter.is_pointer) listed.now }
{
    listed.iter().any(|parameter| parameter.is_pointer)
}

/// Whether a parameter is a pointer.
fn have_pointer(parameters: &Parameters) -> bool
    ensures { result ≡ have_pointer parameters.now }
{
    match parameters {
        Parameters::Listed(listed) => any_pointer(listed.as_slice()),
        _ => false,
    }
}

/// The body that begins here: any tokens with balanced braces where the function is a known one.
fn body(
    alloc: Global,
    source: &Source,
    at: usize,
    left: u32,
    known: bool,
) -> Result<(Body, usize), ReadError>
    requires more { GoesOn source.now at }
    requires room { HasRoom left at }
    ensures { Gives (λ G. body_of G known) source.now left at result }
{
    if known {
        let behind = skipped_body(source, at + 1)?;
        return Ok((Body::Skipped, behind));
    }
    let ((items, end), behind) = closed_items(alloc, source, at + 1, left)?;
    let place = source.place(at);
    Ok((Body::Block { items, place, end }, behind))
}

/// Whether the body of a function begins here, of which no parameter may be a pointer.
fn opens_body(source: &Source, at: usize, pointer: bool) -> bool
    requires { at < length source.now }
    ensures value { result ≡ not pointer && is LeftBrace (leaf_at source.now at) }
    ensures more { IsTrue result → GoesOn source.now at }
{
    !pointer && source.is(at, Terminal::LeftBrace)
}

/// What stands behind a function's declarator: the semicolon of a prototype, or a body.
fn function_end(
    alloc: Global,
    source: &Source,
    at: usize,
    left: u32,
    name: &Name,
    pointer: bool,
) -> Result<(Option<Body>, usize), ReadError>
    requires within { at < length source.now }
    requires room { HasRoom left at }
    ensures { Gives (λ G. Choice symbol_of (function_end_at G name.now pointer))
        source.now left at result }
{
    if source.is(at, Terminal::Semicolon) {
        return Ok((None, at + 1));
    }
    if !opens_body(source, at, pointer) {
        return Err(ReadError::Unexpected { at });
    }
    let (body, behind) = body(alloc, source, at, left, is_known(name))?;
    Ok((Some(body), behind))
}

/// A prototype, or a function where there is a body.
fn function_item(specifiers: Specifiers, declarator: FunctionDeclarator, body: Option<Body>) -> Item
    ensures { result ≡
        declared_of specifiers (Some (declarator.name, function declarator.parameters body)) }
{
    match body {
        None => Item::Prototype {
            specifiers,
            declarator,
        },
        Some(body) => Item::Function {
            specifiers,
            declarator,
            body,
        },
    }
}

/// The function of which the specifiers and the name are read already: what stands behind them.
pub(crate) fn function(
    alloc: Global,
    source: &Source,
    at: usize,
    left: u32,
    specifiers: Specifiers,
    name: Name,
) -> Result<(Item, usize), ReadError>
    requires bracket { (not (is_listed specifiers.enumeration)
        && is LeftParen (leaf_at source.now at)) ≡ true }
    requires more { GoesOn source.now at }
    requires room { HasRoom left at }
    ensures { Gives (item_named specifiers name) source.now left at result }
{
    let (parameters, next) = function_rest(alloc, source, at, left)?;
    let pointer = have_pointer(&parameters);
    let (body, behind) = function_end(alloc, source, next, left, &name, pointer)?;
    let declarator = FunctionDeclarator { name, parameters };
    Ok((function_item(specifiers, declarator, body), behind))
}

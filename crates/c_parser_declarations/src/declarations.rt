//! The readers of declarations in a function, which are `declaration_by` of `Declarations.antt` of
//! `c_grammar_tree`.
ghost use Rattle.std.specs.Prelude.{◌≡◌, ◌<◌, length, ◌&&◌};
ghost use Rattle.c_grammar_symbols.specs.declared.words.Terminal.TheVariants.{Semicolon};
ghost use Rattle.c_grammar_symbols.specs.Sources.{leaf_at, is};
ghost use Rattle.c_grammar_tree.specs.Parts.{is_local_specifier};
ghost use Rattle.c_grammar_tree.specs.Declarations.{enumeration, specifiers, declarators_by};
ghost use Rattle.c_grammar_tree.specs.Declarations.{declaration_by, declaration, block_declaration};
ghost use Rattle.c_grammar_tree.specs.Reading.{Gives, HasRoom, HasRoomBelow};
ghost use Rattle.c_parser_declarations.specs.Forms.{deeper_declaration};

use crate::classes::{begins_declaration, no_level};
use crate::declarators::declarators;
use crate::specification::{is_listed, specifiers as any_specifiers};
use c_grammar_forms::ReadError;
use c_grammar_symbols::{Source, Terminal};
use c_grammar_tree::{Declaration, Declarator, Specifiers};
use c_parser_words::{AllowedStorage, specifiers};
use cpa_ints::Seq;
use std::alloc::Global;

/// The specifiers of a declaration in a function, where braces may stand among them or not:
/// `register` is the one storage class there.
fn local_specifiers(
    alloc: Global,
    source: &Source,
    at: usize,
    left: u32,
    braces: bool,
) -> Result<(Specifiers, usize), ReadError>
    requires within { at < length source.now }
    requires room { HasRoom left at }
    ensures { Gives (λ G. specifiers (enumeration G braces) is_local_specifier)
        source.now left at result }
{
    if braces {
        any_specifiers(alloc, source, at, left, AllowedStorage::Register)
    } else {
        specifiers(alloc, source, at, AllowedStorage::Register)
    }
}

/// Whether the semicolon stands here that may stand in place of declarators.
fn ends_at_once(source: &Source, at: usize, free: bool) -> bool
    requires { at < length source.now }
    ensures { result ≡ free && is Semicolon (leaf_at source.now at) }
{
    free && source.is(at, Terminal::Semicolon)
}

/// The declarators that stand here, which may be left out or not.
fn declarators_by(
    alloc: Global,
    source: &Source,
    at: usize,
    left: u32,
    free: bool,
) -> Result<(Seq<Declarator>, usize), ReadError>
    requires within { at < length source.now }
    requires room { HasRoom left at }
    ensures { Gives (λ G. declarators_by G free) source.now left at result }
{
    if ends_at_once(source, at, free) {
        return Ok((Seq::new(alloc), at));
    }
    declarators(alloc, source, at, left)
}

/// The declaration in a function that begins here, where braces may stand among its specifiers or
/// not.
fn declaration_by(
    alloc: Global,
    source: &Source,
    at: usize,
    left: u32,
    braces: bool,
) -> Result<(Declaration, usize), ReadError>
    requires within { at < length source.now }
    requires room { HasRoom left at }
    ensures { Gives (declaration_by braces) source.now left at result }
{
    let (specifiers, next) = local_specifiers(alloc, source, at, left, braces)?;
    let free = is_listed(&specifiers);
    let (declarators, closer) = declarators_by(alloc, source, next, left, free)?;
    let behind = source.expect(closer, Terminal::Semicolon)?;
    let declaration = Declaration {
        specifiers,
        declarators,
    };
    Ok((declaration, behind))
}

/// The declaration of a block that begins here.
pub fn block_declaration(
    alloc: Global,
    source: &Source,
    at: usize,
    left: u32,
) -> Result<(Declaration, usize), ReadError>
    requires within { at < length source.now }
    requires room { HasRoom left at }
    ensures { Gives block_declaration source.now left at result }
{
    declaration_by(alloc, source, at, left, true)
}

/// The declaration of a `for` that begins here, one level deeper than the `for`.
pub fn inner_declaration(
    alloc: Global,
    source: &Source,
    at: usize,
    left: u32,
) -> Result<(Declaration, usize), ReadError>
    requires within { at < length source.now }
    requires room { HasRoomBelow left at }
    ensures { Gives deeper_declaration source.now left at result }
{
    if left == 0 {
        return Err(no_level(begins_declaration(source, at), at));
    }
    declaration_by(alloc, source, at, left - 1, false)
}

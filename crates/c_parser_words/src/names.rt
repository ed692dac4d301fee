//! Readers of identifiers, which are `identifier` of `Declarations.antt` of `c_grammar_tree`, and
//! of the names of a typedef, `typedef_names` of its `Items.antt`. Proved with
//! `proofs/TypedefForms`.
ghost use Rattle.std.specs.Prelude.{◌≡◌, ◌<◌, length, IfOk, IfErr};
ghost use Rattle.c_grammar_forms.specs.Forms.{Perhaps};
ghost use Rattle.c_grammar_forms.specs.declared.fault.ReadError.TheVariants.{OutOfMemory};
ghost use Rattle.c_grammar_symbols.specs.Sources.{leaf_at};
ghost use Rattle.c_grammar_tree.specs.Parts.{is_name, name_of};
ghost use Rattle.c_grammar_tree.specs.Declarations.{identifier};
ghost use Rattle.c_grammar_tree.specs.Items.{typedef_name, typedef_names};
ghost use Rattle.c_parser_words.specs.Answers.{Finds};

use crate::classes::{is_any_name, is_name};
use c_grammar_forms::ReadError;
use c_grammar_symbols::{Source, Terminal};
use c_grammar_tree::{Name, Spelling};
use cpa_ints::Seq;
use std::alloc::Global;

/// The name that the token is, whatever it stands for.
pub fn name(alloc: Global, source: &Source, at: usize) -> Result<Name, ReadError>
    requires { at < length source.now }
    ensures name { IfOk result (λ name. name ≡ name_of (leaf_at source.now at) tt) }
    ensures memory { IfErr result (λ error. error ≡ OutOfMemory) }
{
    Ok(Name {
        bytes: Spelling::new(alloc, source.bytes(at))?,
        place: source.place(at),
    })
}

/// The identifier that stands here.
pub fn identifier(alloc: Global, source: &Source, at: usize) -> Result<(Name, usize), ReadError>
    requires { at < length source.now }
    ensures { Finds identifier source.now at result }
{
    if is_name(source, at) {
        Ok((name(alloc, source, at)?, at + 1))
    } else {
        Err(ReadError::Unexpected { at })
    }
}

/// The identifier that stands here, where one does.
pub fn optional_identifier(
    alloc: Global,
    source: &Source,
    at: usize,
) -> Result<(Option<Name>, usize), ReadError>
    requires { at < length source.now }
    ensures { Finds (Perhaps is_name identifier) source.now at result }
{
    if is_name(source, at) {
        let (name, behind) = identifier(alloc, source, at)?;
        Ok((Some(name), behind))
    } else {
        Ok((None, at))
    }
}

/// The name that stands here and is to be a typedef name, which it may be already.
fn typedef_name(alloc: Global, source: &Source, at: usize) -> Result<(Name, usize), ReadError>
    requires { at < length source.now }
    ensures { Finds typedef_name source.now at result }
{
    if is_any_name(source, at) {
        Ok((name(alloc, source, at)?, at + 1))
    } else {
        Err(ReadError::Unexpected { at })
    }
}

/// The names of a typedef, of which there is one at least.
pub fn typedef_names(
    alloc: Global,
    source: &Source,
    at: usize,
) -> Result<(Seq<Name>, usize), ReadError>
    requires { at < length source.now }
    ensures { Finds typedef_names source.now at result }
{
    let (first, next) = typedef_name(alloc, source, at)?;
    let mut names = Vec::with_capacity(alloc, 1)?;
    names.push(first)?;
    let mut here = next;
    while source.is(here, Terminal::Comma) {
        let (name, behind) = typedef_name(alloc, source, here + 1)?;
        names.push(name)?;
        here = behind;
    }
    Ok((Seq::from_vec(names), here))
}

//! Readers of the items of a text (C11 6.9), which are `unit_item` and its parts of `Items.antt` of
//! `c_grammar_tree`. An item is read in the text as it is seen behind the items before it.
ghost use Rattle.std.specs.Prelude.{◌≡◌, ◌<◌, length, map, false, OnOk, IsTrue, not, ◌&&◌};
ghost use Rattle.c_grammar_symbols.specs.declared.words.Terminal.TheVariants.{LeftParen, Semicolon};
ghost use Rattle.c_grammar_symbols.specs.Sources.{leaf_at, is, GoesOn};
ghost use Rattle.c_grammar_tree.specs.Parts.{is_end, is_listed};
ghost use Rattle.c_grammar_tree.specs.Items.{typedefs_in, behind_typedefs, unit_item};
ghost use Rattle.c_grammar_tree.specs.Reading.{Gives, HasRoom};
ghost use Rattle.c_parser.specs.Forms.{item_named, item_behind, typedef_item, all_items, AreSeen};

use crate::functions::function;
use c_grammar_forms::ReadError;
use c_grammar_symbols::{NamedType, Source, Symbol, Terminal};
use c_grammar_tree::{Declaration, Item, Name, Specifiers};
use c_parser_declarations::{declarator_behind, declarators_behind, is_listed, specifiers};
use c_parser_words::{AllowedStorage, identifier, named_type, typedef_names};
use cpa_ints::Seq;
use std::alloc::{AllocError, Global};

/// The objects of which the specifiers and the first name are read already: what stands behind
/// them.
fn objects(
    alloc: Global,
    source: &Source,
    at: usize,
    left: u32,
    specifiers: Specifiers,
    name: Name,
) -> Result<(Item, usize), ReadError>
    requires within { at < length source.now }
    requires no_bracket { (not (is_listed specifiers.enumeration)
        && is LeftParen (leaf_at source.now at)) ≡ false }
    requires room { HasRoom left at }
    ensures { Gives (item_named specifiers name) source.now left at result }
{
    let (first, mark) = declarator_behind(alloc, source, at, left, name)?;
    let (declarators, closer) = declarators_behind(alloc, source, mark, left, first)?;
    let behind = source.expect(closer, Terminal::Semicolon)?;
    let declaration = Declaration {
        specifiers,
        declarators,
    };
    Ok((Item::Objects(declaration), behind))
}

/// Whether a function goes on here behind specifiers and a name: among those no enumerators stand.
fn opens_function(source: &Source, at: usize, specifiers: &Specifiers) -> bool
    requires { at < length source.now }
    ensures value { result ≡
        (not (is_listed specifiers.now.enumeration) && is LeftParen (leaf_at source.now at)) }
    ensures more { IsTrue result → GoesOn source.now at }
{
    !is_listed(specifiers) && source.is(at, Terminal::LeftParen)
}

/// The item of which the specifiers and the first name are read already.
fn named(
    alloc: Global,
    source: &Source,
    at: usize,
    left: u32,
    specifiers: Specifiers,
    name: Name,
) -> Result<(Item, usize), ReadError>
    requires within { at < length source.now }
    requires room { HasRoom left at }
    ensures { Gives (item_named specifiers name) source.now left at result }
{
    if opens_function(source, at, &specifiers) {
        function(alloc, source, at, left, specifiers, name)
    } else {
        objects(alloc, source, at, left, specifiers, name)
    }
}

/// The item of which the specifiers are read already.
fn declared(
    alloc: Global,
    source: &Source,
    at: usize,
    left: u32,
    specifiers: Specifiers,
) -> Result<(Item, usize), ReadError>
    requires within { at < length source.now }
    requires room { HasRoom left at }
    ensures { Gives (item_behind specifiers) source.now left at result }
{
    if source.is(at, Terminal::Semicolon) {
        let declaration = Declaration {
            specifiers,
            declarators: Seq::new(alloc),
        };
        return Ok((Item::Objects(declaration), at + 1));
    }
    let (name, next) = identifier(alloc, source, at)?;
    named(alloc, source, next, left, specifiers, name)
}

/// The typedef whose word stands here.
fn typedef_item(
    alloc: Global,
    source: &Source,
    at: usize,
    left: u32,
) -> Result<(Item, usize), ReadError>
    requires more { GoesOn source.now at }
    requires room { HasRoom left at }
    ensures { Gives typedef_item source.now left at result }
{
    let (specifiers, next) = specifiers(alloc, source, at + 1, left, AllowedStorage::InTypedef)?;
    let (names, closer) = typedef_names(alloc, source, next)?;
    let behind = source.expect(closer, Terminal::Semicolon)?;
    let place = source.place(at);
    let item = Item::Typedef {
        specifiers,
        names,
        place,
    };
    Ok((item, behind))
}

/// The item that begins here.
fn unit_item(
    alloc: Global,
    source: &Source,
    at: usize,
    left: u32,
) -> Result<(Item, usize), ReadError>
    requires within { at < length source.now }
    requires room { HasRoom left at }
    ensures { Gives unit_item source.now left at result }
{
    if source.is(at, Terminal::Semicolon) {
        let place = source.place(at);
        return Ok((Item::Empty { place }, at + 1));
    }
    if source.is(at, Terminal::Typedef) {
        return typedef_item(alloc, source, at, left);
    }
    let (specifiers, next) = specifiers(alloc, source, at, left, AllowedStorage::Any)?;
    declared(alloc, source, next, left, specifiers)
}

/// Whether the text ends at this place.
fn is_end(source: &Source, at: usize) -> bool
    requires { at < length source.now }
    ensures { result ≡ is_end (leaf_at source.now at) }
{
    matches!(source.symbol(at), Symbol::End)
}

/// Makes these names typedef names of this type from here on.
fn declare_all(
    alloc: Global,
    source: &mut Source,
    names: &[Name],
    ty: NamedType,
) -> Result<(), AllocError>
    ensures declared { OnOk result (source.new
        ≡ map (behind_typedefs (map (λ name. (name.bytes, ty)) names.now)) source.old) }
    ensures seen { AreSeen source.old source.new }
{
    for name in names {
        source.declare(alloc, name.bytes.as_slice(), ty)?;
    }
    Ok(())
}

/// Makes the names of a typedef typedef names from here on.
fn declare_item(alloc: Global, source: &mut Source, item: &Item) -> Result<(), AllocError>
    ensures declared { OnOk result (source.new
        ≡ map (behind_typedefs (typedefs_in item.now)) source.old) }
    ensures seen { AreSeen source.old source.new }
{
    match item {
        Item::Typedef {
            specifiers,
            names,
            ..
        } => {
            let ty = named_type(specifiers.words.as_slice());
            declare_all(alloc, source, names.as_slice(), ty)
        }
        _ => Ok(()),
    }
}

/// The items from here to the end of the text.
pub(crate) fn unit_items(
    alloc: Global,
    source: &mut Source,
    at: usize,
    left: u32,
) -> Result<(Seq<Item>, usize), ReadError>
    requires within { at < length source.old }
    requires room { HasRoom left at }
    ensures items { Gives all_items source.old left at result }
    ensures seen { AreSeen source.old source.new }
{
    let mut items = Seq::new(alloc);
    let mut here = at;
    'list: while !is_end(source, here) {
        let (item, behind) = unit_item(alloc, source, here, left)?;
        declare_item(alloc, source, &item)?;
        items.push(item)?;
        here = behind;
    }
    Ok((items, here))
}

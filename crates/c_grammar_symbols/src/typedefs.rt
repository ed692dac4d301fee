//! The typedef names that are declared so far, found by hash: `type_named` of `specs/Sources.antt`.
//! What a change leaves at each name is proved in `proofs/FirstTypes`.
ghost use Rattle.std.specs.Prelude.{◌≡◌, List, ℕ, OnOk, OnErr};
ghost use Rattle.c_grammar_symbols.specs.declared.symbol.Symbol.TheVariants.{Name};
ghost use Rattle.c_grammar_symbols.specs.Sources.{type_named, named_symbol, or_only};

use crate::named::NamedType;
use crate::symbol::Symbol;
use std::alloc::{AllocError, Global};
use std::collections::HashMap;

/// Types by name.
pub(crate) type Typedefs = HashMap<Vec<u8>, NamedType>;

/// What a name of this spelling stands for, looked up. It stands out of line, since most texts
/// declare no typedef name.
#[inline(never)]
fn found_symbol(typedefs: &Typedefs, name: &[u8]) -> Symbol
    ensures { result ≡ named_symbol Name (type_named typedefs.now name.now) }
{
    match typedefs.get(name) {
        Some(ty) => Symbol::TypedefName(*ty),
        None => Symbol::Name,
    }
}

/// What a name of this spelling stands for.
pub(crate) fn symbol_named(typedefs: &Typedefs, name: &[u8]) -> Symbol
    ensures { result ≡ named_symbol Name (type_named typedefs.now name.now) }
{
    if typedefs.is_empty() {
        return Symbol::Name;
    }
    found_symbol(typedefs, name)
}

/// Gives a name a type, unless it has one.
pub(crate) fn declare(
    alloc: Global,
    typedefs: &mut Typedefs,
    name: &[u8],
    ty: NamedType,
) -> Result<(), AllocError>
    ensures declared { (q : List ℕ) → OnOk result
        (type_named typedefs.new q ≡ or_only name.now ty q (type_named typedefs.old q)) }
    ensures kept { (q : List ℕ) → OnErr result
        (type_named typedefs.new q ≡ type_named typedefs.old q) }
{
    if typedefs.contains_key(name) {
        return Ok(());
    }
    let key = name.to_vec(alloc)?;
    typedefs.insert(key, ty)?;
    Ok(())
}

//! The objects of file scope, each once, with what its elements start at (`globals_of` of
//! `specs/Sound.antt` of `c_types_rules`). Proved with `proofs/Listed`.
ghost use Rattle.std.specs.Prelude.{◌≡◌, ◌&&◌, not, is_some, ◌++◌, ◌∷◌, [], List, IfOk, OnOk};
ghost use Rattle.std.specs.List.{flat_map};
ghost use Rattle.c_types_rules.specs.declared.meaning.Entry.{Entry as AnEntry};
ghost use Rattle.std.specs.Str.{bytes_eq};
ghost use Rattle.c_types_rules.specs.Names.{place_of};
ghost use Rattle.c_types_rules.specs.Sound.{is_object_entry, object_names, start_values};
ghost use Rattle.c_types_rules.specs.Sound.{global_named};
ghost use Rattle.c_types_rules.specs.Sound.{globals_of};
ghost use Rattle.c_types.specs.Starts.{start_names};

use c_types_globals::Start;
use c_types_names::{Firsts, Names};
use c_types_rules::{Declared, Entry, Global};
use cpa_ints::Seq;
use std::alloc::{AllocError, Global as Memory};

/// Whether it declares an object.
fn is_object_entry(entry: &Entry) -> bool
    ensures { result ≡ is_object_entry entry.now }
{
    match &entry.declared {
        Declared::Object { .. } => true,
        Declared::Function { .. } | Declared::Enumerator { .. } | Declared::Tag => false,
    }
}

/// Adds the name of an object that starts at some values.
fn push_start_name(alloc: Memory, places: &mut Firsts, start: &Start) -> Result<(), AllocError>
    ensures { OnOk result (places.new ≡ places.old ++ start.now.name ∷ []) }
{
    places.push(alloc, start.name.as_slice())
}

/// The names of the objects that start at some values.
fn start_places(alloc: Memory, starts: &[Start]) -> Result<Firsts, AllocError>
    ensures { IfOk result (λ places. places ≡ start_names starts.now) }
{
    let mut places = Firsts::new(alloc);
    for start in starts {
        push_start_name(alloc, &mut places, start)?;
    }
    Ok(places)
}

/// The values that an object starts at.
fn copied_values(alloc: Memory, start: &Start) -> Result<Seq<i128>, AllocError>
    ensures { IfOk result (λ values. values ≡ start.now.values) }
{
    Ok(Seq::from_vec(start.values.as_slice().to_vec(alloc)?))
}

/// What the object of this name starts at.
fn start_values(
    alloc: Memory,
    starts: &[Start],
    places: &Firsts,
    name: &[u8],
) -> Result<Seq<i128>, AllocError>
    requires { places.now ≡ start_names starts.now }
    ensures { IfOk result (λ values. values ≡ start_values starts.now name.now) }
{
    match places.place_of(name) {
        Some(place) => copied_values(alloc, &starts[place as usize]),
        None => Ok(Seq::new(alloc)),
    }
}

/// Lists the object of this name, if it names one.
fn push_named(
    alloc: Memory,
    names: &Names,
    starts: &[Start],
    places: &Firsts,
    name: &[u8],
    globals: &mut Vec<Global>,
) -> Result<(), AllocError>
    requires { places.now ≡ start_names starts.now }
    ensures { OnOk result (globals.new.items
        ≡ globals.old.items ++ global_named names.now starts.now name.now) }
{
    match names.declared(name) {
        Some(Declared::Object { object, .. }) => {
            let object = *object;
            let starts = start_values(alloc, starts, places, name)?;
            globals.push(Global { object, starts })?;
            Ok(())
        }
        _ => Ok(()),
    }
}

/// Whether it is the first declaration of its name that declares an object.
fn is_first(entry: &Entry, seen: &Firsts) -> bool
    ensures { result ≡ (is_object_entry entry.now
        && not (is_some (place_of (bytes_eq entry.now.name) seen.now))) }
{
    is_object_entry(entry) && seen.place_of(entry.name.as_slice()).is_none()
}

/// Lists the object of this declaration, if it is the first of its name that declares one.
fn push_declared(
    alloc: Memory,
    names: &Names,
    starts: &[Start],
    places: &Firsts,
    entry: &Entry,
    seen: &mut Firsts,
    globals: &mut Vec<Global>,
) -> Result<(), AllocError>
    requires { places.now ≡ start_names starts.now }
    ensures { (rest : List AnEntry) → OnOk result (globals.new.items
        ++ flat_map (global_named names.now starts.now) (object_names seen.new rest)
        ≡ globals.old.items ++ flat_map (global_named names.now starts.now)
        (object_names seen.old (entry.now ∷ rest))) }
{
    let name = entry.name.as_slice();
    if !is_first(entry, seen) {
        return Ok(());
    }
    seen.push(alloc, name)?;
    push_named(alloc, names, starts, places, name, globals)?;
    Ok(())
}

/// The objects of file scope, where these names are declared.
pub(crate) fn globals_of(
    alloc: Memory,
    names: &Names,
    starts: &[Start],
) -> Result<Seq<Global>, AllocError>
    ensures { IfOk result (λ globals. globals ≡ globals_of names.now starts.now) }
{
    let places = start_places(alloc, starts)?;
    let mut seen = Firsts::new(alloc);
    let mut globals = Vec::new(alloc);
    let declarations = names.declarations();
    for declaration in declarations {
        push_declared(
            alloc,
            names,
            starts,
            &places,
            declaration.entry(),
            &mut seen,
            &mut globals,
        )?;
    }
    Ok(Seq::from_vec(globals))
}

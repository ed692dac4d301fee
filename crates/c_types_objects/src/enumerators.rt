//! Enumerated types: their tags and enumerators are declared (`enumeration_walk` of
//! `specs/Statements.antt` of `c_types_rules`). Proved with `proofs/Enumerating.antt`.
ghost use Rattle.std.specs.Prelude.{◌≡◌, ℕ, ◌++◌, ◌∷◌, [], pos, ◌+ℤ◌, Some, IfOk, OnOk};
ghost use Rattle.std.specs.List.{flat_map};
ghost use Rattle.cpa_ints.specs.Integers.{IsInRange};
ghost use Rattle.cpa_ints.specs.declared.integers.IntType.TheVariants as ty;
ghost use Rattle.c_lexer.specs.declared.fault.Rule.TheVariants as rule;
ghost use Rattle.c_types_rules.specs.First.{first_with};
ghost use Rattle.c_types_rules.specs.ExpressionRules.{broken, uses_faults};
ghost use Rattle.c_types_rules.specs.Declarations.{is_int, enumerator_number, enumerator_faults};
ghost use Rattle.c_types_rules.specs.Declarations.{enumerator_uses, enumerator_entry, tag_entry};
ghost use Rattle.c_types_rules.specs.declared.meaning.Role.TheVariants.{Valued};
ghost use Rattle.c_types_rules.specs.Names.{Text};
ghost use Rattle.c_types_rules.specs.Statements.{Around, doing, refers, enumerating, tagging};
ghost use Rattle.c_types_rules.specs.Statements.{enumeration_walk};
ghost use Rattle.c_types_rules.specs.StatementRules.{site_faults};
ghost use Rattle.c_types_rules.specs.Items.{site_calls};
ghost use Rattle.c_types_expressions.specs.Read.{uses_calls, role_calls};
ghost use Rattle.c_types_objects.specs.Enumerations.{AreNamed, AddsNames, int_or_zero};
ghost use Rattle.c_types_objects.specs.Enumerations.{given_value, given_faults};
ghost use Rattle.c_types_objects.specs.Enumerations.{outside_places, listed_walk};

use crate::constants::read_fixed;
use crate::noting::{note_found, note_if};
use c_grammar_tree::{Enumeration, Enumerator, Expression, Name, Spelling};
use c_lexer::{Rule, TextFault};
use c_types_names::{Names, Survey, tag_key};
use c_types_recursion::Call;
use c_types_rules::{Declared, Entry, note_place};
use cpa_ints::{Boxed, IntType, wrap};
use std::alloc::{AllocError, Global};

/// Whether a number is one of type int.
fn is_int(number: i128) -> bool
    ensures { result ≡ is_int number }
{
    wrap(IntType::I32, number) == number
}

/// The number, or 0 where it is none of type int.
fn int_or_zero(number: i128) -> i128
    ensures value { result ≡ int_or_zero number }
    ensures range { IsInRange ty.I32 result }
{
    let is = is_int(number);
    if is { number } else { 0 }
}

/// Notes a number that is none of type int.
fn note_outside(first: &mut Option<TextFault>, number: Option<i128>, place: u32)
    ensures { first.new
        ≡ first_with first.old (broken rule.N12 (outside_places number place)) }
{
    if let Some(number) = number {
        note_if(first, Rule::N12, !is_int(number), place);
    }
}

/// The number behind one of type int.
fn number_behind(number: i128) -> i128
    requires { IsInRange ty.I32 number }
    ensures { result ≡ number +ℤ pos 1 }
{
    number + 1
}

/// Reads the value that an enumerator is given: holds its first fault, and notes its calls.
fn read_given(
    alloc: Global,
    survey: &Survey,
    names: &Names,
    caller: u32,
    given: &Expression,
    first: &mut Option<TextFault>,
    calls: &mut Vec<Call>,
) -> Result<i128, AllocError>
    ensures number { IfOk result (λ n. n ≡ given_value survey.now names.now given.now) }
    ensures first { OnOk result (first.new
        ≡ first_with first.old (given_faults survey.now names.now given.now)) }
    ensures calls { OnOk result (calls.new.items
        ≡ calls.old.items ++ role_calls survey.now names.now caller Valued given.now) }
{
    // the faults of the value come before those of its names and types
    let mut used = None;
    let fixed = read_fixed(alloc, survey, names, caller, given, &mut used, calls)?;
    note_place(first, Rule::N12, fixed.inconstant);
    note_outside(first, fixed.number, fixed.place);
    note_found(first, used);
    Ok(fixed.number.unwrap_or(0))
}

/// Reads an enumerator, of this value where none is given.
pub(crate) fn read_enumerator(
    alloc: Global,
    survey: &Survey,
    names: &Names,
    caller: u32,
    next: i128,
    one: &Enumerator,
    first: &mut Option<TextFault>,
    calls: &mut Vec<Call>,
) -> Result<i128, AllocError>
    ensures number { IfOk result (λ n. n ≡ enumerator_number survey.now names.now next one.now) }
    ensures range { IfOk result (λ n. IsInRange ty.I32 n) }
    ensures first { OnOk result (first.new ≡ first_with first.old
        (broken rule.N12 (enumerator_faults survey.now names.now next one.now)
        ++ uses_faults (enumerator_uses survey.now names.now one.now))) }
    ensures calls { OnOk result (calls.new.items ≡ calls.old.items
        ++ uses_calls caller (enumerator_uses survey.now names.now one.now)) }
{
    match &one.value {
        None => {
            note_if(first, Rule::N12, !is_int(next), one.name.place);
            Ok(int_or_zero(next))
        }
        Some(given) => {
            let number = read_given(alloc, survey, names, caller, given, first, calls)?;
            Ok(int_or_zero(number))
        }
    }
}

/// Declares an enumerator of this value.
fn declare_enumerator(
    alloc: Global,
    names: &mut Names,
    name: &[u8],
    value: i128,
) -> Result<(), AllocError>
    ensures { OnOk result (names.new ≡ names.old ++ enumerator_entry name.now value ∷ []) }
{
    let entry = Entry {
        name: Spelling::new(alloc, name)?,
        declared: Declared::Enumerator { value },
    };
    names.declare(alloc, entry)
}

/// Declares enumerators in order, of which the first has this value where none is given.
fn read_enumerators(
    alloc: Global,
    survey: &Survey,
    names: &mut Names,
    outer: usize,
    caller: u32,
    list: &[Enumerator],
    first: &mut Option<TextFault>,
    calls: &mut Vec<Call>,
) -> Result<(), AllocError>
    ensures added { OnOk result (AddsNames names.old names.new) }
    ensures names { (around : Around) → AreNamed names.old outer around → OnOk result
        (names.new ≡ ((enumerating survey.now (pos 0) list.now).behind around).names) }
    ensures first { (around : Around) → AreNamed names.old outer around → OnOk result
        (first.new ≡ first_with first.old (flat_map (site_faults survey.now)
        ((enumerating survey.now (pos 0) list.now).sites around))) }
    ensures calls { (around : Around) → AreNamed names.old outer around → OnOk result
        (calls.new.items ≡ calls.old.items ++ flat_map (site_calls survey.now caller)
        ((enumerating survey.now (pos 0) list.now).sites around)) }
{
    let mut next = 0;
    for one in list {
        let name = one.name.bytes.as_slice();
        let is_declared = names.is_declared_from(outer, name);
        note_if(first, Rule::N2, is_declared, one.name.place);
        let value = read_enumerator(alloc, survey, names, caller, next, one, first, calls)?;
        declare_enumerator(alloc, names, name, value)?;
        next = number_behind(value);
    }
    Ok(())
}

/// Declares a tag.
fn declare_tag(
    alloc: Global,
    names: &mut Names,
    outer: usize,
    tag: &Name,
    first: &mut Option<TextFault>,
) -> Result<(), AllocError>
    ensures names { OnOk result (names.new ≡ names.old ++ tag_entry tag.now.bytes ∷ []) }
    ensures first { (survey : Text) (around : Around) → AreNamed names.old outer around
        → OnOk result (first.new ≡ first_with first.old (flat_map (site_faults survey)
        ((tagging tag.now).sites around))) }
{
    let name = tag_key(alloc, tag.bytes.as_slice())?;
    let is_declared = names.is_declared_from(outer, name.as_slice());
    note_if(first, Rule::N2, is_declared, tag.place);
    let declared = Declared::Tag;
    names.declare(alloc, Entry { name, declared })?;
    Ok(())
}

/// Notes a tag that is not declared.
fn note_tag(
    alloc: Global,
    names: &Names,
    tag: &Name,
    first: &mut Option<TextFault>,
) -> Result<(), AllocError>
    ensures { (survey : Text) (around : Around) (outer : ℕ) → AreNamed names.now outer around
        → OnOk result (first.new ≡ first_with first.old (flat_map (site_faults survey)
        ((doing (refers tag.now)).sites around))) }
{
    let is_declared = names.has_tag(alloc, tag.bytes.as_slice())?;
    note_if(first, Rule::N1, !is_declared, tag.place);
    Ok(())
}

/// Declares a tag and the enumerators behind it.
fn read_tagged(
    alloc: Global,
    survey: &Survey,
    names: &mut Names,
    outer: usize,
    caller: u32,
    tag: &Name,
    list: &[Enumerator],
    first: &mut Option<TextFault>,
    calls: &mut Vec<Call>,
) -> Result<(), AllocError>
    ensures added { OnOk result (AddsNames names.old names.new) }
    ensures names { (around : Around) → AreNamed names.old outer around → OnOk result
        (names.new ≡ ((listed_walk survey.now (Some tag.now) list.now).behind around).names) }
    ensures first { (around : Around) → AreNamed names.old outer around → OnOk result
        (first.new ≡ first_with first.old (flat_map (site_faults survey.now)
        ((listed_walk survey.now (Some tag.now) list.now).sites around))) }
    ensures calls { (around : Around) → AreNamed names.old outer around → OnOk result
        (calls.new.items ≡ calls.old.items ++ flat_map (site_calls survey.now caller)
        ((listed_walk survey.now (Some tag.now) list.now).sites around)) }
{
    declare_tag(alloc, names, outer, tag, first)?;
    read_enumerators(alloc, survey, names, outer, caller, list, first, calls)?;
    Ok(())
}

/// Declares a tag, if there is one, and the enumerators behind it.
fn read_listed(
    alloc: Global,
    survey: &Survey,
    names: &mut Names,
    outer: usize,
    caller: u32,
    tag: &Option<Name>,
    list: &[Enumerator],
    first: &mut Option<TextFault>,
    calls: &mut Vec<Call>,
) -> Result<(), AllocError>
    ensures added { OnOk result (AddsNames names.old names.new) }
    ensures names { (around : Around) → AreNamed names.old outer around → OnOk result
        (names.new ≡ ((listed_walk survey.now tag.now list.now).behind around).names) }
    ensures first { (around : Around) → AreNamed names.old outer around → OnOk result
        (first.new ≡ first_with first.old (flat_map (site_faults survey.now)
        ((listed_walk survey.now tag.now list.now).sites around))) }
    ensures calls { (around : Around) → AreNamed names.old outer around → OnOk result
        (calls.new.items ≡ calls.old.items ++ flat_map (site_calls survey.now caller)
        ((listed_walk survey.now tag.now list.now).sites around)) }
{
    match tag {
        None => read_enumerators(alloc, survey, names, outer, caller, list, first, calls),
        Some(tag) => read_tagged(alloc, survey, names, outer, caller, tag, list, first, calls),
    }
}

/// Declares what an enumerated type declares.
#[inline(never)]
fn read_found(
    alloc: Global,
    survey: &Survey,
    names: &mut Names,
    outer: usize,
    caller: u32,
    found: &Enumeration,
    first: &mut Option<TextFault>,
    calls: &mut Vec<Call>,
) -> Result<(), AllocError>
    ensures added { OnOk result (AddsNames names.old names.new) }
    ensures names { (around : Around) → AreNamed names.old outer around → OnOk result
        (names.new ≡ ((enumeration_walk survey.now (Some found.now)).behind around).names) }
    ensures first { (around : Around) → AreNamed names.old outer around → OnOk result
        (first.new ≡ first_with first.old (flat_map (site_faults survey.now)
        ((enumeration_walk survey.now (Some found.now)).sites around))) }
    ensures calls { (around : Around) → AreNamed names.old outer around → OnOk result
        (calls.new.items ≡ calls.old.items ++ flat_map (site_calls survey.now caller)
        ((enumeration_walk survey.now (Some found.now)).sites around)) }
{
    match found {
        Enumeration::Tag(tag) => {
            note_tag(alloc, names, tag, first)?;
            Ok(())
        }
        Enumeration::Listed { tag, enumerators } => {
            let list = enumerators.as_slice();
            read_listed(alloc, survey, names, outer, caller, tag, list, first, calls)
        }
    }
}

/// Declares what the enumerated type of specifiers declares, where names behind the first `outer`
/// ones stand in this scope: holds the first fault, and notes the calls.
pub fn read_enumeration(
    alloc: Global,
    survey: &Survey,
    names: &mut Names,
    outer: usize,
    caller: u32,
    enumeration: &Option<Boxed<Enumeration>>,
    first: &mut Option<TextFault>,
    calls: &mut Vec<Call>,
) -> Result<(), AllocError>
    ensures added { OnOk result (AddsNames names.old names.new) }
    ensures names { (around : Around) → AreNamed names.old outer around → OnOk result
        (names.new ≡ ((enumeration_walk survey.now enumeration.now).behind around).names) }
    ensures first { (around : Around) → AreNamed names.old outer around → OnOk result
        (first.new ≡ first_with first.old (flat_map (site_faults survey.now)
        ((enumeration_walk survey.now enumeration.now).sites around))) }
    ensures calls { (around : Around) → AreNamed names.old outer around → OnOk result
        (calls.new.items ≡ calls.old.items ++ flat_map (site_calls survey.now caller)
        ((enumeration_walk survey.now enumeration.now).sites around)) }
{
    match enumeration {
        None => Ok(()),
        Some(found) => {
            let found = found.get();
            read_found(alloc, survey, names, outer, caller, found, first, calls)
        }
    }
}

//! Initializers: typed in a function (`typed_items` of `c_types_rules`, `specs/Declarations.antt`),
//! constants in file scope (`start_faults` of `specs/Items.antt`). Proved by the checker alone.
ghost use Rattle.std.specs.Prelude.{◌≡◌, ◌++◌, IfOk, OnOk, map, option_map};
ghost use Rattle.std.specs.List.{flat_map};
ghost use Rattle.c_types_rules.specs.declared.meaning.Role.TheVariants.{Valued};
ghost use Rattle.c_types_rules.specs.First.{first_with};
ghost use Rattle.c_types_rules.specs.Declarations.{items_of, typed_items};
ghost use Rattle.c_types_rules.specs.Items.{start_faults};
ghost use Rattle.c_types_rules.specs.Sound.{start_value};
ghost use Rattle.c_types_expressions.specs.Read.{typed_of, role_faults, role_calls};

use crate::constants::read_fixed;
use c_grammar_tree::{Expression, Initializer};
use c_lexer::{Rule, TextFault};
use c_types_expressions::{Notes, Reader};
use c_types_names::{Names, Survey};
use c_types_recursion::Call;
use c_types_rules::{Role, TypedExpression, TypedInitializer, note_place};
use cpa_ints::{Boxed, IntType, Seq, wrap};
use std::alloc::{AllocError, Global};

/// Reads the items of a list, each a value.
#[tactic(auto, using(c_types_rules::specs::First::first_append))]
fn read_items(
    reader: &Reader,
    items: &[Expression],
    notes: &mut Notes,
) -> Result<Vec<TypedExpression>, AllocError>
    ensures typed { IfOk result (λ r. r.items
        ≡ map (typed_of reader.now.survey.now reader.now.names.now) items.now) }
    ensures first { OnOk result (notes.new.first ≡ first_with notes.old.first
        (flat_map (role_faults reader.now.survey.now reader.now.names.now Valued) items.now)) }
    ensures calls { OnOk result (notes.new.calls.items ≡ notes.old.calls.items
        ++ flat_map (role_calls reader.now.survey.now reader.now.names.now reader.now.caller Valued)
        items.now) }
{
    let mut typed = Vec::with_capacity(reader.alloc, items.len())?;
    for item in items {
        let read = reader.read_used(Role::Valued, item, notes)?;
        typed.push(read.typed)?;
    }
    Ok(typed)
}

/// Reads an initializer with a reader, if there is one.
fn read_optional(
    reader: &Reader,
    initializer: &Option<Boxed<Initializer>>,
    notes: &mut Notes,
) -> Result<Option<TypedInitializer>, AllocError>
    ensures typed { IfOk result (λ r. r
        ≡ option_map (typed_items reader.now.survey.now reader.now.names.now) initializer.now) }
    ensures first { OnOk result (notes.new.first ≡ first_with notes.old.first
        (flat_map (role_faults reader.now.survey.now reader.now.names.now Valued)
        (items_of initializer.now))) }
    ensures calls { OnOk result (notes.new.calls.items ≡ notes.old.calls.items
        ++ flat_map (role_calls reader.now.survey.now reader.now.names.now reader.now.caller Valued)
        (items_of initializer.now)) }
{
    match initializer {
        None => Ok(None),
        Some(initializer) => match initializer.get() {
            Initializer::Scalar(value) => {
                let read = reader.read_used(Role::Valued, value, notes)?;
                let typed = Boxed::new(reader.alloc, read.typed)?;
                Ok(Some(TypedInitializer::Scalar(typed)))
            }
            Initializer::List { items, .. } => {
                let typed = read_items(reader, items.as_slice(), notes)?;
                Ok(Some(TypedInitializer::List(Seq::from_vec(typed))))
            }
        },
    }
}

/// Reads an initializer in a function, if there is one.
pub fn read_initializer(
    alloc: Global,
    survey: &Survey,
    names: &Names,
    caller: u32,
    initializer: &Option<Boxed<Initializer>>,
    first: &mut Option<TextFault>,
    calls: &mut Vec<Call>,
) -> Result<Option<TypedInitializer>, AllocError>
    ensures typed { IfOk result (λ r. r
        ≡ option_map (typed_items survey.now names.now) initializer.now) }
    ensures first { OnOk result (first.new ≡ first_with first.old
        (flat_map (role_faults survey.now names.now Valued) (items_of initializer.now))) }
    ensures calls { OnOk result (calls.new.items ≡ calls.old.items
        ++ flat_map (role_calls survey.now names.now caller Valued) (items_of initializer.now)) }
{
    let reader = Reader {
        alloc,
        survey,
        names,
        caller,
    };
    let mut notes = Notes::lent(alloc, *first, calls);
    let typed = read_optional(&reader, initializer, &mut notes)?;
    *first = notes.first;
    *calls = notes.calls;
    Ok(typed)
}

/// Reads the value that a cell of this type starts at. It stands in no body, so that its calls,
/// each of which is a fault, go nowhere.
#[tactic(auto, using(c_types_rules::specs::First::first_append))]
fn read_start(
    alloc: Global,
    survey: &Survey,
    names: &Names,
    ty: IntType,
    item: &Expression,
    first: &mut Option<TextFault>,
) -> Result<i128, AllocError>
    ensures value { IfOk result (λ n. n ≡ start_value survey.now names.now ty item.now) }
    ensures first { OnOk result (first.new
        ≡ first_with first.old (start_faults survey.now names.now item.now)) }
{
    let mut calls = Vec::new(alloc);
    let fixed = read_fixed(alloc, survey, names, 0, item, first, &mut calls)?;
    note_place(first, Rule::N12, fixed.inconstant);
    Ok(wrap(ty, fixed.number.unwrap_or(0)))
}

/// Reads the values of a list in file scope.
#[tactic(auto, using(c_types_rules::specs::First::first_append))]
fn read_start_items(
    alloc: Global,
    survey: &Survey,
    names: &Names,
    ty: IntType,
    items: &[Expression],
    first: &mut Option<TextFault>,
) -> Result<Vec<i128>, AllocError>
    ensures values { IfOk result (λ r. r.items
        ≡ map (start_value survey.now names.now ty) items.now) }
    ensures first { OnOk result (first.new
        ≡ first_with first.old (flat_map (start_faults survey.now names.now) items.now)) }
{
    let mut values = Vec::with_capacity(alloc, items.len())?;
    for item in items {
        let value = read_start(alloc, survey, names, ty, item, first)?;
        values.push(value)?;
    }
    Ok(values)
}

/// Reads an initializer in file scope, if there is one: what the first cells of an object of this
/// type start at.
pub fn read_starts(
    alloc: Global,
    survey: &Survey,
    names: &Names,
    ty: IntType,
    initializer: &Option<Boxed<Initializer>>,
    first: &mut Option<TextFault>,
) -> Result<Vec<i128>, AllocError>
    ensures values { IfOk result (λ r. r.items
        ≡ map (start_value survey.now names.now ty) (items_of initializer.now)) }
    ensures first { OnOk result (first.new ≡ first_with first.old
        (flat_map (start_faults survey.now names.now) (items_of initializer.now))) }
{
    match initializer {
        None => Ok(Vec::new(alloc)),
        Some(initializer) => match initializer.get() {
            Initializer::Scalar(item) => {
                let value = read_start(alloc, survey, names, ty, item, first)?;
                let values = Vec::from_array(alloc, [value])?;
                Ok(values)
            }
            Initializer::List { items, .. } => {
                read_start_items(alloc, survey, names, ty, items.as_slice(), first)
            }
        },
    }
}

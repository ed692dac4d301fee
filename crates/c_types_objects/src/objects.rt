//! Declarators: the declared object, and in a function its initializer behind it (`object_of` and
//! `declarator_walk` of `c_types_rules`). Proved by the checker alone.
ghost use Rattle.std.specs.Prelude.{◌≡◌, ◌++◌, ◌∷◌, [], IfOk, OnOk};
ghost use Rattle.c_types_rules.specs.First.{first_with};
ghost use Rattle.c_types_rules.specs.Declarations.{is_void_kind, length_uses, local_entry};
ghost use Rattle.c_types_rules.specs.Declarations.{object_of, names_behind, typed_local};
ghost use Rattle.c_types_rules.specs.Items.{object_faults};
ghost use Rattle.c_types_expressions.specs.Read.{uses_calls};
ghost use Rattle.c_types_objects.specs.Initializers.{items_faults, items_calls};

use crate::Qualified;
use crate::initializers::read_initializer;
use crate::lengths::read_length;
use crate::noting::note_if;
use c_grammar_tree::{Declarator, Spelling};
use c_lexer::{Rule, TextFault};
use c_types_names::{Names, Survey};
use c_types_recursion::Call;
use c_types_rules::{Declared, Entry, Kind, Object, TypedDeclarator};
use std::alloc::{AllocError, Global};

/// Whether a type is void.
fn is_void_kind(kind: Kind) -> bool
    ensures { result ≡ is_void_kind kind }
{
    match kind {
        Kind::Void => true,
        Kind::Value(_) => false,
    }
}

/// Reads the object of this number that a declarator declares.
#[tactic(auto, using(c_types_rules::specs::First::first_append))]
pub fn read_object(
    alloc: Global,
    survey: &Survey,
    names: &Names,
    caller: u32,
    number: u32,
    qualified: Qualified,
    declarator: &Declarator,
    first: &mut Option<TextFault>,
    calls: &mut Vec<Call>,
) -> Result<Object, AllocError>
    ensures object { IfOk result (λ r. r ≡ object_of survey.now names.now number qualified.kind
        qualified.is_const declarator.now) }
    ensures first { OnOk result (first.new ≡ first_with first.old
        (object_faults survey.now names.now qualified.kind declarator.now)) }
    ensures calls { OnOk result (calls.new.items ≡ calls.old.items
        ++ uses_calls caller (length_uses survey.now names.now declarator.now)) }
{
    let is_void = is_void_kind(qualified.kind);
    note_if(first, Rule::N5, is_void, declarator.name.place);
    let length = read_length(alloc, survey, names, caller, declarator, first, calls)?;
    Ok(Object {
        number,
        ty: qualified.kind.object_type(),
        length,
        is_const: qualified.is_const,
        place: Some(declarator.name.place),
    })
}

/// Declares an object in a function.
fn declare_local(
    alloc: Global,
    names: &mut Names,
    name: &[u8],
    object: Object,
) -> Result<(), AllocError>
    ensures { OnOk result (names.new ≡ names.old ++ local_entry name.now object ∷ []) }
{
    let entry = Entry {
        name: Spelling::new(alloc, name)?,
        declared: Declared::Object {
            object,
            is_initialized: false,
        },
    };
    names.declare(alloc, entry)
}

/// Reads a declarator in a function: declares its object, and reads the initializer behind it.
#[tactic(auto, using(c_types_rules::specs::First::first_append))]
pub fn read_local(
    alloc: Global,
    survey: &Survey,
    names: &mut Names,
    caller: u32,
    number: u32,
    qualified: Qualified,
    declarator: &Declarator,
    first: &mut Option<TextFault>,
    calls: &mut Vec<Call>,
) -> Result<TypedDeclarator, AllocError>
    ensures typed { IfOk result (λ r. r ≡ typed_local survey.now names.old number qualified.kind
        qualified.is_const declarator.now) }
    ensures names { OnOk result (names.new ≡ names_behind survey.now names.old number
        qualified.kind qualified.is_const declarator.now) }
    ensures first { OnOk result (first.new ≡ first_with first.old
        (object_faults survey.now names.old qualified.kind declarator.now
        ++ items_faults survey.now (names_behind survey.now names.old number qualified.kind
        qualified.is_const declarator.now) declarator.now)) }
    ensures calls { OnOk result (calls.new.items ≡ (calls.old.items
        ++ uses_calls caller (length_uses survey.now names.old declarator.now))
        ++ items_calls survey.now (names_behind survey.now names.old number qualified.kind
        qualified.is_const declarator.now) caller declarator.now) }
{
    let object = read_object(
        alloc, survey, names, caller, number, qualified, declarator, first, calls,
    )?;
    declare_local(alloc, names, declarator.name.bytes.as_slice(), object)?;
    let initializer = &declarator.initializer;
    let initializer = read_initializer(alloc, survey, names, caller, initializer, first, calls)?;
    Ok(TypedDeclarator {
        object,
        initializer,
        place: declarator.name.place,
    })
}

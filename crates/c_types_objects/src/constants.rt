//! Expressions that are to be constant (`constant_number` and `inconstant` of `c_types_rules`,
//! `specs/Declarations.antt`). Proved by the checker alone.
ghost use Rattle.std.specs.Prelude.{◌≡◌, ◌++◌, IfOk, OnOk};
ghost use Rattle.c_types_rules.specs.declared.meaning.Role.TheVariants.{Valued};
ghost use Rattle.c_types_rules.specs.First.{first_with};
ghost use Rattle.c_types_rules.specs.ExpressionRules.{option_places};
ghost use Rattle.c_types_rules.specs.Declarations.{number_by, constant_number};
ghost use Rattle.c_types_rules.specs.Declarations.{inconstant_by, inconstant};
ghost use Rattle.c_types_expressions.specs.Read.{part_of, role_faults, role_calls};

use c_grammar_tree::Expression;
use c_lexer::TextFault;
use c_types_constants::constant;
use c_types_expressions::{Notes, Reader};
use c_types_names::{Names, Survey};
use c_types_recursion::Call;
use c_types_rules::{Constant, Kind, Part, Role, value_kind};
use std::alloc::{AllocError, Global};

/// An expression that is to be constant: its place, its value, and where it is no constant.
#[derive(Clone, Copy)]
pub struct Fixed {
    pub place: u32,
    pub number: Option<i128>,
    pub inconstant: Option<u32>,
}

/// The value, of which the type and the constant are known.
fn number_by(found: Constant, kind: Option<Kind>) -> Option<i128>
    ensures { result ≡ number_by found kind }
{
    if found.is_impure {
        return None;
    }
    match value_kind(kind) {
        Some(_) => found.value,
        None => None,
    }
}

/// Where it is no constant.
fn inconstant_by(found: Constant, part: Part) -> Option<u32>
    ensures { option_places result ≡ inconstant_by found part }
{
    if found.is_impure || (value_kind(part.kind).is_some() && !found.value.is_some()) {
        Some(part.place)
    } else {
        None
    }
}

/// Reads what is to be constant: holds the first fault of its names and types, and notes its calls.
pub fn read_fixed(
    alloc: Global,
    survey: &Survey,
    names: &Names,
    caller: u32,
    e: &Expression,
    first: &mut Option<TextFault>,
    calls: &mut Vec<Call>,
) -> Result<Fixed, AllocError>
    ensures place { IfOk result (λ r. r.place ≡ (part_of survey.now names.now e.now).place) }
    ensures number { IfOk result (λ r. r.number ≡ constant_number survey.now names.now e.now) }
    ensures inconstant { IfOk result (λ r. option_places r.inconstant
        ≡ inconstant survey.now names.now e.now) }
    ensures first { OnOk result (first.new
        ≡ first_with first.old (role_faults survey.now names.now Valued e.now)) }
    ensures calls { OnOk result (calls.new.items
        ≡ calls.old.items ++ role_calls survey.now names.now caller Valued e.now) }
{
    let reader = Reader {
        alloc,
        survey,
        names,
        caller,
    };
    let mut notes = Notes::lent(alloc, *first, calls);
    let read = reader.read_used(Role::Valued, e, &mut notes)?;
    *first = notes.first;
    *calls = notes.calls;
    let found = constant(&read.typed);
    Ok(Fixed {
        place: read.part.place,
        number: number_by(found, read.part.kind),
        inconstant: inconstant_by(found, read.part),
    })
}

//! Declarations of typedef names (`typedefs_behind` and `typedefs_faults` of `specs/Items.antt` of
//! `c_types_rules`). Proved with `first_append` of `c_types_rules`.
ghost use Rattle.std.specs.Prelude.{◌≡◌, [], ◌∷◌, OnOk};
ghost use Rattle.c_types_rules.specs.First.{first_with};
ghost use Rattle.c_types_rules.specs.Declarations.{kind_of};
ghost use Rattle.c_types_rules.specs.Types.{object_type};
ghost use Rattle.c_types_rules.specs.Items.{redeclares_type, typedef_faults};
ghost use Rattle.c_types_rules.specs.Items.{typedefs_behind, typedefs_faults};
ghost use Rattle.c_types_globals.specs.Scopes.{before_of};

use crate::Scope;
use c_grammar_tree::{Name, Specifiers};
use c_lexer::{Rule, TextFault};
use c_types_names::Survey;
use c_types_objects::{note_if, read_specifiers};
use cpa_ints::IntType;
use std::alloc::{AllocError, Global};

/// Whether a name is declared already, and not as a name of this type.
fn redeclares_type(scope: &Scope, name: &[u8], ty: IntType) -> bool
    ensures { result ≡ redeclares_type (before_of scope.now) name.now ty }
{
    if scope.names.declared(name).is_some() {
        return true;
    }
    match scope.types.type_of(name) {
        Some(old) => old != ty,
        None => false,
    }
}

/// Declares a typedef name of this type, and holds the first fault.
fn declare_typedef(
    alloc: Global,
    scope: &mut Scope,
    ty: IntType,
    name: &Name,
    first: &mut Option<TextFault>,
) -> Result<(), AllocError>
    ensures scope { OnOk result (before_of scope.new
        ≡ typedefs_behind ty (name.now ∷ []) (before_of scope.old)) }
    ensures first { OnOk result (first.new ≡ first_with first.old
        (typedef_faults ty name.now (before_of scope.old))) }
{
    let bytes = name.bytes.as_slice();
    note_if(
        first,
        Rule::N2,
        redeclares_type(scope, bytes, ty),
        name.place,
    );
    scope.types.push(alloc, bytes, ty)
}

/// Declares typedef names of this type in order.
fn declare_all(
    alloc: Global,
    scope: &mut Scope,
    ty: IntType,
    names: &[Name],
    first: &mut Option<TextFault>,
) -> Result<(), AllocError>
    ensures scope { OnOk result (before_of scope.new
        ≡ typedefs_behind ty names.now (before_of scope.old)) }
    ensures first { OnOk result (first.new ≡ first_with first.old
        (typedefs_faults ty names.now (before_of scope.old))) }
{
    for name in names {
        declare_typedef(alloc, scope, ty, name, first)?;
    }
    Ok(())
}

/// Declares the names of a typedef: holds their first fault.
pub fn declare_typedefs(
    alloc: Global,
    survey: &Survey,
    scope: &mut Scope,
    specifiers: &Specifiers,
    names: &[Name],
    first: &mut Option<TextFault>,
) -> Result<(), AllocError>
    ensures scope { OnOk result (before_of scope.new ≡ typedefs_behind
        (object_type (kind_of survey.now specifiers.now)) names.now (before_of scope.old)) }
    ensures first { OnOk result (first.new ≡ first_with first.old (typedefs_faults
        (object_type (kind_of survey.now specifiers.now)) names.now (before_of scope.old))) }
{
    let ty = read_specifiers(alloc, survey, specifiers)?
        .kind
        .object_type();
    declare_all(alloc, scope, ty, names, first)
}

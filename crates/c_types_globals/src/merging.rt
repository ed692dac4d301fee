//! What a name is declared as by one declaration more, and whether that is allowed
//! (`specs/Items.antt` of `c_types_rules`). Proved by the checker alone.
ghost use Rattle.std.specs.Prelude.{◌≡◌, ◌&&◌, Some, IsTrue, IfOk};
ghost use Rattle.std.specs.Option.{option_copied};
ghost use Rattle.c_types_rules.specs.Items.{same_length, one_type, merged_object};
ghost use Rattle.c_types_rules.specs.Items.{redeclares_object};
ghost use Rattle.cpa_expr.specs.Equality.{same_type};
ghost use Rattle.c_types_rules.specs.declared.meaning.Kind.{Kind as KindOfResult};
ghost use Rattle.c_types_rules.specs.Items.{same_kind, same_flag, same_parameters};
ghost use Rattle.c_types_rules.specs.Items.{agreeing_parameters};
ghost use Rattle.c_types_rules.specs.Items.{merged_function, redeclares_function};
ghost use Rattle.c_types_rules.specs.Names.{or_else};

use c_types_rules::{Declared, Kind, Object, ParameterType};
use cpa_ints::Seq;
use std::alloc::{AllocError, Global};

/// Whether two declarations of arrays give one length, or two scalars are declared.
fn same_length(old: Option<i128>, fresh: Option<i128>) -> bool
    ensures { result ≡ same_length old fresh }
{
    match (old, fresh) {
        (None, None) => true,
        (Some(n), Some(m)) => n == m || n == 0 || m == 0,
        (Some(_), None) | (None, Some(_)) => false,
    }
}

/// Whether two declarations give an object one type.
fn one_type(old: Object, fresh: Object) -> bool
    ensures { result ≡ one_type old fresh }
{
    old.ty == fresh.ty && same_length(old.length, fresh.length)
}

/// Whether an object is declared whose name is taken.
pub(crate) fn redeclares_object(
    declared: Option<&Declared>,
    fresh: Object,
    initializes: bool,
) -> bool
    ensures { result ≡ redeclares_object (option_copied declared.entry) fresh initializes }
{
    match declared {
        None => false,
        Some(
            Declared::Object {
                object,
                is_initialized,
            },
        ) => !one_type(*object, fresh) || (*is_initialized && initializes),
        Some(Declared::Function { .. } | Declared::Enumerator { .. } | Declared::Tag) => true,
    }
}

/// What a name is declared as where an object of it is declared.
pub(crate) fn merged_object(
    declared: Option<&Declared>,
    fresh: Object,
    initializes: bool,
) -> Declared
    ensures { result ≡ merged_object (option_copied declared.entry) fresh initializes }
{
    match declared {
        Some(
            Declared::Object {
                object,
                is_initialized,
            },
        ) if one_type(*object, fresh) => Declared::Object {
            object: Object {
                is_const: object.is_const || fresh.is_const,
                ..*object
            },
            is_initialized: *is_initialized || initializes,
        },
        _ => Declared::Object {
            object: fresh,
            is_initialized: initializes,
        },
    }
}

/// Whether two functions have results of one type.
pub fn same_kind(old: Kind, fresh: Kind) -> bool
    ensures { result ≡ same_kind old fresh }
{
    match (old, fresh) {
        (Kind::Void, Kind::Void) => true,
        (Kind::Value(t), Kind::Value(u)) => t == u,
        (Kind::Void, Kind::Value(_)) | (Kind::Value(_), Kind::Void) => false,
    }
}

/// Whether two parameters have one type.
fn same_parameter(old: ParameterType, fresh: ParameterType) -> bool
    ensures { result ≡ same_type old.ty fresh.ty && same_flag old.is_pointer fresh.is_pointer }
{
    old.ty == fresh.ty && old.is_pointer == fresh.is_pointer
}

/// Whether parameters have the same types in order.
fn same_parameters(old: &[ParameterType], fresh: &[ParameterType]) -> bool
    ensures { result ≡ same_parameters old.now fresh.now }
{
    let mut olds = old;
    let mut freshes = fresh;
    while let [p, more @ ..] = olds {
        match freshes {
            [q, others @ ..] => {
                if !same_parameter(*p, *q) {
                    return false;
                }
                olds = more;
                freshes = others;
            }
            [] => return false,
        }
    }
    match freshes {
        [] => true,
        [_, ..] => false,
    }
}

/// Whether parameters agree, as far as both declarations say which there are.
fn agreeing_parameters(old: &Option<Seq<ParameterType>>, fresh: &Option<Seq<ParameterType>>) -> bool
    ensures { result ≡ agreeing_parameters old.now fresh.now }
{
    match (old, fresh) {
        (Some(old), Some(fresh)) => same_parameters(old.as_slice(), fresh.as_slice()),
        _ => true,
    }
}

/// Whether a function is declared whose name is taken.
pub(crate) fn redeclares_function(
    declared: Option<&Declared>,
    kind: Kind,
    fresh: &Option<Seq<ParameterType>>,
    defines: bool,
) -> bool
    ensures { result ≡ redeclares_function (option_copied declared.entry) kind fresh.now defines }
{
    match declared {
        None => false,
        Some(Declared::Object { .. } | Declared::Enumerator { .. } | Declared::Tag) => true,
        Some(
            Declared::Function {
                result,
                parameters,
                is_defined,
            },
        ) => {
            !same_kind(*result, kind)
                || !agreeing_parameters(parameters, fresh)
                || (*is_defined && defines)
        }
    }
}

/// The parameters by the first of two declarations that says which there are.
fn first_parameters(
    alloc: Global,
    old: &Option<Seq<ParameterType>>,
    fresh: Option<Seq<ParameterType>>,
) -> Result<Option<Seq<ParameterType>>, AllocError>
    ensures { IfOk result (λ r. r ≡ or_else old.now fresh) }
{
    match old {
        Some(types) => Ok(Some(Seq::from_vec(types.as_slice().to_vec(alloc)?))),
        None => Ok(fresh),
    }
}

/// Whether a declaration adds nothing to the parameters that are known.
fn keeps_parameters(old: &Option<Seq<ParameterType>>, fresh: &Option<Seq<ParameterType>>) -> bool
    ensures { IsTrue result → or_else old.now fresh.now ≡ old.now }
{
    match (old, fresh) {
        (Some(_), _) | (None, None) => true,
        (None, Some(_)) => false,
    }
}

/// Whether a declaration says nothing of a function that an earlier one does not say.
pub(crate) fn is_said(
    declared: Option<&Declared>,
    fresh: &Option<Seq<ParameterType>>,
    defines: bool,
) -> bool
    ensures { (kind : KindOfResult) → IsTrue result → Some (merged_function
        (option_copied declared.entry) kind fresh.now defines) ≡ option_copied declared.entry }
{
    match declared {
        Some(
            Declared::Function {
                parameters,
                is_defined,
                ..
            },
        ) => keeps_parameters(parameters, fresh) && (*is_defined || !defines),
        _ => false,
    }
}

/// What a name is declared as where a function of it is declared.
pub(crate) fn merged_function(
    alloc: Global,
    declared: Option<&Declared>,
    kind: Kind,
    fresh: Option<Seq<ParameterType>>,
    defines: bool,
) -> Result<Declared, AllocError>
    ensures { IfOk result (λ r. r
        ≡ merged_function (option_copied declared.entry) kind fresh defines) }
{
    match declared {
        Some(
            Declared::Function {
                result,
                parameters,
                is_defined,
            },
        ) => Ok(Declared::Function {
            result: *result,
            parameters: first_parameters(alloc, parameters, fresh)?,
            is_defined: *is_defined || defines,
        }),
        _ => Ok(Declared::Function {
            result: kind,
            parameters: fresh,
            is_defined: defines,
        }),
    }
}

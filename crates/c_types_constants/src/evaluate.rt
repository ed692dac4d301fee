//! The value of a typed expression as a constant, each part first (`constant` of `c_types_rules`,
//! `specs/Constants.antt`). Proved with `proofs/Variants.antt`.
ghost use Rattle.std.specs.Prelude.{◌≡◌, map};
ghost use Rattle.std.specs.List.{list_any};
ghost use Rattle.c_types_rules.specs.Constants.{is_object, named_constant, joined_value, joined};
ghost use Rattle.c_types_rules.specs.Constants.{chained, constant};
ghost use Rattle.c_types_rules.specs.Constants.{impure, last_value, comma_value};
ghost use Rattle.cpa_expr.specs.Values.{truth_of, logical_or, logical_and};
ghost use Rattle.c_types_constants.specs.Links.{both_value, link_constant, suffix_impure};
ghost use Rattle.c_types_constants.specs.Links.{joined_type};
ghost use Rattle.c_types_constants.specs.Links.{signed, cast, chosen, comma_constant};

use crate::operators::{binary_value, converted, unary_value};
use c_grammar_symbols::BinaryOperator;
use c_grammar_tree::UnaryOperator;
use c_types_rules::{
    Constant, Kind, Meaning, TypedExpression, TypedSuffix, binary_type, value_kind,
};
use cpa_expr::{is_nonzero, truth};
use cpa_ints::IntType;

/// Whether what a name stands for is an object.
fn is_object(meaning: Option<Meaning>) -> bool
    ensures { result ≡ is_object meaning }
{
    match meaning {
        Some(Meaning::Object(_)) => true,
        _ => false,
    }
}

/// A name, which is a constant where it is an enumerator's.
fn named_constant(meaning: Option<Meaning>) -> Constant
    ensures { result ≡ named_constant meaning }
{
    match meaning {
        Some(Meaning::Enumerator(value)) => Constant {
            is_impure: false,
            ty: Some(IntType::I32),
            value: Some(value),
        },
        _ => Constant {
            is_impure: is_object(meaning),
            ty: None,
            value: None,
        },
    }
}

/// Whether a number is nonzero, as a number.
fn truth_of(value: Option<i128>) -> Option<i128>
    ensures { result ≡ truth_of value }
{
    match value {
        Some(a) => Some(truth(is_nonzero(a))),
        None => None,
    }
}

/// The value of `left || right`.
fn or_value(left: Option<i128>, right: Option<i128>) -> Option<i128>
    ensures { result ≡ logical_or left right }
{
    match left {
        Some(a) if is_nonzero(a) => Some(1),
        Some(_) => truth_of(right),
        None => None,
    }
}

/// The value of `left && right`.
fn and_value(left: Option<i128>, right: Option<i128>) -> Option<i128>
    ensures { result ≡ logical_and left right }
{
    match left {
        Some(a) if is_nonzero(a) => truth_of(right),
        Some(_) => Some(0),
        None => None,
    }
}

/// The value of an operator that takes both values.
fn both_value(left: Constant, operator: BinaryOperator, right: Constant) -> Option<i128>
    ensures { result ≡ both_value left operator right }
{
    match (left.ty, right.ty, left.value, right.value) {
        (Some(t), Some(u), Some(a), Some(b)) => binary_value(operator, t, a, u, b),
        _ => None,
    }
}

/// The value of `left operator right`.
fn joined_value(left: Constant, operator: BinaryOperator, right: Constant) -> Option<i128>
    ensures { result ≡ joined_value operator left right }
{
    match operator {
        BinaryOperator::LogicalOr => or_value(left.value, right.value),
        BinaryOperator::LogicalAnd => and_value(left.value, right.value),
        _ => both_value(left, operator, right),
    }
}

/// The type of an operator between operands of these types.
fn joined_type(
    left: Option<IntType>,
    operator: BinaryOperator,
    right: Option<IntType>,
) -> Option<IntType>
    ensures { result ≡ joined_type left operator right }
{
    match (left, right) {
        (Some(t), Some(u)) => Some(binary_type(operator, t, u)),
        _ => None,
    }
}

/// Two operands and an operator.
fn joined(left: Constant, operator: BinaryOperator, right: Constant) -> Constant
    ensures { result ≡ joined left (operator, right) }
{
    Constant {
        is_impure: left.is_impure || right.is_impure,
        ty: joined_type(left.ty, operator, right.ty),
        value: joined_value(left, operator, right),
    }
}

/// An operator before an operand.
fn signed(operator: UnaryOperator, operand: Constant, kind: Option<Kind>) -> Constant
    ensures { result ≡ signed operator operand kind }
{
    Constant {
        is_impure: operand.is_impure,
        ty: value_kind(kind),
        value: match (operand.ty, operand.value) {
            (Some(t), Some(a)) => unary_value(operator, t, a),
            _ => None,
        },
    }
}

/// An operand converted to a type.
fn cast(operand: Constant, kind: Option<Kind>) -> Constant
    ensures { result ≡ cast operand kind }
{
    Constant {
        is_impure: operand.is_impure,
        ty: value_kind(kind),
        value: match operand.value {
            Some(a) => converted(kind, a),
            None => None,
        },
    }
}

/// A conditional.
fn chosen(test: Constant, yes: Constant, no: Constant, kind: Option<Kind>) -> Constant
    ensures { result ≡ chosen test yes no kind }
{
    let picked = match test.value {
        Some(a) if is_nonzero(a) => yes.value,
        Some(_) => no.value,
        None => None,
    };
    Constant {
        is_impure: test.is_impure || yes.is_impure || no.is_impure,
        ty: value_kind(kind),
        value: match picked {
            Some(a) => converted(kind, a),
            None => None,
        },
    }
}

/// No constant.
fn impure() -> Constant
    ensures { result ≡ impure }
{
    Constant {
        is_impure: true,
        ty: None,
        value: None,
    }
}

/// A chain, operands from the left.
#[cycle(constant)]
fn chained(left: Constant, rest: &[(BinaryOperator, TypedExpression)]) -> Constant
    ensures { result ≡ chained left (map link_constant rest.now) }
{
    let mut left = left;
    for link in rest {
        left = joined(left, link.0, constant(&link.1));
    }
    left
}

/// Whether one of these suffixes makes its expression no constant.
#[cycle(constant)]
fn has_impure(suffixes: &[TypedSuffix]) -> bool
    ensures { result ≡ list_any suffix_impure suffixes.now }
{
    let mut found = false;
    for suffix in suffixes {
        found = found || is_impure_suffix(suffix);
    }
    found
}

/// Whether a suffix makes its expression no constant.
#[cycle(constant)]
#[tactic(auto, using(crate::proofs::Variants::is_impure_suffix_rules))]
fn is_impure_suffix(suffix: &TypedSuffix) -> bool
    ensures { result ≡ suffix_impure suffix.now }
{
    match suffix {
        TypedSuffix::Index { index, .. } => constant(index).is_impure,
        TypedSuffix::Call { .. } | TypedSuffix::Step { .. } | TypedSuffix::Skipped { .. } => true,
    }
}

/// What the value of items is before the first: none where there is none.
#[tactic(auto, using(crate::proofs::Variants::any_start))]
fn start(items: &[TypedExpression]) -> Option<i128>
    ensures { last_value result (map constant items.now) ≡ comma_value (map constant items.now) }
{
    if items.is_empty() { None } else { Some(0) }
}

/// Items of a comma expression: whether one is no constant, and the value of the last where none
/// traps.
#[cycle(constant)]
fn comma(items: &[TypedExpression], kind: Option<Kind>) -> Constant
    ensures { result ≡ comma_constant kind (map constant items.now) }
{
    let mut is_impure = false;
    let mut value = start(items);
    for item in items {
        let found = constant(item);
        is_impure = is_impure || found.is_impure;
        value = value.and(found.value);
    }
    Constant {
        is_impure,
        ty: value_kind(kind),
        value,
    }
}

/// A typed expression as a constant.
#[cycle(constant)]
#[tactic(auto, using(crate::proofs::Variants::constant_rules))]
pub fn constant(e: &TypedExpression) -> Constant
    ensures { result ≡ constant e.now }
{
    match e {
        TypedExpression::Name { meaning, .. } => named_constant(meaning.get()),
        TypedExpression::Number { ty, value, .. } => Constant {
            is_impure: false,
            ty: Some(*ty),
            value: Some(value.get()),
        },
        TypedExpression::Character { value, .. } => Constant {
            is_impure: false,
            ty: Some(IntType::I32),
            value: Some(value.get()),
        },
        TypedExpression::Bracketed { inner, .. } => constant(inner.get()),
        TypedExpression::Postfix { base, suffixes, .. } => Constant {
            is_impure: constant(base.get()).is_impure || has_impure(suffixes.as_slice()),
            ty: None,
            value: None,
        },
        TypedExpression::PrefixStep { .. } => impure(),
        TypedExpression::Unary {
            operator,
            operand,
            kind,
            ..
        } => signed(*operator, constant(operand.get()), *kind),
        TypedExpression::Cast { operand, kind, .. } => cast(constant(operand.get()), *kind),
        TypedExpression::Chain { first, rest, .. } => {
            chained(constant(first.get()), rest.as_slice())
        }
        TypedExpression::Conditional {
            test,
            yes,
            no,
            kind,
            ..
        } => chosen(
            constant(test.get()),
            constant(yes.get()),
            constant(no.get()),
            *kind,
        ),
        TypedExpression::Assignment { .. } => impure(),
        TypedExpression::Comma { items, kind, .. } => comma(items.as_slice(), *kind),
    }
}

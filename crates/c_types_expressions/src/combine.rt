//! Types of expressions from those of their parts, where `c_types_rules` has no function for it
//! (`specs/Parts.antt` of `c_types_rules`). Proved by the checker alone.
ghost use Rattle.std.specs.Prelude.{◌≡◌, ◌∷◌, []};
ghost use Rattle.c_types_rules.specs.Parts.{joined_type, last_kind};
ghost use Rattle.c_types_expressions.specs.Read.{unary_value_type, kind_before};

use c_grammar_symbols::BinaryOperator;
use c_grammar_tree::{Expression, UnaryOperator};
use c_types_rules::{Kind, Part, binary_type, unary_type, value_kind};
use cpa_ints::IntType;

/// The type of an operator before an operand of this type.
pub(crate) fn unary_kind(operator: UnaryOperator, operand: Option<Kind>) -> Option<IntType>
    ensures { result ≡ unary_value_type operator operand }
{
    match value_kind(operand) {
        Some(ty) => Some(unary_type(operator, ty)),
        None => None,
    }
}

/// The type of a chain so far, with one more link.
pub(crate) fn joined_type(
    left: Option<IntType>,
    operator: BinaryOperator,
    right: Part,
) -> Option<IntType>
    ensures { result ≡ joined_type left (operator, right) }
{
    match (left, value_kind(right.kind)) {
        (Some(left), Some(right)) => Some(binary_type(operator, left, right)),
        _ => None,
    }
}

/// The type before the first of these items, which any type will do for.
pub(crate) fn kind_before(items: &[Expression]) -> Option<Kind>
    ensures { result ≡ kind_before items.now }
{
    match items {
        [] => None,
        [_, ..] => Some(Kind::Void),
    }
}

/// The type of items so far, with one more behind them.
pub(crate) fn next_kind(before: Option<Kind>, item: Part) -> Option<Kind>
    ensures { result ≡ last_kind before (item ∷ []) }
{
    match before {
        Some(_) => item.kind,
        None => None,
    }
}

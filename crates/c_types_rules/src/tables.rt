//! What the rules of the core ask of an operator and of an object: tables of `specs/Tables.antt`,
//! line for line. Proved by the checker alone.
ghost use Rattle.std.specs.Prelude.{◌≡◌};
ghost use Rattle.c_types_rules.specs.Tables.{cells_of, is_shift, operator_of};

use crate::Object;
use c_grammar_symbols::{AssignmentOperator, BinaryOperator};

/// The operator that an assignment does before it writes (C11 6.5.16.2), None for `=`.
pub fn operator_of(operator: AssignmentOperator) -> Option<BinaryOperator>
    ensures { result ≡ operator_of operator }
{
    match operator {
        AssignmentOperator::Assign => None,
        AssignmentOperator::Multiply => Some(BinaryOperator::Multiply),
        AssignmentOperator::Divide => Some(BinaryOperator::Divide),
        AssignmentOperator::Remainder => Some(BinaryOperator::Remainder),
        AssignmentOperator::Add => Some(BinaryOperator::Add),
        AssignmentOperator::Subtract => Some(BinaryOperator::Subtract),
        AssignmentOperator::ShiftLeft => Some(BinaryOperator::ShiftLeft),
        AssignmentOperator::ShiftRight => Some(BinaryOperator::ShiftRight),
        AssignmentOperator::BitAnd => Some(BinaryOperator::BitAnd),
        AssignmentOperator::BitXor => Some(BinaryOperator::BitXor),
        AssignmentOperator::BitOr => Some(BinaryOperator::BitOr),
    }
}

/// Whether operands are promoted each by itself (C11 6.5.7p3).
pub fn is_shift(operator: BinaryOperator) -> bool
    ensures { result ≡ is_shift operator }
{
    match operator {
        BinaryOperator::ShiftLeft | BinaryOperator::ShiftRight => true,
        _ => false,
    }
}

/// How many cells an object takes: one for each element of an array.
pub fn cells_of(object: Object) -> u128
    ensures { result ≡ cells_of object }
{
    match object.length {
        None => 1,
        Some(length) => length.unsigned_abs(),
    }
}

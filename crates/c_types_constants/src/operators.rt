//! Operators on numbers of types (`c_types_rules`, `specs/Constants.antt`), by those of pure
//! expressions. Proved by the checker alone.
ghost use Rattle.std.specs.Prelude.{◌≡◌, Some};
ghost use Rattle.cpa_expr.specs.Values.{logical_or, logical_and};
ghost use Rattle.c_types_rules.specs.Constants.{arithmetic, shifted, compared, binary_value};
ghost use Rattle.c_types_rules.specs.Constants.{unary_value};
ghost use Rattle.c_types_rules.specs.Constants.{converted};

use c_grammar_symbols::BinaryOperator;
use c_grammar_tree::UnaryOperator;
use c_types_rules::Kind;
use cpa_expr::{BinOp, CmpOp, UnOp, bin_value, compares, is_nonzero, truth, un_value};
use cpa_ints::{IntType, common, promote, wrap};

/// The value of an arithmetic operator at the common type.
fn arithmetic(operator: BinOp, t: IntType, a: i128, u: IntType, b: i128) -> Option<i128>
    ensures { result ≡ arithmetic operator t a u b }
{
    let ty = common(t, u);
    bin_value(operator, ty, wrap(ty, a), wrap(ty, b))
}

/// The value of a shift, each operand promoted by itself.
fn shifted(operator: BinOp, t: IntType, a: i128, u: IntType, b: i128) -> Option<i128>
    ensures { result ≡ shifted operator t a u b }
{
    bin_value(
        operator,
        promote(t),
        wrap(promote(t), a),
        wrap(promote(u), b),
    )
}

/// Whether two numbers compare so at their common type.
fn compared(operator: CmpOp, t: IntType, a: i128, u: IntType, b: i128) -> Option<i128>
    ensures { result ≡ compared operator t a u b }
{
    let ty = common(t, u);
    Some(truth(compares(operator, wrap(ty, a), wrap(ty, b))))
}

/// Whether one of two numbers is nonzero.
fn either(a: i128, b: i128) -> Option<i128>
    ensures { result ≡ logical_or (Some a) (Some b) }
{
    Some(truth(is_nonzero(a) || is_nonzero(b)))
}

/// Whether two numbers are both nonzero.
fn both(a: i128, b: i128) -> Option<i128>
    ensures { result ≡ logical_and (Some a) (Some b) }
{
    Some(truth(is_nonzero(a) && is_nonzero(b)))
}

/// The value of `a operator b`, numbers of these types; none where it traps.
pub(crate) fn binary_value(
    operator: BinaryOperator,
    t: IntType,
    a: i128,
    u: IntType,
    b: i128,
) -> Option<i128>
    ensures { result ≡ binary_value operator t a u b }
{
    match operator {
        BinaryOperator::LogicalOr => either(a, b),
        BinaryOperator::LogicalAnd => both(a, b),
        BinaryOperator::BitOr => arithmetic(BinOp::BitOr, t, a, u, b),
        BinaryOperator::BitXor => arithmetic(BinOp::BitXor, t, a, u, b),
        BinaryOperator::BitAnd => arithmetic(BinOp::BitAnd, t, a, u, b),
        BinaryOperator::Equal => compared(CmpOp::Eq, t, a, u, b),
        BinaryOperator::NotEqual => compared(CmpOp::Ne, t, a, u, b),
        BinaryOperator::Less => compared(CmpOp::Lt, t, a, u, b),
        BinaryOperator::Greater => compared(CmpOp::Gt, t, a, u, b),
        BinaryOperator::LessEqual => compared(CmpOp::Le, t, a, u, b),
        BinaryOperator::GreaterEqual => compared(CmpOp::Ge, t, a, u, b),
        BinaryOperator::ShiftLeft => shifted(BinOp::Shl, t, a, u, b),
        BinaryOperator::ShiftRight => shifted(BinOp::Shr, t, a, u, b),
        BinaryOperator::Add => arithmetic(BinOp::Add, t, a, u, b),
        BinaryOperator::Subtract => arithmetic(BinOp::Sub, t, a, u, b),
        BinaryOperator::Multiply => arithmetic(BinOp::Mul, t, a, u, b),
        BinaryOperator::Divide => arithmetic(BinOp::Div, t, a, u, b),
        BinaryOperator::Remainder => arithmetic(BinOp::Rem, t, a, u, b),
    }
}

/// The value of `operator a`, a number of this type.
pub(crate) fn unary_value(operator: UnaryOperator, t: IntType, a: i128) -> Option<i128>
    ensures { result ≡ unary_value operator t a }
{
    let ty = promote(t);
    match operator {
        UnaryOperator::Not => Some(truth(!is_nonzero(a))),
        UnaryOperator::Plus => Some(wrap(ty, a)),
        UnaryOperator::Minus => Some(un_value(UnOp::Neg, ty, wrap(ty, a))),
        UnaryOperator::Complement => Some(un_value(UnOp::Flip, ty, wrap(ty, a))),
    }
}

/// A number converted to a type; void counts as 0.
pub(crate) fn converted(kind: Option<Kind>, a: i128) -> Option<i128>
    ensures { result ≡ converted kind a }
{
    match kind {
        None => None,
        Some(Kind::Void) => Some(0),
        Some(Kind::Value(ty)) => Some(wrap(ty, a)),
    }
}

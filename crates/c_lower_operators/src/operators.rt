//! Conversions and operators on pure values (`c_core_rules`, `specs/Values.antt`). Proved by the
//! checker alone.
ghost use Rattle.std.specs.Prelude.{◌≡◌, IfOk};
ghost use Rattle.cpa_ints.specs.Conversions.{promoted};
ghost use Rattle.cpa_expr.specs.declared.tree.Expr.TheVariants.{Un, Bin, Cond};
ghost use Rattle.cpa_expr.specs.Shape.{type_of};
ghost use Rattle.c_core_rules.specs.Values.{conv, promote, node_of, operator_value, signed_value};
ghost use Rattle.c_core_rules.specs.Values.{chosen_value, truth_of, is_constant};

use c_grammar_symbols::BinaryOperator;
use c_grammar_tree::UnaryOperator;
use c_types_rules::is_shift;
use cpa_expr::{BinOp, CmpOp, Expr, UnOp, both, cast, comparison, either, negation, type_of};
use cpa_ints::{Boxed, IntType, common, promote as promoted};
use std::alloc::{AllocError, Global};

/// A value converted to a type.
pub fn conv(alloc: Global, v: Boxed<Expr>, ty: IntType) -> Result<Boxed<Expr>, AllocError>
    ensures { IfOk result (λ e. e ≡ conv v ty) }
{
    if type_of(v.get()) == ty {
        Ok(v)
    } else {
        cast(alloc, ty, v)
    }
}

/// A value with its type promoted.
pub fn promote(alloc: Global, v: Boxed<Expr>) -> Result<Boxed<Expr>, AllocError>
    ensures { IfOk result (λ e. e ≡ promote v) }
{
    let ty = promoted(type_of(v.get()));
    conv(alloc, v, ty)
}

/// An operator on two operands of the node's type.
fn node_of(
    alloc: Global,
    operator: BinaryOperator,
    ty: IntType,
    left: Boxed<Expr>,
    right: Boxed<Expr>,
) -> Result<Boxed<Expr>, AllocError>
    ensures { IfOk result (λ e. e ≡ node_of operator ty left right) }
{
    match operator {
        BinaryOperator::LogicalOr => either(alloc, left, right),
        BinaryOperator::LogicalAnd => both(alloc, left, right),
        BinaryOperator::BitOr => binary(alloc, BinOp::BitOr, ty, left, right),
        BinaryOperator::BitXor => binary(alloc, BinOp::BitXor, ty, left, right),
        BinaryOperator::BitAnd => binary(alloc, BinOp::BitAnd, ty, left, right),
        BinaryOperator::Equal => comparison(alloc, CmpOp::Eq, ty, left, right),
        BinaryOperator::NotEqual => comparison(alloc, CmpOp::Ne, ty, left, right),
        BinaryOperator::Less => comparison(alloc, CmpOp::Lt, ty, left, right),
        BinaryOperator::Greater => comparison(alloc, CmpOp::Gt, ty, left, right),
        BinaryOperator::LessEqual => comparison(alloc, CmpOp::Le, ty, left, right),
        BinaryOperator::GreaterEqual => comparison(alloc, CmpOp::Ge, ty, left, right),
        BinaryOperator::ShiftLeft => binary(alloc, BinOp::Shl, ty, left, right),
        BinaryOperator::ShiftRight => binary(alloc, BinOp::Shr, ty, left, right),
        BinaryOperator::Add => binary(alloc, BinOp::Add, ty, left, right),
        BinaryOperator::Subtract => binary(alloc, BinOp::Sub, ty, left, right),
        BinaryOperator::Multiply => binary(alloc, BinOp::Mul, ty, left, right),
        BinaryOperator::Divide => binary(alloc, BinOp::Div, ty, left, right),
        BinaryOperator::Remainder => binary(alloc, BinOp::Rem, ty, left, right),
    }
}

/// An operator whose result has the node's type.
fn binary(
    alloc: Global,
    op: BinOp,
    ty: IntType,
    left: Boxed<Expr>,
    right: Boxed<Expr>,
) -> Result<Boxed<Expr>, AllocError>
    ensures { IfOk result (λ e. e ≡ Bin op ty left right) }
{
    let node = Expr::Bin {
        op,
        ty,
        left,
        right,
    };
    Boxed::new(alloc, node)
}

/// A shift, each operand promoted by itself.
fn shift_value(
    alloc: Global,
    operator: BinaryOperator,
    left: Boxed<Expr>,
    right: Boxed<Expr>,
) -> Result<Boxed<Expr>, AllocError>
    ensures { IfOk result (λ e. e
        ≡ node_of operator (promoted (type_of left)) (promote left) (promote right)) }
{
    let ty = promoted(type_of(left.get()));
    let left = conv(alloc, left, ty)?;
    let right = promote(alloc, right)?;
    node_of(alloc, operator, ty, left, right)
}

/// An operator on two operands of this type after conversion.
fn common_value(
    alloc: Global,
    operator: BinaryOperator,
    ty: IntType,
    left: Boxed<Expr>,
    right: Boxed<Expr>,
) -> Result<Boxed<Expr>, AllocError>
    ensures { IfOk result (λ e. e ≡ node_of operator ty (conv left ty) (conv right ty)) }
{
    let left = conv(alloc, left, ty)?;
    let right = conv(alloc, right, ty)?;
    node_of(alloc, operator, ty, left, right)
}

/// `left operator right`.
pub fn operator_value(
    alloc: Global,
    operator: BinaryOperator,
    left: Boxed<Expr>,
    right: Boxed<Expr>,
) -> Result<Boxed<Expr>, AllocError>
    ensures { IfOk result (λ e. e ≡ operator_value operator left right) }
{
    if is_shift(operator) {
        shift_value(alloc, operator, left, right)
    } else {
        let ty = common(type_of(left.get()), type_of(right.get()));
        common_value(alloc, operator, ty, left, right)
    }
}

/// An operator of one operand, after its promotion.
fn unary(alloc: Global, op: UnOp, v: Boxed<Expr>) -> Result<Boxed<Expr>, AllocError>
    ensures { IfOk result (λ e. e ≡ Un op (promoted (type_of v)) (promote v)) }
{
    let ty = promoted(type_of(v.get()));
    let arg = conv(alloc, v, ty)?;
    Boxed::new(alloc, Expr::Un { op, ty, arg })
}

/// An operator before an operand.
pub fn signed_value(
    alloc: Global,
    operator: UnaryOperator,
    v: Boxed<Expr>,
) -> Result<Boxed<Expr>, AllocError>
    ensures { IfOk result (λ e. e ≡ signed_value operator v) }
{
    match operator {
        UnaryOperator::Plus => promote(alloc, v),
        UnaryOperator::Minus => unary(alloc, UnOp::Neg, v),
        UnaryOperator::Complement => unary(alloc, UnOp::Flip, v),
        UnaryOperator::Not => negation(alloc, v),
    }
}

/// 1 where the value is nonzero, else 0.
pub fn truth_of(alloc: Global, v: Boxed<Expr>) -> Result<Boxed<Expr>, AllocError>
    ensures { IfOk result (λ e. e ≡ truth_of v) }
{
    let zero = negation(alloc, v)?;
    negation(alloc, zero)
}

/// A conditional whose ends have this type after conversion.
fn common_choice(
    alloc: Global,
    ty: IntType,
    test: Boxed<Expr>,
    yes: Boxed<Expr>,
    no: Boxed<Expr>,
) -> Result<Boxed<Expr>, AllocError>
    ensures { IfOk result (λ e. e ≡ Cond ty test (conv yes ty) (conv no ty)) }
{
    let yes = conv(alloc, yes, ty)?;
    let no = conv(alloc, no, ty)?;
    let node = Expr::Cond { ty, test, yes, no };
    Boxed::new(alloc, node)
}

/// `test ? yes : no`.
pub fn chosen_value(
    alloc: Global,
    test: Boxed<Expr>,
    yes: Boxed<Expr>,
    no: Boxed<Expr>,
) -> Result<Boxed<Expr>, AllocError>
    ensures { IfOk result (λ e. e ≡ chosen_value test yes no) }
{
    let ty = common(type_of(yes.get()), type_of(no.get()));
    common_choice(alloc, ty, test, yes, no)
}

/// Whether a value is a number.
pub fn is_constant(v: &Expr) -> bool
    ensures { result ≡ is_constant v.now }
{
    match v {
        Expr::Const { .. } => true,
        _ => false,
    }
}

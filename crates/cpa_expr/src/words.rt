//! The words of types and operators in reports and messages, as `specs/Words.antt` gives them. Each
//! table is proved by itself.

ghost use Rattle.std.specs.Prelude.{◌≡◌};
ghost use Rattle.cpa_expr.specs.Words.{type_word, un_word, bin_word, cmp_word};

use crate::tree::{BinOp, CmpOp, UnOp};
use cpa_ints::IntType;

/// The word of an integer type: `bool`, or the sign's letter and the width, as `i32`.
pub fn type_word(ty: IntType) -> &'static str
    ensures { result.now ≡ type_word ty }
{
    match ty {
        IntType::Bool => "bool",
        IntType::I8 => "i8",
        IntType::U8 => "u8",
        IntType::I16 => "i16",
        IntType::U16 => "u16",
        IntType::I32 => "i32",
        IntType::U32 => "u32",
        IntType::I64 => "i64",
        IntType::U64 => "u64",
    }
}

/// The word of an operator of one argument.
pub fn un_word(op: UnOp) -> &'static str
    ensures { result.now ≡ un_word op }
{
    match op {
        UnOp::Neg => "neg",
        UnOp::Flip => "flip",
    }
}

/// The word of an operator of two arguments.
pub fn bin_word(op: BinOp) -> &'static str
    ensures { result.now ≡ bin_word op }
{
    match op {
        BinOp::Add => "add",
        BinOp::Sub => "sub",
        BinOp::Mul => "mul",
        BinOp::Div => "div",
        BinOp::Rem => "rem",
        BinOp::BitAnd => "and",
        BinOp::BitOr => "or",
        BinOp::BitXor => "xor",
        BinOp::Shl => "shl",
        BinOp::Shr => "shr",
    }
}

/// The word of a comparison.
pub fn cmp_word(op: CmpOp) -> &'static str
    ensures { result.now ≡ cmp_word op }
{
    match op {
        CmpOp::Eq => "eq",
        CmpOp::Ne => "ne",
        CmpOp::Lt => "lt",
        CmpOp::Le => "le",
        CmpOp::Gt => "gt",
        CmpOp::Ge => "ge",
    }
}

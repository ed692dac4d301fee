//! The words of a row: types, operators and numbers. Nothing is proved of what is read but that
//! reading is safe and ends.

use crate::fault::RowFault;
use cpa_expr::{BinOp, CmpOp, UnOp, bin_word, cmp_word, type_word, un_word};
use cpa_ints::IntType;
use std::alloc::AllocError;
use std::str::SplitWhitespace;

/// The types, in the order of a row's columns.
pub const TYPES: [IntType; 9] = [
    IntType::Bool,
    IntType::I8,
    IntType::U8,
    IntType::I16,
    IntType::U16,
    IntType::I32,
    IntType::U32,
    IntType::I64,
    IntType::U64,
];

/// The unary operators, in the order of a row's columns.
pub const UNARY: [UnOp; 2] = [UnOp::Neg, UnOp::Flip];

/// The binary operators, in the order of a row's columns: first those without a shift.
pub const BINARY: [BinOp; 10] = [
    BinOp::Add,
    BinOp::Sub,
    BinOp::Mul,
    BinOp::Div,
    BinOp::Rem,
    BinOp::BitAnd,
    BinOp::BitOr,
    BinOp::BitXor,
    BinOp::Shl,
    BinOp::Shr,
];

/// The comparisons, in the order of a row's columns.
pub const COMPARISONS: [CmpOp; 6] = [
    CmpOp::Eq,
    CmpOp::Ne,
    CmpOp::Lt,
    CmpOp::Le,
    CmpOp::Gt,
    CmpOp::Ge,
];

/// The next word, which is to be there.
pub fn next_word<'a>(words: &mut SplitWhitespace<'a>) -> Result<&'a str, RowFault> {
    words.next().ok_or(RowFault::Unreadable)
}

/// The next word as an index.
pub fn next_index(words: &mut SplitWhitespace<'_>) -> Result<u32, RowFault> {
    index_of_word(next_word(words)?)
}

/// The number that a word spells.
pub fn number_of_word(word: &str) -> Result<i128, RowFault> {
    Ok(word.parse::<i128>()?)
}

/// The index that a word spells: the number of a cell, an edge or an entry, or how many there are.
pub fn index_of_word(word: &str) -> Result<u32, RowFault> {
    Ok(word.parse::<u32>()?)
}

/// The type that a word names.
pub fn type_of_word(word: &str) -> Result<IntType, RowFault> {
    for ty in TYPES {
        if type_word(ty) == word {
            return Ok(ty);
        }
    }
    Err(RowFault::Unreadable)
}

/// The unary operator that a word names.
pub fn unary_of_word(word: &str) -> Option<UnOp> {
    for op in UNARY {
        if un_word(op) == word {
            return Some(op);
        }
    }
    None
}

/// The binary operator that a word names.
pub fn binary_of_word(word: &str) -> Option<BinOp> {
    for op in BINARY {
        if bin_word(op) == word {
            return Some(op);
        }
    }
    None
}

/// The comparison that a word names.
pub fn comparison_of_word(word: &str) -> Option<CmpOp> {
    for op in COMPARISONS {
        if cmp_word(op) == word {
            return Some(op);
        }
    }
    None
}

/// Adds a word of the answer.
pub fn push_word(out: &mut String, word: &str) -> Result<(), AllocError> {
    out.push_str(" ")?;
    out.push_str(word)
}

/// Adds a number of the answer.
pub fn push_number(out: &mut String, number: i128) -> Result<(), AllocError> {
    write!(out, " {number}")
}

/// The word of an answer to a question.
pub fn yes_or_no(answer: bool) -> &'static str {
    if answer { "yes" } else { "no" }
}

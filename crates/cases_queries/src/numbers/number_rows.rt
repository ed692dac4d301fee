//! Rows on numbers and types: what the public calls of `cpa_ints` answer.
//! Proved safe by the checker alone.

use crate::numbers::operator_rows;
use cases_reader::{
    RowFault, TYPES, number_of_word, push_number, push_word, type_of_word, yes_or_no,
};
use cpa_expr::type_word;
use cpa_ints::{DataModel, IntType, common, promote, wrap};
use std::alloc::{AllocError, Global};

/// Adds the answer of a row on types and numbers. All others are on operators.
pub fn push_answer(alloc: Global, out: &mut String, words: &[&str]) -> Result<(), RowFault> {
    match words {
        ["wraps", number] => wraps(out, number),
        ["promote", ty] => promoted(out, ty),
        ["commons", ty] => commons(out, ty),
        ["limits", ty] => limits(out, ty),
        ["contains", ty, number] => contains(out, ty, number),
        ["longs", model] => longs(out, model),
        _ => operator_rows::push_answer(alloc, out, words),
    }
}

/// `wraps N`: what N becomes in each type.
fn wraps(out: &mut String, number: &str) -> Result<(), RowFault> {
    let number = number_of_word(number)?;
    for ty in TYPES {
        push_number(out, wrap(ty, number))?;
    }
    Ok(())
}

/// `promote T`: the promoted type.
fn promoted(out: &mut String, ty: &str) -> Result<(), RowFault> {
    let ty = promote(type_of_word(ty)?);
    Ok(push_word(out, type_word(ty))?)
}

/// `commons T`: the common type of T and of each type.
fn commons(out: &mut String, ty: &str) -> Result<(), RowFault> {
    let left = type_of_word(ty)?;
    for right in TYPES {
        push_word(out, type_word(common(left, right)))?;
    }
    Ok(())
}

/// `limits T`: how many bits a value has, whether the type is signed, its least and its greatest
/// value.
fn limits(out: &mut String, ty: &str) -> Result<(), RowFault> {
    let ty = type_of_word(ty)?;
    let width = ty.width();
    let signed = yes_or_no(ty.signed());
    let least = ty.least();
    let greatest = ty.greatest();
    write!(out, " {width} {signed} {least} {greatest}")?;
    Ok(())
}

/// `contains T N`: whether N is a value of the type.
fn contains(out: &mut String, ty: &str, number: &str) -> Result<(), RowFault> {
    let ty = type_of_word(ty)?;
    let number = number_of_word(number)?;
    Ok(push_word(out, yes_or_no(ty.contains(number)))?)
}

/// `longs M`: the types `long` and `unsigned long` of the data model `lp64` or `ilp32`.
fn longs(out: &mut String, model: &str) -> Result<(), RowFault> {
    let model = match model {
        "lp64" => DataModel::Lp64,
        "ilp32" => DataModel::Ilp32,
        _ => return Err(RowFault::Unreadable),
    };
    let long = type_word(model.long());
    let unsigned = type_word(model.unsigned_long());
    write!(out, " {long} {unsigned}")?;
    Ok(())
}

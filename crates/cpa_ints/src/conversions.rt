//! The integer promotions and the usual arithmetic conversions (`specs/Conversions.antt`). That the
//! tables meet the standard's wording is proved in `proofs/Promotion.antt`.
ghost use Rattle.std.specs.Prelude.{◌≡◌};
ghost use Rattle.cpa_ints.specs.Conversions.{IsPromotionOf, IsUsualConversionOf, promoted, wider};
ghost use Rattle.cpa_ints.specs.Conversions.{common_type};

use crate::IntType;

/// The type of a value after the integer promotions: each type below the width of `int` becomes
/// `int`, which has all its values, and each other type stays.
pub fn promote(ty: IntType) -> IntType
    ensures standard { IsPromotionOf ty result }
    ensures value { result ≡ promoted ty }
{
    match ty {
        IntType::Bool | IntType::I8 | IntType::U8 | IntType::I16 | IntType::U16 => IntType::I32,
        IntType::I32 | IntType::U32 | IntType::I64 | IntType::U64 => ty,
    }
}

/// The wider of two types, and of equal widths the unsigned one if either is.
fn widest(first: IntType, second: IntType) -> IntType
    ensures { result ≡ wider first second }
{
    if first.width() > second.width() {
        first
    } else if first.width() < second.width() || first.signed() {
        second
    } else {
        first
    }
}

/// The type of the usual arithmetic conversions, in which an operation on values of the two types
/// computes: both are promoted, and the wider type is taken, of equal widths the unsigned one if
/// either is.
pub fn common(left: IntType, right: IntType) -> IntType
    ensures standard { IsUsualConversionOf left right result }
    ensures value { result ≡ common_type left right }
{
    widest(promote(left), promote(right))
}

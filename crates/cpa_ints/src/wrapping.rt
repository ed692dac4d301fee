//! What a number becomes in a type, `IsWrapOf` of `specs/Wrapping.antt`: its low bits, moved into
//! the range. Proved in `specs/lemmas/Masks.antt` and `specs/lemmas/WrapLaws.antt`.
ghost use Rattle.std.specs.Prelude.{◌≡◌, ◌≢◌, ◌^◌, ◌≤◌, pos, ◌≤ℤ◌, ◌<ℤ◌, ◌-ℤ◌, int_lt};
ghost use Rattle.std.specs.Prelude.{if◌then◌else◌};
ghost use Rattle.std.specs.Int.{int_rem_euclid};
ghost use Rattle.cpa_ints.specs.declared.integers.IntType.TheVariants.{Bool as Boolean};
ghost use Rattle.cpa_ints.specs.Integers.{width, greatest};
ghost use Rattle.cpa_ints.specs.Wrapping.{IsWrapOf, wrapped};

use crate::IntType;

/// The number below 2^`bits` that is congruent to `n`: its low bits in two's complement.
fn low_bits(n: i128, bits: u32) -> i128
    requires { bits ≤ 64 }
    ensures value { result ≡ int_rem_euclid n (pos (2 ^ bits)) }
    ensures not_negative { pos 0 ≤ℤ result }
    ensures below { result <ℤ pos (2 ^ bits) }
{
    let mask = (1u128 << bits) - 1;
    (n.cast_unsigned() & mask) as i128
}

/// 2^`bits`.
fn power(bits: u32) -> i128
    requires { bits ≤ 64 }
    ensures value { result ≡ pos (2 ^ bits) }
    ensures small { result ≤ℤ pos (2 ^ 64) }
{
    1i128 << bits
}

/// Moves a number below 2^width into the type's range: down by 2^width where it lies above.
fn into_range(ty: IntType, low: i128) -> i128
    requires not_negative { pos 0 ≤ℤ low }
    requires below { low <ℤ pos (2 ^ width ty) }
    ensures { result ≡ (if int_lt (greatest ty) low then low -ℤ pos (2 ^ width ty) else low) }
{
    if low > ty.greatest() {
        low - power(ty.width())
    } else {
        low
    }
}

/// Wraps to a type other than `Bool`.
fn wrap_modular(ty: IntType, n: i128) -> i128
    requires { ty ≢ Boolean }
    ensures { IsWrapOf ty n result }
{
    into_range(ty, low_bits(n, ty.width()))
}

/// The number that `n` becomes when it is converted to the type: the one of the type's range that
/// is congruent to `n` modulo 2^width; for `Bool` 0 where `n` is 0, and 1 otherwise.
#[tactic(auto, using(crate::specs::lemmas::WrapLaws::wrap_unique))]
pub fn wrap(ty: IntType, n: i128) -> i128
    ensures congruent { IsWrapOf ty n result }
    ensures value { result ≡ wrapped ty n }
{
    if ty == IntType::Bool {
        if n == 0 { 0 } else { 1 }
    } else {
        wrap_modular(ty, n)
    }
}

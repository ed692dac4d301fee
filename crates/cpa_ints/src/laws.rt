//! Laws of wrapping (`specs/Wrapping.antt`), proved in `specs/lemmas/WrapLaws.antt` and
//! `specs/lemmas/Arithmetic.antt`. Each function does nothing: its contract is the law.

ghost use Rattle.std.specs.Prelude.{◌≡◌, ◌≢◌, ◌≤◌, ◌^◌, ℤ, pos, negsuc, ◌+ℤ◌, ◌-ℤ◌, ◌*ℤ◌, neg_ℤ};
ghost use Rattle.cpa_ints.specs.declared.integers.IntType.{IntType};
ghost use Rattle.cpa_ints.specs.declared.integers.IntType.TheVariants.{Bool as Boolean};
ghost use Rattle.cpa_ints.specs.Integers.{width, IsInRange};
ghost use Rattle.cpa_ints.specs.Wrapping.{IsCongruent, IsWrapOf, wrapped};

mod bits;
mod quotients;

pub use bits::{bits_are_the_congruent_number, bits_keep_the_number};
pub use quotients::{floors_round_down, quotients_round_toward_zero};

/// There is exactly one number to which a number wraps, and `wrapped` names it.
pub fn wrap_is_the_congruent_number()
    ensures is { (t : IntType) (n : ℤ) → IsWrapOf t n (wrapped t n) }
    ensures only { (t : IntType) (n m : ℤ) → IsWrapOf t n m → m ≡ wrapped t n }
{}

/// A wrapped number lies in the type's range, and a number of the range stays as it is.
#[tactic(auto, using(crate::specs::lemmas::Arithmetic::wrapped_in_range, crate::specs::lemmas::Arithmetic::wrapped_of_range, crate::specs::lemmas::Arithmetic::wrapped_twice))]
pub fn wrap_keeps_the_range()
    ensures within { (t : IntType) (n : ℤ) → IsInRange t (wrapped t n) }
    ensures stays { (t : IntType) (n : ℤ) → IsInRange t n → wrapped t n ≡ n }
    ensures twice { (t : IntType) (n : ℤ) → wrapped t (wrapped t n) ≡ wrapped t n }
{}

/// Two numbers wrap to one of a type other than `Bool` exactly where they are congruent modulo
/// 2^width. `Bool` keeps neither way: 2 and 0 are congruent, and 2 wraps as 1 does.
#[tactic(auto, using(crate::specs::lemmas::Arithmetic::congruent_wrapped, crate::specs::lemmas::Arithmetic::wrapped_congruent, crate::specs::lemmas::Bits::boolean_congruent, crate::specs::lemmas::Bits::boolean_apart, crate::specs::lemmas::Bits::boolean_together, crate::specs::lemmas::Bits::boolean_incongruent))]
pub fn congruent_numbers_wrap_alike()
    ensures alike { (t : IntType) (a b : ℤ) →
        t ≢ Boolean → IsCongruent (width t) a b → wrapped t a ≡ wrapped t b }
    ensures only { (t : IntType) (a b : ℤ) →
        t ≢ Boolean → wrapped t a ≡ wrapped t b → IsCongruent (width t) a b }
    ensures not_alike_at_boolean { IsCongruent (width Boolean) (pos 2) (pos 0)
        × (wrapped Boolean (pos 2) ≢ wrapped Boolean (pos 0)) }
    ensures not_only_at_boolean { (wrapped Boolean (pos 2) ≡ wrapped Boolean (pos 1))
        × ¬ IsCongruent (width Boolean) (pos 2) (pos 1) }
{}

/// To wrap the operands first changes nothing: for products and negations at every type, for sums
/// and differences at every type but `Bool`.
#[tactic(auto, using(crate::specs::lemmas::Arithmetic::wrapped_sum, crate::specs::lemmas::Arithmetic::wrapped_difference, crate::specs::lemmas::Arithmetic::wrapped_product, crate::specs::lemmas::Arithmetic::wrapped_negation, crate::specs::lemmas::Arithmetic::boolean_sum, crate::specs::lemmas::Arithmetic::boolean_difference))]
pub fn wrap_commutes()
    ensures sum { (t : IntType) (a b : ℤ) →
        t ≢ Boolean → wrapped t (a +ℤ b) ≡ wrapped t (wrapped t a +ℤ wrapped t b) }
    ensures difference { (t : IntType) (a b : ℤ) →
        t ≢ Boolean → wrapped t (a -ℤ b) ≡ wrapped t (wrapped t a -ℤ wrapped t b) }
    ensures product { (t : IntType) (a b : ℤ) →
        wrapped t (a *ℤ b) ≡ wrapped t (wrapped t a *ℤ wrapped t b) }
    ensures negation { (t : IntType) (a : ℤ) →
        wrapped t (neg_ℤ a) ≡ wrapped t (neg_ℤ (wrapped t a)) }
    ensures not_a_sum_of_booleans { wrapped Boolean (pos 1 +ℤ negsuc 0)
        ≢ wrapped Boolean (wrapped Boolean (pos 1) +ℤ wrapped Boolean (negsuc 0)) }
    ensures not_a_difference_of_booleans { wrapped Boolean (pos 2 -ℤ pos 1)
        ≢ wrapped Boolean (wrapped Boolean (pos 2) -ℤ wrapped Boolean (pos 1)) }
{}

/// To wrap to a type that is no narrower first changes nothing, except before `Bool`: there each
/// other type turns 2^width into 0, where `Bool` alone gives 1.
#[tactic(auto, using(crate::specs::lemmas::Arithmetic::wrapped_narrower, crate::specs::lemmas::Arithmetic::boolean_loses))]
pub fn wrap_narrows()
    ensures narrower { (s t : IntType) (n : ℤ) →
        s ≢ Boolean → width s ≤ width t → wrapped s (wrapped t n) ≡ wrapped s n }
    ensures not_to_boolean { (t : IntType) → t ≢ Boolean →
        wrapped Boolean (wrapped t (pos (2 ^ width t))) ≢ wrapped Boolean (pos (2 ^ width t)) }
{}

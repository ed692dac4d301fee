//! Laws of the bits of a number (`specs/Bits.antt`), proved in `specs/lemmas/Bits.antt`. Each
//! function does nothing: its contract is the law.

ghost use Rattle.std.specs.Prelude.{◌≡◌, ◌≢◌, ◌<◌, ◌^◌, ℕ, ℤ, pos};
ghost use Rattle.cpa_ints.specs.declared.integers.IntType.{IntType};
ghost use Rattle.cpa_ints.specs.declared.integers.IntType.TheVariants.{Bool as Boolean};
ghost use Rattle.cpa_ints.specs.Integers.{width, IsInRange};
ghost use Rattle.cpa_ints.specs.Wrapping.{IsCongruent, wrapped};
ghost use Rattle.cpa_ints.specs.Bits.{bits_of};

/// The bits of a number are the natural number below 2^width that is congruent to it, at each type.
#[tactic(auto, using(crate::specs::lemmas::Bits::bits_below, crate::specs::lemmas::Bits::bits_congruent, crate::specs::lemmas::Bits::bits_unique))]
pub fn bits_are_the_congruent_number()
    ensures below { (t : IntType) (a : ℤ) → bits_of t a < 2 ^ width t }
    ensures is { (t : IntType) (a : ℤ) → IsCongruent (width t) a (pos (bits_of t a)) }
    ensures only { (t : IntType) (a : ℤ) (n : ℕ) →
        n < 2 ^ width t → IsCongruent (width t) a (pos n) → n ≡ bits_of t a }
{}

/// A number of the type's range is had back from its bits, at each type. At every type but `Bool`
/// the bits of any number wrap as it does, and a wrapped number has its bits; `Bool` takes 2, whose
/// bits are 0, for 1.
#[tactic(auto, using(crate::specs::lemmas::Bits::bits_back, crate::specs::lemmas::Bits::wrapped_bits, crate::specs::lemmas::Bits::bits_wrapped, crate::specs::lemmas::Bits::boolean_bits, crate::specs::lemmas::Bits::bits_boolean))]
pub fn bits_keep_the_number()
    ensures back { (t : IntType) (a : ℤ) → IsInRange t a → wrapped t (pos (bits_of t a)) ≡ a }
    ensures wrapped_bits { (t : IntType) (a : ℤ) →
        t ≢ Boolean → wrapped t (pos (bits_of t a)) ≡ wrapped t a }
    ensures bits_of_wrapped { (t : IntType) (a : ℤ) →
        t ≢ Boolean → bits_of t (wrapped t a) ≡ bits_of t a }
    ensures not_wrapped_bits_at_boolean { wrapped Boolean (pos (bits_of Boolean (pos 2)))
        ≢ wrapped Boolean (pos 2) }
    ensures not_bits_of_wrapped_at_boolean { bits_of Boolean (wrapped Boolean (pos 2))
        ≢ bits_of Boolean (pos 2) }
{}

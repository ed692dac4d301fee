//! Laws of division (`specs/Quotients.antt`), proved in `proofs/QuotientLaws.antt`. Each function
//! does nothing: its contract is the law.

ghost use Rattle.std.specs.Prelude.{◌≡◌, ◌≢◌, ◌<◌, ◌↔◌, ℕ, ℤ, pos, ◌-ℤ◌, ◌*ℤ◌, int_div};
ghost use Rattle.std.specs.Int.{int_div_euclid};
ghost use Rattle.cpa_ints.specs.Quotients.{IsQuotient, IsFloor};

/// `int_div` rounds toward zero: by b ≠ 0 it is the one quotient with its fraction discarded, and
/// what it leaves is a less quotient times b.
pub fn quotients_round_toward_zero()
    ensures exactly { (a b q : ℤ) →
        b ≢ pos 0 → (q ≡ int_div a b) ↔ ((r : ℤ) × IsQuotient a b q r) }
    ensures is { (a b : ℤ) →
        b ≢ pos 0 → IsQuotient a b (int_div a b) (a -ℤ int_div a b *ℤ b) }
    ensures only { (a b q r : ℤ) →
        IsQuotient a b q r → (q ≡ int_div a b) × (r ≡ a -ℤ int_div a b *ℤ b) }
{}

/// `int_div_euclid` by a natural number d > 0, such as the power of two of a shift to the right,
/// rounds down: it is the greatest number that times d is at most a.
#[tactic(auto, using(crate::proofs::QuotientLaws::euclid_is_floor, crate::proofs::QuotientLaws::floor_is_euclid))]
pub fn floors_round_down()
    ensures is { (a : ℤ) (d : ℕ) → 0 < d → IsFloor a d (int_div_euclid a (pos d)) }
    ensures only { (a : ℤ) (d : ℕ) (q : ℤ) →
        0 < d → IsFloor a d q → q ≡ int_div_euclid a (pos d) }
{}

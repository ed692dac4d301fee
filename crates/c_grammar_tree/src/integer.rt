//! The values of constants.
ghost use Rattle.std.specs.Prelude.{◌≡◌};

use std::marker::Model;

/// The value of a constant, of which contracts see the number. Its halves are kept apart, since an
/// `i128` stands at multiples of 16 and would make each node of a tree as large.
#[derive(Drop)]
pub struct Integer {
    high: u64,
    low: u64,
}

impl Model for Integer {
    ghost use Rattle.std.specs.Prelude.{ℤ, ◌+◌, ◌*◌, ◌^◌};
    ghost use Rattle.std.specs.Coded.{coded_ℤ};
    ghost use Rattle.std.specs.Int.{w128, cast_signed};

    ghost Value = { ℤ };

    ghost coded = { coded_ℤ };

    ghost view = { λ n. cast_signed w128 (n.high * 2 ^ 64 + n.low) };
}

impl Integer {
    /// The integer that is this number.
    pub fn new(number: i128) -> Integer
        ensures { result ≡ number }
    {
        let bits = number.cast_unsigned();
        Integer {
            high: (bits / (1 << 64)) as u64,
            low: (bits % (1 << 64)) as u64,
        }
    }

    /// The number.
    pub fn get(&self) -> i128
        ensures { result ≡ self.now }
    {
        (self.high as u128 * (1 << 64) + self.low as u128).cast_signed()
    }
}

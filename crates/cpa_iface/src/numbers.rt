//! A list of numbers with room for a few of them in the value itself. Each call does what it says
//! of a list, by the checker alone.

ghost use Rattle.std.specs.Prelude.{◌≡◌, ℕ, ◌<◌, List, [], ◌∷◌, ◌++◌, length, slice_set};
ghost use Rattle.std.specs.Prelude.{OnOk, OnErr};

use smallvec::SmallVec;
use std::alloc::{AllocError, Global};
use std::marker::Model;

/// Numbers, of which four stand in the value itself: so a list of no more takes no memory.
/// Contracts see the list of the numbers.
#[derive(Drop)]
pub struct FewNumbers {
    numbers: SmallVec<u32, 4>,
}

impl Model for FewNumbers {
    ghost use Rattle.std.specs.Prelude.{ℕ, List};
    ghost use Rattle.std.specs.Coded.{coded_list, coded_ℕ};

    ghost Value = { List ℕ };

    ghost coded = { coded_list coded_ℕ };

    ghost view = { λ n. n.numbers.items };
}

impl FewNumbers {
    /// No number. It takes no memory.
    pub fn new(alloc: Global) -> FewNumbers
        ensures { result ≡ [] }
    {
        FewNumbers {
            numbers: SmallVec::new(alloc),
        }
    }

    /// The numbers, in order.
    pub fn as_slice(&self) -> &[u32]
        ensures { result.now ≡ self.now }
    {
        self.numbers.as_slice()
    }

    /// How many numbers there are.
    pub fn len(&self) -> usize
        ensures { result ≡ length self.now }
    {
        self.as_slice().len()
    }

    /// A number more at the end. Where memory runs out nothing has changed.
    pub fn push(&mut self, number: u32) -> Result<(), AllocError>
        ensures ok { OnOk result (self.new ≡ self.old ++ number ∷ []) }
        ensures err { OnErr result (self.new ≡ self.old) }
    {
        self.numbers.push(number)?;
        Ok(())
    }

    /// The last number goes, where there is one.
    pub fn pop(&mut self)
        ensures { (ns : List ℕ) (n : ℕ) → self.old ≡ ns ++ n ∷ [] → self.new ≡ ns }
    {
        self.numbers.pop();
    }

    /// Another number at a place.
    pub fn put(&mut self, place: usize, number: u32)
        requires { place < length self.old }
        ensures { self.new ≡ slice_set self.old place number }
    {
        self.numbers.as_mut_slice()[place] = number;
    }
}

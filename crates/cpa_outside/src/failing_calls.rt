//! Which calls fail, by their numbers: `is_listed` and `one_more` of `specs/OutsideMemory.antt`.
//! Proved by the checker alone.
ghost use Rattle.std.specs.Prelude.{◌≡◌};
ghost use Rattle.cpa_outside.specs.OutsideMemory.{is_listed, one_more};

/// The numbers of the calls that fail, and the number of the next call.
#[derive(Drop)]
pub(crate) struct FailingCalls {
    numbers: Vec<u32>,
    next: u64,
}

impl FailingCalls {
    /// The calls are counted from 0.
    pub(crate) fn new(numbers: Vec<u32>) -> FailingCalls
        ensures numbers { result.numbers ≡ numbers }
        ensures next { result.next ≡ 0 }
    {
        FailingCalls { numbers, next: 0 }
    }

    /// Takes the next number, and says whether the call of that number fails.
    /// The greatest u64 is the number of each call from there on.
    pub(crate) fn next_fails(&mut self) -> bool
        ensures answer { result ≡ is_listed self.old.numbers.items self.old.next }
        ensures numbers { self.new.numbers ≡ self.old.numbers }
        ensures next { self.new.next ≡ one_more self.old.next }
    {
        let call = self.next;
        self.next = call.saturating_add(1);
        self.numbers.iter().any(|number| u64::from(*number) == call)
    }
}

//! Where files are read from: the trait and its faults. What it promises is in its clauses, over
//! `specs/Outside.antt`.
ghost use Rattle.std.specs.Prelude.{◌≡◌, ◌≢◌, ℕ, ◌<◌, ◌≤◌, List, Option, length, IfOk, IfErr, OnOk};
ghost use Rattle.std.specs.Prelude.{IfSome, IsSome};
ghost use Rattle.cpa_outside.specs.Outside.{Rose, IsTooLongOrFailed};
ghost use Rattle.cpa_outside.specs.declared.reads.ReadFault.TheVariants.{OutOfMemory};

use std::alloc::{AllocError, Global};

/// Why a file was not read.
#[derive(Clone, Copy, PartialEq, Eq)]
pub enum ReadFault {
    /// The read itself failed, as that of a file that is missing does.
    Failed,
    /// The file has more bytes than the limit.
    TooLong,
    /// Memory ran out.
    OutOfMemory,
}

impl From<AllocError> for ReadFault {
    ghost from_gives = { λ _ fault. fault ≡ OutOfMemory };

    fn from(_: AllocError) -> Self {
        ReadFault::OutOfMemory
    }
}

/// Where files are read from, by their names.
pub trait Inputs {
    /// The bytes of the file of a name, where they are told.
    ghost bytes_of: { Self → List ℕ → Option (List ℕ) };

    /// How many reads of a name have failed. The count stops at the greatest u64.
    ghost faults_of: { Self → List ℕ → ℕ };

    /// The bytes of a file, if there are at most `limit`.
    ///
    /// A failure comes before a file that is too long, and this before want of memory. `TooLong` is
    /// exact where the bytes are told. A count that stands at the greatest u64 does not rise.
    fn read(&mut self, alloc: Global, name: &str, limit: usize) -> Result<Vec<u8>, ReadFault>
        // What is told stays, and no count falls.
        ensures told { bytes_of self.new ≡ bytes_of self.old }
        ensures never_falls { (other : List ℕ) →
            faults_of self.old other ≤ faults_of self.new other }

        ensures within { IfOk result (λ bytes. length bytes.items ≤ limit) }
        ensures bytes { IfOk result (λ bytes.
            IfSome (bytes_of self.old name.now) (λ told. bytes.items ≡ told)) }

        // Only a failed read raises counts, and among the names that are told only that of its own.
        ensures failed { IfErr result (λ fault. fault ≡ ReadFault.Failed →
            Rose (faults_of self.old name.now) (faults_of self.new name.now)) }
        ensures ok_keeps { OnOk result (faults_of self.new ≡ faults_of self.old) }
        ensures err_keeps { IfErr result (λ fault. fault ≢ ReadFault.Failed →
            faults_of self.new ≡ faults_of self.old) }
        ensures others { (other : List ℕ) → other ≢ name.now → IsSome (bytes_of self.old other) →
            faults_of self.new other ≡ faults_of self.old other }

        ensures too_long { IfErr result (λ fault. fault ≡ ReadFault.TooLong →
            IfSome (bytes_of self.old name.now) (λ told. limit < length told)) }
        ensures long { IfSome (bytes_of self.old name.now) (λ told.
            limit < length told → IsTooLongOrFailed result) };
}

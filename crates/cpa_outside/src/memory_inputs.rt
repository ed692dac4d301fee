//! Files in memory, whose reads fail where a list says so. When and what they count is
//! `specs/MemoryInputs.antt`; `proofs/SharedCounts.antt` has which names share a count.
ghost use Rattle.std.specs.Prelude.{◌≡◌, ◌≢◌, ◌↔◌, ℕ, ◌+◌, ◌<◌, ◌≤◌, List, [], length, slice_index};
ghost use Rattle.std.specs.Prelude.{vec_len, IfOk, IfErr, OnOk, IfSome, IsSome, IsTrue, IsErrOf};
ghost use Rattle.std.specs.Prelude.{◌&&◌, if◌then◌else◌};
ghost use Rattle.std.specs.List.{position};
ghost use Rattle.cpa_outside.specs.Outside.{Rose, IsTooLongOrFailed};
ghost use Rattle.cpa_outside.specs.OutsideMemory.{has_name, place_of, first_bytes, one_more};

use crate::failing_calls::FailingCalls;
use crate::reads::{Inputs, ReadFault};
use std::alloc::{AllocError, Global};

/// Files in memory. Of two files of one name the first counts, and a name that is not there fails.
#[derive(Drop)]
pub struct MemoryInputs {
    files: Vec<(String, Vec<u8>)>,
    calls: FailingCalls,
    // One count for each file, and one behind them for all names that are not there.
    faults: Vec<u64>,
    ghost counts: { vec_len faults ≡ vec_len files + 1 },
}

impl MemoryInputs {
    ghost use Rattle.cpa_outside.specs.MemoryInputs.{stored_bytes, failed_reads, failing_reads};
    ghost use Rattle.cpa_outside.specs.MemoryInputs.{next_read};

    /// Holds the files. The reads whose number stands in `fail` fail, counted from 0.
    pub fn new(
        alloc: Global,
        files: Vec<(String, Vec<u8>)>,
        fail: Vec<u32>,
    ) -> Result<MemoryInputs, AllocError>
        ensures bytes { IfOk result (λ inputs. stored_bytes inputs ≡ first_bytes files.items) }
        ensures no_faults { IfOk result (λ inputs. (name : List ℕ) → failed_reads inputs name ≡ 0) }
        ensures failing { IfOk result (λ inputs. failing_reads inputs ≡ fail.items) }
        ensures first { IfOk result (λ inputs. next_read inputs ≡ 0) }
    {
        let faults = vec![in alloc; 0u64; files.len() + 1]?;
        Ok(MemoryInputs {
            files,
            calls: FailingCalls::new(fail),
            faults,
        })
    }
}

impl Inputs for MemoryInputs {
    ghost use Rattle.cpa_outside.specs.MemoryInputs.{stored_bytes, failed_reads, failing_reads};
    ghost use Rattle.cpa_outside.specs.MemoryInputs.{next_read, read_fails, shares_count};

    ghost bytes_of = { stored_bytes };

    ghost faults_of = { failed_reads };

    fn read(&mut self, alloc: Global, name: &str, limit: usize) -> Result<Vec<u8>, ReadFault>
        // As the trait has it.
        ensures told { stored_bytes self.new ≡ stored_bytes self.old }
        ensures never_falls { (other : List ℕ) →
            failed_reads self.old other ≤ failed_reads self.new other }
        ensures within { IfOk result (λ bytes. length bytes.items ≤ limit) }
        ensures bytes { IfOk result (λ bytes.
            IfSome (stored_bytes self.old name.now) (λ told. bytes.items ≡ told)) }
        ensures failed { IfErr result (λ fault. fault ≡ ReadFault.Failed →
            Rose (failed_reads self.old name.now) (failed_reads self.new name.now)) }
        ensures ok_keeps { OnOk result (failed_reads self.new ≡ failed_reads self.old) }
        ensures err_keeps { IfErr result (λ fault. fault ≢ ReadFault.Failed →
            failed_reads self.new ≡ failed_reads self.old) }
        ensures others { (other : List ℕ) →
            other ≢ name.now → IsSome (stored_bytes self.old other) →
            failed_reads self.new other ≡ failed_reads self.old other }
        ensures too_long { IfErr result (λ fault. fault ≡ ReadFault.TooLong →
            IfSome (stored_bytes self.old name.now) (λ told. limit < length told)) }
        ensures long { IfSome (stored_bytes self.old name.now) (λ told.
            limit < length told → IsTooLongOrFailed result) }

        // It fails exactly where the number is listed or the name is not there. It counts that
        // once, for each name whose count this is: all names that are not there have one.
        ensures fails { IsErrOf result ReadFault.Failed ↔ IsTrue (read_fails self.old name.now) }
        ensures counts { (other : List ℕ) → failed_reads self.new other ≡
            (if read_fails self.old name.now && shares_count self.old name.now other
            then one_more (failed_reads self.old other) else failed_reads self.old other) }

        // Where no number is listed, no count of a file that is there rises.
        ensures steady { failing_reads self.old ≡ [] →
            (other : List ℕ) → IsSome (stored_bytes self.old other) →
            failed_reads self.new other ≡ failed_reads self.old other }
        ensures failing { failing_reads self.new ≡ failing_reads self.old }
        ensures next { next_read self.new ≡ one_more (next_read self.old) }
    {
        let place = find_place(&self.files, name);
        if self.calls.next_fails() || place >= self.files.len() {
            count_fault(&mut self.faults, place);
            return Err(ReadFault::Failed);
        }
        copy_within(alloc, &self.files[place].1, limit)
    }
}

/// The place of the first file of a name, if there is one.
fn find(files: &[(String, Vec<u8>)], name: &str) -> Option<usize>
    ensures { result ≡ position (has_name name.now) files.now }
{
    files.iter().position(|file| file.0.as_str() == name)
}

/// The place of the first file of a name, or how many files there are.
fn find_place(files: &[(String, Vec<u8>)], name: &str) -> usize
    ensures place { result ≡ place_of files.now name.now }
    ensures within { result ≤ length files.now }
{
    find(files, name).unwrap_or(files.len())
}

/// One more fault at a place.
fn count_fault(faults: &mut [u64], place: usize)
    requires { place < length faults.old }
    ensures value { slice_index faults.new place ≡ one_more (slice_index faults.old place) }
    ensures others { (k : ℕ) → k ≢ place → slice_index faults.new k ≡ slice_index faults.old k }
    ensures never_falls { (k : ℕ) → slice_index faults.old k ≤ slice_index faults.new k }
{
    faults[place] = faults[place].saturating_add(1);
}

/// A copy of the bytes, if there are at most `limit`.
fn copy_within(alloc: Global, bytes: &[u8], limit: usize) -> Result<Vec<u8>, ReadFault>
    ensures ok { IfOk result (λ copy. copy.items ≡ bytes.now) }
    ensures within { OnOk result (length bytes.now ≤ limit) }
    ensures too_long { IfErr result (λ fault.
        fault ≡ ReadFault.TooLong → limit < length bytes.now) }
    ensures long { limit < length bytes.now → IsTooLongOrFailed result }
    ensures not_failed { IfErr result (λ fault. fault ≢ ReadFault.Failed) }
{
    if bytes.len() > limit {
        return Err(ReadFault::TooLong);
    }
    Ok(bytes.to_vec(alloc)?)
}

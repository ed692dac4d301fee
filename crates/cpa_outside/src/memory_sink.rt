//! A sink in memory, whose writes fail where a list says so. When, and how much they take, is
//! `specs/MemorySink.antt`.
ghost use Rattle.std.specs.Prelude.{◌≡◌, ◌↔◌, ◌+◌, ◌<◌, ◌≤◌, [], ◌++◌, Some, length, take, vec_len};
ghost use Rattle.std.specs.Prelude.{vec_capacity, IfOk, OnOk, OnErr, IsOk, IsErr, IsTrue};
ghost use Rattle.cpa_outside.specs.Outside.{Rose, grown};
ghost use Rattle.cpa_outside.specs.OutsideMemory.{one_more};

use crate::failing_calls::FailingCalls;
use crate::writes::{Failed, Sink};
use std::alloc::{AllocError, Global};

/// Bytes in memory. A write takes the least of its length, `most` and the room that is left.
#[derive(Drop)]
pub struct MemorySink {
    bytes: Vec<u8>,
    room: usize,
    most: usize,
    calls: FailingCalls,
    faults: u64,
    ghost within: { vec_len bytes ≤ room },
    ghost reserved: { room ≤ vec_capacity bytes },
}

impl MemorySink {
    ghost use Rattle.cpa_outside.specs.MemorySink.{sink_bytes, failed_writes, sink_room, sink_most};
    ghost use Rattle.cpa_outside.specs.MemorySink.{failing_writes, next_write};

    /// Reserves `room` bytes. The writes whose number stands in `fail` fail, counted from 0.
    pub fn new(
        alloc: Global,
        room: usize,
        most: usize,
        fail: Vec<u32>,
    ) -> Result<MemorySink, AllocError>
        ensures empty { IfOk result (λ sink. sink_bytes sink ≡ []) }
        ensures no_faults { IfOk result (λ sink. failed_writes sink ≡ 0) }
        ensures room { IfOk result (λ sink. sink_room sink ≡ room) }
        ensures most { IfOk result (λ sink. sink_most sink ≡ most) }
        ensures failing { IfOk result (λ sink. failing_writes sink ≡ fail.items) }
        ensures first { IfOk result (λ sink. next_write sink ≡ 0) }
    {
        Ok(MemorySink {
            bytes: Vec::with_capacity(alloc, room)?,
            room,
            most,
            calls: FailingCalls::new(fail),
            faults: 0,
        })
    }

    /// The bytes that were written.
    pub fn written(&self) -> &[u8]
        ensures { result.now ≡ sink_bytes self.now }
    {
        &self.bytes
    }
}

impl Sink for MemorySink {
    ghost use Rattle.cpa_outside.specs.MemorySink.{sink_bytes, failed_writes, sink_room, sink_most};
    ghost use Rattle.cpa_outside.specs.MemorySink.{failing_writes, next_write, taken_of};
    ghost use Rattle.cpa_outside.specs.MemorySink.{write_fails};

    ghost written = { λ sink. Some (sink_bytes sink) };

    ghost faults = { failed_writes };

    fn write(&mut self, piece: &[u8]) -> Result<usize, Failed>
        // As the trait has it.
        ensures within { IfOk result (λ count. count ≤ length piece.now) }
        ensures progress { IfOk result (λ count. 0 < length piece.now → 0 < count) }
        ensures grows { IfOk result (λ count. Some (sink_bytes self.new) ≡
            grown (Some (sink_bytes self.old)) (take count piece.now)) }
        ensures ok_keeps { OnOk result (failed_writes self.new ≡ failed_writes self.old) }
        ensures failed { OnErr result (Rose (failed_writes self.old) (failed_writes self.new)) }
        ensures err_keeps { OnErr result (Some (sink_bytes self.new) ≡ Some (sink_bytes self.old)) }
        ensures never_falls { failed_writes self.old ≤ failed_writes self.new }

        // It fails exactly where the number is listed or nothing can be taken, and counts that
        // once.
        ensures fails { IsErr result ↔ IsTrue (write_fails self.old piece.now) }
        ensures takes { IfOk result (λ count. count ≡ taken_of self.old piece.now) }
        ensures counts { OnErr result (failed_writes self.new ≡ one_more (failed_writes self.old)) }

        // Where no number is listed, at least a byte is taken and there is room, no write fails.
        ensures steady { failing_writes self.old ≡ [] → 0 < sink_most self.old →
            length (sink_bytes self.old) + length piece.now ≤ sink_room self.old → IsOk result }
        ensures failing { failing_writes self.new ≡ failing_writes self.old }
        ensures next { next_write self.new ≡ one_more (next_write self.old) }
        ensures room { sink_room self.new ≡ sink_room self.old }
        ensures most { sink_most self.new ≡ sink_most self.old }
    {
        let left = self.room - self.bytes.len();
        let count = piece.len().min(self.most).min(left);
        let takes_none = count == 0 && !piece.is_empty();
        if self.calls.next_fails() || takes_none {
            self.faults = self.faults.saturating_add(1);
            return Err(Failed);
        }
        append(&mut self.bytes, &piece[..count]);
        Ok(count)
    }
}

/// Appends bytes for which there is room.
fn append(bytes: &mut Vec<u8>, more: &[u8])
    requires { vec_len bytes.old + length more.now ≤ vec_capacity bytes.old }
    ensures items { bytes.new.items ≡ bytes.old.items ++ more.now }
    ensures capacity { vec_capacity bytes.old ≤ vec_capacity bytes.new }
{
    bytes.extend_from_slice(more).unwrap();
}

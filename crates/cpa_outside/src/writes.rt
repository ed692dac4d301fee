//! Where the answer is written to: the trait, and `write_whole` over it, whose loop's invariant is
//! `HasWritten` of `proofs/Grown.antt`.
ghost use Rattle.std.specs.Prelude.{◌≡◌, ℕ, ◌<◌, ◌≤◌, List, Option, length, take, IfOk, OnOk};
ghost use Rattle.std.specs.Prelude.{OnErr};
ghost use Rattle.cpa_outside.specs.Outside.{Rose, grown, GrewByPrefix};

/// A write failed.
#[derive(Clone, Copy, PartialEq, Eq)]
pub struct Failed;

/// Where the answer is written to.
pub trait Sink {
    /// The bytes that were written, where they are told.
    ghost written: { Self → Option (List ℕ) };

    /// How many writes have failed. The count stops at the greatest u64.
    ghost faults: { Self → ℕ };

    /// Writes the front of a piece, and says how many bytes that is.
    /// What can take nothing of a piece that is not empty counts a fault.
    fn write(&mut self, piece: &[u8]) -> Result<usize, Failed>
        ensures within { IfOk result (λ count. count ≤ length piece.now) }
        ensures progress { IfOk result (λ count. 0 < length piece.now → 0 < count) }
        ensures grows { IfOk result (λ count.
            written self.new ≡ grown (written self.old) (take count piece.now)) }
        ensures ok_keeps { OnOk result (faults self.new ≡ faults self.old) }
        ensures failed { OnErr result (Rose (faults self.old) (faults self.new)) }
        ensures err_keeps { OnErr result (written self.new ≡ written self.old) }
        ensures never_falls { faults self.old ≤ faults self.new };
}

/// Writes all the bytes, by as many writes as it takes. It takes no memory.
pub fn write_whole<K: Sink>(out: &mut K, bytes: &[u8]) -> Result<(), Failed>
    ensures whole { OnOk result (K.written out.new ≡ grown (K.written out.old) bytes.now) }
    ensures ok_keeps { OnOk result (K.faults out.new ≡ K.faults out.old) }
    ensures failed { OnErr result (Rose (K.faults out.old) (K.faults out.new)) }
    ensures prefix { OnErr result (GrewByPrefix (K.written out.old) bytes.now (K.written out.new)) }
    ensures never_falls { K.faults out.old ≤ K.faults out.new }
{
    let mut done = 0;
    while done < bytes.len() {
        done += out.write(&bytes[done..])?;
    }
    Ok(())
}

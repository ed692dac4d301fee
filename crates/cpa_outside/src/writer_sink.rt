//! A writer as a sink, and the standard output among them. What a write does to the writer is a
//! clause of `write`, over any writer.
ghost use Rattle.std.specs.Prelude.{◌≡◌, ◌<◌, ◌≤◌, length, take, IfOk, IfSome, IfNone, OnOk, OnErr};
ghost use Rattle.std.specs.Prelude.{is_err, if◌then◌else◌};
ghost use Rattle.std.specs.Io.KnownBytes.{Appends, Keeps};
ghost use Rattle.cpa_outside.specs.Outside.{Rose, grown};
ghost use Rattle.cpa_outside.specs.OutsideMemory.{one_more};

use crate::writes::{Failed, Sink};
use std::io;
use std::io::{Print, Printer, Write};

/// Writes to a writer. It tells nothing of what was written, since a writer may be written to
/// elsewhere too; what one write did is the contract of `write`.
#[derive(Drop)]
pub struct WriterSink<W> {
    out: W,
    faults: u64,
}

/// Writes to the standard output.
pub type StdoutSink<'a, R> = WriterSink<Printer<'a, R>>;

impl<'a, R: Print> WriterSink<Printer<'a, R>> {
    ghost use Rattle.cpa_outside.specs.WriterSink.{failed_writes};

    /// Writes to what the runtime prints to. No write has failed yet.
    pub fn new(rt: &'a R) -> Self
        ensures { failed_writes result ≡ 0 }
    {
        WriterSink::over(io::writer(rt))
    }
}

impl<W: Write> WriterSink<W> {
    ghost use Rattle.cpa_outside.specs.WriterSink.{writer_of, failed_writes};

    /// Writes to the writer. No write has failed yet.
    pub fn over(out: W) -> Self
        ensures writer { writer_of result ≡ out }
        ensures none { failed_writes result ≡ 0 }
    {
        WriterSink { out, faults: 0 }
    }
}

impl<W: Write> Sink for WriterSink<W> {
    ghost use Rattle.cpa_outside.specs.WriterSink.{writer_of, failed_writes, told_writes};

    ghost written = { told_writes };

    ghost faults = { failed_writes };

    fn write(&mut self, piece: &[u8]) -> Result<usize, Failed>
        // The writer has the front of the piece behind what it had, and nothing more where the
        // write failed.
        ensures appends { IfOk result (λ count.
            Appends (W.contents (writer_of self.old)) (W.contents (writer_of self.new))
            (take count piece.now)) }
        ensures keeps { OnErr result
            (Keeps (W.contents (writer_of self.old)) (W.contents (writer_of self.new))) }

        ensures counts { failed_writes self.new ≡
            (if is_err result then one_more (failed_writes self.old) else failed_writes self.old) }

        // As the trait has it.
        ensures within { IfOk result (λ count. count ≤ length piece.now) }
        ensures progress { IfOk result (λ count. 0 < length piece.now → 0 < count) }
        ensures grows { IfOk result (λ count.
            told_writes self.new ≡ grown (told_writes self.old) (take count piece.now)) }
        ensures ok_keeps { OnOk result (failed_writes self.new ≡ failed_writes self.old) }
        ensures failed { OnErr result (Rose (failed_writes self.old) (failed_writes self.new)) }
        ensures err_keeps { OnErr result (told_writes self.new ≡ told_writes self.old) }
        ensures never_falls { failed_writes self.old ≤ failed_writes self.new }
    {
        match write_front(&mut self.out, piece) {
            Some(count) => Ok(count),
            None => {
                self.faults = self.faults.saturating_add(1);
                Err(Failed)
            }
        }
    }
}

/// Writes the front of a piece, and says how many bytes that is. To take nothing of a piece that is
/// not empty is a failure too.
fn write_front<W: Write>(out: &mut W, piece: &[u8]) -> Option<usize>
    ensures within { IfSome result (λ count. count ≤ length piece.now) }
    ensures progress { IfSome result (λ count. 0 < length piece.now → 0 < count) }
    ensures appends { IfSome result (λ count.
        Appends (W.contents out.old) (W.contents out.new) (take count piece.now)) }
    ensures keeps { IfNone result (Keeps (W.contents out.old) (W.contents out.new)) }
{
    match out.write(piece) {
        Ok(count) if count > 0 || piece.is_empty() => Some(count),
        _ => None,
    }
}

//! Files that an opener opens, and those of the system among them. What a read answers is `IsWhole`
//! and `IsLonger` of `specs/Files.antt`, over any opener and its readers.
ghost use Rattle.std.specs.Prelude.{◌≡◌, ◌≢◌, ℕ, ◌<◌, ◌≤◌, ⊤, List, length, take, vec_len, IfOk};
ghost use Rattle.std.specs.Prelude.{IfErr, OnOk, IfSome, IsSome, MatchOption, if◌then◌else◌};
ghost use Rattle.std.specs.declared.io.Error.{Error};
ghost use Rattle.cpa_outside.specs.Outside.{Rose, IsTooLongOrFailed};
ghost use Rattle.cpa_outside.specs.OutsideMemory.{one_more};
ghost use Rattle.cpa_outside.specs.Files.{IsWhole, IsLonger, IsError, IsFault, is_failed, fault_of};
ghost use Rattle.cpa_outside.specs.Files.{answer_of};

use crate::reads::{Inputs, ReadFault};
use std::alloc::Global;
use std::io::{ErrorKind, Read};
use std::rt::Files;
use std::{fs, io};

/// What opens files by their names.
pub trait Opens {
    /// An opened file, to be read from its first byte on.
    type File: Read + Drop;

    /// The files that are opened by a name.
    ghost opens: { Self → List ℕ → Self.File → Type 0 };

    /// The errors with which opening a name fails.
    ghost fails: { Self → List ℕ → Error → Type 0 };

    /// Opens the file of exactly this name.
    fn open(&self, name: &str) -> io::Result<Self::File>
        ensures ok { IfOk result (λ file. opens self.now name.now file) }
        ensures err { IfErr result (λ error. fails self.now name.now error) };
}

/// The files of the system, of which nothing is told.
#[derive(Drop)]
pub struct SystemFiles<'a, R: Files> {
    rt: &'a R,
}

impl<'a, R: Files> Opens for SystemFiles<'a, R> {
    type File = R::File;

    ghost opens = { λ _ _ _. ⊤ };

    ghost fails = { λ _ _ _. ⊤ };

    fn open(&self, name: &str) -> io::Result<R::File> {
        fs::open(self.rt, name)
    }
}

/// Reads files that an opener opens.
///
/// They may change from one read to the next, so it tells nothing of their bytes; what one read
/// gave is the contract of `read`. Its one count of failed reads is the count of every name. A file
/// that is missing is a failed read.
#[derive(Drop)]
pub struct FileInputs<O> {
    opener: O,
    faults: u64,
}

impl<'a, R: Files> FileInputs<SystemFiles<'a, R>> {
    /// Reads the files of the system. No read has failed yet.
    pub fn new(rt: &'a R) -> Self
        ensures { (name : List ℕ) →
            ⟦<FileInputs<SystemFiles<'a, R>> as Inputs>⟧.faults_of result name ≡ 0 }
    {
        FileInputs::over(SystemFiles { rt })
    }
}

impl<O: Opens> FileInputs<O> {
    ghost use Rattle.cpa_outside.specs.FileInputs.{opener_of, failed_reads};

    /// Reads the files that the opener opens. No read has failed yet.
    pub fn over(opener: O) -> Self
        ensures opener { opener_of result ≡ opener }
        ensures none { failed_reads result ≡ 0 }
    {
        FileInputs { opener, faults: 0 }
    }
}

impl<O: Opens> Inputs for FileInputs<O> {
    ghost use Rattle.cpa_outside.specs.FileInputs.{opener_of, failed_reads, faults_by_name};
    ghost use Rattle.cpa_outside.specs.FileInputs.{told_bytes};

    ghost bytes_of = { told_bytes };

    ghost faults_of = { faults_by_name };

    fn read(&mut self, alloc: Global, name: &str, limit: usize) -> Result<Vec<u8>, ReadFault>
        // What a file had that was opened by exactly this name, or it had more than the limit, or
        // an error came: any but want of memory is a failed read.
        ensures whole { IfOk result (λ bytes.
            IsWhole (O.opens (opener_of self.old) name.now) O.File.remaining bytes.items) }
        ensures longer { IfErr result (λ fault. fault ≡ ReadFault.TooLong →
            IsLonger (O.opens (opener_of self.old) name.now) O.File.remaining limit) }
        ensures fault { IfErr result (λ fault. fault ≢ ReadFault.TooLong →
            IsFault (O.opens (opener_of self.old) name.now) (O.fails (opener_of self.old) name.now)
            fault) }
        ensures counts { failed_reads self.new ≡
            (if is_failed result then one_more (failed_reads self.old) else failed_reads self.old) }
        ensures opener { opener_of self.new ≡ opener_of self.old }

        // As the trait has it.
        ensures told { told_bytes self.new ≡ told_bytes self.old }
        ensures never_falls { (other : List ℕ) → failed_reads self.old ≤ failed_reads self.new }
        ensures within { IfOk result (λ bytes. length bytes.items ≤ limit) }
        ensures bytes { IfOk result (λ bytes.
            IfSome (told_bytes self.old name.now) (λ told. bytes.items ≡ told)) }
        ensures failed { IfErr result (λ fault. fault ≡ ReadFault.Failed →
            Rose (failed_reads self.old) (failed_reads self.new)) }
        ensures ok_keeps { OnOk result (faults_by_name self.new ≡ faults_by_name self.old) }
        ensures err_keeps { IfErr result (λ fault. fault ≢ ReadFault.Failed →
            faults_by_name self.new ≡ faults_by_name self.old) }
        ensures others { (other : List ℕ) → other ≢ name.now → IsSome (told_bytes self.old other) →
            failed_reads self.new ≡ failed_reads self.old }
        ensures too_long { IfErr result (λ fault. fault ≡ ReadFault.TooLong →
            IfSome (told_bytes self.old name.now) (λ told. limit < length told)) }
        ensures long { IfSome (told_bytes self.old name.now) (λ told.
            limit < length told → IsTooLongOrFailed result) }
    {
        let answer = answer_of(read_file(&self.opener, alloc, name, limit));
        self.faults = count_after(self.faults, &answer);
        answer
    }
}

/// How many reads have failed, behind this answer.
fn count_after(faults: u64, answer: &Result<Vec<u8>, ReadFault>) -> u64
    ensures { result ≡ (if is_failed answer.now then one_more faults else faults) }
{
    match answer {
        Err(ReadFault::Failed) => faults.saturating_add(1),
        _ => faults,
    }
}

/// The answer that what came of a read gives: no bytes are a file that is too long.
fn answer_of(read: io::Result<Option<Vec<u8>>>) -> Result<Vec<u8>, ReadFault>
    ensures { result ≡ answer_of read }
{
    match read {
        Ok(Some(bytes)) => Ok(bytes),
        Ok(None) => Err(ReadFault::TooLong),
        Err(error) => Err(fault_of(error.kind())),
    }
}

/// Any error but want of memory is a failed read.
fn fault_of(kind: ErrorKind) -> ReadFault
    ensures { result ≡ fault_of kind }
{
    match kind {
        ErrorKind::OutOfMemory => ReadFault::OutOfMemory,
        _ => ReadFault::Failed,
    }
}

/// The bytes of the file of this name, or `None` where it has more than `limit`.
fn read_file<O: Opens>(
    opener: &O,
    alloc: Global,
    name: &str,
    limit: usize,
) -> io::Result<Option<Vec<u8>>>
    ensures within { IfOk result (λ found. IfSome found (λ bytes. vec_len bytes ≤ limit)) }
    ensures bytes { IfOk result (λ found. MatchOption found
        (IsLonger (O.opens opener.now name.now) O.File.remaining limit)
        (λ bytes. IsWhole (O.opens opener.now name.now) O.File.remaining bytes.items)) }
    ensures error { IfErr result (λ error.
        IsError (O.opens opener.now name.now) (O.fails opener.now name.now) error) }
{
    read_within(opener.open(name)?, alloc, limit)
}

/// All that a reader has left, or `None` where that is more than `limit` bytes.
fn read_within<F: Read + Drop>(
    reader: F,
    alloc: Global,
    limit: usize,
) -> io::Result<Option<Vec<u8>>>
    ensures within { IfOk result (λ found. IfSome found (λ bytes. vec_len bytes ≤ limit)) }
    ensures bytes { IfOk result (λ found. IfSome (F.remaining reader)
        (λ left. MatchOption found (limit < length left) (λ bytes. bytes.items ≡ left))) }
{
    let bytes = read_front(reader, alloc, (limit as u64).saturating_add(1))?;
    if bytes.len() > limit {
        return Ok(None);
    }
    Ok(Some(bytes))
}

/// What a reader has left, but at most `most` bytes of it.
fn read_front<F: Read + Drop>(reader: F, alloc: Global, most: u64) -> io::Result<Vec<u8>>
    ensures { IfOk result (λ bytes.
        IfSome (F.remaining reader) (λ left. bytes.items ≡ take most left)) }
{
    let mut bytes = Vec::new(alloc);
    reader.take(most).read_to_end(&mut bytes)?;
    Ok(bytes)
}

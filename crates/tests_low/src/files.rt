//! Real files, which no clause speaks of, and the fault of an error in the middle of a file.
//! What is read from a source that tells its bytes is a clause of `cpa_outside`.
ghost use Rattle.std.specs.Prelude.{⊤};

use cpa_outside::{FileInputs, Inputs, Opens, ReadFault};
use std::io::{ErrorKind, Read};
use std::test::Fail;
use std::{env, fs, io};

/// A file that is as long as the limit, one that is longer, and one that is gone.
#[test]
fn a_file_is_read_up_to_its_limit(rt: HostRuntime) -> Result<(), Fail> {
    let alloc = rt.alloc();
    // The name ends with a blank, which is a part of it.
    let mut path = env::temp_dir(&rt)?;
    path.push("tests_low_reads_this.txt ")?;
    let name = path.as_str();
    fs::write(&rt, name, "seven b")?;
    let mut inputs = FileInputs::new(&rt);
    let whole = inputs.read(alloc, name, 7);
    let cut = inputs.read(alloc, name, 6);
    fs::remove_file(&rt, name)?;
    let gone = inputs.read(alloc, name, 7);
    assert!(rt; whole == Ok("seven b".as_bytes().to_vec(alloc)?));
    assert!(rt; cut == Err(ReadFault::TooLong));
    assert!(rt; gone == Err(ReadFault::Failed));
    Ok(())
}

/// A file of three bytes, of which a read gives one, and that then fails, or ends.
#[derive(Drop)]
struct Failing {
    left: u8,
    then: Option<ErrorKind>,
}

impl Read for Failing {
    fn read(&mut self, buf: &mut [u8]) -> io::Result<usize> {
        if self.left > 0 && !buf.is_empty() {
            self.left -= 1;
            buf[0] = b'x';
            return Ok(1);
        }
        match self.then {
            Some(kind) => Err(io::Error::from(kind)),
            None => Ok(0),
        }
    }
}

/// What opens such files, or none.
#[derive(Drop)]
struct FailingOpener {
    open: Option<ErrorKind>,
    read: Option<ErrorKind>,
}

impl Opens for FailingOpener {
    type File = Failing;

    ghost opens = { λ _ _ _. ⊤ };

    ghost fails = { λ _ _ _. ⊤ };

    fn open(&self, _name: &str) -> io::Result<Failing> {
        match self.open {
            Some(kind) => Err(io::Error::from(kind)),
            None => Ok(Failing {
                left: 3,
                then: self.read,
            }),
        }
    }
}

/// A row is how opening and reading end, the limit, and the wanted length or fault.
#[test]
fn an_error_is_the_fault_of_its_kind(rt: HostRuntime) -> Result<(), Fail> {
    let alloc = rt.alloc();
    let memory = Some(ErrorKind::OutOfMemory);
    let missing = Some(ErrorKind::NotFound);
    let broken = Some(ErrorKind::BrokenPipe);
    for (open, read, limit, want) in [
        (missing, None, 9, Err(ReadFault::Failed)),
        (memory, None, 9, Err(ReadFault::OutOfMemory)),
        (None, broken, 9, Err(ReadFault::Failed)),
        (None, memory, 9, Err(ReadFault::OutOfMemory)),
        (None, broken, 2, Err(ReadFault::TooLong)),
        (None, None, 2, Err(ReadFault::TooLong)),
        (None, None, 3, Ok(3)),
    ] {
        let mut inputs = FileInputs::over(FailingOpener { open, read });
        let got = inputs.read(alloc, "a.c", limit);
        assert!(rt; got.map(|bytes| bytes.len()) == want, "limit {limit}");
    }
    Ok(())
}

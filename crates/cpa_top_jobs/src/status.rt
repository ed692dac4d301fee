//! The statuses of the program (`code_of` of `specs/Statuses.antt`).
//! Proved by the checker alone.
ghost use Rattle.std.specs.Prelude.{◌≡◌};
ghost use Rattle.cpa_top_jobs.specs.Statuses.{code_of};

/// How the program ends.
#[derive(Clone, Copy, PartialEq, Eq)]
pub enum Status {
    /// TRUE; CONFIRMED; a replay that ends or traps.
    Holds,
    /// FALSE; REFUSED; a replay that calls `reach_error`.
    Fails,
    /// UNKNOWN, of a recheck too; a replay without an outcome: the inputs or the steps do not
    /// suffice.
    Unknown,
    /// The words ask for nothing.
    Usage,
    /// A file was not read.
    ReadFailed,
    /// A file has more bytes than it may have.
    TooLong,
    /// The bytes of the program's file stand for no program.
    NoProgram,
    /// The bytes of the configuration's file give no configuration, or no file is named and the
    /// handed analyses have no default.
    NoConfig,
    /// The bytes of the inputs' file are no list of inputs.
    NoInputs,
    /// The bytes of the report's file are no TRUE report of the program.
    NoReport,
    /// The answer was not written whole.
    WriteFailed,
    OutOfMemory,
}

impl Status {
    /// The number with which the process ends.
    pub fn code(self) -> u8
        ensures { result ≡ code_of self }
    {
        match self {
            Status::Holds => 0,
            Status::Fails => 1,
            Status::Unknown => 2,
            Status::Usage => 3,
            Status::ReadFailed => 4,
            Status::TooLong => 5,
            Status::NoProgram => 6,
            Status::NoConfig => 7,
            Status::NoInputs | Status::NoReport => 8,
            Status::WriteFailed => 9,
            Status::OutOfMemory => 10,
        }
    }
}

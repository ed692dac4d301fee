//! What a file is read as, and how long it may be (`limit_of` of `specs/Jobs.antt`).
//! Proved by the checker alone.
ghost use Rattle.std.specs.Prelude.{◌≡◌};
ghost use Rattle.cpa_top_jobs.specs.Jobs.{limit_of};

use c_lexer::MAX_TEXT;

/// What a file that the words name is read as.
#[derive(Clone, Copy, PartialEq, Eq)]
pub enum Role {
    /// The TOML text of a configuration.
    Config,
    /// The C text of a program.
    Program,
    /// The JSON list of the inputs of a replay.
    Inputs,
    /// The report of a program.
    Report,
}

/// The most bytes of a report.
pub const MAX_REPORT: usize = 268_435_456;

impl Role {
    /// The most bytes that the file may have.
    pub(crate) fn limit(self) -> usize
        ensures { result ≡ limit_of self }
    {
        match self {
            Role::Config | Role::Program | Role::Inputs => MAX_TEXT,
            Role::Report => MAX_REPORT,
        }
    }
}

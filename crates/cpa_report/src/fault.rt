//! Why a text was not read. What breaks a rule is `Breaks` of `specs/Faults.antt`.
ghost use Rattle.std.specs.Prelude.{◌≡◌};
ghost use Rattle.cpa_report.specs.declared.fault.ReportError.TheVariants.{OutOfMemory};

use std::alloc::AllocError;
use thiserror::Error;

/// What a text breaks that is not that of a report of the program.
#[derive(Clone, Copy, Debug, PartialEq, Eq)]
pub enum ReportRule {
    /// It is the line of a verdict, and one line more.
    P1,
    /// The second line is JSON.
    P2,
    /// It is the one spelling of a report.
    P3,
    /// The report names only what the program has.
    P4,
    /// It tells the counts of the program, and the data model in which it was read.
    P5,
    /// It is of the verdict that is wanted.
    P6,
}

/// Why a text was not read.
#[derive(Clone, Copy, Debug, PartialEq, Eq, Error)]
pub enum ReportError {
    /// It breaks the rule, and none that is tried before it.
    #[error("the report breaks a rule")]
    Fault(ReportRule),
    /// Memory ran out. This says nothing of the text.
    #[error("out of memory")]
    OutOfMemory,
}

impl From<AllocError> for ReportError {
    ghost from_gives = { λ _ error. error ≡ OutOfMemory };

    fn from(_error: AllocError) -> ReportError {
        ReportError::OutOfMemory
    }
}

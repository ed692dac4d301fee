//! What words ask for, and why they ask for nothing: `Job` of `specs/Jobs.antt`.
//! Proved by the checker alone.

use cpa_ints::DataModel;

/// Why words gave no job.
#[derive(Clone, Copy, PartialEq, Eq)]
pub enum WordsError {
    /// The words ask for nothing.
    Refused,
    /// Memory ran out. This says nothing of the words.
    OutOfMemory,
}

/// What words ask for. The names of files are kept as they were given.
#[derive(Clone, Copy)]
pub enum Job<'a> {
    /// To verify the program.
    Verify {
        /// The file of the C text.
        program: &'a str,
        /// The file of the configuration, where one is named.
        config: Option<&'a str>,
    },
    /// To run the program on given inputs.
    Replay {
        /// The file of the C text.
        program: &'a str,
        /// The file of the inputs.
        inputs: &'a str,
        /// The greatest number of steps.
        steps: u64,
        /// The data model in which the program is read.
        model: DataModel,
    },
    /// To recheck the entries of a TRUE report.
    Recheck {
        /// The file of the C text.
        program: &'a str,
        /// The file of the report.
        report: &'a str,
        /// The file of the configuration, where one is named.
        config: Option<&'a str>,
    },
    /// To verify the text of a measurement.
    Bench {
        /// How many functions it has, at most `MAX_BENCH`.
        count: u32,
    },
}

/// The steps of a replay whose words name no number.
pub const STEPS: u64 = 1_000_000;

/// The most functions of a measurement.
pub const MAX_BENCH: u32 = 100;

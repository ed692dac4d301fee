//! What an analysis answers. The relation of each kind stands in `specs/Answers.antt`.

use cpa_cnf::Line;
use cpa_iface::{Entry, Precision, Refined, Turn};
use cpa_model::{Path, Seq};

/// The verdict on a program, or why there is none.
#[derive(Drop)]
pub enum Answer {
    /// No execution calls the error: each reachable state lies in one of the entries.
    True { entries: Seq<Entry> },
    /// The execution with these inputs does, after so many steps.
    False { inputs: Seq<i128>, steps: u64 },
    Unknown { why: Why },
}

/// Why an analysis gives up.
#[derive(Drop)]
pub enum Why {
    /// All turns of a round were taken, and an entry waits.
    Turns {
        journal: Seq<Turn>,
    },
    /// All refinements were made, and the path has no run.
    Rounds {
        path: Path,
        history: Seq<Refined>,
    },
    /// The search learned all lines that it may, on the path's query.
    Learnt {
        path: Path,
        lines: Seq<Line>,
    },
    /// The path weighs more than a query may.
    Gates {
        path: Path,
        weight: u64,
    },
    /// The path has no run, and no precision grew.
    NoNew {
        path: Path,
        precisions: Seq<Precision>,
    },
}

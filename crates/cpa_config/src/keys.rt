//! The keys of a configuration: what stands at each, and what counts where the text has no such
//! key. What a value means by these tables is `specs/Values.antt`.

use cpa_iface::{DEFAULT_GATES, DEFAULT_LEARNT, MergeRule, Order};
use cpa_ints::DataModel;

/// Whole numbers, and the one that counts where the text has none.
#[derive(Clone, Copy)]
pub struct Range {
    pub least: u64,
    pub greatest: u64,
    pub default: u64,
}

/// What stands at a key.
#[derive(Clone, Copy)]
pub enum Kind {
    /// A list of names of handed analyses, by default all of them.
    Analyses,
    /// A table from listed names to words of `MERGE_RULES`.
    Merge,
    /// A word of `MODELS`.
    Model,
    /// A whole number.
    Number(Range),
    /// A word of `ORDERS`.
    Order,
    /// A word of `TRACKED`.
    Tracked,
}

/// How much a query may weigh.
pub const GATES: Range = Range {
    least: 0,
    greatest: 1_000_000_000_000,
    default: DEFAULT_GATES,
};

/// How many clauses a search may learn.
pub const LEARNT: Range = Range {
    least: 0,
    greatest: 1_000_000_000,
    default: DEFAULT_LEARNT as u64,
};

/// The most distinct values that are kept of a cell, 0 for no limit.
pub const LIMIT: Range = Range {
    least: 0,
    greatest: 1_000_000,
    default: 0,
};

/// How many refinements may be made.
pub const ROUNDS: Range = Range {
    least: 0,
    greatest: 1_000_000,
    default: 50,
};

/// How many entries a round may take.
pub const TURNS: Range = Range {
    least: 1,
    greatest: 1_000_000_000,
    default: 100_000,
};

/// The keys that a text may have.
pub const KEYS: [(&str, Kind); 10] = [
    ("analyses", Kind::Analyses),
    ("gates", Kind::Number(GATES)),
    ("learnt", Kind::Number(LEARNT)),
    ("limit", Kind::Number(LIMIT)),
    ("merge", Kind::Merge),
    ("model", Kind::Model),
    ("order", Kind::Order),
    ("rounds", Kind::Number(ROUNDS)),
    ("tracked", Kind::Tracked),
    ("turns", Kind::Number(TURNS)),
];

/// The data models, by the names that C programmers give them.
pub const MODELS: [(&str, DataModel); 2] = [("lp64", DataModel::Lp64), ("ilp32", DataModel::Ilp32)];

/// The data model where the text has none.
pub const DEFAULT_MODEL: DataModel = DataModel::Lp64;

/// Which waiting entry is taken.
pub const ORDERS: [(&str, Order); 2] = [("first", Order::First), ("last", Order::Last)];

/// The order where the text has none.
pub const DEFAULT_ORDER: Order = Order::First;

/// Whether the first precision tracks all cells.
pub const TRACKED: [(&str, bool); 2] = [("all", true), ("none", false)];

/// Whether it does where the text does not say.
pub const DEFAULT_TRACKED: bool = false;

/// How the elements of an analysis are merged.
pub const MERGE_RULES: [(&str, MergeRule); 3] = [
    ("sep", MergeRule::Sep),
    ("join", MergeRule::Join),
    ("widen", MergeRule::Widen),
];

/// The analyses whose elements are widened where the text does not say; others are kept apart.
pub const WIDENED: [&str; 1] = ["interval"];

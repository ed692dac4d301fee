//! What an exploration keeps and tells: the entries of its reached set, its turns and its
//! refinements. These are plain data; the crates above say what they must meet.

use crate::numbers::FewNumbers;
use crate::precisions::Precision;
use crate::rows::Row;
use cpa_model::{Elem, Path, Seq};

/// An entry of a reached set (CAV 2007, section 2).
#[derive(Drop)]
pub struct Entry {
    /// No two entries ever have one number, and later ones have greater numbers.
    pub number: u32,
    /// An element for each picked analysis, in the order of the picks.
    pub elems: Seq<Elem>,
    /// The precision that goes with each element, in a row that entries may share.
    pub precisions: Row<Precision>,
    /// The entry from which this one came, and the edge that led to it. The first one has none.
    pub parent: Option<(u32, u32)>,
    /// Whether its successors are still to be found.
    pub waiting: bool,
    /// The numbers of the entries that cover the successors of this one.
    pub uses: FewNumbers,
}

/// What one turn of an exploration did: a row of its journal.
#[derive(Drop)]
pub struct Turn {
    /// The number of the entry whose successors were found.
    pub taken: u32,
    pub added: Seq<u32>,
    /// The number of each entry that a merge replaced, and the number of what took its place.
    pub replaced: Seq<(u32, u32)>,
}

/// A path that has no run, and the precisions to which it led.
#[derive(Drop)]
pub struct Refined {
    pub path: Path,
    /// One for each picked analysis.
    pub precisions: Seq<Precision>,
}

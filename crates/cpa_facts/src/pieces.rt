//! The pieces in which a list of facts stands. What facts they are is `facts_in` of
//! `specs/Places.antt`.

use crate::block::Block;
use crate::fact::Fact;

/// A list of facts as it stands in memory: a few are one slice, many are blocks, of which it is
/// known what runs they are.
pub enum Pieces<'a> {
    Slice(&'a [Fact]),
    Blocks(&'a [Block]),
}

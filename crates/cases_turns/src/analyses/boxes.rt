//! The analyses as `main` hands them on, behind a box that tells its laws alone.
//! Nothing is proved of what they answer here.

use cpa_composite::Handed;

/// A box of each analysis, which lives as long as the program.
#[derive(Drop)]
pub struct Boxes {
    pub location: Handed,
    pub callstack: Handed,
    pub value: Handed,
    pub interval: Handed,
}

//! What is kept under fingerprints, to be found again. Nothing is promised of what is kept: whoever
//! uses a thing looks at it.

use indexmap::IndexMap;
use std::alloc::{AllocError, Global};

/// How many things are kept.
const KEPT: usize = 4096;

/// Things under fingerprints. Where there are many, a new one takes the place of one that came
/// before most others.
#[derive(Drop)]
pub(crate) struct Table<T> {
    by_fingerprint: IndexMap<u64, T>,
    next: usize,
}

impl<T: Drop> Table<T> {
    /// None.
    pub(crate) fn new(alloc: Global) -> Table<T> {
        Table {
            by_fingerprint: IndexMap::new(alloc),
            next: 0,
        }
    }

    /// The thing under the fingerprint.
    pub(crate) fn get(&self, fingerprint: u64) -> Option<&T> {
        self.by_fingerprint.get(&fingerprint)
    }

    /// Keeps a thing under a fingerprint, in the place of what was there.
    pub(crate) fn keep(&mut self, fingerprint: u64, thing: T) -> Result<(), AllocError> {
        if self.by_fingerprint.len() >= KEPT {
            let place = self.next % KEPT;
            self.by_fingerprint.swap_remove_index(place);
            self.next = place + 1;
        }
        self.by_fingerprint.insert(fingerprint, thing)?;
        Ok(())
    }
}

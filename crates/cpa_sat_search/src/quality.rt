//! Which learned clauses stay watched: those whose literals became false in few levels (Audemard
//! and Simon 2009). Nothing rests on it but speed.

use std::alloc::{AllocError, Global};

/// A clause of so few levels stays watched for good.
const FEW: u32 = 2;

/// Learned clauses before the first choice.
const FIRST: u64 = 4000;

/// By how many the wait for the next choice grows each time.
const MORE: u64 = 1000;

/// The distances that are told apart.
const MOST: u32 = 63;

/// The distances of all clauses; 0 for those of the formula.
#[derive(Drop)]
pub(crate) struct Quality {
    distances: Vec<u32>,
    dropped: Vec<bool>,
    fresh: u64,
    limit: u64,
}

impl Quality {
    /// The distances of so many clauses of the formula.
    pub(crate) fn new(alloc: Global, count: usize) -> Result<Quality, AllocError> {
        Ok(Quality {
            distances: vec![in alloc; 0; count]?,
            dropped: vec![in alloc; false; count]?,
            fresh: 0,
            limit: FIRST,
        })
    }

    /// Adds the distance of the next clause.
    pub(crate) fn add(&mut self, distance: u32) -> Result<(), AllocError> {
        self.distances.push(distance.min(MOST).max(1))?;
        self.dropped.push(false)?;
        self.fresh = self.fresh.wrapping_add(1);
        Ok(())
    }

    /// Whether it is time to choose.
    pub(crate) fn is_due(&self) -> bool {
        self.fresh >= self.limit
    }

    /// Whether the clause is watched.
    pub(crate) fn is_kept(&self, number: usize) -> bool {
        !self.dropped.get(number).copied().unwrap_or(true)
    }

    /// Whether the clause was learned and is watched.
    fn is_learned(&self, number: usize) -> bool {
        self.distance(number) > 0 && self.is_kept(number)
    }

    /// The distance of a clause, 0 for those of the formula.
    fn distance(&self, number: usize) -> u32 {
        self.distances.get(number).copied().unwrap_or(0)
    }

    /// How many watched learned clauses have each distance.
    fn counts(&self) -> [u64; 64] {
        let mut counts = [0; 64];
        for number in 0..self.distances.len() {
            let at = self.distance(number) as usize;
            if at < 64 && self.is_learned(number) {
                let count: u64 = counts[at];
                counts[at] = count.saturating_add(1);
            }
        }
        counts
    }

    /// Drops a clause from those that are watched.
    fn drop_one(&mut self, number: usize) {
        if number < self.dropped.len() {
            self.dropped[number] = true;
        }
    }

    /// Drops about half of the watched learned clauses, those of more levels first, and of the
    /// least distance that is dropped the older ones.
    pub(crate) fn choose(&mut self) {
        self.fresh = 0;
        self.limit = self.limit.saturating_add(MORE);
        let (least, some) = least_dropped(&self.counts());
        let mut left = some;
        for number in 0..self.dropped.len() {
            let distance = self.distance(number);
            if distance > least && self.is_learned(number) {
                self.drop_one(number);
            } else if distance == least && left > 0 && self.is_learned(number) {
                self.drop_one(number);
                left -= 1;
            }
        }
    }
}

/// The least distance of which clauses are dropped, and how many of it, so that half of all go.
fn least_dropped(counts: &[u64]) -> (u32, u64) {
    let mut all: u64 = 0;
    for count in counts {
        all = all.saturating_add(*count);
    }
    let mut left = all / 2;
    for distance in (FEW + 1..MOST + 1).rev() {
        let count = counts.get(distance as usize).copied().unwrap_or(0);
        if count >= left {
            return (distance, left);
        }
        left -= count;
    }
    (FEW + 1, left)
}

//! Which literals of a learned clause its others imply (Sörensson and Biere 2009), and how many
//! levels it has (Audemard and Simon 2009). Nothing rests on either but speed.

use crate::analysis::Analysis;
use cpa_sat_arena::{Arena, PackedLit};
use cpa_sat_trail::{Level, NO_PLACE, Trail};
use std::alloc::{AllocError, Global};

/// The most places that are looked at for one literal.
const MOST: u32 = 10000;

/// What is known of the places of a trail.
#[derive(Drop)]
pub(crate) struct Redundancy {
    /// Whether the literal of a place is known to be implied.
    implied: Vec<bool>,
    /// The places that are known to be implied.
    known: Vec<u32>,
    pending: Vec<u32>,
    /// By level, the number of the last analysis whose clause had a literal of it.
    stamps: Vec<u32>,
    stamp: u32,
    /// In how many levels the literals of the last clause became false.
    pub(crate) distance: u32,
}

impl Redundancy {
    /// Nothing is known.
    pub(crate) fn new(alloc: Global, vars: u32) -> Result<Redundancy, AllocError> {
        Ok(Redundancy {
            implied: vec![in alloc; false; vars as usize]?,
            known: Vec::new(alloc),
            pending: Vec::new(alloc),
            stamps: vec![in alloc; 0; vars as usize + 1]?,
            stamp: 0,
            distance: 0,
        })
    }

    /// Whether the literal of the place is known to be implied.
    fn is_implied(&self, place: u32) -> bool {
        self.implied.get(place as usize).copied().unwrap_or(false)
    }

    /// Forgets what is known, and counts the levels of the marked literals.
    fn begin(&mut self, analysis: &Analysis, trail: &Trail) {
        self.forget(0);
        self.stamp = self.stamp.wrapping_add(1);
        self.distance = 0;
        for literal in &analysis.touched {
            if analysis.is_marked(*literal)
                && self.is_new(trail.level(trail.when_false(*literal)))
            {
                self.distance = self.distance.wrapping_add(1);
            }
        }
    }

    /// Takes a level; whether it was not taken yet.
    fn is_new(&mut self, level: Level) -> bool {
        let at = level.index();
        if at >= self.stamps.len() || self.stamps[at] == self.stamp {
            return false;
        }
        self.stamps[at] = self.stamp;
        true
    }

    /// Whether a marked literal has the level, or no decision stands before it.
    fn has_level(&self, level: Level) -> bool {
        level.is_ground() || self.stamps.get(level.index()).copied() == Some(self.stamp)
    }

    /// Forgets the places that became known after so many others.
    fn forget(&mut self, count: usize) {
        for k in count..self.known.len() {
            self.forget_one(k);
        }
        self.known.truncate(count);
    }

    /// Forgets what is known of the place that became known as number `k`.
    fn forget_one(&mut self, k: usize) {
        let place = self.known.get(k).copied().unwrap_or(NO_PLACE) as usize;
        if place < self.implied.len() {
            self.implied[place] = false;
        }
    }

    /// Takes a place as implied, to be looked at later.
    fn assume(&mut self, place: u32) -> Result<(), AllocError> {
        let at = place as usize;
        if at < self.implied.len() {
            self.implied[at] = true;
            self.known.push(place)?;
            self.pending.push(place)?;
        }
        Ok(())
    }

    /// Finds out which marked literals the others imply, but for the one of the place `kept`.
    pub(crate) fn explore(
        &mut self,
        analysis: &Analysis,
        arena: &Arena,
        trail: &Trail,
        kept: usize,
    ) -> Result<(), AllocError> {
        self.begin(analysis, trail);
        for literal in &analysis.touched {
            let place = trail.when_false(*literal);
            if analysis.is_marked(*literal) && place as usize != kept {
                self.look(analysis, arena, trail, place)?;
            }
        }
        self.known.sort()
    }

    /// Finds out whether the other marked literals imply the literal of the place.
    fn look(
        &mut self,
        analysis: &Analysis,
        arena: &Arena,
        trail: &Trail,
        place: u32,
    ) -> Result<(), AllocError> {
        if trail.why(place).is_none() || self.is_implied(place) {
            return Ok(());
        }
        let before = self.known.len();
        self.pending.clear();
        self.assume(place)?;
        if !self.follow_all(analysis, arena, trail)? {
            self.forget(before);
        }
        Ok(())
    }

    /// Follows the pending places; false where one is not implied, or they are too many.
    fn follow_all(
        &mut self,
        analysis: &Analysis,
        arena: &Arena,
        trail: &Trail,
    ) -> Result<bool, AllocError> {
        for _ in 0..MOST {
            match self.pending.pop() {
                Some(place) => {
                    if !self.follow(analysis, arena, trail, place)? {
                        return Ok(false);
                    }
                }
                None => return Ok(true),
            }
        }
        Ok(false)
    }

    /// Assumes the literals of the clause that forced the one of the place; false where one of them
    /// is not implied.
    fn follow(
        &mut self,
        analysis: &Analysis,
        arena: &Arena,
        trail: &Trail,
        place: u32,
    ) -> Result<bool, AllocError> {
        let number = trail.why(place);
        if number.index() >= arena.len() {
            return Ok(false);
        }
        for literal in arena.clause(number) {
            if !self.step(analysis, trail, *literal)? {
                return Ok(false);
            }
        }
        Ok(true)
    }

    /// Assumes a literal of a reason, unless it is marked, known or true; false where it is not
    /// implied.
    fn step(
        &mut self,
        analysis: &Analysis,
        trail: &Trail,
        literal: PackedLit,
    ) -> Result<bool, AllocError> {
        let place = trail.when_false(literal);
        if place == NO_PLACE || analysis.is_marked(literal) || self.is_implied(place) {
            return Ok(true);
        }
        if trail.why(place).is_none() || !self.has_level(trail.level(place)) {
            return Ok(false);
        }
        self.assume(place)?;
        Ok(true)
    }

    /// The places that are known to be implied, from the first to the last.
    pub(crate) fn places(&self) -> &[u32] {
        self.known.as_slice()
    }
}

//! The trail: the literals that are true, in the order in which they came, each with the clause
//! that forced it, and for each literal its place there.

ghost use Rattle.std.specs.Prelude.{◌≡◌, ◌<◌, ◌≤◌, ◌+◌, ◌-◌, ◌*◌, ◌++◌, ◌∷◌, ◌^◌, []};
ghost use Rattle.std.specs.Prelude.{take, slice_set, OnOk, IfOk};
ghost use Rattle.cpa_cnf.specs.Literals.{opposite};
ghost use Rattle.cpa_sat_trail.specs.declared.trail.TheConstants.{NO_PLACE};
ghost use Rattle.cpa_sat_trail.specs.Trails.{IsTrail, lit_at, reason_at};
ghost use Rattle.cpa_sat_trail.specs.Trails.{place_of, height};

use cpa_sat_arena::{ClauseRef, PackedLit, literal_count};
use std::alloc::{AllocError, Global};

/// The number that stands for no place.
pub const NO_PLACE: u32 = u32::MAX;

/// A trail has fewer variables than these, so that each literal is a u32.
pub const VARS_LIMIT: u32 = 1 << 31;

/// Literals that are true, by number.
#[derive(Drop)]
pub struct Trail {
    pub vars: u32,
    pub lits: Vec<PackedLit>,
    /// The clause that forced each of them; none at a decision.
    pub reasons: Vec<ClauseRef>,
    /// The place of each literal on the trail; NO_PLACE where it is not true.
    pub places: Vec<u32>,
    /// The number of decisions up to each literal on the trail: for speed alone.
    levels: Vec<Level>,
}

/// A number of decisions, up to a literal of the trail: for speed alone.
#[derive(Clone, Copy)]
pub struct Level {
    decisions: u32,
}

impl Level {
    /// Before the first decision.
    pub fn ground() -> Level {
        Level { decisions: 0 }
    }

    /// One decision more.
    fn next(self) -> Level {
        Level {
            decisions: self.decisions.wrapping_add(1),
        }
    }

    /// Whether it is before the first decision.
    pub fn is_ground(self) -> bool {
        self.decisions == 0
    }

    /// Its place in a table by level.
    pub fn index(self) -> usize {
        self.decisions as usize
    }
}

impl Trail {
    /// No literal is true.
    pub fn new(alloc: Global, vars: u32) -> Result<Trail, AllocError>
        requires { vars < 2 ^ 31 }
        ensures trail { IfOk result IsTrail }
        ensures vars { IfOk result (λ t. t.vars ≡ vars) }
        ensures empty { IfOk result (λ t. height t ≡ 0) }
    {
        Ok(Trail {
            vars,
            lits: Vec::with_capacity(alloc, vars as usize)?,
            reasons: Vec::with_capacity(alloc, vars as usize)?,
            places: vec![in alloc; NO_PLACE; literal_count(vars)]?,
            levels: Vec::with_capacity(alloc, vars as usize)?,
        })
    }

    /// Adds a literal that has no value yet.
    pub fn push(&mut self, literal: PackedLit, reason: ClauseRef) -> Result<(), AllocError>
        requires trail { IsTrail self.old }
        requires in_range { literal < 2 * self.old.vars }
        requires not_true { place_of self.old literal ≡ NO_PLACE }
        requires not_false { place_of self.old (opposite literal) ≡ NO_PLACE }
        ensures trail { OnOk result (IsTrail self.new) }
        ensures vars { OnOk result (self.new.vars ≡ self.old.vars) }
        ensures lits { OnOk result (self.new.lits.items ≡ self.old.lits.items ++ literal ∷ []) }
        ensures reasons { OnOk result
            (self.new.reasons.items ≡ self.old.reasons.items ++ reason ∷ []) }
        ensures places { OnOk result
            (self.new.places.items ≡ slice_set self.old.places.items literal (height self.old)) }
    {
        let place = self.lits.len() as u32;
        self.lits.push(literal)?;
        self.reasons.push(reason)?;
        let level = self.next_level(reason);
        self.levels.push(level)?;
        self.places[literal.index()] = place;
        Ok(())
    }

    /// The number of decisions up to the next literal, which is forced by a clause or decided.
    fn next_level(&self, reason: ClauseRef) -> Level {
        let level = self
            .levels
            .as_slice()
            .last()
            .copied()
            .unwrap_or(Level::ground());
        if reason.is_none() {
            level.next()
        } else {
            level
        }
    }

    /// Takes the last literal back.
    fn pop(&mut self)
        requires trail { IsTrail self.old }
        requires some { 0 < height self.old }
        ensures trail { IsTrail self.new }
        ensures vars { self.new.vars ≡ self.old.vars }
        ensures lits { self.new.lits.items ≡ take (height self.old - 1) self.old.lits.items }
        ensures reasons { self.new.reasons.items
            ≡ take (height self.old - 1) self.old.reasons.items }
    {
        let last = self.lits.len() - 1;
        let literal = self.lits[last];
        self.lits.truncate(last);
        self.reasons.truncate(last);
        self.levels.truncate(last);
        self.places[literal.index()] = NO_PLACE;
    }

    /// Takes literals back until so many are left.
    pub fn cut(&mut self, count: usize)
        requires trail { IsTrail self.old }
        requires fewer { count ≤ height self.old }
        ensures trail { IsTrail self.new }
        ensures vars { self.new.vars ≡ self.old.vars }
        ensures lits { self.new.lits.items ≡ take count self.old.lits.items }
        ensures reasons { self.new.reasons.items ≡ take count self.old.reasons.items }
    {
        while self.lits.len() > count {
            self.pop();
        }
    }

    /// The number of decisions up to the place: a hint, of which nothing is claimed.
    pub fn level(&self, place: u32) -> Level {
        self.levels
            .as_slice()
            .get(place as usize)
            .copied()
            .unwrap_or(Level::ground())
    }

    /// The place at which the literal became false, NO_PLACE where it is not: a hint for any
    /// literal.
    pub fn when_false(&self, literal: PackedLit) -> u32 {
        self.places
            .as_slice()
            .get(literal.opposite().index())
            .copied()
            .unwrap_or(NO_PLACE)
    }

    /// The clause that forced the literal at the place, none at a decision: a hint for any place.
    pub fn why(&self, place: u32) -> ClauseRef {
        self.reasons
            .as_slice()
            .get(place as usize)
            .copied()
            .unwrap_or(ClauseRef::none())
    }

    /// The literal that became false at the place.
    pub fn false_at(&self, at: usize) -> PackedLit
        requires trail { IsTrail self.now }
        requires inside { at < height self.now }
        ensures { result ≡ opposite (lit_at self.now at) }
    {
        self.lits[at].opposite()
    }

    /// The clause that forced the literal at the place, none at a decision.
    pub fn reason(&self, at: usize) -> ClauseRef
        requires trail { IsTrail self.now }
        requires inside { at < height self.now }
        ensures { result ≡ reason_at self.now at }
    {
        self.reasons[at]
    }
}

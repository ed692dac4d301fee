//! Which literal to decide next (VSIDS: Moskewicz et al. 2001; as in MiniSat), and when to restart
//! (Luby, Sinclair and Zuckerman 1993). Nothing rests on either but speed.

ghost use Rattle.std.specs.Prelude.{◌<◌};

use crate::trail::{NO_PLACE, VARS_LIMIT};
use cpa_sat_arena::{PackedLit, Var};
use std::alloc::{AllocError, Global};

/// The most steps from the root of a heap to a leaf.
const DEPTH: u32 = 33;

/// How much faster each bump is than the one before: 1 / 0.95.
const GROWTH: f64 = 1.0526315789473684;

/// The activity at which all are scaled down.
const HIGH: f64 = 1e100;

/// What all activities are multiplied by then.
const SCALE: f64 = 1e-100;

/// The variables in a heap by activity, and the sign that each had last.
#[derive(Drop)]
pub struct Order {
    heap: Vec<Var>,
    /// The place of each variable in the heap, NO_PLACE where it is not there.
    slots: Vec<u32>,
    activities: Vec<f64>,
    negative: Vec<bool>,
    step: f64,
}

impl Order {
    /// All variables, none with any activity.
    pub fn new(alloc: Global, vars: u32) -> Result<Order, AllocError> {
        let mut heap = Vec::with_capacity(alloc, vars as usize)?;
        let mut slots = Vec::with_capacity(alloc, vars as usize)?;
        for number in 0..vars {
            heap.push(Var::new(number))?;
            slots.push(number)?;
        }
        Ok(Order {
            heap,
            slots,
            activities: vec![in alloc; 0.0; vars as usize]?,
            negative: vec![in alloc; true; vars as usize]?,
            step: 1.0,
        })
    }

    /// The activity of a variable, 0 where there is no such variable.
    fn activity(&self, var: Var) -> f64 {
        self.activities
            .as_slice()
            .get(var.index())
            .copied()
            .unwrap_or(0.0)
    }

    /// The variable at the place in the heap, none where there is no such place.
    fn at(&self, slot: u32) -> Var {
        self.heap
            .as_slice()
            .get(slot as usize)
            .copied()
            .unwrap_or(Var::none())
    }

    /// The place of a variable in the heap, NO_PLACE where it is not there.
    fn slot(&self, var: Var) -> u32 {
        self.slots
            .as_slice()
            .get(var.index())
            .copied()
            .unwrap_or(NO_PLACE)
    }

    /// Puts the variable at the place in the heap.
    fn put(&mut self, slot: u32, var: Var) {
        if (slot as usize) < self.heap.len() {
            self.heap[slot as usize] = var;
        }
        if var.index() < self.slots.len() {
            self.slots[var.index()] = slot;
        }
    }

    /// Moves the variable at the place up to where it belongs.
    fn rise(&mut self, slot: u32) {
        let var = self.at(slot);
        let mut here = slot;
        for _ in 0..DEPTH {
            if here == 0 {
                break;
            }
            let parent = parent_of(here);
            let above = self.at(parent);
            if self.activity(var) <= self.activity(above) {
                break;
            }
            self.put(here, above);
            here = parent;
        }
        self.put(here, var);
    }

    /// The child of the place with the greater activity, NO_PLACE where it has no child.
    fn child(&self, slot: u32) -> u32 {
        let left = left_of(slot);
        if left >= self.heap.len() as u64 || left + 1 >= u64::from(NO_PLACE) {
            return NO_PLACE;
        }
        let left = left as u32;
        let right = left + 1;
        let is_right = (right as usize) < self.heap.len()
            && self.activity(self.at(right)) > self.activity(self.at(left));
        if is_right { right } else { left }
    }

    /// Moves the variable at the place down to where it belongs.
    fn sink(&mut self, slot: u32) {
        let var = self.at(slot);
        let mut here = slot;
        for _ in 0..DEPTH {
            let child = self.child(here);
            if child == NO_PLACE {
                break;
            }
            let below = self.at(child);
            if self.activity(below) <= self.activity(var) {
                break;
            }
            self.put(here, below);
            here = child;
        }
        self.put(here, var);
    }

    /// Takes out the variable of the greatest activity, and gives its literal with the sign that it
    /// had last.
    pub fn pop(&mut self) -> Option<PackedLit> {
        let var = self.at(0);
        let last = self.heap.pop()?;
        if var.index() < self.slots.len() {
            self.slots[var.index()] = NO_PLACE;
        }
        if !self.heap.is_empty() {
            self.put(0, last);
            self.sink(0);
        }
        let is_negative = self
            .negative
            .as_slice()
            .get(var.index())
            .copied()
            .unwrap_or(true);
        if var.number() >= VARS_LIMIT {
            return None;
        }
        let literal = var.positive();
        Some(if is_negative {
            literal.opposite()
        } else {
            literal
        })
    }

    /// Keeps the sign of a literal that was true, and puts its variable back.
    pub fn release(&mut self, literal: PackedLit) -> Result<(), AllocError> {
        let var = literal.var();
        if var.index() < self.negative.len() {
            self.negative[var.index()] = literal.is_negative();
        }
        if self.slot(var) == NO_PLACE && self.heap.len() < VARS_LIMIT as usize {
            let slot = self.heap.len() as u32;
            self.heap.push(var)?;
            self.put(slot, var);
            self.rise(slot);
        }
        Ok(())
    }

    /// Raises a variable's activity.
    pub fn bump(&mut self, var: Var) {
        if var.index() < self.activities.len() {
            self.activities[var.index()] = self.activity(var) + self.step;
            if self.activity(var) > HIGH {
                self.scale();
            }
        }
        let slot = self.slot(var);
        if slot != NO_PLACE {
            self.rise(slot);
        }
    }

    /// Makes later bumps count for more.
    pub fn decay(&mut self) {
        self.step *= GROWTH;
    }

    /// Scales all activities down, and the next bump with them.
    fn scale(&mut self) {
        for activity in self.activities.iter_mut() {
            *activity *= SCALE;
        }
        self.step *= SCALE;
    }
}

/// The place above this one in a heap.
fn parent_of(slot: u32) -> u32
    requires { 0 < slot }
{
    (slot - 1) / 2
}

/// The first of the two places below this one in a heap.
fn left_of(slot: u32) -> u64 {
    u64::from(slot) * 2 + 1
}

/// The lengths between restarts: the Luby sequence in units of a hundred conflicts.
#[derive(Drop)]
pub struct Restarts {
    /// The pair of Knuth's recurrence for the sequence.
    u: u64,
    v: u64,
    left: u64,
}

/// The conflicts of one unit.
const UNIT: u64 = 100;

impl Restarts {
    /// The first length is one unit of conflicts.
    pub fn new() -> Restarts {
        Restarts {
            u: 1,
            v: 1,
            left: UNIT,
        }
    }

    /// Counts a conflict, and says whether to restart.
    pub fn is_due(&mut self) -> bool {
        if self.left > 0 {
            self.left -= 1;
            return false;
        }
        if self.u & self.u.wrapping_neg() == self.v {
            self.u = self.u.wrapping_add(1);
            self.v = 1;
        } else {
            self.v = self.v.wrapping_mul(2);
        }
        self.left = self.v.saturating_mul(UNIT);
        true
    }
}

//! Whether stores and inputs are a run that meets what was added, step by step, by `value` and the
//! steps of edges alone: no form and no query is looked at.

use crate::additions::Addition;
use cpa_expr::{Expr, Store, value};
use cpa_ints::Seq;
use cpa_model::{Act, Cell, Cfa, Elem, Fact, has_truth};
use std::alloc::Global;
use std::mem;

/// A run that is followed: the present store, and the inputs that are left.
#[derive(Drop)]
pub struct Run<'a> {
    pub alloc: Global,
    pub store: Store,
    pub inputs: &'a [i128],
}

impl Run<'_> {
    /// Follows the run through what was added; false where it does not meet it.
    pub fn meets(&mut self, cfa: &Cfa, additions: &[Addition]) -> bool {
        for addition in additions {
            if !self.meets_one(cfa, addition) {
                return false;
            }
        }
        true
    }

    /// Follows the run through one addition; an element is asked of the present store alone.
    fn meets_one(&mut self, cfa: &Cfa, addition: &Addition) -> bool {
        match addition {
            Addition::Taken(edges) => self.takes(cfa, edges.as_slice()),
            Addition::Holding(elem) => holds(elem, &self.store),
            Addition::Failing(elems) => all_fail(elems.as_slice(), &self.store),
        }
    }

    /// Takes the edges in order. That one begins where the last one ends is not asked.
    fn takes(&mut self, cfa: &Cfa, edges: &[u32]) -> bool {
        for edge in edges {
            let taken = match cfa.edges.get(*edge as usize) {
                Some(edge) => self.steps(cfa, &edge.act),
                None => false,
            };
            if !taken {
                return false;
            }
        }
        true
    }

    /// One step of the store, where there is one.
    fn steps(&mut self, cfa: &Cfa, act: &Act) -> bool {
        match act {
            Act::Assign {
                base,
                len,
                index,
                value,
            } => self.writes(*base, *len, index, value),
            Act::Assume { test, holds } => has_truth(test, *holds, &self.store),
            Act::Input { cell } => self.reads(cfa, *cell),
            Act::Skip | Act::Call { .. } | Act::Return { .. } => true,
        }
    }

    /// A write; false where its index or its value traps, or no cell has the index.
    fn writes(&mut self, base: u32, len: u32, index: &Expr, written: &Expr) -> bool {
        let Some(at) = value(index, &self.store) else {
            return false;
        };
        let Some(v) = value(written, &self.store) else {
            return false;
        };
        if 0 <= at && at < len as i128 {
            self.set(base as usize + at as usize, v)
        } else {
            false
        }
    }

    /// The next input, in the range of the cell's type.
    fn reads(&mut self, cfa: &Cfa, cell: u32) -> bool {
        match (self.inputs, cfa.cells.get(cell as usize)) {
            ([input, rest @ ..], Some(found)) => {
                self.inputs = rest;
                found.ty.contains(*input) && self.set(cell as usize, *input)
            }
            _ => false,
        }
    }

    /// This value for the cell, where it is there.
    fn set(&mut self, cell: usize, v: i128) -> bool {
        let alloc = self.alloc;
        let mut values = mem::replace(&mut self.store.values, Seq::new(alloc)).into_vec();
        let there = cell < values.len();
        if there {
            values[cell] = v;
        }
        self.store.values = Seq::from_vec(values);
        there
    }
}

/// Whether a run may begin at the store: at the start of each cell, or at any values in range.
pub fn begins(cfa: &Cfa, from_initial: bool, first: &Store) -> bool {
    let cells = cfa.cells.as_slice();
    if first.values.len() != cells.len() {
        return false;
    }
    for i in 0..cells.len() {
        let begun = match first.values.get(i) {
            Some(value) => may_begin(&cells[i], *value, from_initial),
            None => false,
        };
        if !begun {
            return false;
        }
    }
    true
}

/// Whether the cell may have the value at the beginning.
fn may_begin(cell: &Cell, value: i128, from_initial: bool) -> bool {
    if from_initial {
        value == cell.start
    } else {
        cell.ty.contains(value)
    }
}

/// Whether the facts on the store all hold.
fn holds(elem: &Elem, store: &Store) -> bool {
    for fact in &elem.facts {
        if !fact_holds(fact, store) {
            return false;
        }
    }
    true
}

/// Whether of each element some fact on the store does not hold.
fn all_fail(elems: &[Elem], store: &Store) -> bool {
    for elem in elems {
        if holds(elem, store) {
            return false;
        }
    }
    true
}

/// Whether a fact holds of the store. A fact on the point or the stack says nothing of it.
fn fact_holds(fact: &Fact, store: &Store) -> bool {
    match fact {
        Fact::At { .. } | Fact::Stack { .. } => true,
        Fact::Equals { cell, value } => store.values.get(*cell as usize) == Some(value),
        Fact::Within { cell, lo, hi } => match store.values.get(*cell as usize) {
            Some(value) => *lo <= *value && *value <= *hi,
            None => false,
        },
        Fact::Truth { expr, holds } => has_truth(expr, *holds, store),
    }
}

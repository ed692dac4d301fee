//! Elements, which are made of facts on states: whether one holds of a state, and whether it is
//! shaped for an automaton, by `specs/Facts.antt`.
ghost use Rattle.std.specs.Prelude.{◌≡◌, ◌<◌, ◌↔◌, [], IfOk, IsTrue};
ghost use Rattle.std.specs.List.{AllByRecursion};
ghost use Rattle.cpa_model.specs.Facts.{FactHolds, Holds, IsElem, IsFact, IsValueOf};

use crate::automaton::Cfa;
use crate::expressions::{has_truth, is_expr};
use crate::program::Cell;
use crate::states::State;
use cpa_facts::{Fact, Facts};
use cpa_ints::Seq;
use std::alloc::{AllocError, Global};

/// An element of an analysis: it holds of a state of which all its facts hold. Copies share the
/// facts, since most of what a turn does leaves an element as it is.
#[derive(Drop)]
pub struct Elem {
    pub facts: Facts,
}

impl Elem {
    /// The element of these facts.
    pub fn new(alloc: Global, facts: Seq<Fact>) -> Result<Elem, AllocError>
        ensures { IfOk result (λ e. e.facts ≡ facts) }
    {
        Ok(Elem {
            facts: Facts::from_seq(alloc, facts)?,
        })
    }

    /// The element without facts, which holds of every state. It takes no memory.
    pub fn any() -> Elem
        ensures { result.facts ≡ [] }
    {
        Elem {
            facts: Facts::new(),
        }
    }
}

/// Whether the element holds of the state. A fact on a cell that the state lacks does not.
pub fn holds(elem: &Elem, state: &State) -> bool
    ensures { IsTrue result ↔ Holds elem.now state.now }
{
    for fact in &elem.facts {
        if !fact_holds(fact, state) {
            return false;
        }
    }
    true
}

/// Whether the fact holds of the state. A fact on a cell that the state lacks does not.
fn fact_holds(fact: &Fact, state: &State) -> bool
    ensures { IsTrue result ↔ FactHolds state.now fact.now }
{
    let values = &state.store.values;
    match fact {
        Fact::At { point } => state.point == *point,
        Fact::Stack { sites } => state.stack == *sites,
        Fact::Equals { cell, value } => values.get(*cell as usize) == Some(value),
        Fact::Within { cell, lo, hi } => match values.get(*cell as usize) {
            Some(value) => *lo <= *value && *value <= *hi,
            None => false,
        },
        Fact::Truth { expr, holds } => has_truth(expr, *holds, &state.store),
    }
}

/// Whether each fact names points and cells that the automaton has, values of the cells' types,
/// bounds in order and well-typed expressions.
pub fn is_elem(elem: &Elem, cfa: &Cfa) -> bool
    ensures { IsTrue result ↔ IsElem cfa.now.cells cfa.now.points elem.now }
{
    let cells = cfa.cells.as_slice();
    for fact in &elem.facts {
        if !is_fact(fact, cells, cfa.points) {
            return false;
        }
    }
    true
}

/// Whether the fact is shaped for these cells and so many points.
fn is_fact(fact: &Fact, cells: &[Cell], points: u32) -> bool
    ensures { IsTrue result ↔ IsFact cells.now points fact.now }
{
    match fact {
        Fact::At { point } => *point < points,
        Fact::Stack { sites } => are_points(sites.as_slice(), points),
        Fact::Equals { cell, value } => is_value_of(cells, *cell, *value),
        Fact::Within { cell, lo, hi } => {
            is_value_of(cells, *cell, *lo) && is_value_of(cells, *cell, *hi) && *lo <= *hi
        }
        Fact::Truth { expr, .. } => is_expr(expr, cells),
    }
}

/// Whether each call site is one of the points.
fn are_points(sites: &[u32], points: u32) -> bool
    ensures { IsTrue result ↔ AllByRecursion (λ site. site < points) sites.now }
{
    for site in sites {
        if *site >= points {
            return false;
        }
    }
    true
}

/// Whether the cell is there and its type has the value.
fn is_value_of(cells: &[Cell], cell: u32, value: i128) -> bool
    ensures { IsTrue result ↔ IsValueOf cells.now cell value }
{
    match cells.get(cell as usize) {
        Some(found) => found.ty.contains(value),
        None => false,
    }
}

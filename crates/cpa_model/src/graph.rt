//! What an exploration reads off an automaton: its error points, and the edges that leave a point.
//! Both stand in order, so each is found by halving.
ghost use Rattle.std.specs.Prelude.{◌≡◌, ℕ, ◌+◌, ◌<◌, ◌≤◌, ◌↔◌, IsTrue, Some, length, slice_get};
ghost use Rattle.std.specs.Prelude.{slice_index_or};
ghost use Rattle.std.specs.List.{Contains};
ghost use Rattle.std.specs.List.Sorted.{IsNonDecreasingBy};
ghost use Rattle.cpa_model.specs.declared.automaton.Edge.{Edge};
ghost use Rattle.cpa_model.specs.Ascending.{AreAscending};
ghost use Rattle.cpa_model.specs.Automata.{IsAutomaton};

use crate::automaton::{Cfa, Edge};

/// Whether the point is a call of `reach_error`.
pub fn is_error(cfa: &Cfa, point: u32) -> bool
    requires { IsAutomaton cfa.now }
    ensures { IsTrue result ↔ Contains cfa.now.errors point }
{
    is_among(cfa.errors.as_slice(), point)
}

/// Whether the number is one of these, which ascend.
fn is_among(numbers: &[u32], number: u32) -> bool
    requires { AreAscending numbers.now }
    ensures { IsTrue result ↔ Contains numbers.now number }
{
    numbers.binary_search(&number).is_ok()
}

/// Where the edges that leave points from this one on begin.
fn first_from(edges: &[Edge], point: u32) -> usize
    requires { IsNonDecreasingBy (λ (e : Edge). e.from) edges.now }
    ensures bound { result ≤ length edges.now }
    ensures before { (k : ℕ) (d : Edge) → k < result → (slice_index_or edges.now k d).from < point }
    ensures from { (k : ℕ) (d : Edge) → result ≤ k → k < length edges.now
        → point ≤ (slice_index_or edges.now k d).from }
{
    edges.partition_point(|edge| edge.from < point)
}

/// Where the edges that leave points after this one begin.
fn first_after(edges: &[Edge], point: u32) -> usize
    requires { IsNonDecreasingBy (λ (e : Edge). e.from) edges.now }
    ensures bound { result ≤ length edges.now }
    ensures upto { (k : ℕ) (d : Edge) → k < result → (slice_index_or edges.now k d).from ≤ point }
    ensures after { (k : ℕ) (d : Edge) → result ≤ k → k < length edges.now
        → point < (slice_index_or edges.now k d).from }
{
    edges.partition_point(|edge| edge.from <= point)
}

/// The edges that leave the point: the number of the first, and how many there are. Where none
/// does, the first is where they would stand. It takes no memory.
pub fn leaving(cfa: &Cfa, point: u32) -> (u32, u32)
    requires { IsAutomaton cfa.now }
    ensures within { result.0 + result.1 ≤ length cfa.now.edges }
    ensures before { (k : ℕ) (edge : Edge) → slice_get cfa.now.edges k ≡ Some edge
        → (k < result.0) ↔ (edge.from < point) }
    ensures leave { (k : ℕ) (edge : Edge) → slice_get cfa.now.edges k ≡ Some edge
        → ((result.0 ≤ k) × (k < result.0 + result.1)) ↔ (edge.from ≡ point) }
{
    let edges = cfa.edges.as_slice();
    let first = first_from(edges, point);
    let last = first_after(edges, point);
    (first as u32, (last - first) as u32)
}

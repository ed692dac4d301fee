//! The edges that leave a point of an automaton, and the one among them that has a rank, found by
//! halving. Shown in `proofs/Leaving.antt`.
ghost use Rattle.std.specs.Prelude.{◌≡◌, IfSome, IfNone};
ghost use Rattle.std.specs.List.{Contains};
ghost use Rattle.std.specs.List.Sorted.{IsNonDecreasingBy};
ghost use Rattle.cpa_model.specs.declared.automaton.Edge.{Edge};
ghost use Rattle.cpa_model.specs.Automata.{IsAutomaton, rank_of};
ghost use Rattle.cpa_interp.specs.Turns.{Leave};

use cpa_model::{Act, Cfa, Edge, leaving};

/// The edges that leave the point.
pub(crate) fn edges_from(cfa: &Cfa, point: u32) -> &[Edge]
    requires { IsAutomaton cfa.now }
    ensures { Leave cfa.now point result.now }
{
    let (first, count) = leaving(cfa, point);
    let first = first as usize;
    &cfa.edges.as_slice()[first..first + count as usize]
}

/// The edge of this rank, of edges that leave one point.
pub(crate) fn with_rank(edges: &[Edge], rank: u32) -> Option<&Edge>
    requires { IsNonDecreasingBy (λ (e : Edge). rank_of e.act) edges.now }
    ensures some { IfSome result (λ e. Contains edges.now e.now × (rank_of e.now.act ≡ rank)) }
    ensures none { IfNone result ((e : Edge) → Contains edges.now e → rank_of e.act ≡ rank → ⊥) }
{
    let edge = edges.get(edges.partition_point(|edge| rank_of(edge) < rank))?;
    (rank_of(edge) == rank).then_some(edge)
}

/// What tells the edges of one point apart: the sense of a test, the site of a return.
fn rank_of(edge: &Edge) -> u32
    ensures { result ≡ rank_of edge.now.act }
{
    match &edge.act {
        Act::Assume { holds, .. } => !*holds as u32,
        Act::Return { site } => *site,
        _ => 0,
    }
}

//! The edges along which a turn goes: those that leave the point of the first fact on one, or all.
//! That no state of the entry goes along another edge is shown in `proofs/Leaving.antt`.

ghost use Rattle.std.specs.Prelude.{◌≡◌, ◌+◌, ◌≤◌, length};
ghost use Rattle.cpa_model.specs.Automata.{IsAutomaton};
ghost use Rattle.cpa_engine_turn.specs.Points.{point_in, first_point, AreEdgesFrom};

use cpa_model::{Cfa, Elem, Fact, Facts, automata_are_small, leaving};

/// The point of the first fact on one.
fn point_in(facts: &Facts) -> Option<u32>
    ensures { result ≡ point_in facts.now }
{
    for fact in facts {
        match fact {
            Fact::At { point } => return Some(*point),
            _ => {}
        }
    }
    None
}

/// The point of the first element that has a fact on one.
fn first_point(elems: &[Elem]) -> Option<u32>
    ensures { result ≡ first_point elems.now }
{
    for elem in elems {
        let point = point_in(&elem.facts);
        if point.is_some() {
            return point;
        }
    }
    None
}

/// The first edge of those along which a state of the elements may go, and how many they are.
pub(crate) fn edges_from(cfa: &Cfa, elems: &[Elem]) -> (u32, u32)
    requires { IsAutomaton cfa.now }
    ensures within { result.0 + result.1 ≤ length cfa.now.edges }
    ensures edges { AreEdgesFrom cfa.now (first_point elems.now) result.0 result.1 }
{
    automata_are_small();
    match first_point(elems) {
        Some(point) => leaving(cfa, point),
        None => (0, cfa.edges.len() as u32),
    }
}

//! The analysis of locations, the smallest one. What it gives stands in `specs/Locations.antt`, and
//! that it keeps the laws is shown in `proofs/LocationLaws.antt`.

ghost use Rattle.std.specs.Prelude.{◌≡◌, IfOk};
ghost use Rattle.cpa_iface.specs.Locations.{locations, names_point, may_stand_at, next_points};
ghost use Rattle.cpa_iface.specs.Pins.{pin};

use crate::analysis::Part;
use crate::plain::Steps;
use cpa_model::{Cfa, Edge, Elem, Fact, Seq, automata_are_small};
use std::alloc::{AllocError, Global};

/// The smallest analysis: it keeps the point of a state, and is exact on it.
#[derive(Drop)]
pub struct Location;

impl Steps for Location {
    ghost own = { locations };

    fn name(&self) -> &str {
        "location"
    }

    fn exact_on(&self) -> Part {
        Part::Point
    }

    fn initial(&mut self, alloc: Global, cfa: &Cfa) -> Result<Elem, AllocError> {
        automata_are_small();
        pin(alloc, cfa.start)
    }

    fn transfer(
        &mut self,
        alloc: Global,
        cfa: &Cfa,
        edge: u32,
        elem: &Elem,
    ) -> Result<Vec<Elem>, AllocError> {
        next_points(alloc, elem, cfa.edge(edge))
    }
}

/// The point to which the edge leads, where the element may stand at the one that it leaves.
fn next_points(alloc: Global, elem: &Elem, edge: &Edge) -> Result<Vec<Elem>, AllocError>
    ensures { IfOk result (λ es. es.items ≡ next_points elem.now edge.now) }
{
    let mut successors = Vec::new(alloc);
    if may_stand_at(elem, edge.from) {
        successors.push(pin(alloc, edge.to)?)?;
    }
    Ok(successors)
}

/// The pin of a point.
fn pin(alloc: Global, point: u32) -> Result<Elem, AllocError>
    ensures { IfOk result (λ e. e ≡ pin point) }
{
    let mut facts = Seq::new(alloc);
    facts.push(Fact::At { point })?;
    Elem::new(alloc, facts)
}

/// Whether each fact on the point names this one, as also where there is no such fact.
fn may_stand_at(elem: &Elem, point: u32) -> bool
    ensures { result ≡ may_stand_at elem.now point }
{
    elem.facts.iter().all(|fact| names_point(fact, point))
}

/// Whether the fact does not name another point.
fn names_point(fact: &Fact, point: u32) -> bool
    ensures { result ≡ names_point point fact.now }
{
    match fact {
        Fact::At { point: own } => *own == point,
        _ => true,
    }
}

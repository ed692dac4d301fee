//! An analysis that guesses, by `specs/Samples.antt`: besides the point to which an edge leads it
//! gives the one that it leaves, and finds no state where another element stands elsewhere.

ghost use Rattle.std.specs.Prelude.{◌≡◌, [], ◌∷◌, IsTrue, IfOk, IfSome};
ghost use Rattle.cpa_model.specs.declared.states.State.{State};
ghost use Rattle.cpa_model.specs.Facts.{Holds, LiesIn};
ghost use Rattle.cpa_iface.specs.Pins.{pin};
ghost use Rattle.cases_turns.specs.Samples.{StandsAt};

use crate::composites::blind::no_facts;
use cpa_iface::{
    Analysis, Entry, MergeRule, Part, Precision, Settings, copy_precision, empty_precision,
    merge_facts, unadjusted, unstrengthened,
};
use cpa_model::{Cfa, Elem, Fact, Path, Seq, edges_are_sound, has_facts};
use std::alloc::{AllocError, Global};

/// It guesses among two points, and is exact on nothing.
#[derive(Drop)]
pub struct Guess;

impl Analysis for Guess {
    ghost use Rattle.cases_turns.specs.Samples.{guess};

    ghost meaning = { λ _. guess };

    fn name(&self) -> &str {
        "guess"
    }

    fn exact_on(&self) -> Part {
        Part::Nothing
    }

    fn initial(&mut self, _alloc: Global, _cfa: &Cfa) -> Result<Elem, AllocError> {
        Ok(no_facts())
    }

    fn first_precision(
        &mut self,
        alloc: Global,
        _cfa: &Cfa,
        _settings: &Settings,
    ) -> Result<Precision, AllocError> {
        Ok(empty_precision(alloc))
    }

    fn transfer(
        &mut self,
        alloc: Global,
        cfa: &Cfa,
        edge: u32,
        _elem: &Elem,
        _precision: &Precision,
    ) -> Result<Vec<Elem>, AllocError> {
        edges_are_sound();
        let edge = cfa.edge(edge);
        guesses(alloc, edge.from, edge.to)
    }

    fn strengthen(
        &mut self,
        _alloc: Global,
        _cfa: &Cfa,
        own: &Elem,
        others: &[Elem],
        _precision: &Precision,
    ) -> Result<Option<Elem>, AllocError> {
        if contradict(own, others) {
            return Ok(None);
        }
        unstrengthened(own)
    }

    fn merge(
        &mut self,
        alloc: Global,
        _cfa: &Cfa,
        rule: MergeRule,
        new: &Elem,
        old: &Elem,
        _precision: &Precision,
    ) -> Result<Elem, AllocError> {
        merge_facts(alloc, rule, new, old)
    }

    fn covered_by(&self, elem: &Elem, other: &Elem) -> bool {
        has_facts(elem, other)
    }

    fn adjust(
        &mut self,
        alloc: Global,
        _cfa: &Cfa,
        elem: &Elem,
        precision: &Precision,
        _reached: &[Entry],
        _place: u32,
    ) -> Result<(Elem, Precision), AllocError> {
        unadjusted(alloc, elem, precision)
    }

    fn refine(
        &mut self,
        alloc: Global,
        _cfa: &Cfa,
        _path: &Path,
        precision: &Precision,
    ) -> Result<Precision, AllocError> {
        copy_precision(alloc, precision)
    }
}

/// The elements of two points.
fn guesses(alloc: Global, from: u32, to: u32) -> Result<Vec<Elem>, AllocError>
    ensures { IfOk result (λ es. es.items ≡ pin from ∷ pin to ∷ []) }
{
    let mut guesses = Vec::new(alloc);
    guesses.push(at(alloc, from)?)?;
    guesses.push(at(alloc, to)?)?;
    Ok(guesses)
}

/// Whether the element stands at a point, and another one elsewhere.
fn contradict(own: &Elem, others: &[Elem]) -> bool
    ensures { IsTrue result → (s : State) → Holds own.now s → LiesIn s others.now → ⊥ }
{
    match point_of(own) {
        Some(point) => stand_elsewhere(others, point),
        None => false,
    }
}

/// The element of the fact that the point is this one.
fn at(alloc: Global, point: u32) -> Result<Elem, AllocError>
    ensures { IfOk result (λ e. e ≡ pin point) }
{
    let mut facts = Seq::new(alloc);
    facts.push(Fact::At { point })?;
    Elem::new(alloc, facts)
}

/// The point of the first fact on one.
fn point_of(elem: &Elem) -> Option<u32>
    ensures { IfSome result (StandsAt elem.now) }
{
    for fact in &elem.facts {
        match fact {
            Fact::At { point } => return Some(*point),
            _ => {}
        }
    }
    None
}

/// Whether some element stands at another point.
fn stand_elsewhere(elems: &[Elem], point: u32) -> bool
    ensures { IsTrue result → (s : State) → LiesIn s elems.now → s.point ≡ point → ⊥ }
{
    for elem in elems {
        if stands_elsewhere(elem, point) {
            return true;
        }
    }
    false
}

/// Whether the first fact of an element on a point is on another one.
fn stands_elsewhere(elem: &Elem, point: u32) -> bool
    ensures { IsTrue result → (s : State) → Holds elem.now s → s.point ≡ point → ⊥ }
{
    match point_of(elem) {
        Some(other) => other != point,
        None => false,
    }
}

//! The composite and its calls. Contracts see it as its components (`specs/Composites.antt`); each
//! clause is a record of `specs/Laws.antt`, and holds since it does of the same call of `calls`.

ghost use Rattle.std.specs.Prelude.{◌≡◌, ◌<◌, length, map, Some, slice_get, IsTrue, IfOk, IfSome};
ghost use Rattle.std.specs.Prelude.{◌↔◌, IfNone};
ghost use Rattle.std.specs.List.{AllByRecursion};
ghost use Rattle.cpa_model.specs.Automata.{IsAutomaton};
ghost use Rattle.cpa_iface.specs.Meanings.{IsPathOf};
ghost use Rattle.cpa_iface.specs.declared.merging.MergeRule.TheVariants.{Sep};
ghost use Rattle.cpa_composite.specs.Components.{Component, picked, ArePlaces, AreElems};
ghost use Rattle.cpa_composite.specs.Components.{ArePrecisions, IsEntryOf};
ghost use Rattle.cpa_composite.specs.lemmas.Picks.{places-prop};

use crate::{calls, keys};
use cpa_composite_covers::covered_by;
use cpa_iface::{Analysis, Entry, Pick, Precision, Settings};
use cpa_model::{Cfa, Elem, Path};
use std::alloc::{AllocError, Global};

/// The handed analyses, and which of them are used, by which rule.
#[derive(Drop)]
pub struct Composite<A: Analysis> {
    handed: Vec<A>,
    picks: Vec<Pick>,
    ghost within: { ArePlaces (length handed.items) picks.items } by { places-prop _ _ },
}

impl<A: Analysis> Composite<A> {
    ghost use Rattle.cpa_composite.specs.Composites.{components};
    ghost use Rattle.cpa_composite.specs.Covers.{all_cover, IsWithinRow};
    ghost use Rattle.cpa_composite.specs.Keys.{key_places};
    ghost use Rattle.cpa_composite.specs.Laws.{InitialRow, SuccessorRows, MergedRow, AdjustedRow};
    ghost use Rattle.cpa_composite.specs.Laws.{RefinedRow, AgreeOnSep, WidenCovers};
    ghost use Rattle.cpa_composite.specs.Laws.{SuggestionsStand, EachMerged, EachRefined};

    /// Uses the picked ones, in the order of the picks. Takes no memory.
    pub fn new(handed: Vec<A>, picks: Vec<Pick>) -> Composite<A>
        requires { ArePlaces (length handed.items) picks.items }
        ensures made { components result ≡ picked (map A.meaning handed.items) picks.items }
        ensures size { length (components result) ≡ length picks.items }
    {
        Composite { handed, picks }
    }

    /// The numbers of the picks that are exact on the point or on the stack and keep their elements
    /// apart, counted from 0, ascending. By their elements entries are told apart.
    pub fn key_places(&self, alloc: Global) -> Result<Vec<u32>, AllocError>
        ensures { IfOk result (λ places. places.items ≡ key_places (components self.now)) }
    {
        keys::key_places(&self.handed, &self.picks, alloc)
    }

    /// Whether the pick of this number, counted from 0, keeps its elements apart.
    pub fn is_apart(&self, place: u32) -> bool
        ensures { (c : Component) → slice_get (components self.now) place ≡ Some c
            → IsTrue result ↔ (c.rule ≡ Sep) }
    {
        keys::is_apart(&self.handed, &self.picks, place)
    }

    /// The element and the precision of each analysis to begin with.
    pub fn initial(
        &mut self,
        alloc: Global,
        cfa: &Cfa,
        settings: &Settings,
    ) -> Result<(Vec<Elem>, Vec<Precision>), AllocError>
        requires { IsAutomaton cfa.now }
        ensures laws { IfOk result (λ pair. InitialRow (components self.old) cfa.now
            settings.now pair.0.items pair.1.items) }
        ensures kept { components self.new ≡ components self.old }
    {
        calls::initial(&mut self.handed, &self.picks, alloc, cfa, settings)
    }

    /// Every choice of one element from the successors that each analysis gives, the last one
    /// varying fastest; each analysis strengthens its element, one after the other. A choice in
    /// which one of them finds no state is dropped.
    pub fn successors(
        &mut self,
        alloc: Global,
        cfa: &Cfa,
        edge: u32,
        elems: &[Elem],
        precisions: &[Precision],
    ) -> Result<Vec<Vec<Elem>>, AllocError>
        requires automaton { IsAutomaton cfa.now }
        requires edge { edge < length cfa.now.edges }
        requires elems { AreElems cfa.now (length (components self.old)) elems.now }
        requires precisions { ArePrecisions cfa.now (length (components self.old))
            precisions.now }
        ensures laws { IfOk result (λ rows. SuccessorRows (components self.old) cfa.now
            edge elems.now precisions.now (map (λ row. row.items) rows.items)) }
        ensures kept { components self.new ≡ components self.old }
    {
        calls::successors(
            &mut self.handed,
            &self.picks,
            alloc,
            cfa,
            edge,
            elems,
            precisions,
        )
    }

    /// What takes the place of the old row where the new one has come: each analysis merges by its
    /// rule. `None` where some analysis keeps apart what differs, or nothing changes.
    pub fn merge(
        &mut self,
        alloc: Global,
        cfa: &Cfa,
        new: &[Elem],
        old: &[Elem],
        precisions: &[Precision],
    ) -> Result<Option<Vec<Elem>>, AllocError>
        requires automaton { IsAutomaton cfa.now }
        requires new { AreElems cfa.now (length (components self.old)) new.now }
        requires old { AreElems cfa.now (length (components self.old)) old.now }
        requires precisions { ArePrecisions cfa.now (length (components self.old))
            precisions.now }
        ensures some { IfOk result (λ o. IfSome o (λ merged. MergedRow
            (components self.old) cfa.now new.now old.now precisions.now
            merged.items)) }
        ensures none { IfOk result (λ o. IfNone o (AgreeOnSep (components self.old)
            new.now old.now → WidenCovers (components self.old) new.now old.now)) }
        ensures stays { IfOk result (λ o. IfNone o (AgreeOnSep (components self.old)
            new.now old.now → EachMerged cfa.now (components self.old) new.now old.now
            precisions.now old.now)) }
        ensures kept { components self.new ≡ components self.old }
    {
        calls::merge(
            &mut self.handed,
            &self.picks,
            alloc,
            cfa,
            new,
            old,
            precisions,
        )
    }

    /// Whether each analysis takes its element of the one row for covered by that of the other.
    pub fn covered_by(&self, elems: &[Elem], other: &[Elem]) -> bool
        ensures value { result ≡ all_cover (components self.now) elems.now other.now }
        ensures within { length elems.now ≡ length (components self.now)
            → length other.now ≡ length (components self.now) → IsTrue result
            → IsWithinRow elems.now other.now }
    {
        covered_by(&self.handed, &self.picks, elems, other)
    }

    /// A row of all states of this one, and the precisions that go with it, in view of what is
    /// reached.
    pub fn adjust(
        &mut self,
        alloc: Global,
        cfa: &Cfa,
        elems: &[Elem],
        precisions: &[Precision],
        reached: &[Entry],
    ) -> Result<(Vec<Elem>, Vec<Precision>), AllocError>
        requires automaton { IsAutomaton cfa.now }
        requires elems { AreElems cfa.now (length (components self.old)) elems.now }
        requires precisions { ArePrecisions cfa.now (length (components self.old))
            precisions.now }
        requires reached { AllByRecursion (IsEntryOf cfa.now
            (length (components self.old))) reached.now }
        ensures laws { IfOk result (λ pair. AdjustedRow (components self.old) cfa.now
            elems.now precisions.now reached.now pair.0.items pair.1.items) }
        ensures kept { components self.new ≡ components self.old }
    {
        calls::adjust(
            &mut self.handed,
            &self.picks,
            alloc,
            cfa,
            elems,
            precisions,
            reached,
        )
    }

    /// Precisions that keep more, after a path that has no run. `None` where none became longer.
    pub fn refine(
        &mut self,
        alloc: Global,
        cfa: &Cfa,
        path: &Path,
        precisions: &[Precision],
    ) -> Result<Option<Vec<Precision>>, AllocError>
        requires automaton { IsAutomaton cfa.now }
        requires path { IsPathOf cfa.now path.now }
        requires precisions { ArePrecisions cfa.now (length (components self.old))
            precisions.now }
        ensures some { IfOk result (λ o. IfSome o (λ ps. RefinedRow (components self.old)
            cfa.now path.now precisions.now ps.items)) }
        ensures none { IfOk result (λ o. IfNone o (SuggestionsStand cfa.now path.now
            (components self.old) precisions.now)) }
        ensures stays { IfOk result (λ o. IfNone o (EachRefined cfa.now path.now
            (components self.old) precisions.now precisions.now)) }
        ensures kept { components self.new ≡ components self.old }
    {
        calls::refine(&mut self.handed, &self.picks, alloc, cfa, path, precisions)
    }
}

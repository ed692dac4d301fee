//! Analyses that change nothing but in their steps: they keep the facts which two elements have in
//! common, and leave elements and precisions as they are. What such an analysis means stands in
//! `specs/PlainMeanings.antt`; that it keeps the laws is shown once, with
//! `specs/lemmas/CommonLaws.antt`.

ghost use Rattle.std.specs.Prelude.{◌≡◌, ◌<◌, length, IfOk};
ghost use Rattle.cpa_model.specs.Automata.{IsAutomaton};
ghost use Rattle.cpa_iface.specs.declared.precisions.Precision.{Precision as APrecision};
ghost use Rattle.cpa_iface.specs.Meanings.{IsShaped};
ghost use Rattle.cpa_iface.specs.Laws.{InitialLaws, TransferLaws};
ghost use Rattle.cpa_iface.specs.PlainMeanings.{PlainMeaning, meaning_of};

use crate::analysis::{Analysis, Part, Settings};
use crate::entries::Entry;
use crate::merging::{MergeRule, merge_facts};
use crate::precisions::{Precision, empty_precision};
use crate::standing::covers;
use crate::unchanged::{unadjusted, unrefined, unstrengthened};
use cpa_model::{Cfa, Elem, Path};
use std::alloc::{AllocError, Global};

/// What is its own of a plain analysis.
pub trait Steps: Drop {
    ghost own: { PlainMeaning };

    /// The name by which it is told from other analyses.
    fn name(&self) -> &str
        ensures { result.now ≡ own.name };

    /// The part of a state that the elements pin.
    fn exact_on(&self) -> Part
        ensures { result ≡ own.part };

    /// An element that holds of the initial state.
    fn initial(&mut self, alloc: Global, cfa: &Cfa) -> Result<Elem, AllocError>
        requires { IsAutomaton cfa.now }
        ensures { IfOk result (λ e. InitialLaws (meaning_of own) cfa.now e) };

    /// Elements in which each successor of a state of `elem` by the edge lies.
    fn transfer(
        &mut self,
        alloc: Global,
        cfa: &Cfa,
        edge: u32,
        elem: &Elem,
    ) -> Result<Vec<Elem>, AllocError>
        requires automaton { IsAutomaton cfa.now }
        requires edge { edge < length cfa.now.edges }
        requires elem { IsShaped cfa.now elem.now }
        ensures { IfOk result (λ es. (p : APrecision) →
            TransferLaws (meaning_of own) cfa.now edge elem.now p es.items) };
}

/// The plain analysis of these steps.
#[derive(Drop)]
pub struct Plain<S>(pub S);

impl<S: Steps> Analysis for Plain<S> {
    ghost meaning = { λ _. meaning_of S.own };

    fn name(&self) -> &str {
        self.0.name()
    }

    fn exact_on(&self) -> Part {
        self.0.exact_on()
    }

    fn initial(&mut self, alloc: Global, cfa: &Cfa) -> Result<Elem, AllocError> {
        self.0.initial(alloc, cfa)
    }

    fn first_precision(
        &mut self,
        alloc: Global,
        _cfa: &Cfa,
        _settings: &Settings,
    ) -> Result<Precision, AllocError> {
        Ok(empty_precision(alloc))
    }

    fn transfer(
        &mut self,
        alloc: Global,
        cfa: &Cfa,
        edge: u32,
        elem: &Elem,
        _precision: &Precision,
    ) -> Result<Vec<Elem>, AllocError> {
        self.0.transfer(alloc, cfa, edge, elem)
    }

    fn strengthen(
        &mut self,
        _alloc: Global,
        _cfa: &Cfa,
        own: &Elem,
        _others: &[Elem],
        _precision: &Precision,
    ) -> Result<Option<Elem>, AllocError> {
        unstrengthened(own)
    }

    fn merge(
        &mut self,
        alloc: Global,
        _cfa: &Cfa,
        rule: MergeRule,
        new: &Elem,
        old: &Elem,
        _precision: &Precision,
    ) -> Result<Elem, AllocError> {
        merge_facts(alloc, rule, new, old)
    }

    fn covered_by(&self, elem: &Elem, other: &Elem) -> bool {
        covers(elem, other)
    }

    fn adjust(
        &mut self,
        alloc: Global,
        _cfa: &Cfa,
        elem: &Elem,
        precision: &Precision,
        _reached: &[Entry],
        _place: u32,
    ) -> Result<(Elem, Precision), AllocError> {
        unadjusted(alloc, elem, precision)
    }

    fn refine(
        &mut self,
        alloc: Global,
        _cfa: &Cfa,
        _path: &Path,
        precision: &Precision,
    ) -> Result<Precision, AllocError> {
        unrefined(alloc, precision)
    }
}

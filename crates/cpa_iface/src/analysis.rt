//! The trait of analyses: ten calls, each with the record of the laws that it keeps as a clause.
//! The records stand in `specs/Laws.antt`.

ghost use Rattle.std.specs.Prelude.{◌≡◌, ◌<◌, length, IfOk};
ghost use Rattle.std.specs.List.{AllByRecursion};
ghost use Rattle.cpa_model.specs.Automata.{IsAutomaton};
ghost use Rattle.cpa_iface.specs.Meanings.{Meaning, IsShaped, AreShaped, IsPrecision, IsPathOf};
ghost use Rattle.cpa_iface.specs.Meanings.{HasPlace};
ghost use Rattle.cpa_iface.specs.Laws.{InitialLaws, FirstPrecisionLaws, TransferLaws};
ghost use Rattle.cpa_iface.specs.Laws.{StrengthenLaws, MergeLaws, AdjustLaws, RefineLaws};

use crate::entries::Entry;
use crate::merging::MergeRule;
use crate::precisions::Precision;
use cpa_model::{Cfa, Elem, Path};
use std::alloc::{AllocError, Global};

/// The part of a state on which an analysis is exact.
#[derive(Clone, Copy, PartialEq, Eq)]
pub enum Part {
    Nothing,
    Point,
    Stack,
    Store,
}

/// How many clauses a search may learn where no configuration says it.
pub const DEFAULT_LEARNT: u32 = 20_000;

/// How much a query may weigh where no configuration says it: about so many gates.
pub const DEFAULT_GATES: u64 = 4_000_000;

/// What a configuration says to each analysis.
#[derive(Clone, Copy)]
pub struct Settings {
    /// Whether the first precision tracks all cells, or none.
    pub tracked_all: bool,
    /// The most distinct values that are kept of a cell, 0 for no limit.
    pub limit: u32,
    /// How many clauses a search may learn.
    pub learnt: u32,
    /// How much a query may weigh.
    pub gates: u64,
}

/// An analysis (the domain, transfer, merge and stop of CAV 2007, section 2, with the precisions of
/// ASE 2008). What each call answers holds in every state that the object may be in, and no call
/// changes what the object means. Only want of memory refuses, and the object is still lawful after
/// it.
pub trait Analysis: Drop {
    ghost meaning: { Self → Meaning };

    /// The name by which it is told from other analyses.
    fn name(&self) -> &str
        ensures { result.now ≡ (meaning self.now).name };

    /// The part of a state that the elements pin.
    fn exact_on(&self) -> Part
        ensures { result ≡ (meaning self.now).part };

    /// An element that holds of the initial state.
    fn initial(&mut self, alloc: Global, cfa: &Cfa) -> Result<Elem, AllocError>
        requires { IsAutomaton cfa.now }
        ensures laws { IfOk result (λ e. InitialLaws (meaning self.old) cfa.now e) }
        ensures kept { meaning self.new ≡ meaning self.old };

    /// The precision to begin with.
    fn first_precision(
        &mut self,
        alloc: Global,
        cfa: &Cfa,
        settings: &Settings,
    ) -> Result<Precision, AllocError>
        requires { IsAutomaton cfa.now }
        ensures laws { IfOk result (λ p.
            FirstPrecisionLaws (meaning self.old) cfa.now settings.now p) }
        ensures kept { meaning self.new ≡ meaning self.old };

    /// Elements in which each successor of a state of `elem` by the edge lies.
    fn transfer(
        &mut self,
        alloc: Global,
        cfa: &Cfa,
        edge: u32,
        elem: &Elem,
        precision: &Precision,
    ) -> Result<Vec<Elem>, AllocError>
        requires automaton { IsAutomaton cfa.now }
        requires edge { edge < length cfa.now.edges }
        requires elem { IsShaped cfa.now elem.now }
        requires precision { IsPrecision cfa.now precision.now }
        ensures laws { IfOk result (λ es.
            TransferLaws (meaning self.old) cfa.now edge elem.now precision.now es.items) }
        ensures kept { meaning self.new ≡ meaning self.old };

    /// `own`, or fewer states of it: all those that the elements of the other analyses have, too.
    /// `None` where there are none.
    fn strengthen(
        &mut self,
        alloc: Global,
        cfa: &Cfa,
        own: &Elem,
        others: &[Elem],
        precision: &Precision,
    ) -> Result<Option<Elem>, AllocError>
        requires automaton { IsAutomaton cfa.now }
        requires own { IsShaped cfa.now own.now }
        requires others { AreShaped cfa.now others.now }
        requires precision { IsPrecision cfa.now precision.now }
        ensures laws { IfOk result (λ e.
            StrengthenLaws (meaning self.old) cfa.now own.now others.now precision.now e) }
        ensures kept { meaning self.new ≡ meaning self.old };

    /// What takes the place of `old` where `new` has come.
    fn merge(
        &mut self,
        alloc: Global,
        cfa: &Cfa,
        rule: MergeRule,
        new: &Elem,
        old: &Elem,
        precision: &Precision,
    ) -> Result<Elem, AllocError>
        requires automaton { IsAutomaton cfa.now }
        requires new { IsShaped cfa.now new.now }
        requires old { IsShaped cfa.now old.now }
        requires precision { IsPrecision cfa.now precision.now }
        ensures laws { IfOk result (λ e.
            MergeLaws (meaning self.old) cfa.now rule new.now old.now precision.now e) }
        ensures kept { meaning self.new ≡ meaning self.old };

    /// Whether the analysis takes each state of `elem` for one of `other`.
    fn covered_by(&self, elem: &Elem, other: &Elem) -> bool
        ensures { result ≡ (meaning self.now).cover elem.now other.now };

    /// An element of all states of `elem`, and the precision that goes with it, in view of what is
    /// reached. The elements of this analysis stand there at `place`.
    fn adjust(
        &mut self,
        alloc: Global,
        cfa: &Cfa,
        elem: &Elem,
        precision: &Precision,
        reached: &[Entry],
        place: u32,
    ) -> Result<(Elem, Precision), AllocError>
        requires automaton { IsAutomaton cfa.now }
        requires elem { IsShaped cfa.now elem.now }
        requires precision { IsPrecision cfa.now precision.now }
        requires reached { AllByRecursion (HasPlace cfa.now place) reached.now }
        ensures laws { IfOk result (λ pair.
            AdjustLaws (meaning self.old) cfa.now elem.now precision.now reached.now place
            pair.0 pair.1) }
        ensures kept { meaning self.new ≡ meaning self.old };

    /// A precision that keeps more, after a path that has no run.
    fn refine(
        &mut self,
        alloc: Global,
        cfa: &Cfa,
        path: &Path,
        precision: &Precision,
    ) -> Result<Precision, AllocError>
        requires automaton { IsAutomaton cfa.now }
        requires path { IsPathOf cfa.now path.now }
        requires precision { IsPrecision cfa.now precision.now }
        ensures laws { IfOk result (λ p.
            RefineLaws (meaning self.old) cfa.now path.now precision.now p) }
        ensures kept { meaning self.new ≡ meaning self.old };
}

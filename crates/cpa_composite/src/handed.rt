//! A handed analysis: it means what the analysis in its box means, and each call asks that one.
//! That the laws of `cpa_iface` go through is shown by the checker alone.

use cpa_iface::{Analysis, Entry, MergeRule, Part, Precision, Settings};
use cpa_model::{Cfa, Elem, Path};
use std::alloc::{AllocError, Global};

/// An analysis of any kind.
#[derive(Drop)]
pub struct Handed {
    pub analysis: Box<dyn Analysis + Send>,
}

impl Analysis for Handed {
    ghost meaning = { λ h. (Analysis-box h.analysis).meaning h.analysis.value };

    fn name(&self) -> &str {
        self.analysis.name()
    }

    fn exact_on(&self) -> Part {
        self.analysis.exact_on()
    }

    fn initial(&mut self, alloc: Global, cfa: &Cfa) -> Result<Elem, AllocError> {
        self.analysis.initial(alloc, cfa)
    }

    fn first_precision(
        &mut self,
        alloc: Global,
        cfa: &Cfa,
        settings: &Settings,
    ) -> Result<Precision, AllocError> {
        self.analysis.first_precision(alloc, cfa, settings)
    }

    fn transfer(
        &mut self,
        alloc: Global,
        cfa: &Cfa,
        edge: u32,
        elem: &Elem,
        precision: &Precision,
    ) -> Result<Vec<Elem>, AllocError> {
        self.analysis.transfer(alloc, cfa, edge, elem, precision)
    }

    fn strengthen(
        &mut self,
        alloc: Global,
        cfa: &Cfa,
        own: &Elem,
        others: &[Elem],
        precision: &Precision,
    ) -> Result<Option<Elem>, AllocError> {
        self.analysis.strengthen(alloc, cfa, own, others, precision)
    }

    fn merge(
        &mut self,
        alloc: Global,
        cfa: &Cfa,
        rule: MergeRule,
        new: &Elem,
        old: &Elem,
        precision: &Precision,
    ) -> Result<Elem, AllocError> {
        self.analysis.merge(alloc, cfa, rule, new, old, precision)
    }

    fn covered_by(&self, elem: &Elem, other: &Elem) -> bool {
        self.analysis.covered_by(elem, other)
    }

    fn adjust(
        &mut self,
        alloc: Global,
        cfa: &Cfa,
        elem: &Elem,
        precision: &Precision,
        reached: &[Entry],
        place: u32,
    ) -> Result<(Elem, Precision), AllocError> {
        self.analysis
            .adjust(alloc, cfa, elem, precision, reached, place)
    }

    fn refine(
        &mut self,
        alloc: Global,
        cfa: &Cfa,
        path: &Path,
        precision: &Precision,
    ) -> Result<Precision, AllocError> {
        self.analysis.refine(alloc, cfa, path, precision)
    }
}

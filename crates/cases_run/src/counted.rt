//! An analysis that knows nothing and counts how often it is asked for a cover, of which no clause
//! speaks: the answer is the same, however many entries a successor is compared with.

use crate::blind::Blind;
use cpa_iface::{Analysis, Entry, MergeRule, Part, Plain, Precision, Settings};
use cpa_model::{Cfa, Elem, Path};
use std::alloc::{AllocError, Global};
use std::sync::Arc;
use std::sync::atomic::{AtomicU64, Ordering};

/// `Blind`, under the same name, with a count of covers that lives on when it is gone.
#[derive(Drop)]
pub struct Counted {
    blind: Plain<Blind>,
    covers: Arc<AtomicU64>,
}

impl Counted {
    /// Adds to this count.
    pub fn new(covers: Arc<AtomicU64>) -> Counted {
        let blind = Plain(Blind);
        Counted { blind, covers }
    }
}

impl Analysis for Counted {
    ghost use Rattle.cpa_iface.specs.PlainMeanings.{meaning_of};
    ghost use Rattle.cases_run.specs.Blind.{blinds};

    ghost meaning = { λ _. meaning_of blinds };

    fn name(&self) -> &str {
        self.blind.name()
    }

    fn exact_on(&self) -> Part {
        self.blind.exact_on()
    }

    fn initial(&mut self, alloc: Global, cfa: &Cfa) -> Result<Elem, AllocError> {
        self.blind.initial(alloc, cfa)
    }

    fn first_precision(
        &mut self,
        alloc: Global,
        cfa: &Cfa,
        settings: &Settings,
    ) -> Result<Precision, AllocError> {
        self.blind.first_precision(alloc, cfa, settings)
    }

    fn transfer(
        &mut self,
        alloc: Global,
        cfa: &Cfa,
        edge: u32,
        elem: &Elem,
        precision: &Precision,
    ) -> Result<Vec<Elem>, AllocError> {
        self.blind.transfer(alloc, cfa, edge, elem, precision)
    }

    fn strengthen(
        &mut self,
        alloc: Global,
        cfa: &Cfa,
        own: &Elem,
        others: &[Elem],
        precision: &Precision,
    ) -> Result<Option<Elem>, AllocError> {
        self.blind.strengthen(alloc, cfa, own, others, precision)
    }

    fn merge(
        &mut self,
        alloc: Global,
        cfa: &Cfa,
        rule: MergeRule,
        new: &Elem,
        old: &Elem,
        precision: &Precision,
    ) -> Result<Elem, AllocError> {
        self.blind.merge(alloc, cfa, rule, new, old, precision)
    }

    fn covered_by(&self, elem: &Elem, other: &Elem) -> bool {
        self.covers.fetch_add(1, Ordering::SeqCst);
        self.blind.covered_by(elem, other)
    }

    fn adjust(
        &mut self,
        alloc: Global,
        cfa: &Cfa,
        elem: &Elem,
        precision: &Precision,
        reached: &[Entry],
        place: u32,
    ) -> Result<(Elem, Precision), AllocError> {
        self.blind
            .adjust(alloc, cfa, elem, precision, reached, place)
    }

    fn refine(
        &mut self,
        alloc: Global,
        cfa: &Cfa,
        path: &Path,
        precision: &Precision,
    ) -> Result<Precision, AllocError> {
        self.blind.refine(alloc, cfa, path, precision)
    }
}

//! An analysis that knows nothing and asks for more after each path, by `specs/Samples.antt`. That
//! it keeps the refinement law is shown with `proofs/Growing.antt`.

ghost use Rattle.std.specs.Prelude.{◌≡◌, IfOk};
ghost use Rattle.cases_turns.specs.Samples.{longer_by_one};

use crate::composites::blind::no_facts;
use cpa_expr::Expr;
use cpa_iface::{
    Analysis, Entry, MergeRule, Part, Precision, Settings, copy_preds, empty_precision,
    merge_facts, unadjusted, unstrengthened,
};
use cpa_ints::IntType;
use cpa_model::{Cfa, Elem, Path, Shared, has_facts};
use std::alloc::{AllocError, Global};

/// It knows nothing, is exact on nothing, and each path makes its precision longer.
#[derive(Drop)]
pub struct Eager;

impl Analysis for Eager {
    ghost use Rattle.cases_turns.specs.Samples.{eager};

    ghost meaning = { λ _. eager };

    fn name(&self) -> &str {
        "eager"
    }

    fn exact_on(&self) -> Part {
        Part::Nothing
    }

    fn initial(&mut self, _alloc: Global, _cfa: &Cfa) -> Result<Elem, AllocError> {
        Ok(no_facts())
    }

    fn first_precision(
        &mut self,
        alloc: Global,
        _cfa: &Cfa,
        _settings: &Settings,
    ) -> Result<Precision, AllocError> {
        Ok(empty_precision(alloc))
    }

    fn transfer(
        &mut self,
        alloc: Global,
        _cfa: &Cfa,
        _edge: u32,
        _elem: &Elem,
        _precision: &Precision,
    ) -> Result<Vec<Elem>, AllocError> {
        let mut successors = Vec::new(alloc);
        successors.push(no_facts())?;
        Ok(successors)
    }

    fn strengthen(
        &mut self,
        _alloc: Global,
        _cfa: &Cfa,
        own: &Elem,
        _others: &[Elem],
        _precision: &Precision,
    ) -> Result<Option<Elem>, AllocError> {
        unstrengthened(own)
    }

    fn merge(
        &mut self,
        alloc: Global,
        _cfa: &Cfa,
        rule: MergeRule,
        new: &Elem,
        old: &Elem,
        _precision: &Precision,
    ) -> Result<Elem, AllocError> {
        merge_facts(alloc, rule, new, old)
    }

    fn covered_by(&self, elem: &Elem, other: &Elem) -> bool {
        has_facts(elem, other)
    }

    fn adjust(
        &mut self,
        alloc: Global,
        _cfa: &Cfa,
        elem: &Elem,
        precision: &Precision,
        _reached: &[Entry],
        _place: u32,
    ) -> Result<(Elem, Precision), AllocError> {
        unadjusted(alloc, elem, precision)
    }

    fn refine(
        &mut self,
        alloc: Global,
        _cfa: &Cfa,
        _path: &Path,
        precision: &Precision,
    ) -> Result<Precision, AllocError> {
        longer(alloc, precision)
    }
}

/// The precision with one more predicate, the number 1.
fn longer(alloc: Global, precision: &Precision) -> Result<Precision, AllocError>
    ensures { IfOk result (λ p. p ≡ longer_by_one precision.now) }
{
    let mut preds = copy_preds(alloc, precision.preds.as_slice())?;
    preds.push(Expr::Const {
        ty: IntType::I32,
        value: 1,
    })?;
    let tracked = precision.tracked.share()?;
    Ok(Precision {
        tracked,
        limit: precision.limit,
        preds: Shared::from_seq(alloc, preds)?,
    })
}

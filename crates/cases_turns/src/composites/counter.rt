//! An analysis whose elements all differ, by `specs/Samples.antt`: it numbers them, and merges what
//! is there where it has made three, six and so on.

ghost use Rattle.std.specs.Prelude.{◌≡◌, ◌⊎◌, IfOk};
ghost use Rattle.cases_turns.specs.Samples.{no_facts, count};

use crate::composites::blind::no_facts;
use cpa_expr::Expr;
use cpa_iface::{
    Analysis, Entry, MergeRule, Part, Precision, Settings, copy_precision, empty_precision,
    merge_facts, unadjusted, unstrengthened,
};
use cpa_ints::IntType;
use cpa_model::{Cfa, Elem, Fact, Path, Seq, copy_elem, has_facts};
use std::alloc::{AllocError, Global};

/// It numbers its elements, and is exact on nothing.
#[derive(Drop)]
pub struct Counter {
    /// How many elements it has made.
    made: u32,
}

impl Counter {
    /// One that has made no element.
    pub fn new() -> Counter {
        Counter { made: 0 }
    }
}

impl Analysis for Counter {
    ghost use Rattle.cases_turns.specs.Samples.{counter};

    ghost meaning = { λ _. counter };

    fn name(&self) -> &str {
        "counter"
    }

    fn exact_on(&self) -> Part {
        Part::Nothing
    }

    fn initial(&mut self, alloc: Global, _cfa: &Cfa) -> Result<Elem, AllocError> {
        self.made = self.made.saturating_add(1);
        count(alloc, self.made)
    }

    fn first_precision(
        &mut self,
        alloc: Global,
        _cfa: &Cfa,
        _settings: &Settings,
    ) -> Result<Precision, AllocError> {
        Ok(empty_precision(alloc))
    }

    fn transfer(
        &mut self,
        alloc: Global,
        _cfa: &Cfa,
        _edge: u32,
        _elem: &Elem,
        _precision: &Precision,
    ) -> Result<Vec<Elem>, AllocError> {
        self.made = self.made.saturating_add(1);
        let mut successors = Vec::new(alloc);
        successors.push(count(alloc, self.made)?)?;
        Ok(successors)
    }

    fn strengthen(
        &mut self,
        _alloc: Global,
        _cfa: &Cfa,
        own: &Elem,
        _others: &[Elem],
        _precision: &Precision,
    ) -> Result<Option<Elem>, AllocError> {
        unstrengthened(own)
    }

    fn merge(
        &mut self,
        alloc: Global,
        _cfa: &Cfa,
        rule: MergeRule,
        new: &Elem,
        old: &Elem,
        _precision: &Precision,
    ) -> Result<Elem, AllocError> {
        match rule {
            MergeRule::Join => joined(self.made, old),
            _ => merge_facts(alloc, rule, new, old),
        }
    }

    fn covered_by(&self, elem: &Elem, other: &Elem) -> bool {
        has_facts(elem, other)
    }

    fn adjust(
        &mut self,
        alloc: Global,
        _cfa: &Cfa,
        elem: &Elem,
        precision: &Precision,
        _reached: &[Entry],
        _place: u32,
    ) -> Result<(Elem, Precision), AllocError> {
        unadjusted(alloc, elem, precision)
    }

    fn refine(
        &mut self,
        alloc: Global,
        _cfa: &Cfa,
        _path: &Path,
        precision: &Precision,
    ) -> Result<Precision, AllocError> {
        copy_precision(alloc, precision)
    }
}

/// What is there where so many elements are made: all states, each third time.
fn joined(made: u32, old: &Elem) -> Result<Elem, AllocError>
    ensures { IfOk result (λ e. (e ≡ no_facts) ⊎ (e ≡ old.now)) }
{
    if made % 3 == 0 {
        Ok(no_facts())
    } else {
        copy_elem(old)
    }
}

/// The element of this number.
fn count(alloc: Global, number: u32) -> Result<Elem, AllocError>
    ensures { IfOk result (λ e. e ≡ count number) }
{
    let value = number as i128;
    let mut facts = Seq::new(alloc);
    facts.push(Fact::Truth {
        expr: Expr::Const {
            ty: IntType::U32,
            value,
        },
        holds: value != 0,
    })?;
    Elem::new(alloc, facts)
}

//! How the elements of two entries are merged, and which analyses an exploration uses.
//! `merged_facts` stands in `specs/Common.antt`. Proved with `proofs/merging/`.

ghost use Rattle.std.specs.Prelude.{◌≡◌, IfOk};
ghost use Rattle.cpa_iface.specs.Common.{common_facts, merged_facts};

use crate::standing::behind_fact;
use cpa_model::{Elem, Seq, copy_elem, copy_fact};
use std::alloc::{AllocError, Global};

/// How the elements of two entries are merged (CAV 2007, section 2; widening is POPL 1977's).
#[derive(Clone, Copy, PartialEq, Eq)]
pub enum MergeRule {
    /// They are kept apart.
    Sep,
    /// They give an element of the states of the old one at least.
    Join,
    /// They give an element of the states of both, and only so often that it ends.
    Widen,
}

/// A handed analysis that is used.
#[derive(Clone, Copy, PartialEq, Eq)]
pub struct Pick {
    /// Its place among the handed ones.
    pub place: u32,
    pub rule: MergeRule,
}

/// Which waiting entry is taken.
#[derive(Clone, Copy, PartialEq, Eq)]
pub enum Order {
    /// The one of the least number.
    First,
    /// The one of the greatest number.
    Last,
}

/// What the elements are merged to where an analysis keeps the facts that both have. It serves
/// `Join` and `Widen` alike, since facts are only dropped.
pub fn merge_facts(
    alloc: Global,
    rule: MergeRule,
    new: &Elem,
    old: &Elem,
) -> Result<Elem, AllocError>
    ensures { IfOk result (λ e. e ≡ merged_facts rule new.now old.now) }
{
    match rule {
        MergeRule::Sep => copy_elem(old),
        MergeRule::Join | MergeRule::Widen => common_facts(alloc, new, old),
    }
}

/// The facts of `old` that stand in `new`, too.
fn common_facts(alloc: Global, new: &Elem, old: &Elem) -> Result<Elem, AllocError>
    ensures { IfOk result (λ e. e ≡ common_facts new.now old.now) }
{
    let mut facts = Seq::new(alloc);
    let mut next = 0;
    for fact in &old.facts {
        if let Some(place) = behind_fact(&new.facts, next, fact) {
            next = place;
            facts.push(copy_fact(alloc, fact)?)?;
        }
    }
    Elem::new(alloc, facts)
}

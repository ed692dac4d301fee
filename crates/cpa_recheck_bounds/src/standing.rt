//! The facts of an element that an act leaves true, with the one that it tests, by
//! `specs/Standing.antt`. Proved with `proofs/Stood.antt`.

ghost use Rattle.std.specs.Prelude.{◌≡◌, ◌∷◌, [], ◌≤◌, ◌<◌, ◌+◌, ℕ, false, IfOk, IsTrue};
ghost use Rattle.cpa_expr.specs.Cells.{may_read};
ghost use Rattle.cpa_recheck_bounds.specs.Standing.{AreLeft, AreTested, IsBarred, Spares, Stands};

use crate::saying::says_truth;
use cpa_expr::{Expr, copy, may_read, value_depends_on_what_is_read};
use cpa_model::{Act, Elem, Fact, Seq, copy_fact};
use std::alloc::{AllocError, Global};

/// Whether the expression may read one of the cells from the first one up to the end.
fn reads_between(e: &Expr, first: u32, end: u32) -> bool
    ensures { result ≡ false
        → (cell : ℕ) → first ≤ cell → cell < end → may_read e.now cell ≡ false }
{
    for cell in first..end {
        if may_read(e, cell) {
            return true;
        }
    }
    false
}

/// Whether the expression may read one of `len` cells from `base` on.
fn reads_among(e: &Expr, base: u32, len: u32) -> bool
    ensures { result ≡ false
        → (cell : ℕ) → base ≤ cell → cell < base + len → may_read e.now cell ≡ false }
{
    match base.checked_add(len) {
        Some(end) => reads_between(e, base, end),
        None => true,
    }
}

/// Whether the act may write a cell that the expression may read.
fn may_change(act: &Act, e: &Expr) -> bool
    ensures { result ≡ false → Spares act.now e.now }
{
    match act {
        Act::Assign { base, len, .. } => reads_among(e, *base, *len),
        Act::Input { cell } => may_read(e, *cell),
        _ => false,
    }
}

/// Whether the fact is one on the truth of an expression that the act leaves as it is.
fn stands(act: &Act, fact: &Fact) -> bool
    ensures { IsTrue result → Stands act.now fact.now }
{
    value_depends_on_what_is_read();
    match fact {
        Fact::Truth { expr, .. } => !may_change(act, expr),
        _ => false,
    }
}

/// This truth of the expression, as the one fact.
fn truth_alone(alloc: Global, e: &Expr, holds: bool) -> Result<Seq<Fact>, AllocError>
    ensures { IfOk result (λ facts. facts ≡ Fact.Truth e.now holds ∷ []) }
{
    let mut facts = Seq::new(alloc);
    facts.push(Fact::Truth {
        expr: copy(alloc, e)?,
        holds,
    })?;
    Ok(facts)
}

/// The truth that the act tests, if it is a test.
fn tested(alloc: Global, act: &Act) -> Result<Seq<Fact>, AllocError>
    ensures { IfOk result (AreTested act.now) }
{
    match act {
        Act::Assume { test, holds } => {
            let facts = truth_alone(alloc, test, *holds)?;
            Ok(facts)
        }
        _ => Ok(Seq::new(alloc)),
    }
}

/// The truth that the act tests, and the facts of the element on the truth of expressions that the
/// act leaves as they are.
pub(crate) fn standing(alloc: Global, elem: &Elem, act: &Act) -> Result<Elem, AllocError>
    ensures { IfOk result (AreLeft act.now elem.now) }
{
    let mut facts = tested(alloc, act)?;
    for fact in &elem.facts {
        if stands(act, fact) {
            facts.push(copy_fact(alloc, fact)?)?;
        }
    }
    Elem::new(alloc, facts)
}

/// Whether the element says that the test of the act does not come out so: then it leads nowhere.
pub(crate) fn is_barred(elem: &Elem, act: &Act) -> bool
    ensures { IsTrue result → IsBarred act.now elem.now }
{
    match act {
        Act::Assume { test, holds } => says_truth(elem, test, !*holds),
        _ => false,
    }
}

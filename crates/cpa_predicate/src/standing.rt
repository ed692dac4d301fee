//! Truths that an edge leaves as they are, since it writes no cell that the predicate reads.

ghost use Rattle.std.specs.Prelude.{◌≡◌, ◌<◌, ◌≤◌, ◌^◌, ◌-◌, ◌+◌, ℕ, false, Some, IfSome};
ghost use Rattle.cpa_expr.specs.Cells.{may_read};
ghost use Rattle.cpa_predicate.specs.Standing.{Writes, said, first_said};

use cpa_expr::{may_read, same_expr};
use cpa_model::{Act, Elem, Expr, Fact};

/// Whether the expression may read one of `len` cells from `base` on.
fn reads_among(p: &Expr, base: u32, len: u32) -> bool
    ensures { result ≡ false → (cell : ℕ) → base ≤ cell → cell < base + len → cell < 2 ^ 32 - 1
        → may_read p.now cell ≡ false }
{
    for cell in base..base.saturating_add(len) {
        if may_read(p, cell) {
            return true;
        }
    }
    false
}

/// Whether the act may write a cell that the expression may read.
pub(crate) fn may_change(act: &Act, p: &Expr) -> bool
    ensures { result ≡ false → (cell : ℕ) → Writes act.now cell → cell < 2 ^ 32 - 1
        → may_read p.now cell ≡ false }
{
    match act {
        Act::Assign { base, len, .. } => reads_among(p, *base, *len),
        Act::Input { cell } => may_read(p, *cell),
        _ => false,
    }
}

/// The truth that the fact says of the predicate.
fn said(fact: &Fact, p: &Expr) -> Option<bool>
    ensures { result ≡ said p.now fact.now }
{
    match fact {
        Fact::Truth { expr, holds } => {
            if same_expr(expr, p) {
                Some(*holds)
            } else {
                None
            }
        }
        _ => None,
    }
}

/// The first truth that the element says of the predicate.
pub(crate) fn first_said(elem: &Elem, p: &Expr) -> Option<bool>
    ensures { result ≡ first_said p.now elem.now.facts }
{
    for fact in &elem.facts {
        let truth = said(fact, p);
        if truth.is_some() {
            return truth;
        }
    }
    None
}

/// The truth that the element says of the predicate, where the act leaves it as it is.
pub(crate) fn standing_truth(elem: &Elem, p: &Expr, act: &Act) -> Option<bool>
    ensures said { IfSome result (λ holds. first_said p.now elem.now.facts ≡ Some holds) }
    ensures unread { IfSome result (λ _. (cell : ℕ) → Writes act.now cell → cell < 2 ^ 32 - 1
        → may_read p.now cell ≡ false) }
{
    if may_change(act, p) {
        None
    } else {
        first_said(elem, p)
    }
}

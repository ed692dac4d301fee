//! The words of specs/Drafts of `cpa_form_rules` that add one cell or one wanted expression.
//! Proved by the checker alone.

ghost use Rattle.std.specs.Prelude.{◌≡◌, IfOk, OnOk};
ghost use Rattle.cpa_form_rules.specs.Drafts.{next, fresh, want, named};

use crate::nodes::has_value;
use cpa_expr::{Expr, type_of};
use cpa_form_rules::Draft;
use cpa_ints::{Boxed, IntType};
use std::alloc::{AllocError, Global};

/// The number of the next cell. There are 2^32 numbers.
pub(crate) fn next(draft: &Draft) -> Result<u32, AllocError>
    ensures { IfOk result (λ n. n ≡ next draft.now) }
{
    let count = draft.cells.len();
    if count > u32::MAX as usize {
        return Err(AllocError);
    }
    match draft.first.checked_add(count as u32) {
        Some(number) => Ok(number),
        None => Err(AllocError),
    }
}

/// One more cell, by its number.
pub(crate) fn fresh(draft: &mut Draft, ty: IntType) -> Result<u32, AllocError>
    ensures number { IfOk result (λ n. n ≡ next draft.old) }
    ensures fresh { OnOk result (draft.new ≡ fresh ty draft.old) }
{
    let number = next(draft)?;
    draft.cells.push(ty)?;
    Ok(number)
}

/// One more wanted expression.
pub(crate) fn want(draft: &mut Draft, e: Boxed<Expr>, holds: bool) -> Result<(), AllocError>
    ensures { OnOk result (draft.new ≡ want e holds draft.old) }
{
    draft.wanted.push((e.into_inner(), holds))
}

/// One more cell, by its number, that has the value of the expression.
pub(crate) fn named(alloc: Global, draft: &mut Draft, e: Boxed<Expr>) -> Result<u32, AllocError>
    ensures number { IfOk result (λ n. n ≡ next draft.old) }
    ensures named { OnOk result (draft.new ≡ named e draft.old) }
{
    let ty = type_of(e.get());
    let number = fresh(draft, ty)?;
    let same = has_value(alloc, ty, number, e)?;
    want(draft, same, true)?;
    Ok(number)
}

//! Expressions over the program's cells that are wanted at places, by specs/Drafts and specs/Tests
//! of `cpa_form_rules`.

ghost use Rattle.std.specs.Prelude.{◌≡◌, true, IfOk, OnOk};
ghost use Rattle.cpa_ints.specs.declared.integers.IntType.TheVariants as ty;
ghost use Rattle.cpa_expr.specs.Cells.{scalar_read};
ghost use Rattle.cpa_expr.specs.declared.tree.Expr.TheVariants.{Or, Not};
ghost use Rattle.cpa_form_renaming.specs.Renaming.{renamed};
ghost use Rattle.cpa_form_rules.specs.Drafts.{next, fresh, want, want_all};
ghost use Rattle.cpa_form_rules.specs.Tests.{want_some, want_each};

use crate::drafting::{fresh, want};
use crate::nodes::{renamed, scalar};
use cpa_expr::{Expr, either, negation};
use cpa_form_renaming::Place;
use cpa_form_rules::Draft;
use cpa_ints::{Boxed, IntType, Seq};
use std::alloc::{AllocError, Global};

/// The expression is wanted at the places.
fn want_renamed(
    alloc: Global,
    draft: &mut Draft,
    places: &[Place],
    e: &Expr,
    holds: bool,
) -> Result<(), AllocError>
    ensures { OnOk result (draft.new ≡ want (renamed places.now e.now) holds draft.old) }
{
    want(draft, renamed(alloc, e, places)?, holds)
}

/// Each expression is wanted at the places.
pub(crate) fn want_all(
    alloc: Global,
    draft: &mut Draft,
    places: &[Place],
    asked: &[(Expr, bool)],
) -> Result<(), AllocError>
    ensures { OnOk result (draft.new ≡ want_all places.now asked.now draft.old) }
{
    for one in asked {
        want_renamed(alloc, draft, places, &one.0, one.1)?;
    }
    Ok(())
}

/// The truth in a cell is wanted.
fn want_truth(alloc: Global, draft: &mut Draft, cell: u32, holds: bool) -> Result<(), AllocError>
    ensures { OnOk result (draft.new ≡ want (scalar_read ty.Bool cell) holds draft.old) }
{
    want(draft, scalar(alloc, IntType::Bool, cell)?, holds)
}

/// Whether the truth in a cell is false.
fn untrue(alloc: Global, cell: u32) -> Result<Boxed<Expr>, AllocError>
    ensures { IfOk result (λ e. e ≡ Not (scalar_read ty.Bool cell)) }
{
    negation(alloc, scalar(alloc, IntType::Bool, cell)?)
}

/// Whether the expression is true at the places, or the truth in a cell is.
fn or_truth(alloc: Global, places: &[Place], e: &Expr, cell: u32) -> Result<Boxed<Expr>, AllocError>
    ensures { IfOk result (λ r. r ≡ Or (renamed places.now e.now) (scalar_read ty.Bool cell)) }
{
    let test = renamed(alloc, e, places)?;
    let truth = scalar(alloc, IntType::Bool, cell)?;
    either(alloc, test, truth)
}

/// A new truth, by its cell. Where the old one is true, the expression is or the new one is.
fn linked(
    alloc: Global,
    draft: &mut Draft,
    places: &[Place],
    e: &Expr,
    truth: u32,
) -> Result<u32, AllocError>
    ensures number { IfOk result (λ n. n ≡ next draft.old) }
    ensures linked { OnOk result (draft.new ≡ want
        (Or (Not (scalar_read ty.Bool truth))
        (Or (renamed places.now e.now) (scalar_read ty.Bool (next draft.old)))) true
        (fresh ty.Bool draft.old)) }
{
    let behind = fresh(draft, IntType::Bool)?;
    let none = untrue(alloc, truth)?;
    let some = or_truth(alloc, places, e, behind)?;
    want(draft, either(alloc, none, some)?, true)?;
    Ok(behind)
}

/// Some of the tests is true, by a chain of truths.
fn want_some(
    alloc: Global,
    draft: &mut Draft,
    places: &[Place],
    tests: &[(Expr, bool)],
) -> Result<(), AllocError>
    ensures { OnOk result (draft.new ≡ want_some places.now tests.now draft.old) }
{
    let mut truth = fresh(draft, IntType::Bool)?;
    want_truth(alloc, draft, truth, true)?;
    for one in tests {
        truth = linked(alloc, draft, places, &one.0, truth)?;
    }
    want_truth(alloc, draft, truth, false)
}

/// Of each list some test is true.
pub(crate) fn want_each(
    alloc: Global,
    draft: &mut Draft,
    places: &[Place],
    lists: &[Seq<(Expr, bool)>],
) -> Result<(), AllocError>
    ensures { OnOk result (draft.new ≡ want_each places.now lists.now draft.old) }
{
    for tests in lists {
        want_some(alloc, draft, places, tests.as_slice())?;
    }
    Ok(())
}

//! The precision after a path that has no run, by `specs/Refining.antt`.

ghost use Rattle.std.specs.Prelude.{◌≡◌, ◌<◌, length, IfOk, OnOk};
ghost use Rattle.std.specs.List.{AllByRecursion, list_any};
ghost use Rattle.cpa_expr.specs.Equality.{same_expr};
ghost use Rattle.cpa_folds.specs.Carried.{with_new};
ghost use Rattle.cpa_predicate.specs.Refining.{with_missing, with_preds, with_carried};

use cpa_expr::{copy, same_expr};
use cpa_folds::carried;
use cpa_iface::{Precision, copy_preds};
use cpa_model::{Cfa, Expr, Path, Seq, Shared};
use std::alloc::{AllocError, Global};

/// Whether the list holds the expression.
fn holds(es: &[Expr], e: &Expr) -> bool
    ensures { result ≡ list_any (same_expr e.now) es.now }
{
    es.iter().any(|other| same_expr(e, other))
}

/// Adds a copy of the expression at the end, if the list does not hold it.
fn push_new(alloc: Global, es: &mut Seq<Expr>, e: &Expr) -> Result<(), AllocError>
    ensures { OnOk result (es.new ≡ with_new e.now es.old) }
{
    if !holds(es.as_slice(), e) {
        es.push(copy(alloc, e)?)?;
    }
    Ok(())
}

/// Adds a copy of each expression that the list does not hold.
fn push_missing(alloc: Global, es: &mut Seq<Expr>, more: &[Expr]) -> Result<(), AllocError>
    ensures { OnOk result (es.new ≡ with_missing more.now es.old) }
{
    for e in more {
        push_new(alloc, es, e)?;
    }
    Ok(())
}

/// The precision with these expressions as predicates, too: each that it lacks comes behind those
/// that are there, once.
pub fn with_preds(
    alloc: Global,
    precision: &Precision,
    more: &[Expr],
) -> Result<Precision, AllocError>
    ensures { IfOk result (λ p. p ≡ with_preds more.now precision.now) }
{
    let mut preds = copy_preds(alloc, precision.preds.as_slice())?;
    push_missing(alloc, &mut preds, more)?;
    let tracked = precision.tracked.share()?;
    Ok(Precision {
        tracked,
        limit: precision.limit,
        preds: Shared::from_seq(alloc, preds)?,
    })
}

/// The precision with the expressions that the path carries as predicates, too.
pub fn with_carried(
    alloc: Global,
    cfa: &Cfa,
    path: &Path,
    precision: &Precision,
) -> Result<Precision, AllocError>
    requires { AllByRecursion (λ edge. edge < length cfa.now.edges) path.now.edges }
    ensures { IfOk result (λ p. p ≡ with_carried cfa.now path.now precision.now) }
{
    let carried = carried(alloc, cfa, path)?;
    with_preds(alloc, precision, carried.as_slice())
}

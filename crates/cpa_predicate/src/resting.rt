//! Steps that have the outcome of a skip, and the skip itself (`specs/Resting.antt`).

ghost use Rattle.std.specs.Prelude.{◌≡◌, IsTrue};
ghost use Rattle.std.specs.List.{AllByRecursion};
ghost use Rattle.cpa_model.specs.declared.automaton.Act.{Act as AnAct};
ghost use Rattle.cpa_predicate.specs.Resting.{Leaves, ActsAsSkip};

use crate::leading::always_leads_on;
use crate::standing::may_change;
use cpa_model::{Act, Edge, Expr};

/// A skip in the place of the edge.
pub(crate) fn skip_along(edge: &Edge) -> Edge
    ensures { result.act ≡ AnAct.Skip }
{
    Edge {
        from: edge.from,
        to: edge.to,
        act: Act::Skip,
    }
}

/// Whether the act writes no cell that one of the predicates may read.
fn leaves_all(act: &Act, preds: &[Expr]) -> bool
    ensures { IsTrue result → AllByRecursion (Leaves act.now) preds.now }
{
    for p in preds {
        if may_change(act, p) {
            return false;
        }
    }
    true
}

/// Whether a step by the act has the outcome of a skip for these predicates: the act leads on from
/// each store, and writes no cell that one of them may read.
pub(crate) fn acts_as_skip(act: &Act, preds: &[Expr]) -> bool
    ensures { IsTrue result → ActsAsSkip act.now preds.now }
{
    leaves_all(act, preds) && always_leads_on(act)
}

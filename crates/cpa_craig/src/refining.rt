//! The precision by what came of the cuts of a path, `refined_by` of specs/Refining.
//! Proved with `proofs/RefiningLemmas.antt`.

ghost use Rattle.std.specs.Prelude.{◌≡◌, ℕ, IfOk};
ghost use Rattle.cpa_model.specs.Automata.{IsAutomaton};
ghost use Rattle.cpa_iface.specs.Meanings.{IsPathOf};
ghost use Rattle.cpa_folds.specs.Along.{acts_along};
ghost use Rattle.cpa_interpolant.specs.Along.{IsAlong};
ghost use Rattle.cpa_craig.specs.Refining.{refined_by, stops_in};

use crate::reading::reading;
use cpa_iface::Precision;
use cpa_interpolant::Along;
use cpa_model::{Cfa, Path};
use cpa_predicate::{with_carried, with_preds};
use std::alloc::{AllocError, Global};

/// How many of the walk's cuts it stopped at.
pub(crate) fn stops_in(along: &Along) -> u64
    ensures { result ≡ stops_in along.now }
{
    match along {
        Along::Cuts { .. } | Along::Model { .. } => 0,
        Along::Learnt { .. } | Along::Gates { .. } | Along::Large { .. } => 1,
    }
}

/// The precision with the interpolants that read a cell as predicates, too. Where there are none,
/// with what the path carries.
pub(crate) fn refined_by(
    alloc: Global,
    cfa: &Cfa,
    path: &Path,
    along: Along,
    precision: &Precision,
) -> Result<Precision, AllocError>
    requires automaton { IsAutomaton cfa.now }
    requires path { IsPathOf cfa.now path.now }
    requires along { (learnt : ℕ) × (gates : ℕ)
        × IsAlong cfa.now (acts_along cfa.now path.now.edges) learnt gates along }
    ensures { IfOk result (λ p. p ≡ refined_by cfa.now path.now along precision.now) }
{
    match along {
        Along::Cuts { exprs } => {
            let read = reading(alloc, cfa, &exprs)?;
            with_preds(alloc, precision, &read)
        }
        Along::Model { .. } | Along::Learnt { .. } | Along::Gates { .. } | Along::Large { .. } => {
            with_carried(alloc, cfa, path, precision)
        }
    }
}

//! The weight of a path, by `path_weight` of specs/Paths. Proved with `proofs/Weighed.antt`.

ghost use Rattle.std.specs.Prelude.{◌≡◌, ◌<◌, length};
ghost use Rattle.std.specs.List.{AllByRecursion};
ghost use Rattle.cpa_path.specs.Paths.{path_weight};

use cpa_edgeform::act_weight;
use cpa_model::{Cfa, Path};

/// The weight of the path, by which a budget bounds its query before it is made. It takes no
/// memory.
pub fn path_weight(cfa: &Cfa, path: &Path) -> u64
    requires path { AllByRecursion (λ edge. edge < length cfa.now.edges) path.now.edges }
    ensures { result ≡ path_weight cfa.now path.now.edges }
{
    weight_along(cfa, path.edges.as_slice())
}

/// The weight of the edges.
fn weight_along(cfa: &Cfa, path: &[u32]) -> u64
    requires path { AllByRecursion (λ edge. edge < length cfa.now.edges) path.now }
    ensures { result ≡ path_weight cfa.now path.now }
{
    let mut total = 0u64;
    for number in path {
        total = total.saturating_add(act_weight(&cfa.edge(*number).act));
    }
    total
}

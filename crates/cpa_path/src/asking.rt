//! The form of a path, by `path_form` of specs/Paths. Proved with `proofs/Formed.antt`.

ghost use Rattle.std.specs.Prelude.{◌≡◌, ◌<◌, length, IfOk};
ghost use Rattle.std.specs.List.{AllByRecursion};
ghost use Rattle.cpa_path.specs.Paths.{path_form};

use cpa_edgeform::EdgeForm;
use cpa_model::Cfa;
use std::alloc::{AllocError, Global};

/// The form of the path, from the initial store on.
pub(crate) fn form_of_path(alloc: Global, cfa: &Cfa, path: &[u32]) -> Result<EdgeForm, AllocError>
    requires path { AllByRecursion (λ edge. edge < length cfa.now.edges) path.now }
    ensures { IfOk result (λ form. form ≡ path_form cfa.now path.now) }
{
    let mut form = EdgeForm::begin(alloc, cfa, true)?;
    for number in path {
        form.take_edge(cfa, *number)?;
    }
    Ok(form)
}

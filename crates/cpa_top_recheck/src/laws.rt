//! Laws on what is told of a report (`specs/Findings.antt`). Each function does nothing: its
//! contract is the law. Shown with `proofs/Telling.antt`.
ghost use Rattle.std.specs.Prelude.{◌≡◌, ℕ, List};
ghost use Rattle.cpa_iface.specs.declared.analysis.Settings.{Settings};
ghost use Rattle.cpa_ints.specs.declared.data_model.DataModel.{DataModel};
ghost use Rattle.cpa_model.specs.declared.program.Program.{Program};
ghost use Rattle.cpa_model.specs.Programs.{IsWellFormed};
ghost use Rattle.cpa_top_recheck.specs.declared.finding.Finding.TheVariants as finding;
ghost use Rattle.cpa_top_recheck.specs.declared.finding.Rechecked.{Rechecked as ARechecked};
ghost use Rattle.cpa_top_recheck.specs.Findings.{IsConfirmation, IsRefutation, IsUndecided};
ghost use Rattle.cpa_top_recheck.specs.Rechecks.{IsRechecked};

use cpa_model::covers_are_safe;
use cpa_recheck_obligations::{broken_is_unmet, obligations_are_covers};

/// A law: what each finding says of the program and of the entries of the text.
pub fn checks_tell()
    ensures confirmed { (m : DataModel) (P : Program) (settings : Settings) (text : List ℕ)
        (told : ARechecked) → IsWellFormed P → IsRechecked m P settings text told
        → told.finding ≡ finding.Confirmed → IsConfirmation m P text told.text.items }
    ensures refused { (m : DataModel) (P : Program) (settings : Settings) (text : List ℕ)
        (told : ARechecked) → IsRechecked m P settings text told → told.finding ≡ finding.Refused
        → IsRefutation m P text told.text.items }
    ensures undecided { (m : DataModel) (P : Program) (settings : Settings) (text : List ℕ)
        (told : ARechecked) → IsRechecked m P settings text told → told.finding ≡ finding.Open
        → IsUndecided m P settings text told.text.items }
{
    covers_are_safe();
    obligations_are_covers();
    broken_is_unmet();
}

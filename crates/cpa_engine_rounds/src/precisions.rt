//! Whether precisions differ, in whatever way.

ghost use Rattle.std.specs.Prelude.{◌≡◌, ◌↔◌, false};
ghost use Rattle.cpa_engine_rounds.specs.Precisions.{HaveAll};

use cpa_iface::{Entry, Precision, same_precisions};

/// Whether some entry has other precisions than these.
pub fn some_other(entries: &[Entry], precisions: &[Precision]) -> bool
    ensures { result ≡ false ↔ HaveAll precisions.now entries.now }
{
    for entry in entries {
        if !same_precisions(entry.precisions.as_slice(), precisions) {
            return true;
        }
    }
    false
}

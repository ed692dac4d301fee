//! How a round begins below a pivot: `specs/Clearing.antt`. Which entries wait again is told by the
//! removal; that these are the ones is shown in `proofs/Reopening.antt`.

ghost use Rattle.std.specs.Prelude.{◌≡◌, map, OnOk};
ghost use Rattle.std.specs.List.{AllByRecursion};
ghost use Rattle.cpa_reached.specs.Entries.{IsLive};
ghost use Rattle.cpa_engine_rounds.specs.Clearing.{BeginsBelow};
ghost use Rattle.cpa_engine_rounds.specs.Opening.{with_newest};

use cpa_engine_turn::copy_precisions;
use cpa_iface::Precision;
use cpa_reached::Reached;
use std::alloc::{AllocError, Global};

/// The entries of these numbers have the newest precisions.
fn renew(
    alloc: Global,
    reached: &mut Reached,
    found: &[u32],
    newest: &[Precision],
) -> Result<(), AllocError>
    requires { AllByRecursion (IsLive reached.old.live) found.now }
    ensures live { OnOk result (reached.new.live
        ≡ map (with_newest found.now newest.now) reached.old.live) }
    ensures journal { reached.new.journal ≡ reached.old.journal }
    ensures next { reached.new.next ≡ reached.old.next }
    ensures places { reached.new.places ≡ reached.old.places }
{
    for number in found {
        let precisions = copy_precisions(alloc, newest)?;
        reached.set_precisions(*number, precisions);
    }
    Ok(())
}

/// A round begins below the pivot, with the newest precisions. After want of memory the reached set
/// is only to be dropped.
pub fn begin_round(
    alloc: Global,
    reached: &mut Reached,
    pivot: u32,
    newest: &[Precision],
) -> Result<(), AllocError>
    requires { IsLive reached.old.live pivot }
    ensures { OnOk result (BeginsBelow pivot newest.now reached.old reached.new) }
{
    let opened = reached.remove_below(pivot)?;
    renew(alloc, reached, &opened, newest)?;
    reached.start_round();
    Ok(())
}

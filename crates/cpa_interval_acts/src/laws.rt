//! The law of what acts make of bounds, stated in `specs/Laws.antt`. The function does nothing: its
//! contract is the law.

ghost use Rattle.cpa_interval_acts.specs.Laws.{BoundsFollowActs};

use cpa_ints::wrap_keeps_the_range;

/// From bounds that have a store's values an act leaves bounds that have those of each store to
/// which its step leads.
pub fn bounds_follow_acts()
    ensures { BoundsFollowActs }
{
    wrap_keeps_the_range();
}

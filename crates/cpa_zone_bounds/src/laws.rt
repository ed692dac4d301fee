//! Laws of bounds, stated in `specs/Laws.antt`. The functions do nothing: their contracts are the
//! laws.

ghost use Rattle.cpa_zone_bounds.specs.Laws.{ClosuresAreExact, ChangesAreMet, BoundsStayKept};
ghost use Rattle.cpa_zone_bounds.specs.Laws.{WideningEnds};

/// The closure has the same numbers and the least bounds, and there is none where there are no
/// numbers.
#[tactic(auto, using(crate::specs::Laws::closures_are_exact))]
pub fn closures_are_exact()
    ensures { ClosuresAreExact }
{}

/// Numbers that come of a change meet the changed bounds.
#[tactic(auto, using(crate::specs::Laws::changes_are_met))]
pub fn changes_are_met()
    ensures { ChangesAreMet }
{}

/// No change and no closure leaves what is kept, so no sum of two bounds wraps.
#[tactic(auto, using(crate::specs::Laws::bounds_stay_kept))]
pub fn bounds_stay_kept()
    ensures { BoundsStayKept }
{}

/// Merged bounds are no less than either, and a bound is widened only so often.
#[tactic(auto, using(crate::specs::Laws::widening_ends))]
pub fn widening_ends()
    ensures { WideningEnds }
{}

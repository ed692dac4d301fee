//! Laws of bounds: functions with an empty body, whose contract is the law of `specs/Laws.antt`. A
//! lemma of another crate cites that one by its name, an answer also the call.

ghost use Rattle.cpa_interval_bounds.specs.Laws.{BoundsHaveTheType, BoundsHaveTheValue};
ghost use Rattle.cpa_interval_bounds.specs.Laws.{BoundsAreHulls, CutsAreHulls};

/// The bounds of a well-typed expression are of its type.
#[tactic(auto, using(crate::specs::Laws::bounds_have_the_type))]
pub fn bounds_have_the_type()
    ensures { BoundsHaveTheType }
{}

/// The value of a well-typed expression is one of its bounds, where that of each cell is one of the
/// cell's.
#[tactic(auto, using(crate::specs::Laws::bounds_have_the_value))]
pub fn bounds_have_the_value()
    ensures { BoundsHaveTheValue }
{}

/// Negations, sums, differences, products and quotients have the least bounds before they wrap.
#[tactic(auto, using(crate::specs::Laws::bounds_are_hulls))]
pub fn bounds_are_hulls()
    ensures { BoundsAreHulls }
{}

/// A comparison leaves the least bounds that have each number which compares so.
#[tactic(auto, using(crate::specs::Laws::cuts_are_hulls))]
pub fn cuts_are_hulls()
    ensures { CutsAreHulls }
{}

//! The law of interpolants along a path, stated in specs/Laws. The function does nothing: its
//! contract is the law. Proved in specs/lemmas.

ghost use Rattle.cpa_interpolant_rules.specs.Laws.{InterpolantsLeaveNoRun};

/// Expressions of which each leads to the next by an edge, and the last of which is 0, leave no run
/// of stores: along the edges from any of them on there is none from a store where it is nonzero.
#[tactic(auto, using(crate::specs::Laws::interpolants_leave_no_run))]
pub fn interpolants_leave_no_run()
    ensures { InterpolantsLeaveNoRun }
{}

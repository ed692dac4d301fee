//! Laws of the checks, stated in specs/Laws and proved in specs/lemmas. Each function does nothing:
//! its contract is the law.

ghost use Rattle.cpa_trap_checks.specs.Laws.{ChecksTell, ChecksStand, WriteChecksTell};

/// The checks of an expression never trap, and are 1 exactly where it traps, or overflows.
#[tactic(auto, using(crate::specs::Laws::checks_tell))]
pub fn checks_tell()
    ensures { ChecksTell }
{}

/// The checks of a write never trap, and are 1 exactly where it traps, or overflows.
#[tactic(auto, using(crate::specs::Laws::write_checks_tell))]
pub fn write_checks_tell()
    ensures { WriteChecksTell }
{}

/// There is no check exactly where no node can trap, or overflow.
#[tactic(auto, using(crate::specs::Laws::checks_stand))]
pub fn checks_stand()
    ensures { ChecksStand }
{}

//! Laws of renaming and of the tests of traps, stated in specs/Laws. Each function does nothing:
//! its contract is the law.

ghost use Rattle.cpa_form_renaming.specs.Laws.{CellsBehindChangeNothing, RenamingKeepsMeanings};
ghost use Rattle.cpa_form_renaming.specs.Laws.{TrapTestsTell};

/// A renamed expression means at the places what the expression means at the cells.
#[tactic(auto, using(crate::specs::Laws::renaming_keeps_meanings))]
pub fn renaming_keeps_meanings()
    ensures { RenamingKeepsMeanings }
{}

/// The test of a trap never traps, and is 1 exactly where the expression traps.
#[tactic(auto, using(crate::specs::Laws::trap_tests_tell))]
pub fn trap_tests_tell()
    ensures { TrapTestsTell }
{}

/// Cells that are added behind those of an expression do not change what it means.
#[tactic(auto, using(crate::specs::Laws::cells_behind_change_nothing))]
pub fn cells_behind_change_nothing()
    ensures { CellsBehindChangeNothing }
{}

//! The check of a text (`IsChecked` of `c_core_checked`, `specs/Sound.antt`). Proved by the checker
//! alone, over `outcome`.
ghost use Rattle.cpa_ints.specs.declared.data_model.DataModel.TheVariants.{Lp64};
ghost use Rattle.c_core_checked.specs.Sound.{IsChecked};

use crate::outcome::{Outcome, find_outcome};
use c_core_checked::CheckedText;
use c_grammar_tree::Unit;
use c_lexer::TextError;
use cpa_ints::DataModel;
use std::alloc::Global;

/// The checked text of a tree that breaks no rule, or its first broken rule, in a data model: that
/// in which the tokens of the tree were taken.
pub fn check_in(alloc: Global, unit: &Unit, model: DataModel) -> Result<CheckedText, TextError>
    ensures checked { IsChecked model unit.now result }
{
    match find_outcome(alloc, unit, model) {
        Ok(Outcome::Sound(checked)) => Ok(checked),
        Ok(Outcome::Broken(fault)) => Err(TextError::Fault(fault)),
        Err(_) => Err(TextError::OutOfMemory),
    }
}

/// The same where `long` has 64 bits.
pub fn check(alloc: Global, unit: &Unit) -> Result<CheckedText, TextError>
    ensures checked { IsChecked Lp64 unit.now result }
{
    check_in(alloc, unit, DataModel::Lp64)
}

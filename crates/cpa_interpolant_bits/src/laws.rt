//! Laws of bits and conditions, stated in specs/Laws. Each function does nothing: its contract is
//! the law. Proved in specs/lemmas.

ghost use Rattle.cpa_interpolant_bits.specs.Laws.{BitsAreRead, ConditionsMean, ExpressionsAsk};

/// The expression of a bit has the bit's truth, is well typed where the bit is one of a cell, and
/// reads that cell alone.
#[tactic(auto, using(crate::specs::Laws::bits_are_read))]
pub fn bits_are_read()
    ensures { BitsAreRead }
{}

/// What is made of conditions has the operator's truth under all values of the variables, and older
/// conditions keep theirs.
#[tactic(auto, using(crate::specs::Laws::conditions_mean))]
pub fn conditions_mean()
    ensures { ConditionsMean }
{}

/// The expression of a condition is true on a store exactly where the condition is true under the
/// values that the store gives the variables. It never traps, and reads only cells of which a bit
/// is one of the variables.
#[tactic(auto, using(crate::specs::Laws::expressions_ask))]
pub fn expressions_ask()
    ensures { ExpressionsAsk }
{}

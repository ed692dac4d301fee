//! Laws of division, stated in specs/Laws. Each function does nothing: its contract is the law.
//! Proved in specs/lemmas.

ghost use Rattle.cpa_blast_quotients.specs.Laws.{DividersDivide, SignsTurnWords};
ghost use Rattle.cpa_blast_quotients.specs.Laws.{QuotientsDivide};

/// A divider made of words of a net divides their numbers, under each assignment under which the
/// new net holds and the divisor is not 0; and each assignment of the old net extends to one of the
/// new.
#[tactic(auto, using(crate::specs::Laws::dividers_divide))]
pub fn dividers_divide()
    ensures { DividersDivide }
{}

/// A word turned by a sign stands for the two's complement where the sign is true.
#[tactic(auto, using(crate::specs::Laws::signs_turn_words))]
pub fn signs_turn_words()
    ensures { SignsTurnWords }
{}

/// At each type a quotient made of words stands for the quotient of their numbers, rounded toward
/// zero and wrapped, and a remainder for what it leaves, where the divisor is not 0; and some bit
/// of the divisor is true exactly there.
pub fn quotients_divide_at_types()
    ensures { QuotientsDivide }
{}

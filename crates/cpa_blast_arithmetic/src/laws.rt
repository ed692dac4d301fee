//! Laws of products and shifts, stated in specs/Laws. Each function does nothing: its contract is
//! the law. Proved in specs/lemmas.

ghost use Rattle.cpa_blast_arithmetic.specs.Laws.{ProductsAreProducts, MovesAreShifts};
ghost use Rattle.cpa_blast_arithmetic.specs.Laws.{ShiftsMoveWords, ShiftsShift};
ghost use Rattle.cpa_blast_arithmetic.specs.Laws.{ConstantsMakeNoGates};

/// A product made of words of a net stands, under each assignment under which the new net holds,
/// for the product of their numbers modulo 2 to the power of the length.
#[tactic(auto, using(crate::specs::Laws::products_are_products))]
pub fn products_are_products()
    ensures { ProductsAreProducts }
{}

/// A moved word stands for the product with a power of two, or for the quotient rounded down.
#[tactic(auto, using(crate::specs::Laws::moves_are_shifts))]
pub fn moves_are_shifts()
    ensures { MovesAreShifts }
{}

/// Stages made of words of a net move the word, under each assignment under which the new net
/// holds, by the number for which the amount stands.
#[tactic(auto, using(crate::specs::Laws::shifts_move_words))]
pub fn shifts_move_words()
    ensures { ShiftsMoveWords }
{}

/// At each type a shift made of words stands for the value of the shift of their numbers, and the
/// literal made of the amount tells whether there is one.
pub fn shifts_shift_at_types()
    ensures { ShiftsShift }
{}

/// No gate is made for an amount of constants.
#[tactic(auto, using(crate::specs::Laws::constants_make_no_gates))]
pub fn constant_amounts_make_no_gates()
    ensures { ConstantsMakeNoGates }
{}

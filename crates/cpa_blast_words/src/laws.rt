//! Laws of words, stated in specs/Laws. Each function does nothing: its contract is the law.
//! Proved in specs/lemmas.

ghost use Rattle.cpa_blast_words.specs.Laws.{WalksMeanTheirRows, WordsAreNumbers, SumsAreSums};
ghost use Rattle.cpa_blast_words.specs.Laws.{ComparisonsCompare, MasksAreBitwise};
ghost use Rattle.cpa_blast_words.specs.Laws.{OperatorsAreMeant};
ghost use Rattle.cpa_blast_words.specs.Laws.{WordsAreLong};
ghost use Rattle.cpa_blast_words.specs.Types.{WordsWrap, WordsAreEqual, WordsCompare, WordsCast};

/// The bits and the carry of a walk have, under each assignment under which the net holds, the
/// values that the row makes of the values of the two words and of the carry.
#[tactic(auto, using(crate::specs::Laws::walks_mean_their_rows))]
pub fn walks_mean_their_rows()
    ensures { WalksMeanTheirRows }
{}

/// What the operators on words make has the values of their walks.
#[tactic(auto, using(crate::specs::Laws::words_mean_their_operators))]
pub fn words_mean_their_operators()
    ensures { OperatorsAreMeant }
{}

/// Words are as long as their operands, and a word cast to a type is as long as its width.
#[tactic(auto, using(crate::specs::Laws::words_are_long))]
pub fn words_are_long()
    ensures { WordsAreLong }
{}

/// What number a word of truth values stands for, and words of parts of it.
#[tactic(auto, using(crate::specs::Laws::words_are_numbers))]
pub fn words_are_numbers()
    ensures { WordsAreNumbers }
{}

/// Sums and differences of words are those of their numbers.
#[tactic(auto, using(crate::specs::Laws::sums_are_sums))]
pub fn sums_are_sums()
    ensures { SumsAreSums }
{}

/// Comparisons of words are those of their numbers.
#[tactic(auto, using(crate::specs::Laws::comparisons_compare))]
pub fn comparisons_compare()
    ensures { ComparisonsCompare }
{}

/// Masks of words are those of their numbers.
#[tactic(auto, using(crate::specs::Laws::masks_are_bitwise))]
pub fn masks_are_bitwise()
    ensures { MasksAreBitwise }
{}

/// At a type other than `Bool`, sums, differences, negations and masks of words stand for those of
/// the numbers, wrapped to the type; at each type two words are equal, and one
/// less than the other, where the numbers are, and a word at the width of another type, filled by
/// its sign, stands for the number cast to it.
pub fn words_wrap_at_types()
    ensures wrap { WordsWrap }
    ensures equal { WordsAreEqual }
    ensures compare { WordsCompare }
    ensures cast { WordsCast }
{}

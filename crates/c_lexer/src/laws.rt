//! Laws of the tokens of a text, and the numbers of the constants that definitions name. Each
//! function does nothing: its contract is the law.
//! Proved in `proofs/LexemeFacts.antt` and `proofs/Cuts.antt`.

ghost use Rattle.std.specs.Prelude.{◌≡◌, ◌≢◌, ◌≤◌, ◌-◌, ◌⊎◌, ℕ, ℤ, List, length, slice_get};
ghost use Rattle.cpa_ints.specs.declared.data_model.DataModel.{DataModel};
ghost use Rattle.cpa_ints.specs.declared.integers.IntType.{IntType};
ghost use Rattle.cpa_ints.specs.declared.integers.IntType.TheVariants.{I8};
ghost use Rattle.cpa_ints.specs.Integers.{IsInRange};
ghost use Rattle.c_lexer.specs.declared.byte.TheConstants.{ALERT, BACKSPACE, TAB, LINE_FEED};
ghost use Rattle.c_lexer.specs.declared.byte.TheConstants.{VERTICAL_TAB, FORM_FEED};
ghost use Rattle.c_lexer.specs.declared.byte.TheConstants.{CARRIAGE_RETURN};
ghost use Rattle.c_lexer.specs.declared.lexer.TheConstants.{MAX_TEXT};
ghost use Rattle.c_lexer.specs.declared.token.Token.{Token};
ghost use Rattle.c_lexer.specs.declared.token.TokenKind.TheVariants.{Number, Character, End};
ghost use Rattle.c_lexer.specs.declared.fault.TextFault.{TextFault};
ghost use Rattle.std.specs.Ordering.{nat_cmp};
ghost use Rattle.c_lexer.specs.declared.fault.Rule.{Rule};
ghost use Rattle.c_lexer.specs.Rules.{rule_number};
ghost use Rattle.c_lexer.specs.Parts.{Tokens, NoTokens};
ghost use Rattle.c_lexer.specs.Faults.{HasFault};
ghost use Rattle.c_lexer.specs.Lexemes.{end_lexeme, lexemes, IsSpelled, EndsOnce, AreInOrder};
ghost use Rattle.c_lexer.specs.Lexemes.{ForEachToken};

use crate::Rule;
use cpa_ints::wrap_keeps_the_range;

/// A text has one list of tokens at most.
pub fn one_token_list()
    ensures { (model : DataModel) (text : List ℕ) (first second : List Token) →
        Tokens model text first → Tokens model text second → first ≡ second }
{}

/// A text has a list of tokens or a fault, never both, and one fault at most.
pub fn tokens_or_one_fault()
    ensures some { (model : DataModel) (text : List ℕ) →
        ((found : List Token) × Tokens model text found)
        ⊎ ((fault : TextFault) × HasFault model text fault) }
    ensures either { (model : DataModel) (text : List ℕ) (fault : TextFault) →
        HasFault model text fault → NoTokens model text }
    ensures one { (model : DataModel) (text : List ℕ) (first second : TextFault) →
        HasFault model text first → HasFault model text second → first ≡ second }
{}

/// Each token but `End` has bytes, and is what they spell.
pub fn tokens_are_spelled()
    ensures { (model : DataModel) → ForEachToken model (λ text token.
        token.kind ≢ End → IsSpelled model text token) }
{}

/// The last token is `End` at the text's length, and no other is `End`.
pub fn tokens_end_once()
    ensures once { (model : DataModel) (text : List ℕ) (found : List Token) →
        Tokens model text found → EndsOnce text found }
    ensures lexeme { (model : DataModel) (text : List ℕ) (found : List Token) →
        Tokens model text found →
        slice_get (lexemes text found) (length found - 1) ≡ Some end_lexeme }
{}

/// Tokens lie in the text, stand in its order and do not overlap.
pub fn tokens_lie_in_order()
    ensures within { (model : DataModel) → ForEachToken model (λ text token.
        (token.from ≤ token.to) × (token.to ≤ length text)) }
    ensures order { (model : DataModel) (text : List ℕ) (found : List Token) →
        Tokens model text found → AreInOrder found }
{}

/// The value of a number lies in the range of its type, that of a character in the range of `char`.
pub fn constants_lie_in_range()
    ensures number { (model : DataModel) → ForEachToken model (λ _ token.
        (t : IntType) (value : ℤ) → token.kind ≡ Number t value → IsInRange t value) }
    ensures character { (model : DataModel) → ForEachToken model (λ _ token.
        (value : ℤ) → token.kind ≡ Character value → IsInRange I8 value) }
{
    wrap_keeps_the_range();
}

/// Rules are ordered by their numbers, and no two have one.
pub fn rules_are_ordered_by_number()
    ensures order { (a b : Rule) →
        ⟦<Rule as Ord>⟧.cmp a b ≡ nat_cmp (rule_number a) (rule_number b) }
    ensures one { (a b : Rule) → rule_number a ≡ rule_number b → a ≡ b }
{}

/// The limit of this project on a text: the bytes of a program file.
pub fn limits()
    ensures { MAX_TEXT ≡ 1048576 }
{}

/// The bytes that the escapes of letters stand for (C11 5.2.2), by the numbers of ASCII.
pub fn escapes_are_control_characters()
    ensures alert { ALERT ≡ 7 }
    ensures backspace { BACKSPACE ≡ 8 }
    ensures tab { TAB ≡ 9 }
    ensures line_feed { LINE_FEED ≡ 10 }
    ensures vertical_tab { VERTICAL_TAB ≡ 11 }
    ensures form_feed { FORM_FEED ≡ 12 }
    ensures carriage_return { CARRIAGE_RETURN ≡ 13 }
{}

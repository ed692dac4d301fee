//! Laws of words and marks (`WORDS` and `MARKS` lack none) and of sources. Each function does
//! nothing: its contract is the law.
ghost use Rattle.std.specs.Prelude.{◌≡◌, ◌≢◌, ℕ, List, IsTrue};
ghost use Rattle.cpa_ints.specs.declared.data_model.DataModel.{DataModel};
ghost use Rattle.c_lexer.specs.declared.token.TokenKind.TheVariants.{Word, Mark};
ghost use Rattle.c_lexer.specs.declared.token.Token.{Token};
ghost use Rattle.c_lexer.specs.Marks.{is_mark};
ghost use Rattle.c_lexer.specs.Parts.{Tokens};
ghost use Rattle.c_grammar_symbols.specs.declared.operators.AssignmentOperator.{AssignmentOperator};
ghost use Rattle.c_grammar_symbols.specs.declared.operators.BinaryOperator.{BinaryOperator};
ghost use Rattle.c_grammar_symbols.specs.declared.operators.StepOperator.{StepOperator};
ghost use Rattle.c_grammar_symbols.specs.declared.words.OutsideWord.{OutsideWord};
ghost use Rattle.c_grammar_symbols.specs.declared.words.SpecifierWord.{SpecifierWord};
ghost use Rattle.c_grammar_symbols.specs.declared.words.StorageWord.{StorageWord};
ghost use Rattle.c_grammar_symbols.specs.declared.words.StrayMark.{StrayMark};
ghost use Rattle.c_grammar_symbols.specs.declared.words.Terminal.{Terminal};
ghost use Rattle.c_grammar_symbols.specs.declared.words.TypeWord.{TypeWord};
ghost use Rattle.c_grammar_symbols.specs.declared.symbol.Symbol.TheVariants as symbol;
ghost use Rattle.c_grammar_symbols.specs.Symbols.{spelling_of, symbol_spelled, kind_of_terminal};
ghost use Rattle.c_grammar_symbols.specs.Sources.{IsSource};

use c_lexer::{tokens_end_once, tokens_lie_in_order};

/// A token that is spelled as a keyword stands for it: it is no name.
pub fn keywords_stand_for_themselves()
    ensures storage { (word : StorageWord) →
        symbol_spelled Word (spelling_of (symbol.Storage word)) ≡ symbol.Storage word }
    ensures specifier { (word : SpecifierWord) →
        symbol_spelled Word (spelling_of (symbol.Specifier word)) ≡ symbol.Specifier word }
    ensures types { (word : TypeWord) →
        symbol_spelled Word (spelling_of (symbol.TypeWord word)) ≡ symbol.TypeWord word }
    ensures outside { (word : OutsideWord) →
        symbol_spelled Word (spelling_of (symbol.Outside word)) ≡ symbol.Outside word }
{}

/// A token that is spelled as a terminal stands for it.
pub fn terminals_stand_for_themselves()
    ensures { (t : Terminal) →
        symbol_spelled (kind_of_terminal t) (spelling_of (symbol.Terminal t)) ≡ symbol.Terminal t }
{}

/// A mark that is spelled as an operator, or as a mark that the grammar leaves out, stands for it.
pub fn marks_stand_for_themselves()
    ensures binary { (operator : BinaryOperator) →
        symbol_spelled Mark (spelling_of (symbol.Binary operator)) ≡ symbol.Binary operator }
    ensures assignment { (operator : AssignmentOperator) →
        symbol_spelled Mark (spelling_of (symbol.Assign operator)) ≡ symbol.Assign operator }
    ensures step { (operator : StepOperator) →
        symbol_spelled Mark (spelling_of (symbol.Step operator)) ≡ symbol.Step operator }
    ensures stray { (mark : StrayMark) →
        symbol_spelled Mark (spelling_of (symbol.Stray mark)) ≡ symbol.Stray mark }
{}

/// No mark of C is taken for a string literal.
pub fn marks_are_no_text()
    ensures { (bytes : List ℕ) → IsTrue (is_mark bytes) → symbol_spelled Mark bytes ≢ symbol.Text }
{}

/// The tokens of a text are a source: what `Source::new` asks for.
pub fn tokens_are_a_source()
    ensures { (model : DataModel) (text : List ℕ) (tokens : List Token) →
        Tokens model text tokens → IsSource text tokens }
{
    tokens_lie_in_order();
    tokens_end_once();
}

//! The kind of the symbol of a token, from how it is spelled: that of what `classify` says, found
//! without the value of a constant, and with no look-up where one byte tells it.
//! Proved by the checker alone.
ghost use Rattle.std.specs.Prelude.{◌≡◌, [], ◌∷◌, unwrap_or};
ghost use Rattle.c_grammar_symbols.specs.Kinds.{kind_of};
ghost use Rattle.c_grammar_symbols.specs.Symbols.{mark_spelled, symbol_spelled};
ghost use Rattle.c_grammar_symbols.specs.declared.symbol.Symbol.TheVariants.{Text};

use crate::kind::SymbolKind;
use crate::lookup::{mark_spelled, word_spelled};
use crate::operators::{AssignmentOperator, BinaryOperator};
use crate::symbol::Symbol;
use crate::words::{StrayMark, Terminal};
use c_lexer::TokenKind;

/// The kind of the mark of this one byte, and a text's where there is none.
#[tactic(auto, unfolding(crate::specs::Symbols::mark_spelled))]
fn kind_of_byte(byte: u8) -> SymbolKind
    ensures { result ≡ kind_of (unwrap_or (mark_spelled (byte ∷ [])) Text) }
{
    match byte {
        b'(' => SymbolKind::Terminal(Terminal::LeftParen),
        b')' => SymbolKind::Terminal(Terminal::RightParen),
        b'[' => SymbolKind::Terminal(Terminal::LeftBracket),
        b']' => SymbolKind::Terminal(Terminal::RightBracket),
        b'{' => SymbolKind::Terminal(Terminal::LeftBrace),
        b'}' => SymbolKind::Terminal(Terminal::RightBrace),
        b';' => SymbolKind::Terminal(Terminal::Semicolon),
        b',' => SymbolKind::Terminal(Terminal::Comma),
        b':' => SymbolKind::Terminal(Terminal::Colon),
        b'?' => SymbolKind::Terminal(Terminal::Question),
        b'~' => SymbolKind::Terminal(Terminal::Tilde),
        b'!' => SymbolKind::Terminal(Terminal::Exclamation),
        b'|' => SymbolKind::Binary(BinaryOperator::BitOr),
        b'^' => SymbolKind::Binary(BinaryOperator::BitXor),
        b'&' => SymbolKind::Binary(BinaryOperator::BitAnd),
        b'<' => SymbolKind::Binary(BinaryOperator::Less),
        b'>' => SymbolKind::Binary(BinaryOperator::Greater),
        b'+' => SymbolKind::Binary(BinaryOperator::Add),
        b'-' => SymbolKind::Binary(BinaryOperator::Subtract),
        b'*' => SymbolKind::Binary(BinaryOperator::Multiply),
        b'/' => SymbolKind::Binary(BinaryOperator::Divide),
        b'%' => SymbolKind::Binary(BinaryOperator::Remainder),
        b'=' => SymbolKind::Assign(AssignmentOperator::Assign),
        b'.' => SymbolKind::Stray(StrayMark::Dot),
        _ => SymbolKind::Text,
    }
}

/// The kind of the mark that is spelled so, and a text's where there is none.
fn kind_of_mark(bytes: &[u8]) -> SymbolKind
    ensures { result ≡ kind_of (unwrap_or (mark_spelled bytes.now) Text) }
{
    match bytes {
        [byte] => kind_of_byte(*byte),
        _ => SymbolKind::of(mark_spelled(bytes).unwrap_or(Symbol::Text)),
    }
}

/// The kind of the symbol of a token of this kind that is spelled so.
pub(crate) fn kind_spelled(kind: TokenKind, bytes: &[u8]) -> SymbolKind
    ensures { result ≡ kind_of (symbol_spelled kind bytes.now) }
{
    match kind {
        TokenKind::Word => SymbolKind::of(word_spelled(bytes).unwrap_or(Symbol::Name)),
        TokenKind::Number { .. } => SymbolKind::Number,
        TokenKind::Character { .. } => SymbolKind::Character,
        TokenKind::Text => SymbolKind::Text,
        TokenKind::Mark => kind_of_mark(bytes),
        TokenKind::End => SymbolKind::End,
    }
}

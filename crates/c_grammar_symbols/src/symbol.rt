//! What a token stands for in the grammar: `symbol_of` of `specs/Symbols.antt`.
//! Proved by the checker alone.
ghost use Rattle.std.specs.Prelude.{◌≡◌};
ghost use Rattle.c_grammar_symbols.specs.Symbols.{spelling_of, symbol_spelled};

use crate::lookup::{mark_spelled, word_spelled};
use crate::named::NamedType;
use crate::operators::{AssignmentOperator, BinaryOperator, StepOperator};
use crate::words::{OutsideWord, SpecifierWord, StorageWord, StrayMark, Terminal, TypeWord};
use c_lexer::TokenKind;
use cpa_ints::IntType;

/// What a token stands for in the grammar.
#[derive(Clone, Copy, PartialEq, Eq)]
pub enum Symbol {
    /// The end of the text.
    End,
    /// A word that is none of the others: an identifier.
    Name,
    /// An integer constant.
    Number { ty: IntType, value: i128 },
    /// A character constant.
    Character { value: i128 },
    /// A string literal.
    Text,
    Terminal(Terminal),
    Binary(BinaryOperator),
    Assign(AssignmentOperator),
    Step(StepOperator),
    Storage(StorageWord),
    Specifier(SpecifierWord),
    TypeWord(TypeWord),
    /// A name that a declaration in front of it has made a typedef name.
    TypedefName(NamedType),
    Outside(OutsideWord),
    Stray(StrayMark),
}

/// The words that are no names.
pub const WORDS: [Symbol; 51] = [
    Symbol::Terminal(Terminal::If),
    Symbol::Terminal(Terminal::Else),
    Symbol::Terminal(Terminal::While),
    Symbol::Terminal(Terminal::Do),
    Symbol::Terminal(Terminal::For),
    Symbol::Terminal(Terminal::Goto),
    Symbol::Terminal(Terminal::Break),
    Symbol::Terminal(Terminal::Continue),
    Symbol::Terminal(Terminal::Return),
    Symbol::Terminal(Terminal::Attribute),
    Symbol::Storage(StorageWord::Extern),
    Symbol::Storage(StorageWord::Static),
    Symbol::Storage(StorageWord::Register),
    Symbol::Specifier(SpecifierWord::Inline),
    Symbol::Specifier(SpecifierWord::InlineUnderscored),
    Symbol::Specifier(SpecifierWord::InlineInUnderscores),
    Symbol::Specifier(SpecifierWord::Const),
    Symbol::Specifier(SpecifierWord::Noreturn),
    Symbol::TypeWord(TypeWord::Void),
    Symbol::TypeWord(TypeWord::Bool),
    Symbol::TypeWord(TypeWord::Char),
    Symbol::TypeWord(TypeWord::Short),
    Symbol::TypeWord(TypeWord::Int),
    Symbol::TypeWord(TypeWord::Long),
    Symbol::TypeWord(TypeWord::Signed),
    Symbol::TypeWord(TypeWord::Unsigned),
    Symbol::Outside(OutsideWord::Alignas),
    Symbol::Outside(OutsideWord::Alignof),
    Symbol::Outside(OutsideWord::Atomic),
    Symbol::Outside(OutsideWord::Complex),
    Symbol::Outside(OutsideWord::Generic),
    Symbol::Outside(OutsideWord::Imaginary),
    Symbol::Outside(OutsideWord::StaticAssert),
    Symbol::Outside(OutsideWord::ThreadLocal),
    Symbol::Outside(OutsideWord::Auto),
    Symbol::Outside(OutsideWord::Double),
    Symbol::Terminal(Terminal::Enum),
    Symbol::Outside(OutsideWord::Float),
    Symbol::Outside(OutsideWord::Restrict),
    Symbol::Outside(OutsideWord::Sizeof),
    Symbol::Outside(OutsideWord::Struct),
    Symbol::Terminal(Terminal::Switch),
    Symbol::Terminal(Terminal::Case),
    Symbol::Terminal(Terminal::Default),
    Symbol::Terminal(Terminal::Typedef),
    Symbol::Outside(OutsideWord::Union),
    Symbol::Outside(OutsideWord::Volatile),
    Symbol::Outside(OutsideWord::Asm),
    Symbol::Outside(OutsideWord::AsmInUnderscores),
    Symbol::Outside(OutsideWord::Int128),
    Symbol::Outside(OutsideWord::Extension),
];

/// The marks.
pub const MARKS: [Symbol; 46] = [
    Symbol::Terminal(Terminal::LeftParen),
    Symbol::Terminal(Terminal::RightParen),
    Symbol::Terminal(Terminal::LeftBracket),
    Symbol::Terminal(Terminal::RightBracket),
    Symbol::Terminal(Terminal::LeftBrace),
    Symbol::Terminal(Terminal::RightBrace),
    Symbol::Terminal(Terminal::Semicolon),
    Symbol::Terminal(Terminal::Comma),
    Symbol::Terminal(Terminal::Colon),
    Symbol::Terminal(Terminal::Question),
    Symbol::Terminal(Terminal::Tilde),
    Symbol::Terminal(Terminal::Exclamation),
    Symbol::Binary(BinaryOperator::LogicalOr),
    Symbol::Binary(BinaryOperator::LogicalAnd),
    Symbol::Binary(BinaryOperator::BitOr),
    Symbol::Binary(BinaryOperator::BitXor),
    Symbol::Binary(BinaryOperator::BitAnd),
    Symbol::Binary(BinaryOperator::Equal),
    Symbol::Binary(BinaryOperator::NotEqual),
    Symbol::Binary(BinaryOperator::Less),
    Symbol::Binary(BinaryOperator::Greater),
    Symbol::Binary(BinaryOperator::LessEqual),
    Symbol::Binary(BinaryOperator::GreaterEqual),
    Symbol::Binary(BinaryOperator::ShiftLeft),
    Symbol::Binary(BinaryOperator::ShiftRight),
    Symbol::Binary(BinaryOperator::Add),
    Symbol::Binary(BinaryOperator::Subtract),
    Symbol::Binary(BinaryOperator::Multiply),
    Symbol::Binary(BinaryOperator::Divide),
    Symbol::Binary(BinaryOperator::Remainder),
    Symbol::Assign(AssignmentOperator::Assign),
    Symbol::Assign(AssignmentOperator::Multiply),
    Symbol::Assign(AssignmentOperator::Divide),
    Symbol::Assign(AssignmentOperator::Remainder),
    Symbol::Assign(AssignmentOperator::Add),
    Symbol::Assign(AssignmentOperator::Subtract),
    Symbol::Assign(AssignmentOperator::ShiftLeft),
    Symbol::Assign(AssignmentOperator::ShiftRight),
    Symbol::Assign(AssignmentOperator::BitAnd),
    Symbol::Assign(AssignmentOperator::BitXor),
    Symbol::Assign(AssignmentOperator::BitOr),
    Symbol::Step(StepOperator::Increment),
    Symbol::Step(StepOperator::Decrement),
    Symbol::Stray(StrayMark::Dot),
    Symbol::Stray(StrayMark::Arrow),
    Symbol::Stray(StrayMark::Ellipsis),
];

/// How a symbol is spelled that has one spelling, and nothing for another.
pub fn spelling(symbol: Symbol) -> &'static [u8]
    ensures { result.now ≡ spelling_of symbol }
{
    match symbol {
        Symbol::Terminal(terminal) => terminal.spelling(),
        Symbol::Binary(operator) => operator.spelling(),
        Symbol::Assign(operator) => operator.spelling(),
        Symbol::Step(operator) => operator.spelling(),
        Symbol::Storage(word) => word.spelling(),
        Symbol::Specifier(word) => word.spelling(),
        Symbol::TypeWord(word) => word.spelling(),
        Symbol::Outside(word) => word.spelling(),
        Symbol::Stray(mark) => mark.spelling(),
        Symbol::End
        | Symbol::Name
        | Symbol::Number { .. }
        | Symbol::Character { .. }
        | Symbol::Text
        | Symbol::TypedefName(_) => b"",
    }
}

/// The symbol of a token of this kind that is spelled so.
pub fn classify(kind: TokenKind, bytes: &[u8]) -> Symbol
    ensures { result ≡ symbol_spelled kind bytes.now }
{
    match kind {
        TokenKind::Word => word_spelled(bytes).unwrap_or(Symbol::Name),
        TokenKind::Number { ty, value } => Symbol::Number { ty, value },
        TokenKind::Character { value } => Symbol::Character { value },
        TokenKind::Text => Symbol::Text,
        TokenKind::Mark => mark_spelled(bytes).unwrap_or(Symbol::Text),
        TokenKind::End => Symbol::End,
    }
}

//! Symbols without the values of constants, which a source keeps in two bytes for each token.
//! `kind_of` and `symbol_of_kind` are those of `specs/Kinds.antt`. Proved by the checker alone.
ghost use Rattle.std.specs.Prelude.{◌≡◌, IfSome};
ghost use Rattle.c_grammar_symbols.specs.Kinds.{kind_of, symbol_of_kind, kind_is_terminal};

use crate::operators::{AssignmentOperator, BinaryOperator, StepOperator};
use crate::symbol::Symbol;
use crate::words::{OutsideWord, SpecifierWord, StorageWord, StrayMark, Terminal, TypeWord};

/// What a token stands for in the grammar, but for the type and the value of a constant: the
/// variants of `Symbol`, in the same order, so that a symbol is made of its kind with no table
/// between them.
#[derive(Clone, Copy, PartialEq, Eq)]
pub(crate) enum SymbolKind {
    End,
    Name,
    /// An integer constant, whose type and value are not kept.
    Number,
    /// A character constant, whose value is not kept.
    Character,
    Text,
    Terminal(Terminal),
    Binary(BinaryOperator),
    Assign(AssignmentOperator),
    Step(StepOperator),
    Storage(StorageWord),
    Specifier(SpecifierWord),
    TypeWord(TypeWord),
    /// A typedef name, whose type is not kept.
    TypedefName,
    Outside(OutsideWord),
    Stray(StrayMark),
}

impl SymbolKind {
    /// The symbol without the value of a constant.
    pub(crate) fn of(symbol: Symbol) -> SymbolKind
        ensures { result ≡ kind_of symbol }
    {
        match symbol {
            Symbol::End => SymbolKind::End,
            Symbol::Name => SymbolKind::Name,
            Symbol::Number { .. } => SymbolKind::Number,
            Symbol::Character { .. } => SymbolKind::Character,
            Symbol::Text => SymbolKind::Text,
            Symbol::Terminal(terminal) => SymbolKind::Terminal(terminal),
            Symbol::Binary(operator) => SymbolKind::Binary(operator),
            Symbol::Assign(operator) => SymbolKind::Assign(operator),
            Symbol::Step(operator) => SymbolKind::Step(operator),
            Symbol::Storage(word) => SymbolKind::Storage(word),
            Symbol::Specifier(word) => SymbolKind::Specifier(word),
            Symbol::TypeWord(word) => SymbolKind::TypeWord(word),
            Symbol::TypedefName(_) => SymbolKind::TypedefName,
            Symbol::Outside(word) => SymbolKind::Outside(word),
            Symbol::Stray(mark) => SymbolKind::Stray(mark),
        }
    }

    /// The symbol. Where it is a constant or a typedef name, the kind does not tell which.
    pub(crate) fn symbol(self) -> Symbol
        ensures { IfSome (symbol_of_kind self) (λ symbol. result ≡ symbol) }
    {
        match self {
            SymbolKind::End
            | SymbolKind::Number
            | SymbolKind::Character
            | SymbolKind::TypedefName => Symbol::End,
            SymbolKind::Name => Symbol::Name,
            SymbolKind::Text => Symbol::Text,
            SymbolKind::Terminal(terminal) => Symbol::Terminal(terminal),
            SymbolKind::Binary(operator) => Symbol::Binary(operator),
            SymbolKind::Assign(operator) => Symbol::Assign(operator),
            SymbolKind::Step(operator) => Symbol::Step(operator),
            SymbolKind::Storage(word) => Symbol::Storage(word),
            SymbolKind::Specifier(word) => Symbol::Specifier(word),
            SymbolKind::TypeWord(word) => Symbol::TypeWord(word),
            SymbolKind::Outside(word) => Symbol::Outside(word),
            SymbolKind::Stray(mark) => Symbol::Stray(mark),
        }
    }

    /// Whether it is this terminal.
    pub(crate) fn is_terminal(self, terminal: Terminal) -> bool
        ensures { result ≡ kind_is_terminal terminal self }
    {
        match self {
            SymbolKind::Terminal(found) => found == terminal,
            _ => false,
        }
    }
}

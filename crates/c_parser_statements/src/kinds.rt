//! Which statement begins with a token: the table of `specs/Kinds.antt`.
//! Proved with `proofs/kinds/`.
ghost use Rattle.std.specs.Prelude.{◌≡◌, ◌<◌, length, true};
ghost use Rattle.c_grammar_symbols.specs.Symbols.{symbol_of};
ghost use Rattle.c_grammar_symbols.specs.Sources.{leaf_at, GoesOn};
ghost use Rattle.c_parser_statements.specs.Kinds.{kind_of, has_opener, begins_statement};
ghost use Rattle.c_parser_statements.specs.Kinds.{begins_item};

use c_grammar_symbols::{Source, Symbol, Terminal};
use c_parser_declarations::begins_declaration;
use c_parser_expressions::begins_expression;

/// The statements of C by their first token.
#[derive(Clone, Copy, PartialEq, Eq)]
pub enum StatementKind {
    /// `{`
    Block,
    /// `;`
    Empty,
    If,
    While,
    Do,
    For,
    Switch,
    Case,
    Default,
    Goto,
    Break,
    Continue,
    Return,
    /// Any other token: an expression, or a label.
    Expression,
}

impl StatementKind {
    /// Whether such a statement has a first token of its own.
    fn has_opener(self) -> bool
        ensures { result ≡ has_opener self }
    {
        !matches!(self, StatementKind::Expression)
    }
}

/// Which statement begins with this symbol, if one does.
fn kind_of(symbol: Symbol) -> StatementKind
    ensures { result ≡ kind_of symbol }
{
    match symbol {
        Symbol::Terminal(Terminal::LeftBrace) => StatementKind::Block,
        Symbol::Terminal(Terminal::Semicolon) => StatementKind::Empty,
        Symbol::Terminal(Terminal::If) => StatementKind::If,
        Symbol::Terminal(Terminal::While) => StatementKind::While,
        Symbol::Terminal(Terminal::Do) => StatementKind::Do,
        Symbol::Terminal(Terminal::For) => StatementKind::For,
        Symbol::Terminal(Terminal::Switch) => StatementKind::Switch,
        Symbol::Terminal(Terminal::Case) => StatementKind::Case,
        Symbol::Terminal(Terminal::Default) => StatementKind::Default,
        Symbol::Terminal(Terminal::Goto) => StatementKind::Goto,
        Symbol::Terminal(Terminal::Break) => StatementKind::Break,
        Symbol::Terminal(Terminal::Continue) => StatementKind::Continue,
        Symbol::Terminal(Terminal::Return) => StatementKind::Return,
        _ => StatementKind::Expression,
    }
}

/// Which statement begins here, if one does; all but one with a token behind which the text goes
/// on.
pub(crate) fn kind_at(source: &Source, at: usize) -> StatementKind
    requires { at < length source.now }
    ensures value { result ≡ kind_of (symbol_of (leaf_at source.now at)) }
    ensures more { has_opener result ≡ true → GoesOn source.now at }
{
    kind_of(source.symbol(at))
}

/// Whether a statement may begin with the token at this place.
pub(crate) fn begins_statement(source: &Source, at: usize) -> bool
    requires { at < length source.now }
    ensures { result ≡ begins_statement (leaf_at source.now at) }
{
    kind_at(source, at).has_opener() || begins_expression(source, at)
}

/// Whether what stands in a block may begin with the token at this place.
pub(crate) fn begins_item(source: &Source, at: usize) -> bool
    requires { at < length source.now }
    ensures { result ≡ begins_item (leaf_at source.now at) }
{
    begins_declaration(source, at) || begins_statement(source, at)
}

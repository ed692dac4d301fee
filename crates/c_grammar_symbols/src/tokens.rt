//! The tokens of a text by number: symbols, bytes and places, where no name is declared. Contracts
//! see them as the list of `Leaf`s. The symbol of each token is found once and kept beside it,
//! since a reader asks for it at each level of the grammar.
ghost use Rattle.std.specs.Prelude.{◌≡◌, ◌≢◌, ◌+◌, ◌<◌, ◌≤◌, length, Some, IsTrue, IfOk};
ghost use Rattle.std.specs.List.{slice_get};
ghost use Rattle.c_lexer.specs.Lexemes.{bytes_at};
ghost use Rattle.c_grammar_symbols.specs.Kinds.{kind_of, kinds_of};
ghost use Rattle.c_grammar_symbols.specs.Symbols.{symbol_of, leaves};
ghost use Rattle.c_grammar_symbols.specs.Sources.{leaf_at, is, IsSource, GoesOn};
ghost use Rattle.c_grammar_symbols.specs.declared.symbol.Symbol.TheVariants.{End};

use crate::kind::SymbolKind;
use crate::spelled::kind_spelled;
use crate::symbol::{Symbol, classify};
use crate::words::Terminal;
use c_lexer::Token;
use std::alloc::{AllocError, Global};
use std::marker::Model;

/// The tokens of a text, with the text and what the tokens stand for.
#[derive(Drop)]
pub(crate) struct TokenList<'a> {
    text: &'a [u8],
    tokens: &'a [Token],
    kinds: Vec<SymbolKind>,
}

impl<'a> Model for TokenList<'a> {
    ghost use Rattle.std.specs.Prelude.{List};
    ghost use Rattle.c_grammar_symbols.specs.Symbols.{Leaf, leaves};
    ghost use Rattle.c_grammar_symbols.specs.Sources.{IsKept};

    ghost Value = { List Leaf };

    ghost view = { λ s. leaves s.text.now s.tokens.now };

    ghost invariant = { λ s. IsKept s.text.now s.tokens.now s.kinds.items };
}

impl<'a> TokenList<'a> {
    /// The tokens of this text. One pass.
    pub(crate) fn new(
        alloc: Global,
        text: &'a [u8],
        tokens: &'a [Token],
    ) -> Result<TokenList<'a>, AllocError>
        requires { IsSource text.now tokens.now }
        ensures { IfOk result (λ source. source ≡ leaves text.now tokens.now) }
    {
        let kinds = kinds_of(alloc, text, tokens)?;
        Ok(TokenList {
            text,
            tokens,
            kinds,
        })
    }

    /// The kind of the symbol of the token at this place.
    pub(crate) fn kind_at(&self, at: usize) -> SymbolKind
        requires { at < length self.now }
        ensures value { result ≡ kind_of (symbol_of (leaf_at self.now at)) }
        ensures more { symbol_of (leaf_at self.now at) ≢ End → GoesOn self.now at }
    {
        let _count = self.tokens.len();
        self.kinds[at]
    }

    /// What the token at this place stands for, found from its bytes. It stands out of line, so
    /// that the reading of other symbols is short.
    #[inline(never)]
    pub(crate) fn classified_at(&self, at: usize) -> Symbol
        requires { at < length self.now }
        ensures { result ≡ symbol_of (leaf_at self.now at) }
    {
        let token = token_at(self.tokens, at);
        classify(token.kind, bytes_of(self.text, token))
    }

    /// The place in the text of the token at this place.
    pub(crate) fn place(&self, at: usize) -> u32
        requires { at < length self.now }
        ensures { result ≡ (leaf_at self.now at).place }
    {
        token_at(self.tokens, at).from
    }

    /// The bytes of the token at this place.
    pub(crate) fn bytes(&self, at: usize) -> &[u8]
        requires { at < length self.now }
        ensures { result.now ≡ (leaf_at self.now at).bytes }
    {
        bytes_of(self.text, token_at(self.tokens, at))
    }

    /// Whether the token at this place is this terminal.
    pub(crate) fn is(&self, at: usize, terminal: Terminal) -> bool
        requires { at < length self.now }
        ensures value { result ≡ is terminal (leaf_at self.now at) }
        ensures more { IsTrue result → GoesOn self.now at }
    {
        self.kind_at(at).is_terminal(terminal)
    }
}

/// The kind of each token's symbol, in order.
fn kinds_of(alloc: Global, text: &[u8], tokens: &[Token]) -> Result<Vec<SymbolKind>, AllocError>
    requires { IsSource text.now tokens.now }
    ensures { IfOk result (λ kinds. kinds.items ≡ kinds_of text.now tokens.now) }
{
    let mut kinds = Vec::with_capacity(alloc, tokens.len())?;
    for token in tokens {
        kinds.push(kind_spelled(token.kind, bytes_of(text, *token)))?;
    }
    Ok(kinds)
}

/// The token at this place.
fn token_at(tokens: &[Token], at: usize) -> Token
    requires { at < length tokens.now }
    ensures { slice_get tokens.now at ≡ Some result }
{
    tokens[at]
}

/// The bytes of a token of the text.
fn bytes_of(text: &[u8], token: Token) -> &[u8]
    requires start { token.from ≤ token.to }
    requires end { token.to ≤ length text.now }
    ensures { result.now ≡ bytes_at text.now token }
{
    &text[token.from as usize..token.to as usize]
}

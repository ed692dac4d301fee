//! The tokens of a text as a reader sees them behind some declarations: a name that one of them has
//! made a typedef name is none any more. Contracts see them as the list of `Leaf`s, which
//! `declare` changes (`renamed` of `specs/Sources.antt`). Proved with `proofs/Seen`.
ghost use Rattle.std.specs.Prelude.{◌≡◌, ◌≢◌, ◌<◌, length, map, IsTrue, IfOk, OnOk, OnErr};
ghost use Rattle.std.specs.Prelude.{MatchResult};
ghost use Rattle.c_grammar_symbols.specs.Symbols.{symbol_of, leaves};
ghost use Rattle.c_grammar_symbols.specs.Sources.{leaf_at, is, IsSource, GoesOn, renamed};
ghost use Rattle.c_grammar_symbols.specs.Sources.{Takes, Lacks};
ghost use Rattle.c_grammar_symbols.specs.declared.symbol.Symbol.TheVariants.{End};

use crate::kind::SymbolKind;
use crate::named::NamedType;
use crate::symbol::Symbol;
use crate::tokens::TokenList;
use crate::typedefs::{Typedefs, declare, symbol_named};
use crate::words::Terminal;
use c_grammar_forms::ReadError;
use c_lexer::Token;
use std::alloc::{AllocError, Global};
use std::collections::HashMap;
use std::marker::Model;

/// The tokens of a text, and the typedef names that are declared so far.
#[derive(Drop)]
pub struct Source<'a> {
    tokens: TokenList<'a>,
    typedefs: Typedefs,
}

impl<'a> Model for Source<'a> {
    ghost use Rattle.std.specs.Prelude.{List, map};
    ghost use Rattle.c_grammar_symbols.specs.Symbols.{Leaf};
    ghost use Rattle.c_grammar_symbols.specs.Sources.{seen_by, type_named};

    ghost Value = { List Leaf };

    ghost view = { λ s. map (seen_by (type_named s.typedefs)) s.tokens };
}

impl<'a> Source<'a> {
    /// The tokens of this text, where no name is declared. One pass; two bytes of memory for each
    /// token.
    pub fn new(alloc: Global, text: &'a [u8], tokens: &'a [Token]) -> Result<Source<'a>, AllocError>
        requires { IsSource text.now tokens.now }
        ensures { IfOk result (λ source. source ≡ leaves text.now tokens.now) }
    {
        Ok(Source {
            tokens: TokenList::new(alloc, text, tokens)?,
            typedefs: HashMap::new(alloc),
        })
    }

    /// Makes a name a typedef name of this type from here on, unless it is one. Where memory runs
    /// out, it stays a name.
    pub fn declare(&mut self, alloc: Global, name: &[u8], ty: NamedType) -> Result<(), AllocError>
        ensures declared { OnOk result (self.new ≡ map (renamed name.now ty) self.old) }
        ensures kept { OnErr result (self.new ≡ self.old) }
    {
        declare(alloc, &mut self.typedefs, name, ty)
    }

    /// What the token at this place stands for.
    #[inline(always)]
    pub fn symbol(&self, at: usize) -> Symbol
        requires { at < length self.now }
        ensures value { result ≡ symbol_of (leaf_at self.now at) }
        ensures more { result ≢ End → GoesOn self.now at }
    {
        match self.tokens.kind_at(at) {
            SymbolKind::Name => symbol_named(&self.typedefs, self.tokens.bytes(at)),
            SymbolKind::Number | SymbolKind::Character | SymbolKind::TypedefName => {
                self.tokens.classified_at(at)
            }
            kind => kind.symbol(),
        }
    }

    /// The place in the text of the token at this place.
    pub fn place(&self, at: usize) -> u32
        requires { at < length self.now }
        ensures { result ≡ (leaf_at self.now at).place }
    {
        self.tokens.place(at)
    }

    /// The bytes of the token at this place.
    pub fn bytes(&self, at: usize) -> &[u8]
        requires { at < length self.now }
        ensures { result.now ≡ (leaf_at self.now at).bytes }
    {
        self.tokens.bytes(at)
    }

    /// Whether the token at this place is this terminal.
    pub fn is(&self, at: usize, terminal: Terminal) -> bool
        requires { at < length self.now }
        ensures value { result ≡ is terminal (leaf_at self.now at) }
        ensures more { IsTrue result → GoesOn self.now at }
    {
        self.tokens.is(at, terminal)
    }

    /// The place behind this terminal, which is to stand here.
    pub fn expect(&self, at: usize, terminal: Terminal) -> Result<usize, ReadError>
        requires { at < length self.now }
        ensures { MatchResult result (Takes self.now at terminal) (Lacks self.now at terminal) }
    {
        if self.is(at, terminal) {
            Ok(at + 1)
        } else {
            Err(ReadError::Unexpected { at })
        }
    }
}

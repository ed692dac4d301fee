//! Tokens: what they are, and where they lie in their text.
//! Which tokens a text has is `Tokens` of `specs/Parts.antt`.
use cpa_ints::IntType;

/// What a token is. The bytes of a word, a text and a mark stand in the text at its places.
#[derive(Clone, Copy, PartialEq, Eq)]
pub enum TokenKind {
    /// A keyword or an identifier.
    Word,
    /// An integer constant.
    Number { ty: IntType, value: i128 },
    /// A character constant, which has type `int`.
    Character { value: i128 },
    /// A string literal.
    Text,
    /// An operator or a punctuator.
    Mark,
    /// The end of the text.
    End,
}

/// A token, and its bytes: those from `from` up to `to`.
#[derive(Clone, Copy, PartialEq, Eq)]
pub struct Token {
    pub kind: TokenKind,
    pub from: u32,
    pub to: u32,
}

//! The tokens of a text, or its first fault, as a line: what `tokens_in` of `c_lexer` answers.
//! Proved safe by the checker alone.
ghost use Rattle.std.specs.Prelude.{◌≤◌, length};
ghost use Rattle.c_lexer.specs.declared.lexer.TheConstants.{MAX_TEXT};

use c_lexer::{TextError, Token, TokenKind, tokens_in};
use cpa_ints::DataModel;
use std::alloc::{AllocError, Global};

/// The tokens of a text in a data model, in a line.
pub(crate) fn line(alloc: Global, text: &[u8], model: DataModel) -> Result<String, TextError>
    requires { length text.now ≤ MAX_TEXT }
{
    let tokens = tokens_in(alloc, text, model)?;
    Ok(line_of(alloc, &tokens)?)
}

/// These tokens in a line.
fn line_of(alloc: Global, tokens: &[Token]) -> Result<String, AllocError> {
    let mut line = String::new(alloc);
    for token in tokens {
        push_token(&mut line, *token)?;
    }
    Ok(line)
}

/// Adds a token with its kind, type and value, and its first and last place.
fn push_token(line: &mut String, token: Token) -> Result<(), AllocError> {
    if !line.is_empty() {
        line.push_str(", ")?;
    }
    push_kind(line, token.kind)?;
    write!(line, " {}-{}", token.from, token.to)
}

/// Adds what a token is.
fn push_kind(line: &mut String, kind: TokenKind) -> Result<(), AllocError> {
    match kind {
        TokenKind::Word => line.push_str("word"),
        TokenKind::Number { ty, value } => write!(line, "number {ty:?} {value}"),
        TokenKind::Character { value } => write!(line, "character {value}"),
        TokenKind::Text => line.push_str("text"),
        TokenKind::Mark => line.push_str("mark"),
        TokenKind::End => line.push_str("end"),
    }
}

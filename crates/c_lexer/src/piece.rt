//! The part of a text that begins at a place. What a part is stands in `specs/Parts.antt`;
//! `proofs/Sound.antt` and `proofs/Complete.antt` show that this finds it, or the broken rule.
ghost use Rattle.std.specs.Prelude.{◌≡◌, ◌≤◌, ◌<◌, true, false, length, drop, IfOk};
ghost use Rattle.c_lexer.specs.declared.piece.PieceKind.TheVariants.{Gap, Token};
ghost use Rattle.c_lexer.specs.Bytes.{begins_with, is_on_line};
ghost use Rattle.c_lexer.specs.Steps.Reading.{comment_length, comment_piece, directive_piece};
ghost use Rattle.c_lexer.specs.Steps.Reading.{number_piece, close_quote, character_in, text_in};
ghost use Rattle.c_lexer.specs.Steps.Reading.{mark_length, mark_piece, token_at, piece_of};

use crate::byte::{
    DOUBLE_QUOTE, NUMBER_SIGN, SINGLE_QUOTE, is_blank, is_word_head, line_run, number_run, word_run,
};
use crate::character::character_of;
use crate::gap::{comment_length, is_known, opens_comment, opens_line_comment};
use crate::integer::number_of;
use crate::mark::mark_length;
use crate::quote::close_quote;
use crate::{Rule, TokenKind};
use cpa_ints::DataModel;

/// What a part of the text is.
#[derive(Clone, Copy)]
pub(crate) enum PieceKind {
    /// A blank or a comment.
    Gap,
    /// A line marker, `#line` or `#pragma`, without its line feed.
    Directive,
    Token(TokenKind),
}

/// A part of the text that begins at a place, and its length.
#[derive(Clone, Copy)]
pub(crate) struct Piece {
    pub(crate) kind: PieceKind,
    pub(crate) length: usize,
}

/// A blank or a comment of so many bytes.
fn gap(length: usize) -> Piece
    ensures { result ≡ record { kind = Gap; length = length } }
{
    Piece {
        kind: PieceKind::Gap,
        length,
    }
}

/// A token of so many bytes.
fn token(kind: TokenKind, length: usize) -> Piece
    ensures { result ≡ record { kind = Token kind; length = length } }
{
    Piece {
        kind: PieceKind::Token(kind),
        length,
    }
}

/// The comment that begins the text.
fn comment(text: &[u8]) -> Result<Piece, Rule>
    requires { 2 ≤ length text.now }
    ensures value { result ≡ comment_piece (comment_length text.now) }
    ensures within { IfOk result (λ piece. piece.length ≤ length text.now) }
{
    match comment_length(text) {
        Some(length) => Ok(gap(length)),
        None => Err(Rule::L2),
    }
}

/// The directive line that begins the text.
fn directive(text: &[u8], fresh: bool) -> Result<Piece, Rule>
    requires { begins_with is_on_line text.now ≡ true }
    ensures value { result ≡ directive_piece fresh text.now }
    ensures within { IfOk result (λ piece. piece.length ≤ length text.now) }
{
    if !fresh {
        return Err(Rule::L1);
    }
    let length = line_run(text);
    if is_known(&text[..length]) {
        Ok(Piece {
            kind: PieceKind::Directive,
            length,
        })
    } else {
        Err(Rule::L4)
    }
}

/// The number that begins the text.
fn number(model: DataModel, text: &[u8]) -> Result<Piece, Rule>
    ensures value { result ≡ number_piece model text.now }
    ensures within { IfOk result (λ piece. piece.length ≤ length text.now) }
{
    let length = number_run(text);
    let kind = number_of(model, &text[..length])?;
    Ok(token(kind, length))
}

/// The character constant that begins the text.
fn character(text: &[u8]) -> Result<Piece, Rule>
    requires { 0 < length text.now }
    ensures value { result ≡
        character_in (close_quote SINGLE_QUOTE false (drop 1 text.now)) text.now }
    ensures within { IfOk result (λ piece. piece.length ≤ length text.now) }
{
    let behind = &text[1..];
    let Some(length) = close_quote(behind, SINGLE_QUOTE) else {
        return Err(Rule::L2);
    };
    let kind = character_of(&behind[..length])?;
    Ok(token(kind, length + 2))
}

/// The string literal that begins the text.
fn string(text: &[u8]) -> Result<Piece, Rule>
    requires { 0 < length text.now }
    ensures value { result ≡ text_in (close_quote DOUBLE_QUOTE false (drop 1 text.now)) }
    ensures within { IfOk result (λ piece. piece.length ≤ length text.now) }
{
    let Some(length) = close_quote(&text[1..], DOUBLE_QUOTE) else {
        return Err(Rule::L2);
    };
    Ok(token(TokenKind::Text, length + 2))
}

/// The mark that begins the text.
fn mark(text: &[u8]) -> Result<Piece, Rule>
    ensures value { result ≡ mark_piece (mark_length text.now) }
    ensures within { IfOk result (λ piece. piece.length ≤ length text.now) }
{
    let length = mark_length(text);
    if length == 0 {
        Err(Rule::L1)
    } else {
        Ok(token(TokenKind::Mark, length))
    }
}

/// The token that begins a text of this first byte.
fn token_at(model: DataModel, byte: u8, text: &[u8]) -> Result<Piece, Rule>
    requires { 0 < length text.now }
    ensures value { result ≡ token_at model byte text.now }
    ensures within { IfOk result (λ piece. piece.length ≤ length text.now) }
{
    if is_word_head(byte) {
        Ok(token(TokenKind::Word, word_run(text)))
    } else if byte.is_ascii_digit() {
        number(model, text)
    } else if byte == SINGLE_QUOTE {
        character(text)
    } else if byte == DOUBLE_QUOTE {
        string(text)
    } else {
        mark(text)
    }
}

/// The part that begins the text, or the rule that is broken there. `fresh` says that only blanks
/// and comments stand before it on its line.
pub(crate) fn piece_of(model: DataModel, text: &[u8], fresh: bool) -> Result<Piece, Rule>
    requires { 0 < length text.now }
    ensures value { result ≡ piece_of model fresh text.now }
    ensures within { IfOk result (λ piece. piece.length ≤ length text.now) }
{
    let byte = text[0];
    if is_blank(byte) {
        Ok(gap(1))
    } else if byte == NUMBER_SIGN {
        directive(text, fresh)
    } else if opens_comment(text) {
        comment(text)
    } else if opens_line_comment(text) {
        Ok(gap(line_run(text)))
    } else {
        token_at(model, byte, text)
    }
}

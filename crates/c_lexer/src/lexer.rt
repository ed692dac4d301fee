//! The tokens of a whole text, part by part. What they are is `Tokens` of `specs/Parts.antt`, and
//! what a fault is `HasFault` of `specs/Faults.antt`; `proofs/Cuts.antt` has the loop's invariant.
ghost use Rattle.std.specs.Prelude.{◌≡◌, ◌+◌, ◌≤◌, ◌++◌, ◌==◌, length, IfOk, IfErr};
ghost use Rattle.std.specs.List.{list_any};
ghost use Rattle.c_lexer.specs.Parts.{Tokens, fresh_behind};
ghost use Rattle.c_lexer.specs.Steps.Pieces.{part_of, tokens_of};
ghost use Rattle.c_lexer.specs.Faults.{IsRefused};
ghost use Rattle.c_lexer.specs.declared.fault.TextError.TheVariants.{OutOfMemory};
ghost use Rattle.cpa_ints.specs.declared.data_model.DataModel.TheVariants.{Lp64};

use crate::byte::{LINE_FEED, behind};
use crate::piece::{Piece, PieceKind, piece_of};
use crate::{TextError, TextFault, Token, TokenKind};
use cpa_ints::DataModel;
use std::alloc::Global;

/// The most bytes that a text may have, 2^20, as a program file. So each place fits a `u32`.
pub const MAX_TEXT: usize = 1_048_576;

/// Whether a line feed is among the bytes.
fn has_line_feed(bytes: &[u8]) -> bool
    ensures { result ≡ list_any (λ byte. byte == LINE_FEED) bytes.now }
{
    bytes.iter().any(|byte| *byte == LINE_FEED)
}

/// Whether behind a part with these bytes only blanks and comments stand before on the line.
fn fresh_behind(fresh: bool, kind: PieceKind, bytes: &[u8]) -> bool
    ensures { result ≡ fresh_behind fresh (part_of kind bytes.now) }
{
    match kind {
        PieceKind::Gap => fresh || has_line_feed(bytes),
        PieceKind::Directive => true,
        PieceKind::Token(_) => false,
    }
}

/// Adds the token that the piece at this place is, if it is one.
fn push_token(found: &mut Vec<Token>, place: usize, piece: Piece) -> Result<(), TextError>
    requires { place + piece.length ≤ MAX_TEXT }
    ensures ok { IfOk result (λ _.
        found.new.items ≡ found.old.items ++ tokens_of place piece.length piece.kind) }
    ensures memory { IfErr result (λ error. error ≡ OutOfMemory) }
{
    if let PieceKind::Token(kind) = piece.kind {
        found.push(Token {
            kind,
            from: place as u32,
            to: (place + piece.length) as u32,
        })?;
    }
    Ok(())
}

/// The tokens of a text, in order, and one `End` at its length.
///
/// One pass over the text; memory for the list alone. The data model tells the types of numbers.
pub fn tokens_in(alloc: Global, text: &[u8], model: DataModel) -> Result<Vec<Token>, TextError>
    requires { length text.now ≤ MAX_TEXT }
    ensures ok { IfOk result (λ found. Tokens model text.now found.items) }
    ensures fault { IfErr result (λ error. IsRefused model text.now error) }
{
    let mut found = Vec::new(alloc);
    let mut place = 0;
    let mut fresh = true;
    'parts: while place < text.len() {
        let rest = behind(text, place);
        let piece = match piece_of(model, rest, fresh) {
            Ok(piece) => piece,
            Err(rule) => return Err(TextError::Fault(TextFault {
                rule,
                place: place as u32,
            })),
        };
        push_token(&mut found, place, piece)?;
        fresh = fresh_behind(fresh, piece.kind, &rest[..piece.length]);
        place += piece.length;
    }
    let end = text.len() as u32;
    found.push(Token {
        kind: TokenKind::End,
        from: end,
        to: end,
    })?;
    Ok(found)
}

/// The tokens of a text where `long` has 64 bits.
pub fn tokens(alloc: Global, text: &[u8]) -> Result<Vec<Token>, TextError>
    requires { length text.now ≤ MAX_TEXT }
    ensures ok { IfOk result (λ found. Tokens Lp64 text.now found.items) }
    ensures fault { IfErr result (λ error. IsRefused Lp64 text.now error) }
{
    tokens_in(alloc, text, DataModel::Lp64)
}

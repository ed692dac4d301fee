//! Single tokens: the next one, brackets, keys, numbers and strings. Proved by the checker alone.
ghost use Rattle.std.specs.Prelude.{◌≡◌, ◌∷◌, ◌<◌, ℕ, List, [], length, OnOk, MatchResult};
ghost use Rattle.std.specs.Prelude.{option_map};
ghost use Rattle.json.specs.Token as piece;
ghost use Rattle.json.specs.Token.{Token as Piece};
ghost use Rattle.json.specs.Reads.{token_of};
ghost use Rattle.cpa_report_json.specs.Taking.{TookText, Passed, number_in, text_in};

use crate::fault::ReadFault;
use json::{Reader, Token};

/// The text of a number, if the token is one.
fn number_in<'a>(token: Token<'a>) -> Option<&'a str>
    ensures { option_map (λ s. s.now) result ≡ number_in (token_of token.entry) }
{
    match token {
        Token::Number(text) => Some(text),
        Token::BeginObject
        | Token::EndObject
        | Token::BeginArray
        | Token::EndArray
        | Token::Key(_)
        | Token::String(_)
        | Token::Bool(_)
        | Token::Null
        | Token::Bad => None,
    }
}

/// The content of a string, if the token is one.
fn text_in<'a>(token: Token<'a>) -> Option<&'a str>
    ensures { option_map (λ s. s.now) result ≡ text_in (token_of token.entry) }
{
    match token {
        Token::String(text) => Some(text),
        Token::BeginObject
        | Token::EndObject
        | Token::BeginArray
        | Token::EndArray
        | Token::Key(_)
        | Token::Number(_)
        | Token::Bool(_)
        | Token::Null
        | Token::Bad => None,
    }
}

/// The next token.
fn next<'a>(reader: &mut Reader<'a>) -> Result<Token<'a>, ReadFault>
    ensures { MatchResult result (λ t. reader.old ≡ token_of t ∷ reader.new)
        (λ _. reader.old ≡ []) }
{
    match reader.next() {
        Some(token) => Ok(token),
        None => Err(ReadFault::Other),
    }
}

/// The text of the number that comes next.
pub fn take_number<'a>(reader: &mut Reader<'a>) -> Result<&'a str, ReadFault>
    ensures took { (s : List ℕ) (rest : List Piece) → reader.old ≡ piece.number s ∷ rest
        → TookText s rest result reader.new }
    ensures shorter { OnOk result (length reader.new < length reader.old) }
{
    let token = next(reader)?;
    match number_in(token) {
        Some(text) => Ok(text),
        None => Err(ReadFault::Other),
    }
}

/// The content of the string that comes next.
pub fn take_text<'a>(reader: &mut Reader<'a>) -> Result<&'a str, ReadFault>
    ensures took { (s : List ℕ) (rest : List Piece) → reader.old ≡ piece.string s ∷ rest
        → TookText s rest result reader.new }
    ensures shorter { OnOk result (length reader.new < length reader.old) }
{
    let token = next(reader)?;
    match text_in(token) {
        Some(text) => Ok(text),
        None => Err(ReadFault::Other),
    }
}

/// Passes over the bracket that opens a list.
pub fn open_list(reader: &mut Reader<'_>) -> Result<(), ReadFault>
    ensures took { (rest : List Piece) → reader.old ≡ piece.begin_array ∷ rest
        → Passed rest result reader.new }
    ensures shorter { OnOk result (length reader.new < length reader.old) }
{
    match next(reader)? {
        Token::BeginArray => Ok(()),
        _ => Err(ReadFault::Other),
    }
}

/// Passes over the bracket that closes a list.
pub fn close_list(reader: &mut Reader<'_>) -> Result<(), ReadFault>
    ensures took { (rest : List Piece) → reader.old ≡ piece.end_array ∷ rest
        → Passed rest result reader.new }
    ensures shorter { OnOk result (length reader.new < length reader.old) }
{
    match next(reader)? {
        Token::EndArray => Ok(()),
        _ => Err(ReadFault::Other),
    }
}

/// Passes over the brace that opens an object.
pub fn open_object(reader: &mut Reader<'_>) -> Result<(), ReadFault>
    ensures took { (rest : List Piece) → reader.old ≡ piece.begin_object ∷ rest
        → Passed rest result reader.new }
    ensures shorter { OnOk result (length reader.new < length reader.old) }
{
    match next(reader)? {
        Token::BeginObject => Ok(()),
        _ => Err(ReadFault::Other),
    }
}

/// Passes over the brace that closes an object.
pub fn close_object(reader: &mut Reader<'_>) -> Result<(), ReadFault>
    ensures took { (rest : List Piece) → reader.old ≡ piece.end_object ∷ rest
        → Passed rest result reader.new }
    ensures shorter { OnOk result (length reader.new < length reader.old) }
{
    match next(reader)? {
        Token::EndObject => Ok(()),
        _ => Err(ReadFault::Other),
    }
}

/// Passes over this key.
pub(crate) fn pass_key(reader: &mut Reader<'_>, name: &'static str) -> Result<(), ReadFault>
    ensures took { (rest : List Piece) → reader.old ≡ piece.key name.entry.now ∷ rest
        → Passed rest result reader.new }
    ensures shorter { OnOk result (length reader.new < length reader.old) }
{
    match next(reader)? {
        Token::Key(key) if key == name => Ok(()),
        _ => Err(ReadFault::Other),
    }
}

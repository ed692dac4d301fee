//! Character constants and their values. What they mean stands in `specs/Quoted.antt`;
//! `proofs/Quotes.antt` shows that this reads each of them and no others.
ghost use Rattle.std.specs.Prelude.{◌≡◌, ◌<◌};
ghost use Rattle.std.specs.Str.Parse.{digits_value};
ghost use Rattle.std.specs.List.{list_all};
ghost use Rattle.std.specs.Char.{is_digit};
ghost use Rattle.c_lexer.specs.Quoted.{simple_escape};
ghost use Rattle.c_lexer.specs.Steps.ReadingConstants.{is_plain, single_of, is_numeral};
ghost use Rattle.c_lexer.specs.Steps.ReadingConstants.{is_hex_escape, is_octal_escape, held};
ghost use Rattle.c_lexer.specs.Steps.ReadingConstants.{numeric_escape, character_of};

use crate::byte::{
    ALERT, BACKSLASH, BACKSPACE, CARRIAGE_RETURN, FORM_FEED, LINE_FEED, SINGLE_QUOTE, SPACE, TAB,
    TILDE, VERTICAL_TAB, digit_value,
};
use crate::integer::value_of;
use crate::{Rule, TokenKind};
use cpa_ints::{IntType, wrap};

/// Whether the byte stands for itself in a character constant.
fn is_plain(byte: u8) -> bool
    ensures { result ≡ is_plain byte }
{
    SPACE <= byte && byte <= TILDE && byte != SINGLE_QUOTE && byte != BACKSLASH
}

/// What the byte behind a backslash stands for.
fn simple_escape(byte: u8) -> Option<u8>
    ensures { result ≡ simple_escape byte }
{
    match byte {
        b'\'' | b'"' | b'?' | b'\\' => Some(byte),
        b'a' => Some(ALERT),
        b'b' => Some(BACKSPACE),
        b'f' => Some(FORM_FEED),
        b'n' => Some(LINE_FEED),
        b'r' => Some(CARRIAGE_RETURN),
        b't' => Some(TAB),
        b'v' => Some(VERTICAL_TAB),
        _ => None,
    }
}

/// The number of a plain byte or a simple escape.
fn single_of(content: &[u8]) -> Option<u8>
    ensures { result ≡ single_of content.now }
{
    match content {
        [byte] if is_plain(*byte) => Some(*byte),
        [b'\\', byte] => simple_escape(*byte),
        _ => None,
    }
}

/// Whether all the bytes are digits of this many.
fn are_digits(radix: u8, digits: &[u8]) -> bool
    ensures { result ≡ list_all (λ byte. is_digit byte radix) digits.now }
{
    digits.iter().all(|byte| digit_value(*byte) < radix)
}

/// Whether the bytes are digits of this many, and there are some.
fn is_numeral(radix: u8, digits: &[u8]) -> bool
    ensures { result ≡ is_numeral radix digits.now }
{
    !digits.is_empty() && are_digits(radix, digits)
}

/// Whether the content is a backslash, x and hexadecimal digits.
fn is_hex_escape(content: &[u8]) -> bool
    ensures { result ≡ is_hex_escape content.now }
{
    match content {
        [b'\\', b'x', digits @ ..] => is_numeral(16, digits),
        _ => false,
    }
}

/// Whether the content is a backslash and one to three octal digits.
fn is_octal_escape(content: &[u8]) -> bool
    ensures { result ≡ is_octal_escape content.now }
{
    match content {
        [b'\\', digits @ ..] => digits.len() <= 3 && is_numeral(8, digits),
        _ => false,
    }
}

/// The character of this number, where a byte holds it.
fn held(number: u64) -> Result<TokenKind, Rule>
    ensures { result ≡ held number }
{
    if number <= 255 {
        Ok(TokenKind::Character {
            value: wrap(IntType::I8, number as i128),
        })
    } else {
        Err(Rule::L3)
    }
}

/// The character of the number that the digits write.
fn held_digits(digits: &[u8], radix: u8) -> Result<TokenKind, Rule>
    requires { 0 < radix }
    ensures { result ≡ held (digits_value radix digits.now) }
{
    match value_of(digits, radix) {
        Some(number) => held(number),
        None => Err(Rule::L3),
    }
}

/// The character that an escape by digits is.
fn numeric_escape(content: &[u8]) -> Result<TokenKind, Rule>
    ensures { result ≡ numeric_escape content.now }
{
    if is_hex_escape(content) {
        held_digits(&content[2..], 16)
    } else if is_octal_escape(content) {
        held_digits(&content[1..], 8)
    } else {
        Err(Rule::L1)
    }
}

/// The character constant that the content between the quotes is.
pub(crate) fn character_of(content: &[u8]) -> Result<TokenKind, Rule>
    ensures { result ≡ character_of content.now }
{
    match single_of(content) {
        Some(number) => held(number as u64),
        None => numeric_escape(content),
    }
}

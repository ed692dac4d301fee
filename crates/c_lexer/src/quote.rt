//! Where a quote is closed. What may stand between quotes is `IsQuoted` of `specs/Quoted.antt`;
//! `proofs/Quotes.antt` shows that this finds it.
ghost use Rattle.std.specs.Prelude.{◌≡◌, ◌<◌, false, length, IfSome};
ghost use Rattle.c_lexer.specs.Steps.Reading.{close_quote};

use crate::byte::{BACKSLASH, LINE_FEED};

/// How many bytes there are before the quote that closes the text, where one does on its line.
pub(crate) fn close_quote(text: &[u8], quote: u8) -> Option<usize>
    ensures value { result ≡ close_quote quote false text.now }
    ensures within { IfSome result (λ n. n < length text.now) }
{
    let mut escaped = false;
    for (i, byte) in text.iter().enumerate() {
        if *byte == LINE_FEED {
            return None;
        }
        if *byte == quote && !escaped {
            return Some(i);
        }
        escaped = *byte == BACKSLASH && !escaped;
    }
    None
}

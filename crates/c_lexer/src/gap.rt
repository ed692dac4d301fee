//! Blanks, comments and directives. What they are stands in `specs/Gaps.antt`;
//! `proofs/Comments.antt` and `proofs/Directives.antt` show that this finds them.
ghost use Rattle.std.specs.Prelude.{◌≡◌, ◌≤◌, ◌<◌, false, length, drop, IfSome};
ghost use Rattle.c_lexer.specs.Gaps.{names_directive};
ghost use Rattle.c_lexer.specs.Steps.Reading.{close_from, comment_length, opens_comment};
ghost use Rattle.c_lexer.specs.Steps.Reading.{opens_line_comment, space_of, behind_spaces};

use crate::byte::{SLASH, STAR, behind, is_blank, line_run};

/// How many bytes there are through the first `*/`.
fn close(text: &[u8]) -> Option<usize>
    ensures value { result ≡ close_from false text.now }
    ensures within { IfSome result (λ n. n ≤ length text.now) }
{
    let mut star = false;
    for (i, byte) in text.iter().enumerate() {
        if star && *byte == SLASH {
            return Some(i + 1);
        }
        star = *byte == STAR;
    }
    None
}

/// Whether a comment to a `*/` begins the text.
pub(crate) fn opens_comment(text: &[u8]) -> bool
    ensures { result ≡ opens_comment text.now }
{
    text.starts_with(b"/*")
}

/// Whether a comment to the end of its line begins the text.
pub(crate) fn opens_line_comment(text: &[u8]) -> bool
    ensures { result ≡ opens_line_comment text.now }
{
    text.starts_with(b"//")
}

/// The length of the comment that begins the text, where it ends.
pub(crate) fn comment_length(text: &[u8]) -> Option<usize>
    requires { 2 ≤ length text.now }
    ensures value { result ≡ comment_length text.now }
    ensures within { IfSome result (λ n. n ≤ length text.now) }
{
    let n = close(&text[2..])?;
    Some(n + 2)
}

/// The length of the blank or the finished comment that begins the text.
fn space_length(text: &[u8]) -> Option<usize>
    ensures value { result ≡ space_of text.now }
    ensures some { IfSome result (λ n. 0 < n) }
    ensures within { IfSome result (λ n. n ≤ length text.now) }
{
    match text.first() {
        Some(byte) if is_blank(*byte) => Some(1),
        _ if opens_comment(text) => comment_length(text),
        _ => None,
    }
}

/// The text behind its blanks and finished comments.
#[tactic(auto, using(crate::proofs::Spaces::behind_more, crate::proofs::Spaces::behind_none))]
fn behind_spaces(text: &[u8]) -> &[u8]
    ensures { result.now ≡ behind_spaces text.now }
{
    let mut rest = text;
    while let Some(length) = space_length(rest) {
        rest = behind(rest, length);
    }
    rest
}

/// Whether a line marker, `line` or `pragma` stands here.
fn names_directive(tail: &[u8]) -> bool
    ensures { result ≡ names_directive tail.now }
{
    tail.first().is_some_and(|byte| byte.is_ascii_digit())
        || tail.starts_with(b"line")
        || tail.starts_with(b"pragma")
}

/// Whether the `#` that begins this line begins a line marker, `#line` or `#pragma`.
pub(crate) fn is_known(line: &[u8]) -> bool
    requires { 0 < length line.now }
    ensures { result ≡ names_directive (behind_spaces (drop 1 line.now)) }
{
    names_directive(behind_spaces(&line[1..]))
}

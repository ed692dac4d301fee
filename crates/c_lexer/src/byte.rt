//! Classes of bytes, `specs/Bytes.antt`, and the runs of bytes of one class that begin a text.
//! Proved by the checker alone.
ghost use Rattle.std.specs.Prelude.{◌≡◌, ◌≤◌, length, drop};
ghost use Rattle.std.specs.List.{prefix_len};
ghost use Rattle.std.specs.Char.{digit_value};
ghost use Rattle.c_lexer.specs.Bytes.{is_blank, is_word_head, is_word_byte, is_number_byte};
ghost use Rattle.c_lexer.specs.Bytes.{is_on_line};

/// The byte around character constants.
pub const SINGLE_QUOTE: u8 = b'\'';

/// The byte around string literals.
pub const DOUBLE_QUOTE: u8 = b'"';

/// The byte that takes the next one with it between quotes.
pub const BACKSLASH: u8 = b'\\';

/// The byte that a directive line begins with.
pub const NUMBER_SIGN: u8 = b'#';

/// The byte that ends a line.
pub const LINE_FEED: u8 = b'\n';

/// A blank, and the first byte that stands for itself in a character constant.
pub const SPACE: u8 = b' ';

/// The last byte that stands for itself in a character constant.
pub const TILDE: u8 = b'~';

/// A blank, and what `\t` stands for.
pub const TAB: u8 = b'\t';

/// A blank, and what `\v` stands for.
pub const VERTICAL_TAB: u8 = 11;

/// A blank, and what `\f` stands for.
pub const FORM_FEED: u8 = 12;

/// A blank, and what `\r` stands for.
pub const CARRIAGE_RETURN: u8 = b'\r';

/// What `\a` stands for.
pub const ALERT: u8 = 7;

/// What `\b` stands for.
pub const BACKSPACE: u8 = 8;

/// What `\?` stands for.
pub const QUESTION_MARK: u8 = b'?';

/// What words have beside letters and digits.
pub const UNDERSCORE: u8 = b'_';

/// What goes on with a number beside letters, digits and the underscore.
pub const FULL_STOP: u8 = b'.';

/// The digit that constants of base 8 and 16 begin with.
pub const ZERO: u8 = b'0';

/// The byte of `//`, and the last one of `*/`.
pub const SLASH: u8 = b'/';

/// The first byte of `*/`.
pub const STAR: u8 = b'*';

/// Whether a byte is a space, a tab, a line feed, a vertical tab, a form feed or a carriage return.
pub(crate) fn is_blank(byte: u8) -> bool
    ensures { result ≡ is_blank byte }
{
    byte == SPACE
        || byte == TAB
        || byte == LINE_FEED
        || byte == VERTICAL_TAB
        || byte == FORM_FEED
        || byte == CARRIAGE_RETURN
}

/// Whether a word can begin with the byte.
pub(crate) fn is_word_head(byte: u8) -> bool
    ensures { result ≡ is_word_head byte }
{
    byte.is_ascii_alphabetic() || byte == UNDERSCORE
}

/// Whether a word can go on with the byte.
fn is_word_byte(byte: u8) -> bool
    ensures { result ≡ is_word_byte byte }
{
    byte.is_ascii_alphanumeric() || byte == UNDERSCORE
}

/// Whether a number can go on with the byte.
fn is_number_byte(byte: u8) -> bool
    ensures { result ≡ is_number_byte byte }
{
    is_word_byte(byte) || byte == FULL_STOP
}

/// Whether the line goes on with the byte.
fn is_on_line(byte: u8) -> bool
    ensures { result ≡ is_on_line byte }
{
    byte != LINE_FEED
}

/// How many bytes of a word stand at the front.
pub(crate) fn word_run(text: &[u8]) -> usize
    ensures value { result ≡ prefix_len is_word_byte text.now }
    ensures within { result ≤ length text.now }
{
    text.iter().take_while(|byte| is_word_byte(**byte)).count()
}

/// How many bytes of a number stand at the front.
pub(crate) fn number_run(text: &[u8]) -> usize
    ensures value { result ≡ prefix_len is_number_byte text.now }
    ensures within { result ≤ length text.now }
{
    text.iter()
        .take_while(|byte| is_number_byte(**byte))
        .count()
}

/// How many bytes stand before the first line feed.
pub(crate) fn line_run(text: &[u8]) -> usize
    ensures value { result ≡ prefix_len is_on_line text.now }
    ensures within { result ≤ length text.now }
{
    text.iter().take_while(|byte| is_on_line(**byte)).count()
}

/// The value of a digit or a letter in a base of up to 36, and 36 for any other byte.
pub(crate) fn digit_value(byte: u8) -> u8
    ensures value { result ≡ digit_value byte }
    ensures most { result ≤ 36 }
{
    match byte {
        b'0'..=b'9' => byte - b'0',
        b'A'..=b'Z' => byte - b'A' + 10,
        b'a'..=b'z' => byte - b'a' + 10,
        _ => 36,
    }
}

/// The text behind its first bytes.
pub(crate) fn behind(text: &[u8], count: usize) -> &[u8]
    requires { count ≤ length text.now }
    ensures { result.now ≡ drop count text.now }
{
    &text[count..]
}

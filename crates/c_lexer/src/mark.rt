//! Marks, the longest first. What they are stands in `specs/Marks.antt`; `proofs/MarkFacts.antt`
//! shows that none is missed.
ghost use Rattle.std.specs.Prelude.{◌≡◌, ◌≤◌, length, [], ◌∷◌};
ghost use Rattle.c_lexer.specs.Marks.{is_mark};
ghost use Rattle.c_lexer.specs.Steps.Reading.{mark_length};

/// Whether the byte is a mark.
fn is_single(byte: u8) -> bool
    ensures { result ≡ is_mark (byte ∷ []) }
{
    matches!(
        byte,
        b'[' | b']'
            | b'('
            | b')'
            | b'{'
            | b'}'
            | b'.'
            | b'&'
            | b'*'
            | b'+'
            | b'-'
            | b'~'
            | b'!'
            | b'/'
            | b'%'
            | b'<'
            | b'>'
            | b'^'
            | b'|'
            | b'?'
            | b':'
            | b';'
            | b'='
            | b','
    )
}

/// Whether the two bytes are a mark.
fn is_double(first: u8, second: u8) -> bool
    ensures { result ≡ is_mark (first ∷ second ∷ []) }
{
    match first {
        b'-' => matches!(second, b'>' | b'-' | b'='),
        b'+' => matches!(second, b'+' | b'='),
        b'<' => matches!(second, b'<' | b'='),
        b'>' => matches!(second, b'>' | b'='),
        b'&' => matches!(second, b'&' | b'='),
        b'|' => matches!(second, b'|' | b'='),
        b'=' | b'!' | b'*' | b'/' | b'%' | b'^' => second == b'=',
        _ => false,
    }
}

/// Whether the three bytes are a mark.
fn is_triple(first: u8, second: u8, third: u8) -> bool
    ensures { result ≡ is_mark (first ∷ second ∷ third ∷ []) }
{
    matches!(
        (first, second, third),
        (b'.', b'.', b'.') | (b'<', b'<', b'=') | (b'>', b'>', b'=')
    )
}

/// The length of the longest mark that begins the text, or 0.
pub(crate) fn mark_length(text: &[u8]) -> usize
    ensures value { result ≡ mark_length text.now }
    ensures within { result ≤ length text.now }
{
    match text {
        [first, second, third, ..] if is_triple(*first, *second, *third) => 3,
        [first, second, ..] if is_double(*first, *second) => 2,
        [first, ..] if is_single(*first) => 1,
        _ => 0,
    }
}

//! A text that is too long for a row: the longest one that has tokens.
//! It is the edge of the condition of `tokens` of `c_lexer`.

use c_lexer::{MAX_TEXT, Token, TokenKind, tokens};
use std::test::Fail;

/// A text of one byte more may not be asked.
#[test]
fn the_longest_text_has_its_tokens(rt: HostRuntime) -> Result<(), Fail> {
    let text = vec![in rt.alloc(); b';'; MAX_TEXT]?;
    let found = tokens(rt.alloc(), &text)?;
    assert_eq!(rt; found.len(), 1_048_577);
    let last = Token {
        kind: TokenKind::End,
        from: 1_048_576,
        to: 1_048_576,
    };
    assert!(rt; found.last().copied() == Some(last));
    Ok(())
}

//! Whether a text has a tree, or its first fault: what `parse` of `c_parser` answers.
//! Proved safe by the checker alone.
ghost use Rattle.std.specs.Prelude.{◌≤◌, length};
ghost use Rattle.c_lexer.specs.declared.lexer.TheConstants.{MAX_TEXT};

use c_lexer::{TextError, tokens};
use c_parser::parse;
use std::alloc::Global;

/// The word "tree" for a text that has one.
pub(crate) fn line(alloc: Global, text: &[u8]) -> Result<String, TextError>
    requires { length text.now ≤ MAX_TEXT }
{
    let tokens = tokens(alloc, text)?;
    parse(alloc, text, &tokens)?;
    Ok(String::from_str(alloc, "tree")?)
}

//! Tags, which are declared as names that no identifier is (`tag_key` of `specs/Names.antt` of
//! `c_types_rules`). Proved by the checker alone.

ghost use Rattle.std.specs.Prelude.{◌≡◌, IfOk};
ghost use Rattle.c_types_rules.specs.Names.{tag_key};

use c_grammar_tree::Spelling;
use std::alloc::{AllocError, Global};

/// The name under which a tag is declared.
pub fn tag_key(alloc: Global, tag: &[u8]) -> Result<Spelling, AllocError>
    ensures { IfOk result (λ key. key ≡ tag_key tag.now) }
{
    let mut key = b"enum ".to_vec(alloc)?;
    key.extend_from_slice(tag)?;
    Spelling::new(alloc, &key)
}

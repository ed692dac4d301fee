//! Classes of tokens, which are those of `Parts.antt` of `c_grammar_tree`, and what to say where no
//! level is left; proved by the checker alone.
ghost use Rattle.std.specs.Prelude.{◌≡◌, ◌<◌, length, true};
ghost use Rattle.c_grammar_symbols.specs.Sources.{leaf_at, GoesOn};
ghost use Rattle.c_grammar_tree.specs.Parts.{is_local_specifier, is_initializing};
ghost use Rattle.c_grammar_tree.specs.Reading.{no_level};

use c_grammar_forms::ReadError;
use c_grammar_symbols::{AssignmentOperator, Source, StorageWord, Symbol, Terminal};

/// Whether specifiers may begin here in a function.
pub fn begins_declaration(source: &Source, at: usize) -> bool
    requires { at < length source.now }
    ensures { result ≡ is_local_specifier (leaf_at source.now at) }
{
    matches!(
        source.symbol(at),
        Symbol::Storage(StorageWord::Register)
            | Symbol::Specifier(_)
            | Symbol::TypeWord(_)
            | Symbol::TypedefName(_)
            | Symbol::Terminal(Terminal::Enum)
    )
}

/// Whether the `=` of an initializer stands here.
pub(crate) fn is_initializing(source: &Source, at: usize) -> bool
    requires { at < length source.now }
    ensures value { result ≡ is_initializing (leaf_at source.now at) }
    ensures more { result ≡ true → GoesOn source.now at }
{
    matches!(
        source.symbol(at),
        Symbol::Assign(AssignmentOperator::Assign)
    )
}

/// The error at a token where no level is left for a part that may begin with it, or may not.
pub fn no_level(begins: bool, at: usize) -> ReadError
    ensures { result ≡ no_level begins at }
{
    if begins {
        ReadError::TooDeep { at }
    } else {
        ReadError::Unexpected { at }
    }
}

//! Classes of tokens, which are those of `Parts.antt` of `c_grammar_tree`, and that the text goes
//! on behind a token that is not its end.
ghost use Rattle.std.specs.Prelude.{◌≡◌, ◌<◌, true, false, length};
ghost use Rattle.c_grammar_symbols.specs.Sources.{leaf_at, GoesOn};
ghost use Rattle.c_grammar_symbols.specs.Symbols.{symbol_of};
ghost use Rattle.c_grammar_tree.specs.Parts.{is_end, is_name, is_any_name, points};

use c_grammar_symbols::{BinaryOperator, Source, Symbol};

/// Whether the text ends at this place.
pub fn is_end(source: &Source, at: usize) -> bool
    requires { at < length source.now }
    ensures value { result ≡ is_end (leaf_at source.now at) }
    ensures more { result ≡ false → GoesOn source.now at }
{
    matches!(source.symbol(at), Symbol::End)
}

/// Whether an identifier stands at this place.
pub fn is_name(source: &Source, at: usize) -> bool
    requires { at < length source.now }
    ensures value { result ≡ is_name (leaf_at source.now at) }
    ensures more { result ≡ true → GoesOn source.now at }
{
    matches!(source.symbol(at), Symbol::Name)
}

/// Whether an identifier or a typedef name stands at this place.
pub fn is_any_name(source: &Source, at: usize) -> bool
    requires { at < length source.now }
    ensures value { result ≡ is_any_name (leaf_at source.now at) }
    ensures more { result ≡ true → GoesOn source.now at }
{
    matches!(source.symbol(at), Symbol::Name | Symbol::TypedefName(_))
}

/// Whether the `*` of a pointer stands at this place.
pub fn is_pointer(source: &Source, at: usize) -> bool
    requires { at < length source.now }
    ensures value { result ≡ points (symbol_of (leaf_at source.now at)) }
    ensures more { result ≡ true → GoesOn source.now at }
{
    matches!(source.symbol(at), Symbol::Binary(BinaryOperator::Multiply))
}

//! The laws of the plain grammar, as contracts of functions that do nothing. Proved in
//! `proofs/PlainText.antt`.
ghost use Rattle.std.specs.Prelude.{◌↔◌, ℕ, List};
ghost use Rattle.c_lexer.specs.declared.token.Token.{Token};
ghost use Rattle.c_grammar_tree.specs.declared.item.Unit.{Unit as UnitTree};
ghost use Rattle.c_grammar_tree.specs.Grammar.{Tree, AgreesThrough};
ghost use Rattle.c_laws.specs.Plain.{PlainTree, PlainAgreesThrough};

/// The grammar written plainly has the same trees: that a list or an option ends only where it
/// cannot go on rules out no tree, and no tree needs it.
pub fn plain_trees_are_trees()
    ensures { (text : List ℕ) (tokens : List Token) (u : UnitTree) →
        PlainTree text tokens u ↔ Tree text tokens u }
{}

/// A text agrees through a token by the grammar written plainly exactly where it agrees by the one
/// that is read: the place of a fault does not depend on where lists and options end.
pub fn plain_agreement_is_agreement()
    ensures { (text : List ℕ) (tokens : List Token) (i : ℕ) →
        PlainAgreesThrough text tokens i ↔ AgreesThrough text tokens i }
{}

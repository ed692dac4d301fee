//! The law of spelling, as the contract of a function that does nothing. Proved in
//! `proofs/SpeltText.antt`.
ghost use Rattle.std.specs.Prelude.{ℕ, List};
ghost use Rattle.c_lexer.specs.declared.token.Token.{Token};
ghost use Rattle.c_grammar_tree.specs.declared.item.Unit.{Unit as UnitTree};
ghost use Rattle.c_grammar_tree.specs.Grammar.{Tree};
ghost use Rattle.c_laws.specs.Spelling.{IsSpelled};

use crate::plain::plain_trees_are_trees;

/// What a tree spells is the list: the tokens of its text, in order. And whatever text is spelled
/// by a tree, of some text, has this tree: nothing of a text is lost but the pieces that are free.
pub fn a_tree_spells_its_texts()
    ensures spelled { (text : List ℕ) (tokens : List Token) (u : UnitTree) →
        Tree text tokens u → IsSpelled text tokens u }
    ensures read { (text other : List ℕ) (tokens found : List Token) (u : UnitTree) →
        Tree text tokens u → IsSpelled other found u → Tree other found u }
{
    plain_trees_are_trees();
}

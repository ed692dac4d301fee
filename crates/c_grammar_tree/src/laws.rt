//! Laws of the grammar. Each function does nothing: its contract is the law.
//! They speak of `specs/Grammar.antt` and are proved in `proofs/Agreement.antt`.
ghost use Rattle.std.specs.Prelude.{◌≡◌, ℕ, List};
ghost use Rattle.c_lexer.specs.declared.token.Token.{Token};
ghost use Rattle.c_grammar_tree.specs.declared.item.Unit.{Unit as UnitTree};
ghost use Rattle.c_lexer.specs.declared.fault.TextFault.{TextFault};
ghost use Rattle.c_grammar_tree.specs.Grammar.{Tree, AgreesThrough};
ghost use Rattle.c_grammar_tree.specs.Faults.{IsTreeFault};

/// The tokens of a text have one tree at most.
pub fn one_tree()
    ensures { (text : List ℕ) (tokens : List Token) (u v : UnitTree) →
        Tree text tokens u → Tree text tokens v → u ≡ v }
{}

/// A text that has a tree agrees through each of its tokens.
pub fn trees_agree_through_each_token()
    ensures { (text : List ℕ) (tokens : List Token) (u : UnitTree) →
        Tree text tokens u → (i : ℕ) → AgreesThrough text tokens i }
{}

/// No text has a tree and a fault.
pub fn no_tree_has_a_fault()
    ensures { (text : List ℕ) (tokens : List Token) (u : UnitTree) (fault : TextFault) →
        Tree text tokens u → IsTreeFault text tokens fault → ⊥ }
{}

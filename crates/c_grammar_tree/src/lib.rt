//! The tree of a C text and its grammar: `Tree` of `specs/Grammar.antt` says which tree the tokens
//! of a text have. That there is one at most is proved in `proofs/Agreement.antt`.
#![tactic(auto)]

mod declaration;
mod expression;
mod integer;
mod item;
mod laws;
mod name;
mod specifiers;
mod statement;

pub use declaration::{
    Array, Declaration, Declarator, Enumeration, Enumerator, Initializer, Specifier, SpecifierKind,
    Specifiers,
};
pub use expression::{Expression, Suffix, TypeName, UnaryOperator};
pub use integer::Integer;
pub use item::{Body, FunctionDeclarator, Item, Parameter, Parameters, Unit};
pub use laws::{no_tree_has_a_fault, one_tree, trees_agree_through_each_token};
pub use name::{Name, Spelling};
pub use specifiers::{have_const, named_among};
pub use statement::{BlockItem, ForStart, Statement};

/// How deep the parts of a text may stand: this project's own limit, which bounds the stack of
/// whatever walks a tree (C11 5.2.4.1 asks for 127 blocks and 63 brackets at least). The parts of
/// an item stand at level 1. Which parts stand one level deeper than what they are a part of is
/// said in `specs/Nested.antt`.
pub const MAX_LEVEL: u32 = 200;

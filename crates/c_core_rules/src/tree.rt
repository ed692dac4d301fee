//! What the rules give for an expression, over trees of core statements. The rules are in
//! `specs/Expressions.antt` and `specs/Statements.antt`. The types have no functions to prove.

use cpa_expr::Expr;
use cpa_ints::{Boxed, IntType, Seq};
use cpa_model_trees::CoreTree;

/// An expression: core statements, and the pure value behind them.
#[derive(Drop)]
pub struct Valued {
    pub statements: Seq<CoreTree>,
    pub value: Boxed<Expr>,
}

/// So many cells of a type, from one on: those of an object, of a result, or a fresh one.
#[derive(Clone, Copy)]
pub struct Location {
    pub ty: IntType,
    pub base: u32,
    pub len: u32,
}

/// What is assigned to, its index evaluated: a scalar, an element, or, beside a fault, neither.
#[derive(Drop)]
pub enum Place {
    Scalar(Location),
    Element(Location, Valued),
    Neither,
}

/// Whether the value of an expression is used: E of the rules where it is, D where it is not.
#[derive(Clone, Copy)]
pub enum Usage {
    Used,
    Unused,
}

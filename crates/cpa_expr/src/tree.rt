//! The trees of expressions, and stores. What a node means is in `specs/Values.antt` and
//! `specs/Shape.antt`.

use cpa_ints::{Boxed, IntType, Seq};

/// An operator of one argument.
#[derive(Clone, Copy, PartialEq, Eq)]
pub enum UnOp {
    /// `-`
    Neg,
    /// `~`
    Flip,
}

/// An operator of two arguments whose result has the node's type. The right one of a shift may have
/// another type.
#[derive(Clone, Copy, PartialEq, Eq)]
pub enum BinOp {
    Add,
    Sub,
    Mul,
    Div,
    Rem,
    BitAnd,
    BitOr,
    BitXor,
    Shl,
    Shr,
}

/// A comparison, whose result is 1 or 0.
#[derive(Clone, Copy, PartialEq, Eq)]
pub enum CmpOp {
    Eq,
    Ne,
    Lt,
    Le,
    Gt,
    Ge,
}

/// An expression over the cells of a store. It changes no cell.
///
/// `specs/Values.antt` says which value each form has.
#[derive(Drop)]
pub enum Expr {
    /// A number.
    Const {
        ty: IntType,
        value: i128,
    },
    /// One of `len` cells in a row from `base` on, chosen by the index. A scalar is read as an
    /// array of the one cell, at the index 0 of type `int`.
    Read {
        ty: IntType,
        base: u32,
        len: u32,
        index: Boxed<Expr>,
    },
    /// An operator on one argument.
    Un {
        op: UnOp,
        ty: IntType,
        arg: Boxed<Expr>,
    },
    /// An operator on two arguments.
    Bin {
        op: BinOp,
        ty: IntType,
        left: Boxed<Expr>,
        right: Boxed<Expr>,
    },
    /// Whether two values of the type compare so.
    Cmp {
        op: CmpOp,
        ty: IntType,
        left: Boxed<Expr>,
        right: Boxed<Expr>,
    },
    /// The argument's value converted to the type.
    Cast {
        ty: IntType,
        arg: Boxed<Expr>,
    },
    /// Whether both are nonzero. The right one is evaluated only where the left one is nonzero.
    And {
        left: Boxed<Expr>,
        right: Boxed<Expr>,
    },
    /// Whether one is nonzero. The right one is evaluated only where the left one is zero.
    Or {
        left: Boxed<Expr>,
        right: Boxed<Expr>,
    },
    /// Whether the argument is zero.
    Not {
        arg: Boxed<Expr>,
    },
    /// One of two values, picked by the test. The other one is not evaluated.
    Cond {
        ty: IntType,
        test: Boxed<Expr>,
        yes: Boxed<Expr>,
        no: Boxed<Expr>,
    },
}

/// A value for each cell.
#[derive(Drop)]
pub struct Store {
    /// The values, by the numbers of the cells.
    pub values: Seq<i128>,
}

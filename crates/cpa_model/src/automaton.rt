//! Control-flow automata, as data. Which one is a program's is `IsAutomatonOf` of
//! `specs/Automata.antt`.
ghost use Rattle.std.specs.Prelude.{◌≡◌, ◌<◌, Some, length, slice_get};

use crate::program::Cell;
use cpa_expr::Expr;
use cpa_ints::Seq;

/// What a step does to the stack and to the store.
#[derive(Drop)]
pub enum Act {
    Skip,
    Assign {
        base: u32,
        len: u32,
        index: Expr,
        value: Expr,
    },
    /// The test does not trap, and is nonzero exactly where `holds`.
    Assume {
        test: Expr,
        holds: bool,
    },
    Input {
        cell: u32,
    },
    /// Pushes the call site.
    Call {
        site: u32,
    },
    /// Pops the call site, which has to be on top.
    Return {
        site: u32,
    },
}

/// A step of control from one point to another, with its act.
#[derive(Drop)]
pub struct Edge {
    pub from: u32,
    pub to: u32,
    pub act: Act,
}

/// The control-flow automaton of a program.
#[derive(Drop)]
pub struct Cfa {
    pub cells: Seq<Cell>,
    /// How many points of control there are.
    pub points: u32,
    /// The point at which an execution begins.
    pub start: u32,
    /// The points of the calls of `reach_error`, ascending.
    pub errors: Seq<u32>,
    /// Ordered by the point that they leave.
    pub edges: Seq<Edge>,
    /// The length of the program text in bytes.
    pub text_len: u32,
}

impl Cfa {
    /// The edge of this number.
    pub fn edge(&self, number: u32) -> &Edge
        requires { number < length self.now.edges }
        ensures { slice_get self.now.edges number ≡ Some result.now }
    {
        &self.edges.as_slice()[number as usize]
    }
}

/// Numbers of edges, one after another.
#[derive(Drop)]
pub struct Path {
    pub edges: Seq<u32>,
}

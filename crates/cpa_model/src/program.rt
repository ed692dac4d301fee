//! Programs of core statements, as data, and what is read off one by number. Which are well formed
//! is said in `specs/Programs.antt`.
ghost use Rattle.std.specs.Prelude.{◌≡◌, ◌<◌, ◌≤◌, length};
ghost use Rattle.cpa_model.specs.Programs.{IsBody, IsStmt, exit_of, point_count};

use cpa_expr::{Expr, Typed};
use cpa_ints::{IntType, Seq};

/// The most cells that a well-formed program has.
pub const MAX_CELLS: u32 = 65_536;

/// The most points of control that a well-formed program has.
pub const MAX_POINTS: u32 = 65_536;

/// A cell of the store: an object, an element of an array, a result or a fresh value. `start` is
/// its value in the initial state.
#[derive(Clone, Copy)]
pub struct Cell {
    pub ty: IntType,
    pub start: i128,
}

impl Typed for Cell {
    ghost ty = { λ cell. cell.ty };

    fn ty(&self) -> IntType {
        self.ty
    }
}

/// A core statement. Its parts are named by their numbers in `Program::stmts`.
#[derive(Drop)]
pub enum Stmt {
    /// The items in order.
    Block {
        items: Seq<u32>,
    },
    /// `yes` where the test is nonzero, `no` where it is zero.
    If {
        test: Expr,
        yes: u32,
        no: u32,
    },
    /// `body`, then `step`, and again without end.
    Loop {
        body: u32,
        step: u32,
    },
    /// Writes `value` into the cell `base` + `index`, where the index is below `len`.
    Assign {
        base: u32,
        len: u32,
        index: Expr,
        value: Expr,
    },
    /// Gives the cell any value of its type.
    Input {
        cell: u32,
    },
    /// Runs the body of a function.
    Call {
        function: u32,
    },
    Goto {
        to: u32,
    },
    /// Ends the nearest enclosing loop.
    Break,
    /// Goes to the step of the nearest enclosing loop.
    Continue,
    /// Goes to the function's exit.
    Leave,
    /// Ends the execution.
    Stop,
    /// A call of `reach_error`.
    Error,
}

/// Where control goes after a part of a statement.
#[derive(Clone, Copy)]
pub enum Successor {
    /// To this statement.
    GoesTo(u32),
    /// To what follows the whole statement.
    AfterWhole,
}

/// A program of core statements: for each function its body, a statement.
///
/// The points of control are the numbers of the statements and, after them, one exit for each
/// function in order.
#[derive(Drop)]
pub struct Program {
    pub cells: Seq<Cell>,
    /// The statement that is each function's body.
    pub bodies: Seq<u32>,
    /// The place of `main` in `bodies`.
    pub main: u32,
    pub stmts: Seq<Stmt>,
    /// The length of the program text in bytes.
    pub text_len: u32,
}

impl Program {
    /// The statement of this number.
    pub fn statement(&self, number: u32) -> &Stmt
        requires { number < length self.now.stmts }
        ensures { IsStmt self.now number result.now }
    {
        &self.stmts.as_slice()[number as usize]
    }

    /// The statement that is the body of the function.
    pub fn body(&self, function: u32) -> u32
        requires { function < length self.now.bodies }
        ensures { IsBody self.now function result }
    {
        self.bodies.as_slice()[function as usize]
    }

    /// The exit of the function: a point of its own, behind all statements.
    pub fn exit(&self, function: u32) -> u32
        requires few { point_count self.now ≤ MAX_POINTS }
        requires inside { function < length self.now.bodies }
        ensures { result ≡ exit_of self.now function }
    {
        self.stmts.len() as u32 + function
    }

    /// How many points of control there are: a point for each statement, and an exit for each
    /// function.
    pub fn point_count(&self) -> u32
        requires { point_count self.now ≤ MAX_POINTS }
        ensures { result ≡ point_count self.now }
    {
        (self.stmts.len() + self.bodies.len()) as u32
    }
}

//! The tree of statements (C11 6.8).
//! Which one a text has is said by their grammar, `specs/Statements.antt`.
use crate::{Declaration, Expression, Name};
use cpa_ints::{Boxed, Seq};

/// A statement. Its place is that of its first token; a labeled one has that of its label. Its
/// parts are in boxes, since a list of statements has for each the room of the largest form.
#[cycle(statement)]
#[derive(Drop)]
pub enum Statement {
    /// `{items}`
    Block {
        items: Seq<BlockItem>,
        place: u32,
    },
    /// `expression;`, or `;` alone
    Expression {
        expression: Option<Boxed<Expression>>,
        place: u32,
    },
    /// `if (test) yes else no`; an `else` belongs to the nearest `if`.
    If {
        test: Boxed<Expression>,
        yes: Boxed<Statement>,
        no: Option<Boxed<Statement>>,
        place: u32,
    },
    /// `while (test) body`
    While {
        test: Boxed<Expression>,
        body: Boxed<Statement>,
        place: u32,
    },
    /// `do body while (test);`
    Do {
        body: Boxed<Statement>,
        test: Boxed<Expression>,
        place: u32,
    },
    /// `for (start; test; step) body`
    For {
        start: Boxed<ForStart>,
        test: Boxed<Option<Expression>>,
        step: Boxed<Option<Expression>>,
        body: Boxed<Statement>,
        place: u32,
    },
    /// `switch (value) body`
    Switch {
        value: Boxed<Expression>,
        body: Boxed<Statement>,
        place: u32,
    },
    /// `case value: body`
    Case {
        value: Boxed<Expression>,
        body: Boxed<Statement>,
        place: u32,
    },
    /// `default: body`
    Default {
        body: Boxed<Statement>,
        place: u32,
    },
    /// `goto label;`
    Goto {
        label: Name,
        place: u32,
    },
    /// `break;`
    Break {
        place: u32,
    },
    /// `continue;`
    Continue {
        place: u32,
    },
    /// `return value;`, or `return;`
    Return {
        value: Option<Boxed<Expression>>,
        place: u32,
    },
    /// `label: body`
    Labeled {
        label: Name,
        body: Boxed<Statement>,
    },
}

/// What stands in a block.
#[cycle(statement)]
#[derive(Drop)]
pub enum BlockItem {
    Declaration(Boxed<Declaration>),
    Statement(Statement),
}

/// The first part of a `for`.
#[derive(Drop)]
pub enum ForStart {
    Declaration(Declaration),
    /// `expression;`, or `;` alone
    Expression(Option<Expression>),
}

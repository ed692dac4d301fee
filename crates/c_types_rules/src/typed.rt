//! The typed tree: the tree of a text with a type on each expression, and each name bound to what
//! it stands for. `unit_globals` and `unit_functions` of `specs/Sound.antt` say which one is a
//! text's.
use crate::{Kind, Named, Object};
use c_grammar_symbols::{AssignmentOperator, BinaryOperator, StepOperator};
use c_grammar_tree::{Integer, UnaryOperator};
use cpa_ints::{Boxed, IntType, Seq};

/// An expression. A `kind` is its type; only what breaks a rule, the name of an array and the name
/// of a function have none.
#[cycle(typed_expression)]
#[derive(Drop)]
pub enum TypedExpression {
    Name {
        meaning: Named,
        place: u32,
    },
    Number {
        ty: IntType,
        value: Integer,
        place: u32,
    },
    Character {
        value: Integer,
        place: u32,
    },
    Bracketed {
        inner: Boxed<TypedExpression>,
        place: u32,
    },
    Postfix {
        base: Boxed<TypedExpression>,
        suffixes: Seq<TypedSuffix>,
        place: u32,
    },
    PrefixStep {
        operator: StepOperator,
        operand: Boxed<TypedExpression>,
        kind: Option<Kind>,
        place: u32,
    },
    Unary {
        operator: UnaryOperator,
        operand: Boxed<TypedExpression>,
        kind: Option<Kind>,
        place: u32,
    },
    Cast {
        operand: Boxed<TypedExpression>,
        kind: Option<Kind>,
        place: u32,
    },
    Chain {
        first: Boxed<TypedExpression>,
        rest: Seq<(BinaryOperator, TypedExpression)>,
        kind: Option<Kind>,
        place: u32,
    },
    Conditional {
        test: Boxed<TypedExpression>,
        yes: Boxed<TypedExpression>,
        no: Boxed<TypedExpression>,
        kind: Option<Kind>,
        place: u32,
    },
    Assignment {
        left: Boxed<TypedExpression>,
        operator: AssignmentOperator,
        right: Boxed<TypedExpression>,
        kind: Option<Kind>,
        place: u32,
    },
    Comma {
        items: Seq<TypedExpression>,
        kind: Option<Kind>,
        place: u32,
    },
}

/// What stands behind the base of a postfix expression. Its `kind` is the type of the expression
/// that ends with it.
#[cycle(typed_expression)]
#[derive(Drop)]
pub enum TypedSuffix {
    Index {
        index: TypedExpression,
        kind: Option<Kind>,
        place: u32,
    },
    Call {
        arguments: Seq<TypedExpression>,
        kind: Option<Kind>,
        place: u32,
    },
    Step {
        operator: StepOperator,
        kind: Option<Kind>,
        place: u32,
    },
    Skipped {
        kind: Option<Kind>,
        place: u32,
    },
}

/// What an object is initialized with.
#[derive(Drop)]
pub enum TypedInitializer {
    Scalar(Boxed<TypedExpression>),
    List(Seq<TypedExpression>),
}

/// An object that is declared in a function.
#[derive(Drop)]
pub struct TypedDeclarator {
    pub object: Object,
    pub initializer: Option<TypedInitializer>,
    /// The place of its name.
    pub place: u32,
}

/// A statement. Its place is that of its first token. A label is its number among the labels of its
/// function, those of cases, of defaults and behind switches among them. A `break` out of a switch
/// is a goto.
#[cycle(typed_statement)]
#[derive(Drop)]
pub enum TypedStatement {
    Block {
        items: Seq<TypedItem>,
        place: u32,
    },
    Expression {
        expression: Option<Boxed<TypedExpression>>,
        place: u32,
    },
    If {
        test: Boxed<TypedExpression>,
        yes: Boxed<TypedStatement>,
        no: Option<Boxed<TypedStatement>>,
        place: u32,
    },
    While {
        test: Boxed<TypedExpression>,
        body: Boxed<TypedStatement>,
        place: u32,
    },
    Do {
        body: Boxed<TypedStatement>,
        test: Boxed<TypedExpression>,
        place: u32,
    },
    For {
        start: TypedForStart,
        test: Option<Boxed<TypedExpression>>,
        step: Option<Boxed<TypedExpression>>,
        body: Boxed<TypedStatement>,
        place: u32,
    },
    Goto {
        label: u32,
        place: u32,
    },
    Break {
        place: u32,
    },
    Continue {
        place: u32,
    },
    Return {
        value: Option<Boxed<TypedExpression>>,
        place: u32,
    },
    /// Also a `case` or a `default`, which have labels without a name.
    Labeled {
        label: u32,
        body: Boxed<TypedStatement>,
        place: u32,
    },
    Switch {
        value: Boxed<TypedExpression>,
        /// Its cases in the order of the text.
        choices: Seq<Choice>,
        /// The label of its default, or else the one behind it.
        otherwise: u32,
        body: Boxed<TypedStatement>,
        /// The label behind it, to which a `break` goes.
        end: u32,
        place: u32,
    },
}

/// A `case`: its value, converted to the promoted type of the switch, and its label.
#[derive(Clone, Copy, PartialEq, Eq)]
pub struct Choice {
    pub value: i128,
    pub label: u32,
}

/// What stands in a block.
#[cycle(typed_statement)]
#[derive(Drop)]
pub enum TypedItem {
    Declaration(Seq<TypedDeclarator>),
    Statement(TypedStatement),
}

/// The first part of a `for`.
#[derive(Drop)]
pub enum TypedForStart {
    Declaration(Seq<TypedDeclarator>),
    Expression(Option<Boxed<TypedExpression>>),
}

/// A function with a body.
#[derive(Drop)]
pub struct TypedFunction {
    pub result: Kind,
    pub parameters: Seq<Object>,
    pub items: Seq<TypedItem>,
    /// The place of the first brace of its body.
    pub place: u32,
    /// That of the brace that closes it.
    pub end: u32,
}

/// An object of file scope, by the declarations of the whole text, and what its elements start at.
#[derive(Drop)]
pub struct Global {
    pub object: Object,
    pub starts: Seq<i128>,
}

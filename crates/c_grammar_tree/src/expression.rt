//! The tree of expressions (C11 6.5).
//! Which one a text has is said by their grammar, `specs/Expressions.antt`.
use crate::{Integer, Name};
use c_grammar_symbols::{AssignmentOperator, BinaryOperator, NamedType, StepOperator, TypeWord};
use cpa_ints::{Boxed, IntType, Seq};

/// An operator before a cast that has one operand (C11 6.5.3.3).
#[derive(Clone, Copy, PartialEq, Eq)]
pub enum UnaryOperator {
    /// `+`
    Plus,
    /// `-`
    Minus,
    /// `~`
    Complement,
    /// `!`
    Not,
}

/// The type of a cast, and the place where it begins.
#[derive(Drop)]
pub enum TypeName {
    /// The words of one type, in order.
    Words { words: Seq<TypeWord>, place: u32 },
    /// A typedef name, by the type that it stands for.
    Typedef { named: NamedType, place: u32 },
    /// `enum tag`
    Enum { tag: Name, place: u32 },
}

/// An expression. Its place is that of its first token; a name has its own. The place stands first
/// in the largest forms, since it takes no room there.
#[cycle(expression)]
#[derive(Drop)]
pub enum Expression {
    /// An identifier.
    Name(Name),
    /// An integer constant.
    Number {
        ty: IntType,
        value: Integer,
        place: u32,
    },
    /// A character constant.
    Character {
        value: Integer,
        place: u32,
    },
    /// `(inner)`
    Bracketed {
        inner: Boxed<Expression>,
        place: u32,
    },
    /// A base and the suffixes behind it, one at least, each applied to what stands before it. They
    /// are a list, since no suffix adds a level: walks over the tree stay within `MAX_LEVEL`.
    Postfix {
        place: u32,
        base: Boxed<Expression>,
        suffixes: Seq<Suffix>,
    },
    /// `++operand` or `--operand`
    PrefixStep {
        operator: StepOperator,
        operand: Boxed<Expression>,
        place: u32,
    },
    /// `+ - ~ !` before an operand.
    Unary {
        operator: UnaryOperator,
        operand: Boxed<Expression>,
        place: u32,
    },
    /// `(type) operand`
    Cast {
        to: Boxed<TypeName>,
        operand: Boxed<Expression>,
        place: u32,
    },
    /// Two operands or more between operators of one precedence: the first, and each other behind
    /// its operator. They belong together from the left.
    Chain {
        place: u32,
        first: Boxed<Expression>,
        rest: Seq<(BinaryOperator, Expression)>,
    },
    /// `test ? yes : no`
    Conditional {
        test: Boxed<Expression>,
        yes: Boxed<Expression>,
        no: Boxed<Expression>,
        place: u32,
    },
    /// `left = right`, or with an operator such as `+=`
    Assignment {
        left: Boxed<Expression>,
        operator: AssignmentOperator,
        right: Boxed<Expression>,
        place: u32,
    },
    /// Two expressions or more with commas between them.
    Comma {
        items: Seq<Expression>,
        place: u32,
    },
}

/// What stands behind the base of a postfix expression (C11 6.5.2). Its place is that of its first
/// token.
#[cycle(expression)]
#[derive(Drop)]
pub enum Suffix {
    /// `[index]`
    Index {
        index: Boxed<Expression>,
        place: u32,
    },
    /// `(arguments)`
    Call {
        arguments: Seq<Expression>,
        place: u32,
    },
    /// `++` or `--`
    Step {
        operator: StepOperator,
        place: u32,
    },
    /// `(tokens)` behind the name `__assert_fail`: any tokens with balanced round brackets, which
    /// are not kept.
    Skipped {
        place: u32,
    },
}

//! What names are declared as and stand for, and what is known of an expression: the tables of
//! `specs/Names.antt` and `specs/Expressions.antt` are over these types.
use crate::KnownFunction;
use c_grammar_tree::Spelling;
use cpa_ints::{IntType, Seq};

/// The type of an expression, or of a function's result (C11 6.2.5).
#[derive(Clone, Copy, PartialEq, Eq)]
pub enum Kind {
    Void,
    Value(IntType),
}

/// An object.
#[derive(Clone, Copy, PartialEq, Eq)]
pub struct Object {
    /// How many other objects were declared before it in the text.
    pub number: u32,
    /// Its type; of an array that of its elements.
    pub ty: IntType,
    /// How many elements an array has: 0 where its declaration does not say. A scalar has none.
    pub length: Option<i128>,
    /// Whether a declaration so far has the word `const`.
    pub is_const: bool,
    /// The place of its name in its first declarator; a parameter without a name has none.
    pub place: Option<u32>,
}

/// A function that a name stands for, as the whole text declares it.
#[derive(Clone, Copy, PartialEq, Eq)]
pub struct Function {
    /// How many bodies of functions stand before its own in the text; none where it has no body.
    pub body: Option<u32>,
    pub result: Kind,
    /// How many parameters it has; none where each declaration has `()`.
    pub arity: Option<u32>,
}

/// What a name stands for.
#[derive(Clone, Copy, PartialEq, Eq)]
pub enum Meaning {
    Object(Object),
    Function(Function),
    Known(KnownFunction),
    /// A constant of an enumerated type, by its value.
    Enumerator(i128),
}

/// The type of a parameter; that of a pointer is `char *`.
#[derive(Clone, Copy, PartialEq, Eq)]
pub struct ParameterType {
    pub ty: IntType,
    pub is_pointer: bool,
}

/// What a name is declared as, by the declarations up to this one.
#[derive(Drop)]
pub enum Declared {
    Object {
        object: Object,
        is_initialized: bool,
    },
    Function {
        result: Kind,
        /// None where each declaration so far has `()`.
        parameters: Option<Seq<ParameterType>>,
        is_defined: bool,
    },
    /// A constant of type int.
    Enumerator {
        value: i128,
    },
    /// The tag of an enumerated type, under the name of `tag_key` of `specs/Names.antt`.
    Tag,
}

/// A declared name.
#[derive(Drop)]
pub struct Entry {
    pub name: Spelling,
    pub declared: Declared,
}

/// How an expression stands for an object or a function.
#[derive(Clone, Copy, PartialEq, Eq)]
pub enum Form {
    /// A name, in brackets or not: its place, and what it stands for, where it is declared.
    Bare {
        place: u32,
        meaning: Option<Meaning>,
    },
    /// An element of what a name stands for.
    Element {
        meaning: Option<Meaning>,
    },
    /// Neither.
    Plain,
}

/// What the rules see of an expression: its first token, its type, if it has one, and its form.
#[derive(Clone, Copy, PartialEq, Eq)]
pub struct Part {
    pub place: u32,
    pub kind: Option<Kind>,
    pub form: Form,
}

/// What a part is for the whole expression or statement.
#[derive(Clone, Copy, PartialEq, Eq)]
pub enum Role {
    /// Its value is taken.
    Valued,
    /// It is evaluated, and may be void.
    Evaluated,
    /// It is assigned to.
    Changed,
    /// An index stands behind it.
    Indexed,
    /// It is called.
    Called,
}

/// A typed expression, as a constant.
#[derive(Clone, Copy, PartialEq, Eq)]
pub struct Constant {
    /// Whether it reads an object, calls or assigns anywhere in it.
    pub is_impure: bool,
    /// Its type, where it has a value.
    pub ty: Option<IntType>,
    /// That value, where its evaluation does not trap; a void expression counts as 0.
    pub value: Option<i128>,
}

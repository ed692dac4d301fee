//! The tree of declarations of objects (C11 6.7).
//! Which one a text has is said by their grammar, `specs/Declarations.antt`.
use crate::{Expression, Name};
use c_grammar_symbols::{NamedType, SpecifierWord, StorageWord, TypeWord};
use cpa_ints::{Boxed, Seq};

/// What a word of specifiers is.
#[derive(Clone, Copy, PartialEq, Eq)]
pub enum SpecifierKind {
    Storage(StorageWord),
    Other(SpecifierWord),
    TypeWord(TypeWord),
    /// A typedef name, by the type that it stands for.
    TypedefName(NamedType),
    /// The word `enum`, behind which the enumerated type stands.
    Enum,
}

/// A word of specifiers and its place.
#[derive(Clone, Copy, PartialEq, Eq)]
pub struct Specifier {
    pub kind: SpecifierKind,
    pub place: u32,
}

/// A constant of an enumerated type, with its value where one is given.
#[derive(Drop)]
pub struct Enumerator {
    pub name: Name,
    pub value: Option<Expression>,
}

/// What stands behind the word `enum` (C11 6.7.2.2).
#[derive(Drop)]
pub enum Enumeration {
    /// `tag`
    Tag(Name),
    /// `tag {enumerators}`, where the tag may be left out.
    Listed {
        tag: Option<Name>,
        enumerators: Seq<Enumerator>,
    },
}

/// The words before a declarator, in the order in which they stand: those of one type among them,
/// or a typedef name, or `enum`. The enumerated type is kept beside them, and in a box, since most
/// specifiers have none.
#[derive(Drop)]
pub struct Specifiers {
    pub words: Seq<Specifier>,
    pub enumeration: Option<Boxed<Enumeration>>,
    pub place: u32,
}

/// `[length]` or `[]` behind the name of an array.
#[derive(Drop)]
pub struct Array {
    pub length: Option<Expression>,
    pub place: u32,
}

/// What an object is initialized with: an expression where it is a scalar, a list where it is an
/// array.
#[derive(Drop)]
pub enum Initializer {
    Scalar(Expression),
    /// `{items}`, and the place of the brace.
    List { items: Seq<Expression>, place: u32 },
}

/// A declared object. Its attributes are skipped. What may be left out is in boxes, since most
/// objects have little of it.
#[derive(Drop)]
pub struct Declarator {
    pub name: Name,
    pub array: Option<Boxed<Array>>,
    pub initializer: Option<Boxed<Initializer>>,
}

/// Specifiers and the objects that they declare.
#[derive(Drop)]
pub struct Declaration {
    pub specifiers: Specifiers,
    pub declarators: Seq<Declarator>,
}

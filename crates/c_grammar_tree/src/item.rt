//! The tree of the items of a text (C11 6.9).
//! Which one a text has is said by their grammar, `specs/Items.antt`.
use crate::{BlockItem, Declaration, Name, Specifiers};
use cpa_ints::Seq;

/// A parameter. A pointer stands only behind `char`, in a prototype.
#[derive(Drop)]
pub struct Parameter {
    pub specifiers: Specifiers,
    pub is_pointer: bool,
    pub name: Option<Name>,
}

/// What stands between the brackets of a function's declarator.
#[derive(Drop)]
pub enum Parameters {
    /// `()`, which says nothing of the parameters.
    Unspecified,
    /// `(void)`, no parameters.
    Void,
    /// At least one parameter.
    Listed(Seq<Parameter>),
}

/// A function's name and its parameters. Attributes behind them are skipped.
#[derive(Drop)]
pub struct FunctionDeclarator {
    pub name: Name,
    pub parameters: Parameters,
}

/// The body of a function.
#[derive(Drop)]
pub enum Body {
    /// `{items}`, and the places of the first brace and of the closing one.
    Block {
        items: Seq<BlockItem>,
        place: u32,
        end: u32,
    },
    /// That of a known function: any tokens with balanced braces.
    Skipped,
}

/// An item of a text. Its place is that of its first token, which is also the place of its
/// specifiers where it is no typedef.
#[derive(Drop)]
pub enum Item {
    /// A semicolon alone.
    Empty {
        place: u32,
    },
    /// `typedef specifiers name, ..;`
    Typedef {
        specifiers: Specifiers,
        names: Seq<Name>,
        place: u32,
    },
    /// Objects, or specifiers alone.
    Objects(Declaration),
    /// `specifiers declarator;`
    Prototype {
        specifiers: Specifiers,
        declarator: FunctionDeclarator,
    },
    /// `specifiers declarator body`
    Function {
        specifiers: Specifiers,
        declarator: FunctionDeclarator,
        body: Body,
    },
}

/// A whole text.
#[derive(Drop)]
pub struct Unit {
    /// Its items in order.
    pub items: Seq<Item>,
    /// Its length in bytes.
    pub length: u32,
}

//! Core statements and lists of them (`c_core_rules`, `specs/Trees.antt`), each at the place of the
//! text that it comes from. Proved by the checker alone.
ghost use Rattle.std.specs.Prelude.{◌≡◌, [], ◌∷◌, ◌++◌, IfOk};
ghost use Rattle.c_core_rules.specs.Trees.{leaf, block, labeled, choice, repeated, write, set};
ghost use Rattle.c_core_rules.specs.Trees.{input, pure};

use c_core_rules::{Location, Valued};
use c_lower_operators::conv;
use cpa_expr::{Expr, constant};
use cpa_ints::{Boxed, IntType, Seq};
use cpa_model_trees::{CoreTree, Head};
use std::alloc::{AllocError, Global};

/// A list of one statement, with room for no other: most lists stay as they are.
pub fn list_of(alloc: Global, tree: CoreTree) -> Result<Seq<CoreTree>, AllocError>
    ensures { IfOk result (λ trees. trees ≡ tree ∷ []) }
{
    let trees = Vec::from_array(alloc, [tree])?;
    Ok(Seq::from_vec(trees))
}

/// Statements with one more behind them.
pub fn with(trees: Seq<CoreTree>, tree: CoreTree) -> Result<Seq<CoreTree>, AllocError>
    ensures { IfOk result (λ all. all ≡ trees ++ tree ∷ []) }
{
    if trees.is_empty() {
        let none = trees.into_vec();
        return list_of(*none.allocator(), tree);
    }
    let mut trees = trees;
    trees.push(tree)?;
    Ok(trees)
}

/// Statements with others behind them.
pub fn joined(trees: Seq<CoreTree>, behind: Seq<CoreTree>) -> Result<Seq<CoreTree>, AllocError>
    ensures { IfOk result (λ all. all ≡ trees ++ behind) }
{
    if trees.is_empty() {
        return Ok(behind);
    }
    if behind.is_empty() {
        return Ok(trees);
    }
    let mut trees = trees.into_vec();
    let mut behind = behind.into_vec();
    trees.append(&mut behind)?;
    Ok(Seq::from_vec(trees))
}

/// A statement without parts.
pub fn leaf(alloc: Global, origin: u32, head: Head) -> CoreTree
    ensures { result ≡ leaf origin head }
{
    CoreTree::Node {
        head,
        parts: Seq::new(alloc),
        place: origin,
    }
}

/// A block of these.
pub fn block(origin: u32, items: Seq<CoreTree>) -> CoreTree
    ensures { result ≡ block origin items }
{
    CoreTree::Node {
        head: Head::Block,
        parts: items,
        place: origin,
    }
}

/// What a label stands before.
pub fn labeled(origin: u32, items: Seq<CoreTree>) -> CoreTree
    ensures { result ≡ labeled origin items }
{
    CoreTree::Node {
        head: Head::Labeled,
        parts: items,
        place: origin,
    }
}

/// Two blocks.
fn blocks(
    alloc: Global,
    origin: u32,
    first: Seq<CoreTree>,
    second: Seq<CoreTree>,
) -> Result<Seq<CoreTree>, AllocError>
    ensures { IfOk result (λ parts. parts ≡ block origin first ∷ block origin second ∷ []) }
{
    let parts = Vec::from_array(alloc, [block(origin, first), block(origin, second)])?;
    Ok(Seq::from_vec(parts))
}

/// A choice by a test.
pub fn choice(
    alloc: Global,
    origin: u32,
    test: Boxed<Expr>,
    yes: Seq<CoreTree>,
    no: Seq<CoreTree>,
) -> Result<CoreTree, AllocError>
    ensures { IfOk result (λ tree. tree ≡ choice origin test yes no) }
{
    let parts = blocks(alloc, origin, yes, no)?;
    Ok(CoreTree::Node {
        head: Head::If { test },
        parts,
        place: origin,
    })
}

/// A loop with this body and this step.
pub fn repeated(
    alloc: Global,
    origin: u32,
    body: Seq<CoreTree>,
    step: Seq<CoreTree>,
) -> Result<CoreTree, AllocError>
    ensures { IfOk result (λ tree. tree ≡ repeated origin body step) }
{
    let parts = blocks(alloc, origin, body, step)?;
    Ok(CoreTree::Node {
        head: Head::Loop,
        parts,
        place: origin,
    })
}

/// A write of a value, converted, to a place.
pub fn write(
    alloc: Global,
    origin: u32,
    place: Location,
    index: Boxed<Expr>,
    v: Boxed<Expr>,
) -> Result<CoreTree, AllocError>
    ensures { IfOk result (λ tree. tree ≡ write origin place index v) }
{
    let value = conv(alloc, v, place.ty)?;
    let head = Head::Assign {
        base: place.base,
        len: place.len,
        index,
        value,
    };
    Ok(leaf(alloc, origin, head))
}

/// A write to a scalar, at the index 0.
pub fn set(
    alloc: Global,
    origin: u32,
    place: Location,
    v: Boxed<Expr>,
) -> Result<CoreTree, AllocError>
    ensures { IfOk result (λ tree. tree ≡ set origin place v) }
{
    let value = conv(alloc, v, place.ty)?;
    let head = Head::Assign {
        base: place.base,
        len: place.len,
        index: constant(alloc, IntType::I32, 0)?,
        value,
    };
    Ok(leaf(alloc, origin, head))
}

/// An input of a cell.
pub fn input(alloc: Global, origin: u32, cell: u32) -> CoreTree
    ensures { result ≡ input origin cell }
{
    leaf(alloc, origin, Head::Input { cell })
}

/// A value without statements.
pub fn pure(alloc: Global, value: Boxed<Expr>) -> Valued
    ensures { result ≡ pure value }
{
    Valued {
        statements: Seq::new(alloc),
        value,
    }
}

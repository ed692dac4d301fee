//! How large trees are: their points, and the height of their highest expression
//! (`specs/Measures.antt`). Proved with `proofs/Measured.antt`.
ghost use Rattle.std.specs.Prelude.{◌≡◌, ◌+◌, ◌++◌, ◌∷◌, [], max, IfOk};
ghost use Rattle.cpa_expr.specs.Shape.{height};
ghost use Rattle.cpa_model_trees.specs.declared.tree.CoreTree.TheVariants.{Node};
ghost use Rattle.c_core_rules_laws.specs.Sizes.{head_height, heights_of};
ghost use Rattle.c_lower_layout.specs.Measures.{nothing, grown, marks_of};

use cpa_expr::{Expr, height};
use cpa_model_trees::{CoreTree, Head};
use std::alloc::AllocError;

/// How many points statements have, and how high the highest of their expressions is.
#[derive(Clone, Copy)]
pub(crate) struct Size {
    pub(crate) points: u64,
    pub(crate) tallest: u32,
}

/// No statement.
pub(crate) fn nothing() -> Size
    ensures { result ≡ nothing }
{
    Size {
        points: 0,
        tallest: 0,
    }
}

/// A point more, with expressions as high as this.
fn one_more(size: Size, height: u32) -> Result<Size, AllocError>
    ensures { IfOk result (λ more. more ≡ grown size (height ∷ [])) }
{
    let points = size.points.checked_add(1).ok_or(AllocError)?;
    Ok(Size {
        points,
        tallest: size.tallest.max(height),
    })
}

/// The height of an expression. One that no u32 counts is want of memory.
fn exact_height(e: &Expr) -> Result<u32, AllocError>
    ensures { IfOk result (λ found. found ≡ height e.now) }
{
    let found = height(e);
    if found == u32::MAX {
        Err(AllocError)
    } else {
        Ok(found)
    }
}

/// That of the highest expression of a statement.
fn head_height(head: &Head) -> Result<u32, AllocError>
    ensures { IfOk result (λ found. found ≡ head_height head.now) }
{
    match head {
        Head::If { test } => exact_height(test.get()),
        Head::Assign { index, value, .. } => {
            let first = exact_height(index.get())?;
            let second = exact_height(value.get())?;
            Ok(first.max(second))
        }
        _ => Ok(0),
    }
}

/// The statements of a tree more.
#[cycle(measuring)]
fn behind_tree(size: Size, tree: &CoreTree) -> Result<Size, AllocError>
    ensures { IfOk result (λ more. more ≡ grown size (heights_of (tree.now ∷ []))) }
{
    match tree {
        CoreTree::Node { head, parts, place } => {
            behind_node(size, head, parts.as_slice(), *place)
        }
    }
}

/// Those of a tree with this root and these parts. The place is there for the contract alone.
#[cycle(measuring)]
fn behind_node(size: Size, head: &Head, parts: &[CoreTree], _place: u32) -> Result<Size, AllocError>
    ensures { IfOk result (λ more. more
        ≡ grown size (heights_of (Node head.now parts.now _place ∷ []))) }
{
    let height = head_height(head)?;
    let root = one_more(size, height)?;
    let whole = behind_trees(root, parts)?;
    Ok(whole)
}

/// Those of trees.
#[cycle(measuring)]
fn behind_trees(size: Size, trees: &[CoreTree]) -> Result<Size, AllocError>
    ensures { IfOk result (λ more. more ≡ grown size (heights_of trees.now)) }
{
    let mut size = size;
    for tree in trees {
        size = behind_tree(size, tree)?;
    }
    Ok(size)
}

/// The points of a function with this tree more: its statements, and its exit.
#[tactic(auto, using(crate::proofs::Measured::exit_grown))]
pub(crate) fn behind_body(size: Size, tree: &CoreTree) -> Result<Size, AllocError>
    ensures { IfOk result (λ more. more ≡ grown size (marks_of (tree.now ∷ []))) }
{
    let inside = behind_tree(size, tree)?;
    let whole = one_more(inside, 0)?;
    Ok(whole)
}

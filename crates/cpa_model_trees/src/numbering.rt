//! Numbers for the statements of trees (`specs/Numbering.antt`): a function's labels,
//! then its statements, each before its parts. Shown in `proofs/NumberedRows.antt`.
ghost use Rattle.std.specs.Prelude.{◌≡◌, ◌<◌, ◌+◌, ◌++◌, ◌∷◌, [], length, set, IfOk, OnOk};
ghost use Rattle.cpa_model.specs.declared.program.Stmt.TheVariants as stmt;
ghost use Rattle.cpa_model_trees.specs.declared.tree.CoreTree.TheVariants.{Node};
ghost use Rattle.cpa_model_trees.specs.Numbering.{statements, numbers_from, part, stmt_of};
ghost use Rattle.cpa_model_trees.specs.Numbering.{label_here, labels_from, numbered};
ghost use Rattle.cpa_model_trees.specs.Numbering.{numbered_bodies, places_in};
ghost use Rattle.cpa_model_trees.specs.Rows.{sizes_of, row_of, places_of};

use crate::{CoreTree, Head};
use cpa_ints::{Boxed, Seq};
use cpa_model::Stmt;
use std::alloc::{AllocError, Global};

/// Numbered statements, which of them are the functions' bodies, and the place in the text that
/// each comes from.
#[derive(Drop)]
pub struct Numbered {
    pub bodies: Seq<u32>,
    pub stmts: Seq<Stmt>,
    pub places: Seq<u32>,
}

/// The number of the next statement. More statements than a u32 counts are want of memory.
fn next_number(stmts: &Vec<Stmt>) -> Result<u32, AllocError>
    ensures { IfOk result (λ number. number ≡ length stmts.now.items) }
{
    u32::try_from(stmts.len()).ok().ok_or(AllocError)
}

/// The number behind this one.
fn behind(number: u32) -> Result<u32, AllocError>
    ensures { IfOk result (λ next. next ≡ number + 1) }
{
    number.checked_add(1).ok_or(AllocError)
}

/// Notes a labelled block.
fn note(labels: &mut Vec<u32>, head: &Head, number: u32) -> Result<(), AllocError>
    ensures { OnOk result (labels.new.items ≡ labels.old.items ++ label_here head.now number) }
{
    match head {
        Head::Labeled => {
            labels.push(number)?;
            Ok(())
        }
        _ => Ok(()),
    }
}

/// Notes the labelled blocks of a tree whose root has this number, and gives the number behind it.
#[cycle(noting)]
fn note_tree(labels: &mut Vec<u32>, tree: &CoreTree, number: u32) -> Result<u32, AllocError>
    ensures labels { OnOk result (labels.new.items
        ≡ labels.old.items ++ labels_from number (statements tree.now)) }
    ensures behind { IfOk result (λ next. next ≡ number + length (statements tree.now)) }
{
    match tree {
        CoreTree::Node { head, parts, place } => {
            note_node(labels, head, parts.as_slice(), *place, number)
        }
    }
}

/// The same of a tree with this root and these parts. The place is there for the contract alone.
#[cycle(noting)]
#[tactic(auto, using(crate::proofs::NumberedRows::node_labels, crate::proofs::NumberedRows::node_length))]
fn note_node(
    labels: &mut Vec<u32>,
    head: &Head,
    parts: &[CoreTree],
    _place: u32,
    number: u32,
) -> Result<u32, AllocError>
    ensures labels { OnOk result (labels.new.items
        ≡ labels.old.items ++ labels_from number (statements (Node head.now parts.now _place))) }
    ensures behind { IfOk result (λ next. next
        ≡ number + length (statements (Node head.now parts.now _place))) }
{
    note(labels, head, number)?;
    note_row(labels, parts, behind(number)?)
}

/// The same of trees, one behind the other.
#[cycle(noting)]
fn note_row(labels: &mut Vec<u32>, trees: &[CoreTree], number: u32) -> Result<u32, AllocError>
    ensures labels { OnOk result (labels.new.items
        ≡ labels.old.items ++ labels_from number (row_of trees.now)) }
    ensures behind { IfOk result (λ next. next ≡ number + length (row_of trees.now)) }
{
    let mut next = number;
    for tree in trees {
        next = note_tree(labels, tree, next)?;
    }
    Ok(next)
}

/// The number of a part, 0 where there is none.
fn part(numbers: &[u32], place: usize) -> u32
    ensures { result ≡ part numbers.now place }
{
    match numbers.get(place) {
        Some(number) => *number,
        None => 0,
    }
}

/// The statement with this head and these parts, in a function with these labels.
fn stmt_of(labels: &[u32], head: Head, parts: Vec<u32>) -> Stmt
    ensures { result ≡ stmt_of labels.now head parts.items }
{
    match head {
        Head::Block | Head::Labeled => Stmt::Block {
            items: Seq::from_vec(parts),
        },
        Head::If { test } => Stmt::If {
            test: test.into_inner(),
            yes: part(&parts, 0),
            no: part(&parts, 1),
        },
        Head::Loop => Stmt::Loop {
            body: part(&parts, 0),
            step: part(&parts, 1),
        },
        Head::Assign {
            base,
            len,
            index,
            value,
        } => Stmt::Assign {
            base,
            len,
            index: index.into_inner(),
            value: value.into_inner(),
        },
        Head::Input { cell } => Stmt::Input { cell },
        Head::Call { function } => Stmt::Call { function },
        Head::Goto { label } => Stmt::Goto {
            to: part(labels, label as usize),
        },
        Head::Break => Stmt::Break,
        Head::Continue => Stmt::Continue,
        Head::Leave => Stmt::Leave,
        Head::Stop => Stmt::Stop,
        Head::Error => Stmt::Error,
    }
}

/// Adds a statement that stands for a root until its parts are known, notes where the root comes
/// from, and gives its number.
fn hold_root(stmts: &mut Vec<Stmt>, places: &mut Vec<u32>, origin: u32) -> Result<u32, AllocError>
    ensures number { IfOk result (λ number. number ≡ length stmts.old.items) }
    ensures stmts { OnOk result (stmts.new.items ≡ stmts.old.items ++ stmt.Break ∷ []) }
    ensures places { OnOk result (places.new.items ≡ places.old.items ++ origin ∷ []) }
{
    let number = next_number(stmts)?;
    stmts.push(Stmt::Break)?;
    places.push(origin)?;
    Ok(number)
}

/// Writes a root over what stands for it.
fn write_root(stmts: &mut Vec<Stmt>, labels: &[u32], number: u32, head: Head, parts: Vec<u32>)
    requires { number < length stmts.old.items }
    ensures { stmts.new.items
        ≡ set stmts.old.items number (stmt_of labels.now head parts.items) }
{
    stmts[number as usize] = stmt_of(labels, head, parts);
}

/// Adds the statements of a tree, its root first, and gives the number of the root.
#[cycle(placing)]
#[tactic(auto, using(crate::proofs::NumberedRows::parts_below))]
fn place(
    alloc: Global,
    stmts: &mut Vec<Stmt>,
    places: &mut Vec<u32>,
    labels: &[u32],
    tree: CoreTree,
) -> Result<u32, AllocError>
    ensures number { IfOk result (λ number. number ≡ length stmts.old.items) }
    ensures stmts { OnOk result (stmts.new.items ≡ stmts.old.items
        ++ numbered labels.now (length stmts.old.items) (statements tree)) }
    ensures places { OnOk result (places.new.items
        ≡ places.old.items ++ places_in (statements tree)) }
{
    match tree {
        CoreTree::Node { head, parts, place } => {
            place_node(alloc, stmts, places, labels, head, parts.into_vec(), place)
        }
    }
}

/// The same of a tree with this root and these parts. The root is boxed while parts are placed, so
/// that what is dropped where memory ends is a box.
#[cycle(placing)]
#[tactic(auto, using(crate::proofs::NumberedRows::root_inside))]
fn place_node(
    alloc: Global,
    stmts: &mut Vec<Stmt>,
    places: &mut Vec<u32>,
    labels: &[u32],
    head: Head,
    parts: Vec<CoreTree>,
    origin: u32,
) -> Result<u32, AllocError>
    ensures number { IfOk result (λ number. number ≡ length stmts.old.items) }
    ensures stmts { OnOk result (stmts.new.items ≡ stmts.old.items
        ++ numbered labels.now (length stmts.old.items)
        (statements (Node head parts.items origin))) }
    ensures places { OnOk result (places.new.items
        ≡ places.old.items ++ places_in (statements (Node head parts.items origin))) }
{
    let head = Boxed::new(alloc, head)?;
    let number = hold_root(stmts, places, origin)?;
    let numbers = place_row(alloc, stmts, places, labels, parts)?;
    write_root(stmts, labels, number, head.into_inner(), numbers);
    Ok(number)
}

/// Adds the statements of trees, one behind the other, and gives the numbers of their roots.
#[cycle(placing)]
#[tactic(auto, using(crate::proofs::NumberedRows::tree_below))]
fn place_row(
    alloc: Global,
    stmts: &mut Vec<Stmt>,
    places: &mut Vec<u32>,
    labels: &[u32],
    trees: Vec<CoreTree>,
) -> Result<Vec<u32>, AllocError>
    ensures numbers { IfOk result (λ numbers. numbers.items
        ≡ numbers_from (length stmts.old.items) (sizes_of trees.items)) }
    ensures stmts { OnOk result (stmts.new.items ≡ stmts.old.items
        ++ numbered labels.now (length stmts.old.items) (row_of trees.items)) }
    ensures places { OnOk result (places.new.items
        ≡ places.old.items ++ places_of trees.items) }
{
    let mut numbers = Vec::new(alloc);
    for tree in trees {
        numbers.push(place(alloc, stmts, places, labels, tree)?)?;
    }
    Ok(numbers)
}

/// The numbers of the labelled blocks of a tree whose root has this number.
fn labels_of(alloc: Global, tree: &CoreTree, number: u32) -> Result<Vec<u32>, AllocError>
    ensures { IfOk result (λ labels. labels.items ≡ labels_from number (statements tree.now)) }
{
    let mut labels = Vec::new(alloc);
    note_tree(&mut labels, tree, number)?;
    Ok(labels)
}

/// Adds the statements of a function, and gives the number of its body.
fn place_body(
    alloc: Global,
    stmts: &mut Vec<Stmt>,
    places: &mut Vec<u32>,
    tree: CoreTree,
) -> Result<u32, AllocError>
    ensures number { IfOk result (λ number. number ≡ length stmts.old.items) }
    ensures stmts { OnOk result (stmts.new.items ≡ stmts.old.items
        ++ numbered (labels_from (length stmts.old.items) (statements tree))
        (length stmts.old.items) (statements tree)) }
    ensures places { OnOk result (places.new.items
        ≡ places.old.items ++ places_in (statements tree)) }
{
    let tree = Boxed::new(alloc, tree)?;
    let labels = labels_of(alloc, tree.get(), next_number(stmts)?)?;
    place(alloc, stmts, places, &labels, tree.into_inner())
}

/// The statements of functions, the numbers of their bodies, and the place of each statement.
pub fn numbered_bodies(alloc: Global, trees: Vec<CoreTree>) -> Result<Numbered, AllocError>
    ensures bodies { IfOk result (λ all. all.bodies
        ≡ numbers_from 0 (sizes_of trees.items)) }
    ensures stmts { IfOk result (λ all. all.stmts ≡ numbered_bodies 0 trees.items) }
    ensures places { IfOk result (λ all. all.places ≡ places_of trees.items) }
{
    let mut bodies = Vec::new(alloc);
    let mut stmts = Vec::new(alloc);
    let mut places = Vec::new(alloc);
    for tree in trees {
        bodies.push(place_body(alloc, &mut stmts, &mut places, tree)?)?;
    }
    Ok(Numbered {
        bodies: Seq::from_vec(bodies),
        stmts: Seq::from_vec(stmts),
        places: Seq::from_vec(places),
    })
}

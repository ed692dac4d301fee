//! The names of a function's labels in order (`labels_of` of `specs/Statements.antt` of
//! `c_types_rules`). Proved in proofs/Names, by one lemma for each form.
ghost use Rattle.std.specs.Prelude.{◌≡◌, ◌+◌, ◌++◌, ◌∷◌, [], length, map, option_map, unwrap_or};
ghost use Rattle.std.specs.Prelude.{IfOk, OnOk};
ghost use Rattle.std.specs.List.{flat_map};
ghost use Rattle.c_types_rules.specs.Statements.{labels_of, unnamed};
ghost use Rattle.c_types_bodies.specs.Grown.{labels_in, name_bytes};

use c_grammar_tree::{BlockItem, Statement};
use c_types_names::Firsts;
use cpa_ints::Boxed;
use std::alloc::{AllocError, Global};

/// Adds a label without a name.
fn push_unnamed(alloc: Global, labels: &mut Firsts) -> Result<(), AllocError>
    ensures { OnOk result (labels.new ≡ labels.old ++ map name_bytes (unnamed ∷ [])) }
{
    labels.push(alloc, &[])?;
    Ok(())
}

/// Adds the names of the labels in a statement, of those without a name empty.
#[cycle(labels)]
#[tactic(auto, using(crate::proofs::Names::push_labels_rules))]
fn push_labels(alloc: Global, labels: &mut Firsts, statement: &Statement) -> Result<(), AllocError>
    ensures { OnOk result (labels.new
        ≡ labels.old ++ map name_bytes (labels_in statement.now)) }
{
    match statement {
        Statement::Block { items, .. } => push_all(alloc, labels, items.as_slice()),
        Statement::If { yes, no, .. } => {
            push_labels(alloc, labels, yes.get())?;
            push_optional(alloc, labels, no)?;
            Ok(())
        }
        Statement::While { body, .. } => push_labels(alloc, labels, body.get()),
        Statement::Do { body, .. } => push_labels(alloc, labels, body.get()),
        Statement::For { body, .. } => push_labels(alloc, labels, body.get()),
        Statement::Labeled { label, body } => {
            labels.push(alloc, label.bytes.as_slice())?;
            push_labels(alloc, labels, body.get())?;
            Ok(())
        }
        Statement::Switch { body, .. } => push_switched(alloc, labels, body.get()),
        Statement::Case { body, .. } => push_selected(alloc, labels, body.get()),
        Statement::Default { body, .. } => push_selected(alloc, labels, body.get()),
        Statement::Expression { .. }
        | Statement::Goto { .. }
        | Statement::Break { .. }
        | Statement::Continue { .. }
        | Statement::Return { .. } => Ok(()),
    }
}

/// Adds the names of the labels in the body of a switch, and one without a name behind it.
#[cycle(labels)]
fn push_switched(alloc: Global, labels: &mut Firsts, body: &Statement) -> Result<(), AllocError>
    ensures { OnOk result (labels.new
        ≡ labels.old ++ map name_bytes (labels_in body.now ++ unnamed ∷ [])) }
{
    push_labels(alloc, labels, body)?;
    push_unnamed(alloc, labels)?;
    Ok(())
}

/// Adds a label without a name, and the names of those in the statement behind it.
#[cycle(labels)]
fn push_selected(alloc: Global, labels: &mut Firsts, body: &Statement) -> Result<(), AllocError>
    ensures { OnOk result (labels.new
        ≡ labels.old ++ map name_bytes (unnamed ∷ labels_in body.now)) }
{
    push_unnamed(alloc, labels)?;
    push_labels(alloc, labels, body)?;
    Ok(())
}

/// Adds the names of the labels in an `else`, if there is one.
#[cycle(labels)]
fn push_optional(
    alloc: Global,
    labels: &mut Firsts,
    statement: &Option<Boxed<Statement>>,
) -> Result<(), AllocError>
    ensures { OnOk result (labels.new ≡ labels.old
        ++ map name_bytes (unwrap_or (option_map labels_in statement.now) [])) }
{
    match statement {
        None => Ok(()),
        Some(statement) => push_labels(alloc, labels, statement.get()),
    }
}

/// Adds the names of the labels in the items of a block.
#[cycle(labels)]
fn push_all(alloc: Global, labels: &mut Firsts, items: &[BlockItem]) -> Result<(), AllocError>
    ensures { OnOk result (labels.new ≡ labels.old
        ++ map name_bytes (flat_map labels_of items.now)) }
{
    for item in items {
        push_item(alloc, labels, item)?;
    }
    Ok(())
}

/// Adds the names of the labels in an item of a block.
#[cycle(labels)]
fn push_item(alloc: Global, labels: &mut Firsts, item: &BlockItem) -> Result<(), AllocError>
    ensures { OnOk result (labels.new ≡ labels.old ++ map name_bytes (labels_of item.now)) }
{
    match item {
        BlockItem::Declaration(_) => Ok(()),
        BlockItem::Statement(statement) => push_labels(alloc, labels, statement),
    }
}

/// The sum of two counts. More labels than a u32 counts are want of memory.
fn sum(first: u32, second: u32) -> Result<u32, AllocError>
    ensures { IfOk result (λ n. n ≡ first + second) }
{
    first.checked_add(second).ok_or(AllocError)
}

/// How many labels there are in a statement, and one more.
#[cycle(counting)]
fn count_more(statement: &Statement) -> Result<u32, AllocError>
    ensures { IfOk result (λ n. n ≡ length (labels_in statement.now) + 1) }
{
    let inside = count_labels(statement)?;
    let more = sum(inside, 1)?;
    Ok(more)
}

/// How many labels there are in a statement.
#[cycle(counting)]
#[tactic(auto, using(crate::proofs::Names::count_labels_rules))]
pub(crate) fn count_labels(statement: &Statement) -> Result<u32, AllocError>
    ensures { IfOk result (λ n. n ≡ length (labels_in statement.now)) }
{
    match statement {
        Statement::Block { items, .. } => count_all(items.as_slice()),
        Statement::If { yes, no, .. } => {
            let first = count_labels(yes.get())?;
            let second = count_optional(no)?;
            let both = sum(first, second)?;
            Ok(both)
        }
        Statement::While { body, .. } => count_labels(body.get()),
        Statement::Do { body, .. } => count_labels(body.get()),
        Statement::For { body, .. } => count_labels(body.get()),
        Statement::Labeled { body, .. } => count_more(body.get()),
        Statement::Switch { body, .. } => count_more(body.get()),
        Statement::Case { body, .. } => count_more(body.get()),
        Statement::Default { body, .. } => count_more(body.get()),
        Statement::Expression { .. }
        | Statement::Goto { .. }
        | Statement::Break { .. }
        | Statement::Continue { .. }
        | Statement::Return { .. } => Ok(0),
    }
}

/// How many labels there are in an `else`, if there is one.
#[cycle(counting)]
fn count_optional(statement: &Option<Boxed<Statement>>) -> Result<u32, AllocError>
    ensures { IfOk result (λ n. n
        ≡ length (unwrap_or (option_map labels_in statement.now) [])) }
{
    match statement {
        None => Ok(0),
        Some(statement) => count_labels(statement.get()),
    }
}

/// How many labels there are in the items of a block.
#[cycle(counting)]
fn count_all(items: &[BlockItem]) -> Result<u32, AllocError>
    ensures { IfOk result (λ n. n ≡ length (flat_map labels_of items.now)) }
{
    let mut count = 0;
    for item in items {
        let one = count_item(item)?;
        let next = sum(count, one)?;
        count = next;
    }
    Ok(count)
}

/// How many labels there are in an item of a block.
#[cycle(counting)]
fn count_item(item: &BlockItem) -> Result<u32, AllocError>
    ensures { IfOk result (λ n. n ≡ length (labels_of item.now)) }
{
    match item {
        BlockItem::Declaration(_) => Ok(0),
        BlockItem::Statement(statement) => count_labels(statement),
    }
}

/// The names of the labels in a body, in order.
pub(crate) fn labels_in_items(alloc: Global, items: &[BlockItem]) -> Result<Firsts, AllocError>
    ensures { IfOk result (λ labels. labels
        ≡ map name_bytes (flat_map labels_of items.now)) }
{
    let mut labels = Firsts::new(alloc);
    push_all(alloc, &mut labels, items)?;
    Ok(labels)
}

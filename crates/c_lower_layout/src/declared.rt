//! How many cells the objects take that a text declares (`specs/ObjectCells.antt`), so that a text
//! with too many is refused before any is taken. Proved with `proofs/DeclaredCells.antt`.
ghost use Rattle.std.specs.Prelude.{◌≡◌, ◌+◌, IfOk};
ghost use Rattle.c_lower_layout.specs.ObjectCells.{objects_cells, declarators_cells, start_cells};
ghost use Rattle.c_lower_layout.specs.ObjectCells.{statement_cells, item_cells, items_cells};
ghost use Rattle.c_lower_layout.specs.ObjectCells.{function_cells, functions_cells, globals_cells};
ghost use Rattle.c_lower_layout.specs.ObjectCells.{declared_cells};

use c_types_rules::{
    Global, Object, TypedDeclarator, TypedForStart, TypedFunction, TypedItem, TypedStatement,
    cells_of,
};
use std::alloc::AllocError;

/// The sum. One that no u128 counts is want of memory.
fn plus(first: u128, second: u128) -> Result<u128, AllocError>
    ensures { IfOk result (λ n. n ≡ first + second) }
{
    first.checked_add(second).ok_or(AllocError)
}

/// Those of parameters.
fn objects_cells(objects: &[Object]) -> Result<u128, AllocError>
    ensures { IfOk result (λ n. n ≡ objects_cells objects.now) }
{
    let mut cells = 0u128;
    for object in objects {
        cells = plus(cells, cells_of(*object))?;
    }
    Ok(cells)
}

/// Those of a declaration.
fn declarators_cells(declarators: &[TypedDeclarator]) -> Result<u128, AllocError>
    ensures { IfOk result (λ n. n ≡ declarators_cells declarators.now) }
{
    let mut cells = 0u128;
    for declarator in declarators {
        cells = plus(cells, cells_of(declarator.object))?;
    }
    Ok(cells)
}

/// Those of the first part of a `for`.
fn start_cells(start: &TypedForStart) -> Result<u128, AllocError>
    ensures { IfOk result (λ n. n ≡ start_cells start.now) }
{
    match start {
        TypedForStart::Declaration(declarators) => declarators_cells(declarators.as_slice()),
        TypedForStart::Expression(_) => Ok(0),
    }
}

/// Those of a statement.
#[cycle(declaring)]
#[tactic(auto, using(crate::proofs::DeclaredCells::statement_cells_rules))]
fn statement_cells(s: &TypedStatement) -> Result<u128, AllocError>
    ensures { IfOk result (λ n. n ≡ statement_cells s.now) }
{
    match s {
        TypedStatement::Block { items, .. } => items_cells(items.as_slice()),
        TypedStatement::Expression { .. } => Ok(0),
        TypedStatement::If { yes, no, .. } => {
            let first = statement_cells(yes.get())?;
            match no {
                None => Ok(first),
                Some(no) => plus(first, statement_cells(no.get())?),
            }
        }
        TypedStatement::While { body, .. } => statement_cells(body.get()),
        TypedStatement::Do { body, .. } => statement_cells(body.get()),
        TypedStatement::For { start, body, .. } => {
            let first = start_cells(start)?;
            plus(first, statement_cells(body.get())?)
        }
        TypedStatement::Goto { .. } => Ok(0),
        TypedStatement::Break { .. } => Ok(0),
        TypedStatement::Continue { .. } => Ok(0),
        TypedStatement::Return { .. } => Ok(0),
        TypedStatement::Labeled { body, .. } => statement_cells(body.get()),
        TypedStatement::Switch { body, .. } => statement_cells(body.get()),
    }
}

/// Those of an item of a block.
#[cycle(declaring)]
#[tactic(auto, using(crate::proofs::DeclaredCells::item_cells_rules))]
fn item_cells(item: &TypedItem) -> Result<u128, AllocError>
    ensures { IfOk result (λ n. n ≡ item_cells item.now) }
{
    match item {
        TypedItem::Declaration(declarators) => declarators_cells(declarators.as_slice()),
        TypedItem::Statement(s) => statement_cells(s),
    }
}

/// Those of the items of a block.
#[cycle(declaring)]
fn items_cells(items: &[TypedItem]) -> Result<u128, AllocError>
    ensures { IfOk result (λ n. n ≡ items_cells items.now) }
{
    let mut cells = 0u128;
    for item in items {
        cells = plus(cells, item_cells(item)?)?;
    }
    Ok(cells)
}

/// Those of a function.
fn function_cells(function: &TypedFunction) -> Result<u128, AllocError>
    ensures { IfOk result (λ n. n ≡ function_cells function.now) }
{
    let parameters = objects_cells(function.parameters.as_slice())?;
    plus(parameters, items_cells(function.items.as_slice())?)
}

/// Those of functions.
fn functions_cells(functions: &[TypedFunction]) -> Result<u128, AllocError>
    ensures { IfOk result (λ n. n ≡ functions_cells functions.now) }
{
    let mut cells = 0u128;
    for function in functions {
        cells = plus(cells, function_cells(function)?)?;
    }
    Ok(cells)
}

/// Those of objects of file scope.
fn globals_cells(globals: &[Global]) -> Result<u128, AllocError>
    ensures { IfOk result (λ n. n ≡ globals_cells globals.now) }
{
    let mut cells = 0u128;
    for global in globals {
        cells = plus(cells, cells_of(global.object))?;
    }
    Ok(cells)
}

/// Those of a text.
pub(crate) fn declared_cells(
    globals: &[Global],
    functions: &[TypedFunction],
) -> Result<u128, AllocError>
    ensures { IfOk result (λ n. n ≡ declared_cells globals.now functions.now) }
{
    let first = globals_cells(globals)?;
    plus(first, functions_cells(functions)?)
}

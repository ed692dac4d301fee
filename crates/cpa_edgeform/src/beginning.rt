//! The beginning of a form, by specs/Forms of `cpa_form_rules`.
//! Proved with `proofs/beginning/`.

ghost use Rattle.std.specs.Prelude.{◌≡◌, ◌≤◌, ◌^◌, ◌-◌, [], length, if◌then◌else◌, IfOk};
ghost use Rattle.cpa_expr.specs.Cells.{scalar_read};
ghost use Rattle.cpa_expr.specs.declared.tree.CmpOp.TheVariants as cmp;
ghost use Rattle.cpa_expr.specs.declared.tree.Expr.TheVariants.{Const, Cmp};
ghost use Rattle.cpa_model.specs.Expressions.{types_of};
ghost use Rattle.cpa_form_rules.specs.Forms.{starts, places_from, begun};
ghost use Rattle.cpa_edgeform.specs.Parts.{form_in};

use crate::nodes::has_value;
use crate::parts::Parts;
use cpa_expr::{Expr, constant};
use cpa_form_renaming::Place;
use cpa_ints::IntType;
use cpa_model::Cell;
use std::alloc::{AllocError, Global};

/// Whether a cell of the query has the start of a cell of the program.
fn start(alloc: Global, number: u32, cell: &Cell) -> Result<Expr, AllocError>
    ensures { IfOk result (λ e. e ≡ Cmp cmp.Eq cell.now.ty (scalar_read cell.now.ty number)
        (Const cell.now.ty cell.now.start)) }
{
    let value = constant(alloc, cell.ty, cell.start)?;
    Ok(has_value(alloc, cell.ty, number, value)?.into_inner())
}

/// Each cell has its start.
fn starts(alloc: Global, cells: &[Cell]) -> Result<Vec<(Expr, bool)>, AllocError>
    requires { length cells.now ≤ 2 ^ 32 - 1 }
    ensures { IfOk result (λ wanted. wanted.items ≡ starts 0 cells.now) }
{
    let mut wanted = Vec::new(alloc);
    for i in 0..cells.len() {
        let test = start(alloc, i as u32, &cells[i])?;
        wanted.push((test, true))?;
    }
    Ok(wanted)
}

/// What is wanted at the beginning.
fn wanted_first(
    alloc: Global,
    cells: &[Cell],
    initial: bool,
) -> Result<Vec<(Expr, bool)>, AllocError>
    requires { length cells.now ≤ 2 ^ 32 - 1 }
    ensures { IfOk result (λ wanted. wanted.items
        ≡ (if initial then starts 0 cells.now else [])) }
{
    if initial {
        starts(alloc, cells)
    } else {
        Ok(Vec::new(alloc))
    }
}

/// The types of the cells.
fn types(alloc: Global, cells: &[Cell]) -> Result<Vec<IntType>, AllocError>
    ensures { IfOk result (λ types. types.items ≡ types_of cells.now) }
{
    cells.iter().map(|cell| cell.ty).collect(alloc)
}

/// A place for each cell, one behind the other.
fn places(alloc: Global, cells: &[Cell]) -> Result<Vec<Place>, AllocError>
    requires { length cells.now ≤ 2 ^ 32 - 1 }
    ensures { IfOk result (λ places. places.items ≡ places_from 0 cells.now) }
{
    let mut places = Vec::new(alloc);
    for i in 0..cells.len() {
        places.push(Place {
            number: i as u32,
            ty: cells[i].ty,
        })?;
    }
    Ok(places)
}

/// A cell of the query for each of the program. There are 2^32 numbers of cells.
pub(crate) fn begin(alloc: Global, cells: &[Cell], initial: bool) -> Result<Parts, AllocError>
    ensures { IfOk result (λ parts. form_in parts ≡ begun cells.now initial) }
{
    if cells.len() > u32::MAX as usize {
        return Err(AllocError);
    }
    Ok(Parts {
        alloc,
        cells: types(alloc, cells)?,
        wanted: wanted_first(alloc, cells, initial)?,
        places: places(alloc, cells)?,
        inputs: Vec::new(alloc),
        weight: 0,
    })
}

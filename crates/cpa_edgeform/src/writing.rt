//! Writes of cells and of arrays, by specs/Drafts of `cpa_form_rules`.
//! Proved with `proofs/writing/`.

ghost use Rattle.std.specs.Prelude.{◌≡◌, ◌+◌, ◌≤◌, ◌^◌, ◌-◌, ◌==◌, true, pos, slice_set};
ghost use Rattle.std.specs.Prelude.{IfOk, OnOk, if◌then◌else◌};
ghost use Rattle.cpa_ints.specs.declared.integers.IntType.TheVariants as ty;
ghost use Rattle.cpa_expr.specs.Shape.{type_of};
ghost use Rattle.cpa_expr.specs.Cells.{scalar_read};
ghost use Rattle.cpa_expr.specs.declared.tree.Expr.TheVariants.{Const, Read, Cast, Cmp};
ghost use Rattle.cpa_expr.specs.declared.tree.CmpOp.TheVariants as cmp;
ghost use Rattle.cpa_form_rules.specs.Drafts.{next, fresh, want, named, written, kept_unless};
ghost use Rattle.cpa_form_rules.specs.Drafts.{placed, place_at, block, moved, cell_written};
ghost use Rattle.cpa_form_rules.specs.Drafts.{array_written, assigned};

use crate::drafting::{fresh, named, next, want};
use crate::nodes::{has_value, renamed, scalar};
use cpa_expr::{CmpOp, Expr, cast, comparison, constant, copied, either, type_of};
use cpa_form_renaming::{Place, number_at};
use cpa_form_rules::Draft;
use cpa_ints::{Boxed, IntType};
use std::alloc::{AllocError, Global};

/// The cell at the index of an array.
fn read_at(
    alloc: Global,
    ty: IntType,
    base: u32,
    len: u32,
    index: Boxed<Expr>,
) -> Result<Boxed<Expr>, AllocError>
    ensures { IfOk result (λ e. e ≡ Read ty base len index) }
{
    let node = Expr::Read {
        ty,
        base,
        len,
        index,
    };
    Boxed::new(alloc, node)
}

/// Whether the array has the value at the index.
fn written(
    alloc: Global,
    first: u32,
    len: u32,
    index: Boxed<Expr>,
    value: Boxed<Expr>,
) -> Result<Boxed<Expr>, AllocError>
    ensures { IfOk result (λ e. e ≡ written first len index value) }
{
    let ty = type_of(value.get());
    let read = read_at(alloc, ty, first, len, index)?;
    comparison(alloc, CmpOp::Eq, ty, read, value)
}

/// Whether the index is this number.
fn is_index(alloc: Global, index: &Expr, number: u32) -> Result<Boxed<Expr>, AllocError>
    ensures { IfOk result (λ e. e
        ≡ Cmp cmp.Eq ty.I64 (Cast ty.I64 index.now) (Const ty.I64 (pos number))) }
{
    let index = cast(alloc, IntType::I64, copied(alloc, index)?)?;
    let number = constant(alloc, IntType::I64, number as i128)?;
    comparison(alloc, CmpOp::Eq, IntType::I64, index, number)
}

/// Whether a cell has the value of another one.
fn same_value(alloc: Global, ty: IntType, new: u32, old: u32) -> Result<Boxed<Expr>, AllocError>
    ensures { IfOk result (λ e. e ≡ Cmp cmp.Eq ty (scalar_read ty new) (scalar_read ty old)) }
{
    has_value(alloc, ty, new, scalar(alloc, ty, old)?)
}

/// Whether a cell has the value of an older one, or the index names it.
fn kept_unless(
    alloc: Global,
    ty: IntType,
    new: u32,
    old: u32,
    index: &Expr,
    number: u32,
) -> Result<Boxed<Expr>, AllocError>
    ensures { IfOk result (λ e. e ≡ kept_unless ty new old index.now number) }
{
    let same = same_value(alloc, ty, new, old)?;
    let named = is_index(alloc, index, number)?;
    either(alloc, same, named)
}

/// A new cell for one of an array, which keeps the old value where the index does not name it.
fn kept_cell(
    alloc: Global,
    draft: &mut Draft,
    ty: IntType,
    old: u32,
    index: &Expr,
    number: u32,
) -> Result<(), AllocError>
    ensures { OnOk result (draft.new ≡ want
        (kept_unless ty (next draft.old) old index.now number) true (fresh ty draft.old)) }
{
    let new = fresh(draft, ty)?;
    want(
        draft,
        kept_unless(alloc, ty, new, old, index, number)?,
        true,
    )
}

/// What is written, and where: the first cell, how many there are, and their type.
#[derive(Clone, Copy)]
pub(crate) struct Target {
    pub(crate) base: u32,
    pub(crate) len: u32,
    pub(crate) ty: IntType,
}

/// A new cell for each of an array.
fn block(
    alloc: Global,
    draft: &mut Draft,
    places: &[Place],
    cells: Target,
    index: &Expr,
) -> Result<(), AllocError>
    ensures { OnOk result (draft.new
        ≡ block places.now cells.base cells.ty index.now cells.len draft.old) }
{
    for i in 0..cells.len {
        let old = number_at(places, cells.base as usize + i as usize);
        kept_cell(alloc, draft, cells.ty, old, index, i)?;
    }
    Ok(())
}

/// The write of a cell that stands for itself, by its new place.
fn cell_written(
    alloc: Global,
    draft: &mut Draft,
    index: Boxed<Expr>,
    value: Boxed<Expr>,
) -> Result<Place, AllocError>
    ensures place { IfOk result (λ p. p ≡ place_at (next draft.old) (type_of value)) }
    ensures written { OnOk result (draft.new
        ≡ want (written (next draft.old) 1 index value) true (fresh (type_of value) draft.old)) }
{
    let ty = type_of(value.get());
    let number = fresh(draft, ty)?;
    want(draft, written(alloc, number, 1, index, value)?, true)?;
    Ok(Place { number, ty })
}

/// So many numbers from the first one on, if there are.
fn has_numbers(first: u32, len: u32) -> Result<(), AllocError>
    ensures { OnOk result (first + len ≤ 2 ^ 32 - 1) }
{
    match first.checked_add(len) {
        Some(_) => Ok(()),
        None => Err(AllocError),
    }
}

/// A new cell with the index's value, by a read of it.
fn index_cell(
    alloc: Global,
    draft: &mut Draft,
    index: Boxed<Expr>,
) -> Result<Boxed<Expr>, AllocError>
    ensures read { IfOk result (λ e. e ≡ scalar_read (type_of index) (next draft.old)) }
    ensures named { OnOk result (draft.new ≡ named index draft.old) }
{
    let ty = type_of(index.get());
    let cell = named(alloc, draft, index)?;
    scalar(alloc, ty, cell)
}

/// The write of an array, by the new place of its first cell.
fn array_written(
    alloc: Global,
    draft: &mut Draft,
    places: &[Place],
    cells: Target,
    index: Boxed<Expr>,
    value: Boxed<Expr>,
) -> Result<Place, AllocError>
    requires { cells.ty ≡ type_of value }
    ensures { IfOk result (λ p.
        placed draft.new (moved cells.base p.number p.ty cells.len places.now)
        ≡ array_written cells.base cells.len index value (placed draft.old places.now)) }
{
    let read = index_cell(alloc, draft, index)?;
    let number = next(draft)?;
    block(alloc, draft, places, cells, read.get())?;
    let whole = written(alloc, number, cells.len, read, value)?;
    want(draft, whole, true)?;
    Ok(Place {
        number,
        ty: cells.ty,
    })
}

/// The write at places where index and value can be read, by the new place of the first cell.
fn assigned_at(
    alloc: Global,
    draft: &mut Draft,
    places: &[Place],
    cells: Target,
    index: Boxed<Expr>,
    value: Boxed<Expr>,
) -> Result<Place, AllocError>
    requires { cells.ty ≡ type_of value }
    ensures { IfOk result (λ p.
        placed draft.new (moved cells.base p.number p.ty cells.len places.now)
        ≡ (if cells.len == 1
        then cell_written cells.base index value (placed draft.old places.now)
        else array_written cells.base cells.len index value (placed draft.old places.now))) }
{
    if cells.len == 1 {
        cell_written(alloc, draft, index, value)
    } else {
        array_written(alloc, draft, places, cells, index, value)
    }
}

/// The write of an array or a cell, by the new place of its first cell; the others come behind it.
pub(crate) fn assigned(
    alloc: Global,
    draft: &mut Draft,
    places: &[Place],
    base: u32,
    len: u32,
    index: &Expr,
    value: &Expr,
) -> Result<Place, AllocError>
    ensures assigned { IfOk result (λ p.
        placed draft.new (moved base p.number p.ty len places.now)
        ≡ assigned base len index.now value.now (placed draft.old places.now)) }
    ensures room { IfOk result (λ p. p.number + len ≤ 2 ^ 32 - 1) }
{
    let index = renamed(alloc, index, places)?;
    let value = renamed(alloc, value, places)?;
    let ty = type_of(value.get());
    let place = assigned_at(alloc, draft, places, Target { base, len, ty }, index, value)?;
    has_numbers(place.number, len)?;
    Ok(place)
}

/// A new place for a cell, where it is there.
pub(crate) fn put(places: &mut [Place], cell: usize, place: Place)
    ensures { places.new ≡ slice_set places.old cell place }
{
    if cell < places.len() {
        places[cell] = place;
    }
}

/// New places for cells that follow each other, from the first one's on.
pub(crate) fn move_cells(places: &mut [Place], base: u32, len: u32, to: Place)
    requires { to.number + len ≤ 2 ^ 32 - 1 }
    ensures { places.new ≡ moved base to.number to.ty len places.old }
{
    for i in 0..len {
        let place = Place {
            number: to.number + i,
            ty: to.ty,
        };
        put(places, base as usize + i as usize, place);
    }
}

//! Which expressions are well typed, `IsExpr` of `specs/Shape.antt`: each node by itself, and its
//! parts; `proofs/typing` joins the two.

ghost use Rattle.std.specs.Prelude.{◌≡◌, ◌<◌, ◌≤◌, ◌+◌, ◌↔◌, IsTrue, map, slice_get};
ghost use Rattle.cpa_ints.specs.declared.integers.IntType.{IntType as Ty};
ghost use Rattle.cpa_expr.specs.declared.tree.Expr.{out-Expr};
ghost use Rattle.cpa_expr.specs.Shape.{is_arithmetic, is_shift, height, AreCells, IsTypedHere};
ghost use Rattle.cpa_expr.specs.Shape.{OfParts, IsTyped, IsExpr};

use crate::parts::{Parts, parts_of};
use crate::shape::{MAX_HEIGHT, type_of};
use crate::tree::{BinOp, Expr};
use cpa_ints::IntType;

/// What has an integer type, as a cell has that keeps other things beside it.
pub trait Typed {
    ghost ty: { Self → Ty };

    /// The integer type that it has.
    fn ty(&self) -> IntType
        ensures { result ≡ ty self.now };
}

impl Typed for IntType {
    ghost ty = { λ t. t };

    fn ty(&self) -> IntType {
        *self
    }
}

/// Whether the expression is well typed over cells of these types, and of a height of at most
/// `MAX_HEIGHT`.
pub fn is_expr(e: &Expr, cells: &[IntType]) -> bool
    ensures { IsTrue result ↔ IsExpr cells.now e.now }
{
    is_expr_over(e, cells)
}

/// `is_expr` over cells that keep their types.
pub fn is_expr_over<C: Typed>(e: &Expr, cells: &[C]) -> bool
    ensures { IsTrue result ↔ IsExpr (map C.ty cells.now) e.now }
{
    is_at_most(e, MAX_HEIGHT) && is_typed(e, cells)
}

/// Whether the expression is at most this high. It looks no deeper, so that an expression of any
/// height is judged on a stack of this height.
fn is_at_most(e: &Expr, limit: u32) -> bool
    ensures { IsTrue result ↔ (height e.now ≤ limit) }
{
    if limit == 0 {
        return false;
    }
    let below = limit - 1;
    match parts_of(e) {
        Parts::None => true,
        Parts::One(part) => is_at_most(part, below),
        Parts::Two(left, right) => both(is_at_most(left, below), is_at_most(right, below)),
        Parts::Three(test, yes, no) => both(
            is_at_most(test, below),
            both(is_at_most(yes, below), is_at_most(no, below)),
        ),
    }
}

/// Whether every node is well typed.
#[cycle(typing)]
fn is_typed<C: Typed>(e: &Expr, cells: &[C]) -> bool
    ensures { IsTrue result ↔ IsTyped (map C.ty cells.now) e.now }
{
    is_typed_here(e, cells) && are_parts_typed(e, cells)
}

/// Whether the parts of the expression are well typed.
#[cycle(typing)]
fn are_parts_typed<C: Typed>(e: &Expr, cells: &[C]) -> bool
    ensures { IsTrue result ↔ OfParts (IsTyped (map C.ty cells.now)) (out-Expr e.now) }
{
    match parts_of(e) {
        Parts::None => true,
        Parts::One(part) => is_typed(part, cells),
        Parts::Two(left, right) => both(is_typed(left, cells), is_typed(right, cells)),
        Parts::Three(test, yes, no) => both(
            is_typed(test, cells),
            both(is_typed(yes, cells), is_typed(no, cells)),
        ),
    }
}

/// Whether both hold.
fn both(first: bool, second: bool) -> bool
    ensures { IsTrue result ↔ (IsTrue first × IsTrue second) }
{
    first && second
}

/// Whether the node is well typed, where its parts are.
fn is_typed_here<C: Typed>(e: &Expr, cells: &[C]) -> bool
    ensures { IsTrue result ↔ IsTypedHere (map C.ty cells.now) (out-Expr e.now) }
{
    match e {
        Expr::Const { ty, value } => ty.contains(*value),
        Expr::Read { ty, base, len, .. } => 1 <= *len && are_cells(cells, *base, *len, *ty),
        Expr::Un { ty, arg, .. } => is_arithmetic(*ty) && type_of(arg.get()) == *ty,
        Expr::Bin {
            op,
            ty,
            left,
            right,
        } => {
            is_arithmetic(*ty)
                && type_of(left.get()) == *ty
                && (is_shift(*op) || type_of(right.get()) == *ty)
        }
        Expr::Cmp {
            ty,
            left,
            right,
            ..
        } => type_of(left.get()) == *ty && type_of(right.get()) == *ty,
        Expr::Cond { ty, yes, no, .. } => type_of(yes.get()) == *ty && type_of(no.get()) == *ty,
        Expr::Cast { .. } | Expr::And { .. } | Expr::Or { .. } | Expr::Not { .. } => true,
    }
}

/// Whether arithmetic is done at the type.
fn is_arithmetic(ty: IntType) -> bool
    ensures { result ≡ is_arithmetic ty }
{
    match ty {
        IntType::I32 | IntType::U32 | IntType::I64 | IntType::U64 => true,
        _ => false,
    }
}

/// Whether the operator is a shift.
fn is_shift(op: BinOp) -> bool
    ensures { result ≡ is_shift op }
{
    match op {
        BinOp::Shl | BinOp::Shr => true,
        _ => false,
    }
}

/// Whether `len` cells from `base` on are there and have the type.
fn are_cells<C: Typed>(cells: &[C], base: u32, len: u32, ty: IntType) -> bool
    ensures { IsTrue result ↔ AreCells (map C.ty cells.now) base len ty }
{
    for i in 0..len {
        if !is_cell(cells, base as usize + i as usize, ty) {
            return false;
        }
    }
    true
}

/// Whether the cell is there and has the type.
fn is_cell<C: Typed>(cells: &[C], cell: usize, ty: IntType) -> bool
    ensures { IsTrue result ↔ (slice_get (map C.ty cells.now) cell ≡ Some ty) }
{
    match cells.get(cell) {
        Some(found) => found.ty() == ty,
        None => false,
    }
}

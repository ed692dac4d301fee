//! What a predicate is before an act, in the same words: after an assignment to a scalar it has the
//! truth that it had before with the value in place of the cell, and after a test the test has its
//! own truth (`specs/Before.antt`). A truth that the element says of that needs no question.

ghost use Rattle.std.specs.Prelude.{◌≡◌, IsTrue, IfOk, IfSome};
ghost use Rattle.cpa_expr.specs.declared.tree.Expr.{out-Expr};
ghost use Rattle.cpa_expr.specs.Cells.{is_within, is_zero, is_scalar_read, reads_here};
ghost use Rattle.cpa_expr.specs.Cells.{ReadsAsScalar};
ghost use Rattle.cpa_expr.specs.Shape.{OfParts};
ghost use Rattle.cpa_model.specs.declared.automaton.Cfa.{Cfa as ACfa};
ghost use Rattle.cpa_model.specs.declared.automaton.Edge.{Edge as AnEdge};
ghost use Rattle.cpa_model.specs.declared.automaton.Act.TheVariants.{Assign};
ghost use Rattle.cpa_model.specs.declared.facts.Elem.{Elem as AnElem};
ghost use Rattle.cpa_model.specs.Acts.{IsActOf};
ghost use Rattle.cpa_model.specs.Automata.{IsAutomaton};
ghost use Rattle.cpa_predicate.specs.Before.{IsBefore};
ghost use Rattle.cpa_predicate.specs.Steps.{HasAfter};

use crate::standing::first_said;
use cpa_expr::{Expr, Parts, parts_of, replace_cell, same_expr, to_replace_is_to_set};
use cpa_ints::IntType;
use cpa_model::{Act, Elem};
use std::alloc::{AllocError, Global};

/// Whether the expression is the number 0 of type `int`.
fn is_zero(e: &Expr) -> bool
    ensures { result ≡ is_zero (out-Expr e.now) }
{
    match e {
        Expr::Const { ty, value } => *ty == IntType::I32 && *value == 0,
        _ => false,
    }
}

/// Whether the node reads the cell as a scalar.
fn is_scalar_read(e: &Expr, cell: u32) -> bool
    ensures { result ≡ is_scalar_read cell (out-Expr e.now) }
{
    match e {
        Expr::Read {
            base,
            len,
            index,
            ..
        } => *base == cell && *len == 1 && is_zero(index.get()),
        _ => false,
    }
}

/// Whether the cell is one of `len` cells from `base` on.
fn is_within(base: u32, len: u32, cell: u32) -> bool
    ensures { result ≡ is_within base len cell }
{
    base <= cell && cell - base < len
}

/// Whether the node itself may read the cell.
fn reads_here(e: &Expr, cell: u32) -> bool
    ensures { result ≡ reads_here cell (out-Expr e.now) }
{
    match e {
        Expr::Read { base, len, .. } => is_within(*base, *len, cell),
        _ => false,
    }
}

/// Whether the node, where it may read the cell, reads it as a scalar.
fn node_reads_scalar(e: &Expr, cell: u32) -> bool
    ensures { IsTrue result → IsTrue (reads_here cell (out-Expr e.now))
        → IsTrue (is_scalar_read cell (out-Expr e.now)) }
{
    is_scalar_read(e, cell) || !reads_here(e, cell)
}

/// Whether each part reads the cell as a scalar alone.
#[cycle(scalars)]
fn parts_read_scalar(e: &Expr, cell: u32) -> bool
    ensures { IsTrue result → OfParts (ReadsAsScalar cell) (out-Expr e.now) }
{
    match parts_of(e) {
        Parts::None => true,
        Parts::One(part) => reads_scalar(part, cell),
        Parts::Two(left, right) => reads_scalar(left, cell) && reads_scalar(right, cell),
        Parts::Three(test, yes, no) => {
            reads_scalar(test, cell) && reads_scalar(yes, cell) && reads_scalar(no, cell)
        }
    }
}

/// Whether every read of the cell is a scalar one.
#[cycle(scalars)]
fn reads_scalar(e: &Expr, cell: u32) -> bool
    ensures { IsTrue result → ReadsAsScalar cell e.now }
{
    node_reads_scalar(e, cell) && parts_read_scalar(e, cell)
}

/// The predicate with the value that the act writes in place of the cell, where the act assigns to
/// a scalar.
fn before_act(alloc: Global, act: &Act, p: &Expr) -> Result<Option<Expr>, AllocError>
    ensures { IfOk result (λ before. IfSome before (IsBefore act.now p.now)) }
{
    match act {
        Act::Assign {
            base,
            len,
            index,
            value,
        } => before_write(alloc, *base, *len, index, value, p),
        _ => Ok(None),
    }
}

/// The same of an assignment.
fn before_write(
    alloc: Global,
    base: u32,
    len: u32,
    _index: &Expr,
    value: &Expr,
    p: &Expr,
) -> Result<Option<Expr>, AllocError>
    ensures { IfOk result (λ before. IfSome before
        (IsBefore (Assign base len _index.now value.now) p.now)) }
{
    to_replace_is_to_set();
    if len != 1 {
        return Ok(None);
    }
    let scalar = reads_scalar(p, base);
    if !scalar {
        return Ok(None);
    }
    let before = replace_cell(alloc, p, base, value)?;
    Ok(Some(before))
}

/// The truth that the test has after it, where the act is a test of this expression.
fn tested(act: &Act, p: &Expr) -> Option<bool>
    ensures { IfSome result (λ holds. (cfa : ACfa) (e : AnElem) (g : AnEdge) → g.act ≡ act.now
        → HasAfter cfa e g p.now holds) }
{
    match act {
        Act::Assume { test, holds } => {
            let same = same_expr(test, p);
            if same { Some(*holds) } else { None }
        }
        _ => None,
    }
}

/// The truth that the predicate has after the act, where the element says it of what the predicate
/// is before it, or the act tests it.
pub(crate) fn truth_before(
    alloc: Global,
    elem: &Elem,
    act: &Act,
    p: &Expr,
) -> Result<Option<bool>, AllocError>
    ensures { IfOk result (λ truth. (cfa : ACfa) (g : AnEdge) → IsAutomaton cfa
        → IsActOf cfa g.act → g.act ≡ act.now → IfSome truth (HasAfter cfa elem.now g p.now)) }
{
    if let Some(holds) = tested(act, p) {
        return Ok(Some(holds));
    }
    let earlier = before_act(alloc, act, p)?;
    match earlier {
        Some(before) => Ok(first_said(elem, &before)),
        None => Ok(None),
    }
}

//! The rules on values and their statements (`c_core_rules`, `specs/Acts.antt`). Proved by the
//! checker alone.
ghost use Rattle.std.specs.Prelude.{◌≡◌, ◌++◌, IfOk, OnOk};
ghost use Rattle.c_core_rules.specs.Acts.{is_pure, held, held_before, operated, both_hold};
ghost use Rattle.c_core_rules.specs.Acts.{one_holds, linked, signed, cast_to, chosen_by, chosen};
ghost use Rattle.c_core_rules.specs.Acts.{dropped_value, fixed};
ghost use Rattle.c_core_rules.specs.Trees.{valued};
ghost use Rattle.c_core_rules.specs.Values.{promote};
ghost use Rattle.c_lower_values.specs.Found.{so_far};

use crate::cells::Cells;
use c_core_rules::Valued;
use c_grammar_symbols::BinaryOperator;
use c_grammar_tree::UnaryOperator;
use c_lower_choices::{
    both_into, both_purely, chosen_into, chosen_purely, held_in, joined, one_into, one_purely,
};
use c_lower_operators::{conv, is_constant, operator_value, promote, signed_value};
use cpa_expr::{Expr, type_of};
use cpa_ints::{Boxed, IntType, Seq, common};
use cpa_model_trees::CoreTree;
use std::alloc::{AllocError, Global};

/// Whether no statement stands before a value.
pub(crate) fn is_pure(v: &Valued) -> bool
    ensures { result ≡ is_pure v.now }
{
    v.statements.is_empty()
}

/// Its statements alone.
pub(crate) fn statements_of(v: Valued) -> Seq<CoreTree>
    ensures { result ≡ v.statements }
{
    v.statements
}

/// Its value alone.
fn value_of(v: Valued) -> Boxed<Expr>
    ensures { result ≡ v.value }
{
    v.value
}

/// A value with more statements behind its own.
pub(crate) fn followed(v: Valued, behind: Seq<CoreTree>) -> Result<Valued, AllocError>
    ensures { IfOk result (λ w. w ≡ valued (v.statements ++ behind) v.value) }
{
    let Valued { statements, value } = v;
    let statements = joined(statements, behind)?;
    Ok(Valued { statements, value })
}

/// A value that is held in a fresh cell.
pub(crate) fn held(cells: &mut Cells, origin: u32, v: Valued) -> Result<Valued, AllocError>
    ensures taken { OnOk result (so_far cells.new
        ≡ (held origin v (so_far cells.old)).taken) }
    ensures made { IfOk result (λ w. w ≡ (held origin v (so_far cells.old)).made) }
{
    let ty = type_of(v.value.get());
    let place = cells.fresh(ty)?;
    held_in(cells.alloc(), origin, place, v)
}

/// A value that is held with its type promoted.
pub fn held_promoted(cells: &mut Cells, origin: u32, v: Valued) -> Result<Valued, AllocError>
    ensures taken { OnOk result (so_far cells.new
        ≡ (held origin (valued v.statements (promote v.value)) (so_far cells.old)).taken) }
    ensures made { IfOk result (λ w. w
        ≡ (held origin (valued v.statements (promote v.value)) (so_far cells.old)).made) }
{
    let Valued { statements, value } = v;
    let value = promote(cells.alloc(), value)?;
    held(cells, origin, Valued { statements, value })
}

/// A value that is held where a later one has statements.
pub(crate) fn held_before(
    cells: &mut Cells,
    origin: u32,
    v: Valued,
    later: &Valued,
) -> Result<Valued, AllocError>
    ensures taken { OnOk result (so_far cells.new
        ≡ (held_before origin v later.now (so_far cells.old)).taken) }
    ensures made { IfOk result (λ w. w ≡ (held_before origin v later.now (so_far cells.old)).made) }
{
    if is_pure(later) {
        Ok(v)
    } else {
        held(cells, origin, v)
    }
}

/// `left operator right` behind the statements of both.
pub(crate) fn operated(
    alloc: Global,
    operator: BinaryOperator,
    left: Valued,
    right: Valued,
) -> Result<Valued, AllocError>
    ensures { IfOk result (λ v. v ≡ operated operator left right) }
{
    let Valued {
        statements,
        value: left,
    } = left;
    let Valued {
        statements: behind,
        value: right,
    } = right;
    let value = operator_value(alloc, operator, left, right)?;
    followed(Valued { statements, value }, behind)
}

/// `left && right`.
fn both_hold(
    cells: &mut Cells,
    origin: u32,
    left: Valued,
    right: Valued,
) -> Result<Valued, AllocError>
    ensures taken { OnOk result (so_far cells.new
        ≡ (both_hold origin left right (so_far cells.old)).taken) }
    ensures made { IfOk result (λ v. v ≡ (both_hold origin left right (so_far cells.old)).made) }
{
    if is_pure(&right) {
        return both_purely(cells.alloc(), left, value_of(right));
    }
    let place = cells.fresh(IntType::I32)?;
    both_into(cells.alloc(), origin, place, left, right)
}

/// `left || right`.
fn one_holds(
    cells: &mut Cells,
    origin: u32,
    left: Valued,
    right: Valued,
) -> Result<Valued, AllocError>
    ensures taken { OnOk result (so_far cells.new
        ≡ (one_holds origin left right (so_far cells.old)).taken) }
    ensures made { IfOk result (λ v. v ≡ (one_holds origin left right (so_far cells.old)).made) }
{
    if is_pure(&right) {
        return one_purely(cells.alloc(), left, value_of(right));
    }
    let place = cells.fresh(IntType::I32)?;
    one_into(cells.alloc(), origin, place, left, right)
}

/// `left operator right` in a chain.
pub fn linked(
    cells: &mut Cells,
    origin: u32,
    operator: BinaryOperator,
    left: Valued,
    right: Valued,
) -> Result<Valued, AllocError>
    ensures taken { OnOk result (so_far cells.new
        ≡ (linked origin operator left right (so_far cells.old)).taken) }
    ensures made { IfOk result (λ v. v
        ≡ (linked origin operator left right (so_far cells.old)).made) }
{
    match operator {
        BinaryOperator::LogicalAnd => both_hold(cells, origin, left, right),
        BinaryOperator::LogicalOr => one_holds(cells, origin, left, right),
        _ => {
            let first = held_before(cells, origin, left, &right)?;
            operated(cells.alloc(), operator, first, right)
        }
    }
}

/// An operator before an operand.
pub fn signed(alloc: Global, operator: UnaryOperator, v: Valued) -> Result<Valued, AllocError>
    ensures { IfOk result (λ w. w ≡ signed operator v) }
{
    let Valued { statements, value } = v;
    let value = signed_value(alloc, operator, value)?;
    Ok(Valued { statements, value })
}

/// A value converted to a type.
pub fn cast_to(alloc: Global, ty: IntType, v: Valued) -> Result<Valued, AllocError>
    ensures { IfOk result (λ w. w ≡ cast_to ty v) }
{
    let Valued { statements, value } = v;
    let value = conv(alloc, value, ty)?;
    Ok(Valued { statements, value })
}

/// A conditional with a fresh cell for its value.
fn chosen_by(
    cells: &mut Cells,
    origin: u32,
    ty: IntType,
    test: Valued,
    yes: Valued,
    no: Valued,
) -> Result<Valued, AllocError>
    ensures taken { OnOk result (so_far cells.new
        ≡ (chosen_by origin ty test yes no (so_far cells.old)).taken) }
    ensures made { IfOk result (λ v. v
        ≡ (chosen_by origin ty test yes no (so_far cells.old)).made) }
{
    let place = cells.fresh(ty)?;
    chosen_into(cells.alloc(), origin, place, test, yes, no)
}

/// `test ? yes : no`.
pub fn chosen(
    cells: &mut Cells,
    origin: u32,
    test: Valued,
    yes: Valued,
    no: Valued,
) -> Result<Valued, AllocError>
    ensures taken { OnOk result (so_far cells.new
        ≡ (chosen origin test yes no (so_far cells.old)).taken) }
    ensures made { IfOk result (λ v. v ≡ (chosen origin test yes no (so_far cells.old)).made) }
{
    if is_pure(&yes) && is_pure(&no) {
        return chosen_purely(cells.alloc(), test, value_of(yes), value_of(no));
    }
    let ty = common(type_of(yes.value.get()), type_of(no.value.get()));
    chosen_by(cells, origin, ty, test, yes, no)
}

/// A value that is not used.
pub fn dropped_value(cells: &mut Cells, origin: u32, v: Valued) -> Result<Seq<CoreTree>, AllocError>
    ensures taken { OnOk result (so_far cells.new
        ≡ (dropped_value origin v (so_far cells.old)).taken) }
    ensures made { IfOk result (λ trees. trees ≡ (dropped_value origin v (so_far cells.old)).made) }
{
    if is_constant(v.value.get()) {
        return Ok(statements_of(v));
    }
    let kept = held(cells, origin, v)?;
    Ok(statements_of(kept))
}

/// An index that stays as it is.
pub(crate) fn fixed(cells: &mut Cells, origin: u32, index: Valued) -> Result<Valued, AllocError>
    ensures taken { OnOk result (so_far cells.new
        ≡ (fixed origin index (so_far cells.old)).taken) }
    ensures made { IfOk result (λ v. v ≡ (fixed origin index (so_far cells.old)).made) }
{
    if is_constant(index.value.get()) {
        Ok(index)
    } else {
        held(cells, origin, index)
    }
}

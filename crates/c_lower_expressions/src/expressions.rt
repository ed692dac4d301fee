//! The core of a typed expression, its value used or not (`rows` of `c_core_rules`,
//! `specs/Expressions.antt`). Proved with the lemmas of `proofs/Variants.antt`.
ghost use Rattle.std.specs.Prelude.{◌≡◌, ◌≤◌, OnOk, IfOk};
ghost use Rattle.c_types_rules.specs.declared.typed.TypedExpression.{out-TypedExpression};
ghost use Rattle.c_types_rules.specs.Tables.{suffix_count};
ghost use Rattle.c_core_rules.specs.Expressions.{rows, used, unused, placed};
ghost use Rattle.c_lower_values.specs.Found.{so_far};
ghost use Rattle.c_lower_expressions.specs.Postfix.{postfix_of};
ghost use Rattle.c_lower_expressions.specs.Rows.{lowered, linked_to, comma_of, front_target};
ghost use Rattle.c_lower_expressions.specs.Rows.{suffix_of, suffix_target};

use crate::calls::call_of;
use crate::frames::Frames;
use crate::names::front_names;
use crate::usage::{
    cast_for, changed_for, chosen_for, element_behind, finished, incremented_for, literal,
    name_for, signed_for, statements_of, stepped_for, usage_of_ends, voided,
};
use c_core_rules::{Place, Usage, Valued};
use c_grammar_symbols::BinaryOperator;
use c_lower_values::{Cells, fixed_if, int, joined, linked, number};
use c_types_rules::{Kind, Meaning, TypedExpression, TypedSuffix, operator_of};
use cpa_ints::{IntType, Seq};
use cpa_model_trees::CoreTree;
use std::alloc::AllocError;

/// An expression whose value is used.
#[tactic(auto, using(crate::proofs::Variants::lowered_by))]
pub fn used(cells: &mut Cells, frames: &Frames, e: &TypedExpression) -> Result<Valued, AllocError>
    ensures taken { OnOk result (so_far cells.new
        ≡ (used (rows frames.now e.now) (so_far cells.old)).taken) }
    ensures made { IfOk result (λ v. v ≡ (used (rows frames.now e.now) (so_far cells.old)).made) }
{
    lowered(cells, frames, Usage::Used, e)
}

/// An expression whose value is not used.
#[tactic(auto, using(crate::proofs::Variants::lowered_by))]
pub fn unused(
    cells: &mut Cells,
    frames: &Frames,
    e: &TypedExpression,
) -> Result<Seq<CoreTree>, AllocError>
    ensures taken { OnOk result (so_far cells.new
        ≡ (unused (rows frames.now e.now) (so_far cells.old)).taken) }
    ensures made { IfOk result (λ trees. trees
        ≡ (unused (rows frames.now e.now) (so_far cells.old)).made) }
{
    let v = lowered(cells, frames, Usage::Unused, e)?;
    Ok(v.statements)
}

/// An expression, by whether its value is used. A name and a number are lowered here, since a
/// function takes the time at its start that the room for its other forms asks for.
#[cycle(expression)]
#[tactic(auto, using(crate::proofs::Variants::of_Name, crate::proofs::Variants::of_Number))]
pub(crate) fn lowered(
    cells: &mut Cells,
    frames: &Frames,
    usage: Usage,
    e: &TypedExpression,
) -> Result<Valued, AllocError>
    ensures taken { OnOk result (so_far cells.new
        ≡ (lowered frames.now usage e.now (so_far cells.old)).taken) }
    ensures made { IfOk result (λ v. v ≡ (lowered frames.now usage e.now (so_far cells.old)).made) }
{
    match e {
        TypedExpression::Name { meaning, place } => name_for(cells, *place, usage, meaning.get()),
        TypedExpression::Number { ty, value, place } => {
            literal(cells, *place, usage, *ty, value.get())
        }
        _ => form_lowered(cells, frames, usage, e),
    }
}

/// The same of an expression of any form.
#[inline(never)]
#[cycle(expression)]
#[tactic(auto, using(crate::proofs::Variants::form_lowered_rules))]
fn form_lowered(
    cells: &mut Cells,
    frames: &Frames,
    usage: Usage,
    e: &TypedExpression,
) -> Result<Valued, AllocError>
    ensures taken { OnOk result (so_far cells.new
        ≡ (lowered frames.now usage e.now (so_far cells.old)).taken) }
    ensures made { IfOk result (λ v. v ≡ (lowered frames.now usage e.now (so_far cells.old)).made) }
{
    match e {
        TypedExpression::Name { meaning, place } => name_for(cells, *place, usage, meaning.get()),
        TypedExpression::Number { ty, value, place } => literal(
            cells,
            *place,
            usage,
            *ty,
            value.get(),
        ),
        TypedExpression::Character { value, place } => {
            literal(cells, *place, usage, IntType::I32, value.get())
        }
        TypedExpression::Bracketed { inner, .. } => lowered(cells, frames, usage, inner.get()),
        TypedExpression::Postfix { .. } => postfix_of(cells, frames, usage, e),
        TypedExpression::PrefixStep {
            operator,
            operand,
            place: origin,
            ..
        } => {
            let place = placed(cells, *origin, frames, true, operand.get())?;
            incremented_for(cells, *origin, usage, *operator, place)
        }
        TypedExpression::Unary {
            operator,
            operand,
            place,
            ..
        } => {
            let v = lowered(cells, frames, Usage::Used, operand.get())?;
            signed_for(cells, *place, usage, *operator, v)
        }
        TypedExpression::Cast {
            operand,
            kind,
            place,
        } => match kind {
            Some(Kind::Value(ty)) => {
                let v = lowered(cells, frames, Usage::Used, operand.get())?;
                cast_for(cells, *place, usage, *ty, v)
            }
            Some(Kind::Void) | None => {
                let v = lowered(cells, frames, Usage::Unused, operand.get())?;
                voided(frames.alloc(), usage, statements_of(v))
            }
        },
        TypedExpression::Chain {
            first,
            rest,
            place,
            ..
        } => {
            let left = lowered(cells, frames, Usage::Used, first.get())?;
            chained(cells, *place, frames, usage, left, rest.as_slice())
        }
        TypedExpression::Conditional {
            test,
            yes,
            no,
            kind,
            place,
        } => {
            let ends = usage_of_ends(usage, *kind);
            let test = lowered(cells, frames, Usage::Used, test.get())?;
            let yes = lowered(cells, frames, ends, yes.get())?;
            let no = lowered(cells, frames, ends, no.get())?;
            chosen_for(cells, *place, usage, ends, test, yes, no)
        }
        TypedExpression::Assignment {
            left,
            operator,
            right,
            place: origin,
            ..
        } => {
            let operator = operator_of(*operator);
            let place = placed(cells, *origin, frames, operator.is_some(), left.get())?;
            let v = lowered(cells, frames, Usage::Used, right.get())?;
            changed_for(cells, *origin, usage, operator, place, v)
        }
        TypedExpression::Comma { items, .. } => comma_of(cells, frames, usage, items.as_slice()),
    }
}

/// The same of a postfix expression, by its last suffix.
#[cycle(expression)]
#[tactic(auto, using(crate::proofs::Suffixes::postfix_none))]
fn postfix_of(
    cells: &mut Cells,
    frames: &Frames,
    usage: Usage,
    e: &TypedExpression,
) -> Result<Valued, AllocError>
    ensures taken { OnOk result (so_far cells.new
        ≡ (postfix_of frames.now usage (out-TypedExpression e.now) (so_far cells.old)).taken) }
    ensures made { IfOk result (λ v. v
        ≡ (postfix_of frames.now usage (out-TypedExpression e.now) (so_far cells.old)).made) }
{
    let TypedExpression::Postfix {
        base,
        suffixes,
        place: origin,
    } = e
    else {
        return number(frames.alloc(), 0);
    };
    let first = base.get();
    let all = suffixes.as_slice();
    let count = all.len();
    if count == 0 {
        return lowered(cells, frames, usage, first);
    }
    let last = count - 1;
    let names = front_names(first, last);
    match &all[last] {
        TypedSuffix::Index { index, .. } => {
            let i = lowered(cells, frames, Usage::Used, index)?;
            let v = element_behind(cells, *origin, usage, names, i)?;
            Ok(v)
        }
        TypedSuffix::Call { arguments, .. } => {
            let v = call_of(cells, *origin, frames, usage, names, arguments.as_slice())?;
            Ok(v)
        }
        TypedSuffix::Step { operator, .. } => {
            let place = front_placed(cells, *origin, frames, true, e, last)?;
            let v = stepped_for(cells, *origin, usage, *operator, place)?;
            Ok(v)
        }
        TypedSuffix::Skipped { .. } => {
            let v = call_of(cells, *origin, frames, usage, names, &[])?;
            Ok(v)
        }
    }
}

/// What an expression is as a left side, its index evaluated, and fixed where that is wanted.
#[cycle(expression)]
#[tactic(auto, using(crate::proofs::Variants::placed_rules))]
fn placed(
    cells: &mut Cells,
    origin: u32,
    frames: &Frames,
    fixes: bool,
    e: &TypedExpression,
) -> Result<Place, AllocError>
    ensures taken { OnOk result (so_far cells.new
        ≡ (placed origin fixes (rows frames.now e.now).target (so_far cells.old)).taken) }
    ensures made { IfOk result (λ place. place
        ≡ (placed origin fixes (rows frames.now e.now).target (so_far cells.old)).made) }
{
    match e {
        TypedExpression::Name { meaning, .. } => {
            let location = cells.scalar_place(meaning.get())?;
            Ok(Place::Scalar(location))
        }
        TypedExpression::Bracketed { inner, .. } => {
            placed(cells, origin, frames, fixes, inner.get())
        }
        TypedExpression::Postfix { suffixes, .. } => {
            let count = suffixes.len();
            let place = front_placed(cells, origin, frames, fixes, e, count)?;
            Ok(place)
        }
        TypedExpression::Number { .. }
        | TypedExpression::Character { .. }
        | TypedExpression::PrefixStep { .. }
        | TypedExpression::Unary { .. }
        | TypedExpression::Cast { .. }
        | TypedExpression::Chain { .. }
        | TypedExpression::Conditional { .. }
        | TypedExpression::Assignment { .. }
        | TypedExpression::Comma { .. } => Ok(Place::Neither),
    }
}

/// The same of a postfix expression up to so many suffixes.
#[cycle(expression)]
fn front_placed(
    cells: &mut Cells,
    origin: u32,
    frames: &Frames,
    fixes: bool,
    e: &TypedExpression,
    count: usize,
) -> Result<Place, AllocError>
    requires { count ≤ suffix_count (out-TypedExpression e.now) }
    ensures taken { OnOk result (so_far cells.new
        ≡ (placed origin fixes (front_target frames.now (out-TypedExpression e.now) count)
        (so_far cells.old)).taken) }
    ensures made { IfOk result (λ place. place
        ≡ (placed origin fixes (front_target frames.now (out-TypedExpression e.now) count)
        (so_far cells.old)).made) }
{
    let TypedExpression::Postfix { base, suffixes, .. } = e else {
        return Ok(Place::Neither);
    };
    let first = base.get();
    let all = suffixes.as_slice();
    if count == 0 {
        return placed(cells, origin, frames, fixes, first);
    }
    let last = count - 1;
    let names = front_names(first, last);
    suffix_placed(cells, origin, frames, fixes, names, &all[last])
}

/// What a suffix makes as a left side, behind what has this name.
#[cycle(expression)]
#[tactic(auto, using(crate::proofs::Variants::suffix_placed_rules))]
fn suffix_placed(
    cells: &mut Cells,
    origin: u32,
    frames: &Frames,
    fixes: bool,
    found: Option<Meaning>,
    suffix: &TypedSuffix,
) -> Result<Place, AllocError>
    ensures taken { OnOk result (so_far cells.new
        ≡ (placed origin fixes (suffix_target found (suffix_of frames.now suffix.now))
        (so_far cells.old)).taken) }
    ensures made { IfOk result (λ place. place
        ≡ (placed origin fixes (suffix_target found (suffix_of frames.now suffix.now))
        (so_far cells.old)).made) }
{
    match suffix {
        TypedSuffix::Index { index, .. } => {
            let i = lowered(cells, frames, Usage::Used, index)?;
            let kept = fixed_if(cells, origin, fixes, i)?;
            let location = cells.located(found)?;
            Ok(Place::Element(location, kept))
        }
        TypedSuffix::Call { .. } | TypedSuffix::Step { .. } | TypedSuffix::Skipped { .. } => {
            Ok(Place::Neither)
        }
    }
}

/// A chain behind its first operand, from the left.
#[cycle(expression)]
fn chained(
    cells: &mut Cells,
    origin: u32,
    frames: &Frames,
    usage: Usage,
    left: Valued,
    rest: &[(BinaryOperator, TypedExpression)],
) -> Result<Valued, AllocError>
    ensures taken { OnOk result (so_far cells.new
        ≡ (linked_to origin frames.now usage left rest.now (so_far cells.old)).taken) }
    ensures made { IfOk result (λ v. v
        ≡ (linked_to origin frames.now usage left rest.now (so_far cells.old)).made) }
{
    let mut left = left;
    for link in rest {
        let right = lowered(cells, frames, Usage::Used, &link.1)?;
        left = linked(cells, origin, link.0, left, right)?;
    }
    finished(cells, origin, usage, left)
}

/// Items of a comma expression, of which only the value of the last may be used.
#[cycle(expression)]
#[tactic(auto, using(crate::proofs::Lists::comma_first))]
fn comma_of(
    cells: &mut Cells,
    frames: &Frames,
    usage: Usage,
    items: &[TypedExpression],
) -> Result<Valued, AllocError>
    ensures taken { OnOk result (so_far cells.new
        ≡ (comma_of frames.now usage items.now (so_far cells.old)).taken) }
    ensures made { IfOk result (λ v. v
        ≡ (comma_of frames.now usage items.now (so_far cells.old)).made) }
{
    let mut before = Seq::new(frames.alloc());
    let mut left = items.len();
    for item in items {
        if left == 1 {
            let v = lowered(cells, frames, usage, item)?;
            let statements = joined(before, v.statements)?;
            return Ok(Valued {
                statements,
                value: v.value,
            });
        }
        let dropped = lowered(cells, frames, Usage::Unused, item)?;
        before = joined(before, dropped.statements)?;
        left -= 1;
    }
    let value = int(frames.alloc(), 0)?;
    Ok(Valued {
        statements: before,
        value,
    })
}

//! What is added to a form, by specs/Forms of `cpa_form_rules`. Where memory ends, each
//! function leaves the form as it was.

ghost use Rattle.std.specs.Prelude.{◌≡◌, ◌∷◌, [], true, IfOk, OnOk, OnErr};
ghost use Rattle.cpa_form_rules.specs.Runs.{taken, holding, failing};
ghost use Rattle.cpa_form_rules.specs.Forms.{with_tests, with_failing, with_write, with_input};
ghost use Rattle.cpa_form_rules.specs.Forms.{with_act, with_added};
ghost use Rattle.cpa_edgeform.specs.Parts.{form_in};

use crate::drafting::fresh;
use crate::parts::{Parts, draft_of, join, put_cells, put_input, reserve_input, weigh};
use crate::settling::{places_or, settle};
use crate::testing::{all_denials, joined_lists, tests_of, type_at};
use crate::wanting::{want_all, want_each};
use crate::weighing::{act_weight, elem_weight, elems_weight};
use crate::writing::assigned;
use cpa_expr::{Expr, copy};
use cpa_form_renaming::Place;
use cpa_ints::Seq;
use cpa_model::{Act, Elem};
use std::alloc::{AllocError, Global};

/// The expressions have their truths at the present end.
fn add_tests(parts: &mut Parts, asked: &[(Expr, bool)]) -> Result<(), AllocError>
    ensures ok { OnOk result (form_in parts.new ≡ with_tests asked.now (form_in parts.old)) }
    ensures err { OnErr result (form_in parts.new ≡ form_in parts.old) }
{
    let alloc = parts.alloc;
    let mut draft = draft_of(parts)?;
    let standing = parts.places.as_slice();
    let moved = settle(alloc, &mut draft, asked, standing)?;
    want_all(alloc, &mut draft, places_or(&moved, standing), asked)?;
    join(parts, draft, moved)
}

/// Of each element some fact on the store does not hold at the present end.
fn add_failing(parts: &mut Parts, elems: &[Elem]) -> Result<(), AllocError>
    ensures ok { OnOk result (form_in parts.new ≡ with_failing elems.now (form_in parts.old)) }
    ensures err { OnErr result (form_in parts.new ≡ form_in parts.old) }
{
    let alloc = parts.alloc;
    let mut draft = draft_of(parts)?;
    let standing = parts.places.as_slice();
    let denials = all_denials(alloc, standing, elems)?;
    let asked = joined_lists(alloc, denials.as_slice())?;
    let moved = settle(alloc, &mut draft, asked.as_slice(), standing)?;
    let places = places_or(&moved, standing);
    want_each(alloc, &mut draft, places, denials.as_slice())?;
    join(parts, draft, moved)
}

/// An expression with its truth, as a list.
fn one_asked(alloc: Global, e: &Expr, holds: bool) -> Result<Seq<(Expr, bool)>, AllocError>
    ensures { IfOk result (λ asked. asked ≡ (e.now, holds) ∷ []) }
{
    let mut asked = Seq::new(alloc);
    asked.push((copy(alloc, e)?, holds))?;
    Ok(asked)
}

/// The index and the value of a write, as if they were wanted.
fn both_asked(alloc: Global, index: &Expr, value: &Expr) -> Result<Seq<(Expr, bool)>, AllocError>
    ensures { IfOk result (λ asked. asked ≡ (index.now, true) ∷ (value.now, true) ∷ []) }
{
    let mut asked = one_asked(alloc, index, true)?;
    asked.push((copy(alloc, value)?, true))?;
    Ok(asked)
}

/// The new places of the cells that are written follow the first one's.
fn add_write(
    parts: &mut Parts,
    base: u32,
    len: u32,
    index: &Expr,
    value: &Expr,
) -> Result<(), AllocError>
    ensures ok { OnOk result
        (form_in parts.new ≡ with_write base len index.now value.now (form_in parts.old)) }
    ensures err { OnErr result (form_in parts.new ≡ form_in parts.old) }
{
    let alloc = parts.alloc;
    let asked = both_asked(alloc, index, value)?;
    let mut draft = draft_of(parts)?;
    let standing = parts.places.as_slice();
    let moved = settle(alloc, &mut draft, asked.as_slice(), standing)?;
    let places = places_or(&moved, standing);
    let to = assigned(alloc, &mut draft, places, base, len, index, value)?;
    join(parts, draft, moved)?;
    put_cells(parts, base, len, to);
    Ok(())
}

/// The cell's new place has any value, which is the next input.
fn add_input(parts: &mut Parts, cell: u32) -> Result<(), AllocError>
    ensures ok { OnOk result (form_in parts.new ≡ with_input cell (form_in parts.old)) }
    ensures err { OnErr result (form_in parts.new ≡ form_in parts.old) }
{
    let ty = type_at(parts.places.as_slice(), cell);
    let mut draft = draft_of(parts)?;
    let number = fresh(&mut draft, ty)?;
    reserve_input(parts)?;
    join(parts, draft, None)?;
    put_input(parts, cell, Place { number, ty });
    Ok(())
}

/// The store's part of a step.
fn add_act(parts: &mut Parts, act: &Act) -> Result<(), AllocError>
    ensures ok { OnOk result (form_in parts.new ≡ with_act act.now (form_in parts.old)) }
    ensures err { OnErr result (form_in parts.new ≡ form_in parts.old) }
{
    match act {
        Act::Assign {
            base,
            len,
            index,
            value,
        } => add_write(parts, *base, *len, index, value),
        Act::Assume { test, holds } => {
            let asked = one_asked(parts.alloc, test, *holds)?;
            add_tests(parts, asked.as_slice())
        }
        Act::Input { cell } => add_input(parts, *cell),
        Act::Skip | Act::Call { .. } | Act::Return { .. } => Ok(()),
    }
}

/// An edge is taken.
pub(crate) fn take(parts: &mut Parts, act: &Act) -> Result<(), AllocError>
    ensures ok { OnOk result (form_in parts.new ≡ with_added (taken act.now) (form_in parts.old)) }
    ensures err { OnErr result (form_in parts.new ≡ form_in parts.old) }
{
    add_act(parts, act)?;
    weigh(parts, act_weight(act));
    Ok(())
}

/// An element holds.
pub(crate) fn hold(parts: &mut Parts, elem: &Elem) -> Result<(), AllocError>
    ensures ok { OnOk result
        (form_in parts.new ≡ with_added (holding elem.now) (form_in parts.old)) }
    ensures err { OnErr result (form_in parts.new ≡ form_in parts.old) }
{
    let standing = parts.places.as_slice();
    let weight = elem_weight(standing, elem);
    let asked = tests_of(parts.alloc, standing, &elem.facts)?;
    add_tests(parts, asked.as_slice())?;
    weigh(parts, weight);
    Ok(())
}

/// Each of some elements fails.
pub(crate) fn fail(parts: &mut Parts, elems: &[Elem]) -> Result<(), AllocError>
    ensures ok { OnOk result
        (form_in parts.new ≡ with_added (failing elems.now) (form_in parts.old)) }
    ensures err { OnErr result (form_in parts.new ≡ form_in parts.old) }
{
    let weight = elems_weight(parts.places.as_slice(), elems);
    add_failing(parts, elems)?;
    weigh(parts, weight);
    Ok(())
}

//! Values in a cell that is taken already: held there, or put there by a choice (`c_core_rules`,
//! `specs/Acts.antt`). Proved by the checker alone.
ghost use Rattle.std.specs.Prelude.{◌≡◌, ◌∷◌, ◌++◌, [], IfOk};
ghost use Rattle.cpa_expr.specs.declared.tree.Expr.TheVariants.{And, Or};
ghost use Rattle.c_core_rules.specs.Trees.{set, choice, valued};
ghost use Rattle.c_core_rules.specs.Values.{chosen_value, truth_of, scalar, int};

use crate::trees::{choice, list_of, set, with};
use crate::values::{int, scalar};
use c_core_rules::{Location, Valued};
use c_lower_operators::{chosen_value, truth_of};
use cpa_expr::{Expr, both, either};
use cpa_ints::{Boxed, Seq};
use cpa_model_trees::CoreTree;
use std::alloc::{AllocError, Global};

/// Statements that end with a value in a cell.
fn value_in(
    alloc: Global,
    origin: u32,
    place: Location,
    v: Valued,
) -> Result<Seq<CoreTree>, AllocError>
    ensures { IfOk result (λ trees. trees ≡ v.statements ++ set origin place v.value ∷ []) }
{
    let Valued { statements, value } = v;
    let written = set(alloc, origin, place, value)?;
    with(statements, written)
}

/// A cell that is read behind statements.
fn read_behind(
    alloc: Global,
    statements: Seq<CoreTree>,
    place: Location,
) -> Result<Valued, AllocError>
    ensures { IfOk result (λ v. v ≡ valued statements (scalar place)) }
{
    let value = scalar(alloc, place)?;
    Ok(Valued { statements, value })
}

/// A value that is held in a cell.
pub fn held_in(alloc: Global, origin: u32, place: Location, v: Valued) -> Result<Valued, AllocError>
    ensures { IfOk result (λ w. w
        ≡ valued (v.statements ++ set origin place v.value ∷ []) (scalar place)) }
{
    let statements = value_in(alloc, origin, place, v)?;
    read_behind(alloc, statements, place)
}

/// Statements that end with the truth of a value in a cell.
fn truth_in(
    alloc: Global,
    origin: u32,
    place: Location,
    v: Valued,
) -> Result<Seq<CoreTree>, AllocError>
    ensures { IfOk result (λ trees. trees
        ≡ v.statements ++ set origin place (truth_of v.value) ∷ []) }
{
    let Valued { statements, value } = v;
    let value = truth_of(alloc, value)?;
    value_in(alloc, origin, place, Valued { statements, value })
}

/// A small number in a cell.
fn number_in(
    alloc: Global,
    origin: u32,
    place: Location,
    number: u32,
) -> Result<Seq<CoreTree>, AllocError>
    ensures { IfOk result (λ trees. trees ≡ set origin place (int number) ∷ []) }
{
    let value = int(alloc, number)?;
    let written = set(alloc, origin, place, value)?;
    list_of(alloc, written)
}

/// The ends of a choice, which leave a value in one cell.
#[derive(Drop)]
struct Ends {
    yes: Seq<CoreTree>,
    no: Seq<CoreTree>,
}

/// A test, and a choice by it.
fn chosen_behind(
    alloc: Global,
    origin: u32,
    test: Valued,
    ends: Ends,
) -> Result<Seq<CoreTree>, AllocError>
    ensures { IfOk result (λ trees. trees
        ≡ test.statements ++ choice origin test.value ends.yes ends.no ∷ []) }
{
    let Valued { statements, value } = test;
    let choice = choice(alloc, origin, value, ends.yes, ends.no)?;
    with(statements, choice)
}

/// A test, a choice by it that leaves a value in a cell, and the cell.
fn read_by(
    alloc: Global,
    origin: u32,
    place: Location,
    test: Valued,
    ends: Ends,
) -> Result<Valued, AllocError>
    ensures { IfOk result (λ v. v
        ≡ valued (test.statements ++ choice origin test.value ends.yes ends.no ∷ [])
        (scalar place)) }
{
    let statements = chosen_behind(alloc, origin, test, ends)?;
    read_behind(alloc, statements, place)
}

/// `left && right`, where no statement stands before the right side.
pub fn both_purely(alloc: Global, left: Valued, right: Boxed<Expr>) -> Result<Valued, AllocError>
    ensures { IfOk result (λ v. v ≡ valued left.statements (And left.value right)) }
{
    let Valued { statements, value } = left;
    let value = both(alloc, value, right)?;
    Ok(Valued { statements, value })
}

/// The ends of `left && right`: the truth of the right side, and 0.
fn both_ends(alloc: Global, origin: u32, place: Location, right: Valued) -> Result<Ends, AllocError>
    ensures yes { IfOk result (λ ends. ends.yes
        ≡ right.statements ++ set origin place (truth_of right.value) ∷ []) }
    ensures no { IfOk result (λ ends. ends.no ≡ set origin place (int 0) ∷ []) }
{
    let yes = truth_in(alloc, origin, place, right)?;
    let no = number_in(alloc, origin, place, 0)?;
    Ok(Ends { yes, no })
}

/// `left && right` in a cell.
pub fn both_into(
    alloc: Global,
    origin: u32,
    place: Location,
    left: Valued,
    right: Valued,
) -> Result<Valued, AllocError>
    ensures { IfOk result (λ v. v
        ≡ valued (left.statements ++ choice origin left.value
        (right.statements ++ set origin place (truth_of right.value) ∷ [])
        (set origin place (int 0) ∷ []) ∷ []) (scalar place)) }
{
    let ends = both_ends(alloc, origin, place, right)?;
    read_by(alloc, origin, place, left, ends)
}

/// `left || right`, where no statement stands before the right side.
pub fn one_purely(alloc: Global, left: Valued, right: Boxed<Expr>) -> Result<Valued, AllocError>
    ensures { IfOk result (λ v. v ≡ valued left.statements (Or left.value right)) }
{
    let Valued { statements, value } = left;
    let value = either(alloc, value, right)?;
    Ok(Valued { statements, value })
}

/// The ends of `left || right`: 1, and the truth of the right side.
fn one_ends(alloc: Global, origin: u32, place: Location, right: Valued) -> Result<Ends, AllocError>
    ensures yes { IfOk result (λ ends. ends.yes ≡ set origin place (int 1) ∷ []) }
    ensures no { IfOk result (λ ends. ends.no
        ≡ right.statements ++ set origin place (truth_of right.value) ∷ []) }
{
    let no = truth_in(alloc, origin, place, right)?;
    let yes = number_in(alloc, origin, place, 1)?;
    Ok(Ends { yes, no })
}

/// `left || right` in a cell.
pub fn one_into(
    alloc: Global,
    origin: u32,
    place: Location,
    left: Valued,
    right: Valued,
) -> Result<Valued, AllocError>
    ensures { IfOk result (λ v. v
        ≡ valued (left.statements ++ choice origin left.value (set origin place (int 1) ∷ [])
        (right.statements ++ set origin place (truth_of right.value) ∷ []) ∷ []) (scalar place)) }
{
    let ends = one_ends(alloc, origin, place, right)?;
    read_by(alloc, origin, place, left, ends)
}

/// The ends of a conditional: each value in one cell.
fn chosen_ends(
    alloc: Global,
    origin: u32,
    place: Location,
    yes: Valued,
    no: Valued,
) -> Result<Ends, AllocError>
    ensures yes { IfOk result (λ ends. ends.yes
        ≡ yes.statements ++ set origin place yes.value ∷ []) }
    ensures no { IfOk result (λ ends. ends.no
        ≡ no.statements ++ set origin place no.value ∷ []) }
{
    let yes = value_in(alloc, origin, place, yes)?;
    let no = value_in(alloc, origin, place, no)?;
    Ok(Ends { yes, no })
}

/// `test ? yes : no` in a cell.
pub fn chosen_into(
    alloc: Global,
    origin: u32,
    place: Location,
    test: Valued,
    yes: Valued,
    no: Valued,
) -> Result<Valued, AllocError>
    ensures { IfOk result (λ v. v
        ≡ valued (test.statements ++ choice origin test.value
        (yes.statements ++ set origin place yes.value ∷ [])
        (no.statements ++ set origin place no.value ∷ []) ∷ []) (scalar place)) }
{
    let ends = chosen_ends(alloc, origin, place, yes, no)?;
    read_by(alloc, origin, place, test, ends)
}

/// `test ? yes : no`, where no statement stands before its ends.
pub fn chosen_purely(
    alloc: Global,
    test: Valued,
    yes: Boxed<Expr>,
    no: Boxed<Expr>,
) -> Result<Valued, AllocError>
    ensures { IfOk result (λ v. v
        ≡ valued test.statements (chosen_value test.value yes no)) }
{
    let Valued { statements, value } = test;
    let value = chosen_value(alloc, value, yes, no)?;
    Ok(Valued { statements, value })
}

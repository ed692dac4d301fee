//! What is made of a value, by whether it is used (`c_core_rules`, `specs/Acts.antt`; here
//! `specs/Rows.antt`). Proved by the checker alone.
ghost use Rattle.std.specs.Prelude.{◌≡◌, ◌++◌, ◌∷◌, [], OnOk, IfOk};
ghost use Rattle.cpa_expr.specs.declared.tree.Expr.TheVariants.{Const};
ghost use Rattle.c_core_rules.specs.Trees.{choice, pure};
ghost use Rattle.c_core_rules.specs.Acts.{unvalued, finished, kept_for, no_value, voided, is_used};
ghost use Rattle.c_core_rules.specs.Acts.{chosen_for};
ghost use Rattle.c_core_rules.specs.Places.{stepped_for};
ghost use Rattle.c_core_rules.specs.Expressions.{usage_of_ends};
ghost use Rattle.c_lower_values.specs.Found.{so_far};
ghost use Rattle.c_lower_expressions.specs.Rows.{name_for, element_behind, signed_for, cast_for};
ghost use Rattle.c_lower_expressions.specs.Rows.{changed_for, incremented_for};

use c_core_rules::{Place, Usage, Valued};
use c_grammar_symbols::{BinaryOperator, StepOperator};
use c_grammar_tree::UnaryOperator;
use c_lower_values::{
    Cells, cast_to, cell_at, changed, choice, chosen, dropped_value, element, incremented, int,
    pure, scalar, signed, stepped, with,
};
use c_types_rules::{Kind, Meaning};
use cpa_expr::{Expr, constant};
use cpa_ints::{Boxed, IntType, Seq};
use cpa_model_trees::CoreTree;
use std::alloc::{AllocError, Global};

/// Whether it is used.
fn is_used(usage: Usage) -> bool
    ensures { result ≡ is_used usage }
{
    match usage {
        Usage::Used => true,
        Usage::Unused => false,
    }
}

/// Statements whose value nobody uses.
fn unvalued(alloc: Global, statements: Seq<CoreTree>) -> Result<Valued, AllocError>
    ensures { IfOk result (λ v. v ≡ unvalued statements) }
{
    let value = int(alloc, 0)?;
    Ok(Valued { statements, value })
}

/// Its statements alone.
pub(crate) fn statements_of(v: Valued) -> Seq<CoreTree>
    ensures { result ≡ v.statements }
{
    v.statements
}

/// What acts.
#[tactic(auto, unfolding(c_core_rules::specs::Acts::kept_for))]
pub(crate) fn kept_for(alloc: Global, usage: Usage, v: Valued) -> Result<Valued, AllocError>
    ensures { IfOk result (λ w. w ≡ kept_for usage v) }
{
    match usage {
        Usage::Used => Ok(v),
        Usage::Unused => unvalued(alloc, statements_of(v)),
    }
}

/// What is evaluated.
#[tactic(auto, unfolding(c_core_rules::specs::Acts::finished))]
pub(crate) fn finished(
    cells: &mut Cells,
    origin: u32,
    usage: Usage,
    v: Valued,
) -> Result<Valued, AllocError>
    ensures taken { OnOk result (so_far cells.new
        ≡ (finished origin usage v (so_far cells.old)).taken) }
    ensures made { IfOk result (λ w. w ≡ (finished origin usage v (so_far cells.old)).made) }
{
    match usage {
        Usage::Used => Ok(v),
        Usage::Unused => {
            let statements = dropped_value(cells, origin, v)?;
            unvalued(cells.alloc(), statements)
        }
    }
}

/// The value of what has none.
fn no_value(alloc: Global) -> Result<Boxed<Expr>, AllocError>
    ensures { IfOk result (λ v. v ≡ no_value) }
{
    scalar(alloc, cell_at(IntType::I32, 0))
}

/// What has no value.
#[tactic(auto, unfolding(c_core_rules::specs::Acts::kept_for))]
pub(crate) fn voided(
    alloc: Global,
    usage: Usage,
    statements: Seq<CoreTree>,
) -> Result<Valued, AllocError>
    ensures { IfOk result (λ v. v ≡ voided usage statements) }
{
    match usage {
        Usage::Used => {
            let value = no_value(alloc)?;
            Ok(Valued { statements, value })
        }
        Usage::Unused => unvalued(alloc, statements),
    }
}

/// A number.
pub(crate) fn literal(
    cells: &mut Cells,
    origin: u32,
    usage: Usage,
    ty: IntType,
    value: i128,
) -> Result<Valued, AllocError>
    ensures taken { OnOk result (so_far cells.new
        ≡ (finished origin usage (pure (Const ty value)) (so_far cells.old)).taken) }
    ensures made { IfOk result (λ v. v
        ≡ (finished origin usage (pure (Const ty value)) (so_far cells.old)).made) }
{
    let alloc = cells.alloc();
    let number = constant(alloc, ty, value)?;
    finished(cells, origin, usage, pure(alloc, number))
}

/// A scalar that is read, or the constant of an enumerator.
#[tactic(auto, unfolding(crate::specs::Rows::name_for))]
pub(crate) fn name_for(
    cells: &mut Cells,
    origin: u32,
    usage: Usage,
    found: Option<Meaning>,
) -> Result<Valued, AllocError>
    ensures taken { OnOk result (so_far cells.new
        ≡ (name_for origin usage found (so_far cells.old)).taken) }
    ensures made { IfOk result (λ v. v ≡ (name_for origin usage found (so_far cells.old)).made) }
{
    if let Some(Meaning::Enumerator(value)) = found {
        return literal(cells, origin, usage, IntType::I32, value);
    }
    let place = cells.scalar_place(found)?;
    let alloc = cells.alloc();
    let v = pure(alloc, scalar(alloc, place)?);
    finished(cells, origin, usage, v)
}

/// An element that is read, behind its index.
#[tactic(auto, unfolding(crate::specs::Rows::element_behind))]
pub(crate) fn element_behind(
    cells: &mut Cells,
    origin: u32,
    usage: Usage,
    found: Option<Meaning>,
    index: Valued,
) -> Result<Valued, AllocError>
    ensures taken { OnOk result (so_far cells.new
        ≡ (element_behind origin usage found index (so_far cells.old)).taken) }
    ensures made { IfOk result (λ v. v
        ≡ (element_behind origin usage found index (so_far cells.old)).made) }
{
    let Valued { statements, value } = index;
    let place = cells.located(found)?;
    let value = element(cells.alloc(), place, value)?;
    finished(cells, origin, usage, Valued { statements, value })
}

/// An operator before an operand.
#[tactic(auto, unfolding(crate::specs::Rows::signed_for))]
pub(crate) fn signed_for(
    cells: &mut Cells,
    origin: u32,
    usage: Usage,
    operator: UnaryOperator,
    v: Valued,
) -> Result<Valued, AllocError>
    ensures taken { OnOk result (so_far cells.new
        ≡ (signed_for origin usage operator v (so_far cells.old)).taken) }
    ensures made { IfOk result (λ w. w
        ≡ (signed_for origin usage operator v (so_far cells.old)).made) }
{
    let v = signed(cells.alloc(), operator, v)?;
    finished(cells, origin, usage, v)
}

/// A value converted to a type.
#[tactic(auto, unfolding(crate::specs::Rows::cast_for))]
pub(crate) fn cast_for(
    cells: &mut Cells,
    origin: u32,
    usage: Usage,
    ty: IntType,
    v: Valued,
) -> Result<Valued, AllocError>
    ensures taken { OnOk result (so_far cells.new
        ≡ (cast_for origin usage ty v (so_far cells.old)).taken) }
    ensures made { IfOk result (λ w. w ≡ (cast_for origin usage ty v (so_far cells.old)).made) }
{
    let v = cast_to(cells.alloc(), ty, v)?;
    finished(cells, origin, usage, v)
}

/// An assignment, behind its operands.
#[tactic(auto, unfolding(crate::specs::Rows::changed_for))]
pub(crate) fn changed_for(
    cells: &mut Cells,
    origin: u32,
    usage: Usage,
    operator: Option<BinaryOperator>,
    place: Place,
    v: Valued,
) -> Result<Valued, AllocError>
    ensures taken { OnOk result (so_far cells.new
        ≡ (changed_for origin usage operator place v (so_far cells.old)).taken) }
    ensures made { IfOk result (λ w. w
        ≡ (changed_for origin usage operator place v (so_far cells.old)).made) }
{
    let w = changed(cells, origin, is_used(usage), operator, place, v)?;
    kept_for(cells.alloc(), usage, w)
}

/// `++l` and `--l`, behind the place.
#[tactic(auto, unfolding(crate::specs::Rows::incremented_for))]
pub(crate) fn incremented_for(
    cells: &mut Cells,
    origin: u32,
    usage: Usage,
    operator: StepOperator,
    place: Place,
) -> Result<Valued, AllocError>
    ensures taken { OnOk result (so_far cells.new
        ≡ (incremented_for origin usage operator place (so_far cells.old)).taken) }
    ensures made { IfOk result (λ v. v
        ≡ (incremented_for origin usage operator place (so_far cells.old)).made) }
{
    let v = incremented(cells, origin, operator, place)?;
    kept_for(cells.alloc(), usage, v)
}

/// `l++` and `l--`, behind the place.
#[tactic(auto, unfolding(c_core_rules::specs::Places::stepped_for, c_core_rules::specs::Acts::kept_for))]
pub(crate) fn stepped_for(
    cells: &mut Cells,
    origin: u32,
    usage: Usage,
    operator: StepOperator,
    place: Place,
) -> Result<Valued, AllocError>
    ensures taken { OnOk result (so_far cells.new
        ≡ (stepped_for origin usage operator place (so_far cells.old)).taken) }
    ensures made { IfOk result (λ v. v
        ≡ (stepped_for origin usage operator place (so_far cells.old)).made) }
{
    match usage {
        Usage::Used => stepped(cells, origin, operator, place),
        Usage::Unused => {
            let v = incremented(cells, origin, operator, place)?;
            unvalued(cells.alloc(), statements_of(v))
        }
    }
}

/// How the ends of a conditional of this kind are used.
#[tactic(auto, unfolding(c_core_rules::specs::Expressions::usage_of_ends))]
pub(crate) fn usage_of_ends(usage: Usage, kind: Option<Kind>) -> Usage
    ensures { result ≡ usage_of_ends usage kind }
{
    match usage {
        Usage::Used => Usage::Used,
        Usage::Unused => match kind {
            Some(Kind::Void) => Usage::Unused,
            Some(Kind::Value(_)) | None => Usage::Used,
        },
    }
}

/// A conditional, behind its test and its ends, which are used so.
#[tactic(auto, unfolding(c_core_rules::specs::Acts::chosen_for))]
pub(crate) fn chosen_for(
    cells: &mut Cells,
    origin: u32,
    usage: Usage,
    ends: Usage,
    test: Valued,
    yes: Valued,
    no: Valued,
) -> Result<Valued, AllocError>
    ensures taken { OnOk result (so_far cells.new
        ≡ (chosen_for origin usage ends test yes no (so_far cells.old)).taken) }
    ensures made { IfOk result (λ v. v
        ≡ (chosen_for origin usage ends test yes no (so_far cells.old)).made) }
{
    match ends {
        Usage::Used => {
            let v = chosen(cells, origin, test, yes, no)?;
            finished(cells, origin, usage, v)
        }
        Usage::Unused => {
            let alloc = cells.alloc();
            let statements = chosen_unused(
                alloc,
                origin,
                test,
                statements_of(yes),
                statements_of(no),
            )?;
            unvalued(alloc, statements)
        }
    }
}

/// A test, and a choice by it between statements.
pub fn chosen_unused(
    alloc: Global,
    origin: u32,
    test: Valued,
    yes: Seq<CoreTree>,
    no: Seq<CoreTree>,
) -> Result<Seq<CoreTree>, AllocError>
    ensures { IfOk result (λ trees. trees
        ≡ test.statements ++ choice origin test.value yes no ∷ []) }
{
    let tree = choice(alloc, origin, test.value, yes, no)?;
    with(test.statements, tree)
}

//! The core of calls (`call_rule` of `c_core_rules`, `specs/Expressions.antt`).
//! Proved with the lemmas of `proofs/CallForms.antt` and `Lists.antt`.
ghost use Rattle.std.specs.Prelude.{◌≡◌, ◌++◌, ◌∷◌, [], map, OnOk, IfOk};
ghost use Rattle.cpa_model_trees.specs.declared.tree.Head.TheVariants as head;
ghost use Rattle.c_core_rules.specs.Trees.{leaf};
ghost use Rattle.c_core_rules.specs.Cells.{each};
ghost use Rattle.c_core_rules.specs.Acts.{voided};
ghost use Rattle.c_core_rules.specs.Expressions.{taken_in, called_with};
ghost use Rattle.c_lower_values.specs.Found.{so_far};
ghost use Rattle.c_lower_expressions.specs.Rows.{used_by, called_behind, ended, known_alone};
ghost use Rattle.c_lower_expressions.specs.Rows.{is_exit, exit_of, call_of};

use crate::expressions::lowered;
use crate::frames::Frames;
use crate::passing::passed;
use crate::usage::{kept_for, statements_of, voided};
use c_core_rules::{Usage, Valued};
use c_lower_values::{
    Cells, cell_at, divided, hold_all, input, joined, leaf, list_of, number, scalar, with,
};
use c_types_rules::{Function, Kind, KnownFunction, Meaning, TypedExpression};
use cpa_ints::Seq;
use cpa_model_trees::{CoreTree, Head};
use std::alloc::{AllocError, Global};

/// Arguments, in order.
#[cycle(expression)]
#[tactic(auto, using(crate::proofs::Lists::each_more, crate::proofs::Lists::append_none))]
fn each(
    cells: &mut Cells,
    frames: &Frames,
    arguments: &[TypedExpression],
) -> Result<Vec<Valued>, AllocError>
    ensures taken { OnOk result (so_far cells.new
        ≡ (each (map (used_by frames.now) arguments.now) (so_far cells.old)).taken) }
    ensures made { IfOk result (λ vs. vs.items
        ≡ (each (map (used_by frames.now) arguments.now) (so_far cells.old)).made) }
{
    let mut operands = Vec::new(frames.alloc());
    for argument in arguments {
        operands.push(lowered(cells, frames, Usage::Used, argument)?)?;
    }
    Ok(operands)
}

/// A call behind its operands.
fn called_with(
    frames: &Frames,
    origin: u32,
    function: Function,
    operands: Vec<Valued>,
) -> Result<Valued, AllocError>
    ensures { IfOk result (λ v. v ≡ called_with origin frames.now function operands.items) }
{
    let alloc = frames.alloc();
    let body = function.body.unwrap_or(0);
    let (statements, values) = divided(alloc, operands)?;
    let parameters = frames.parameters(body)?;
    let writes = passed(alloc, origin, parameters.first, parameters.objects, values)?;
    let behind = with(writes, leaf(alloc, origin, Head::Call { function: body }))?;
    let statements = joined(statements, behind)?;
    let cell = frames.result_cell(body).base;
    let value = scalar(alloc, cell_at(function.result.object_type(), cell))?;
    Ok(Valued { statements, value })
}

/// A call of a function with a body, behind its arguments.
#[tactic(auto, unfolding(crate::specs::Rows::called_behind))]
fn called_behind(
    cells: &mut Cells,
    origin: u32,
    frames: &Frames,
    usage: Usage,
    function: Function,
    arguments: Vec<Valued>,
) -> Result<Valued, AllocError>
    ensures taken { OnOk result (so_far cells.new
        ≡ (called_behind origin frames.now usage function arguments.items
        (so_far cells.old)).taken) }
    ensures made { IfOk result (λ v. v
        ≡ (called_behind origin frames.now usage function arguments.items
        (so_far cells.old)).made) }
{
    let operands = hold_all(cells, origin, arguments)?;
    let v = called_with(frames, origin, function, operands)?;
    kept_for(frames.alloc(), usage, v)
}

/// An input of a fresh cell.
fn taken_in(cells: &mut Cells, origin: u32, function: KnownFunction) -> Result<Valued, AllocError>
    ensures taken { OnOk result (so_far cells.new
        ≡ (taken_in origin function (so_far cells.old)).taken) }
    ensures made { IfOk result (λ v. v ≡ (taken_in origin function (so_far cells.old)).made) }
{
    let alloc = cells.alloc();
    let place = cells.fresh(function.result().object_type())?;
    let statements = list_of(alloc, input(alloc, origin, place.base))?;
    let value = scalar(alloc, place)?;
    Ok(Valued { statements, value })
}

/// What a known function without a result does.
fn ended(alloc: Global, origin: u32, function: KnownFunction) -> Result<Seq<CoreTree>, AllocError>
    ensures { IfOk result (λ trees. trees ≡ ended origin function) }
{
    match function {
        KnownFunction::ReachError => list_of(alloc, leaf(alloc, origin, Head::Error)),
        _ => list_of(alloc, leaf(alloc, origin, Head::Stop)),
    }
}

/// A call of a known function that evaluates no argument.
fn known_alone(
    cells: &mut Cells,
    origin: u32,
    usage: Usage,
    function: KnownFunction,
) -> Result<Valued, AllocError>
    ensures taken { OnOk result (so_far cells.new
        ≡ (known_alone origin usage function (so_far cells.old)).taken) }
    ensures made { IfOk result (λ v. v
        ≡ (known_alone origin usage function (so_far cells.old)).made) }
{
    let alloc = cells.alloc();
    match function.result() {
        Kind::Void => {
            let statements = ended(alloc, origin, function)?;
            voided(alloc, usage, statements)
        }
        Kind::Value(_) => {
            let v = taken_in(cells, origin, function)?;
            kept_for(alloc, usage, v)
        }
    }
}

/// The end of an execution, behind statements.
fn stopped(
    alloc: Global,
    origin: u32,
    usage: Usage,
    before: Seq<CoreTree>,
) -> Result<Valued, AllocError>
    ensures { IfOk result (λ v. v ≡ voided usage (before ++ leaf origin head.Stop ∷ [])) }
{
    let statements = with(before, leaf(alloc, origin, Head::Stop))?;
    voided(alloc, usage, statements)
}

/// A call of `exit`, whose status is evaluated and not used.
#[cycle(expression)]
#[tactic(auto, using(crate::proofs::CallForms::exit_none, crate::proofs::CallForms::exit_some))]
fn exit_of(
    cells: &mut Cells,
    origin: u32,
    frames: &Frames,
    usage: Usage,
    arguments: &[TypedExpression],
) -> Result<Valued, AllocError>
    ensures taken { OnOk result (so_far cells.new
        ≡ (exit_of origin frames.now usage arguments.now (so_far cells.old)).taken) }
    ensures made { IfOk result (λ v. v
        ≡ (exit_of origin frames.now usage arguments.now (so_far cells.old)).made) }
{
    let alloc = frames.alloc();
    match arguments {
        [] => stopped(alloc, origin, usage, Seq::new(alloc)),
        [first, ..] => {
            let status = lowered(cells, frames, Usage::Unused, first)?;
            stopped(alloc, origin, usage, statements_of(status))
        }
    }
}

/// Whether a known function is `exit`.
fn is_exit(function: KnownFunction) -> bool
    ensures { result ≡ is_exit function }
{
    match function {
        KnownFunction::Exit => true,
        _ => false,
    }
}

/// A call of what a name stands for.
#[cycle(expression)]
#[tactic(auto, using(crate::proofs::CallForms::call_of_rules))]
pub(crate) fn call_of(
    cells: &mut Cells,
    origin: u32,
    frames: &Frames,
    usage: Usage,
    found: Option<Meaning>,
    arguments: &[TypedExpression],
) -> Result<Valued, AllocError>
    ensures taken { OnOk result (so_far cells.new
        ≡ (call_of origin frames.now usage found arguments.now (so_far cells.old)).taken) }
    ensures made { IfOk result (λ v. v
        ≡ (call_of origin frames.now usage found arguments.now (so_far cells.old)).made) }
{
    match found {
        Some(Meaning::Function(function)) => {
            let values = each(cells, frames, arguments)?;
            called_behind(cells, origin, frames, usage, function, values)
        }
        Some(Meaning::Known(function)) => {
            if is_exit(function) {
                exit_of(cells, origin, frames, usage, arguments)
            } else {
                known_alone(cells, origin, usage, function)
            }
        }
        Some(Meaning::Object(_)) | Some(Meaning::Enumerator(_)) | None => {
            number(frames.alloc(), 0)
        }
    }
}

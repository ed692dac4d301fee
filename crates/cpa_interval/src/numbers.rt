//! The numbers next to the constants of an automaton, by `specs/Numbers.antt`.

ghost use Rattle.std.specs.Prelude.{◌≡◌, ◌++◌, IfOk, OnOk};
ghost use Rattle.cpa_expr.specs.declared.tree.Expr.{out-Expr};
ghost use Rattle.cpa_expr.specs.Shape.{parts};
ghost use Rattle.cpa_interval.specs.Numbers.{neighbours, near_of, near_parts, near_act};
ghost use Rattle.cpa_interval.specs.Numbers.{near_along, near};

use cpa_expr::{Expr, Parts, parts_of};
use cpa_model::{Act, Cfa, Edge};
use std::alloc::{AllocError, Global};

/// Each constant of the automaton's acts, with the number before it and the one behind it, in the
/// order of the edges. It takes time in the sizes of all expressions.
pub fn near_numbers(alloc: Global, cfa: &Cfa) -> Result<Vec<i128>, AllocError>
    ensures { IfOk result (λ numbers. numbers.items ≡ near cfa.now) }
{
    let mut numbers = Vec::new(alloc);
    push_edges(&mut numbers, cfa.edges.as_slice())?;
    Ok(numbers)
}

/// Adds those of the edges.
fn push_edges(numbers: &mut Vec<i128>, edges: &[Edge]) -> Result<(), AllocError>
    ensures { OnOk result (numbers.new.items ≡ numbers.old.items ++ near_along edges.now) }
{
    for edge in edges {
        push_act(numbers, &edge.act)?;
    }
    Ok(())
}

/// Adds those of an act.
fn push_act(numbers: &mut Vec<i128>, act: &Act) -> Result<(), AllocError>
    ensures { OnOk result (numbers.new.items ≡ numbers.old.items ++ near_act act.now) }
{
    match act {
        Act::Assign { index, value, .. } => {
            push_expr(numbers, index)?;
            push_expr(numbers, value)
        }
        Act::Assume { test, .. } => push_expr(numbers, test),
        _ => Ok(()),
    }
}

/// Adds those of an expression.
#[cycle(pushing)]
fn push_expr(numbers: &mut Vec<i128>, e: &Expr) -> Result<(), AllocError>
    ensures { OnOk result (numbers.new.items ≡ numbers.old.items ++ near_of e.now) }
{
    match e {
        Expr::Const { value, .. } => push_neighbours(numbers, *value),
        _ => push_parts(numbers, e),
    }
}

/// Adds those of the parts of an expression, from left to right.
#[cycle(pushing)]
fn push_parts(numbers: &mut Vec<i128>, e: &Expr) -> Result<(), AllocError>
    ensures { OnOk result
        (numbers.new.items ≡ numbers.old.items ++ near_parts (parts (out-Expr e.now))) }
{
    match parts_of(e) {
        Parts::None => Ok(()),
        Parts::One(part) => push_expr(numbers, part),
        Parts::Two(left, right) => {
            push_expr(numbers, left)?;
            push_expr(numbers, right)
        }
        Parts::Three(test, yes, no) => {
            push_expr(numbers, test)?;
            push_expr(numbers, yes)?;
            push_expr(numbers, no)
        }
    }
}

/// Adds a constant with the numbers next to it, which stop where 128 bits end.
fn push_neighbours(numbers: &mut Vec<i128>, constant: i128) -> Result<(), AllocError>
    ensures { OnOk result (numbers.new.items ≡ numbers.old.items ++ neighbours constant) }
{
    numbers.push(constant.saturating_sub(1))?;
    numbers.push(constant)?;
    numbers.push(constant.saturating_add(1))?;
    Ok(())
}

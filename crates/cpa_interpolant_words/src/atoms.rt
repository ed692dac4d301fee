//! What a path is made of: the comparisons of which its tests are put together, and the numbers
//! that stand in it. Nothing is promised of them.

ghost use Rattle.std.specs.Prelude.{◌<◌, length};
ghost use Rattle.std.specs.List.{AllByRecursion};

use crate::nodes::{denied, push_new};
use cpa_expr::{Expr, Parts, copied, parts_of};
use cpa_model::{Act, Cfa};
use std::alloc::{AllocError, Global};

/// The most comparisons that are gathered from a path, and the most numbers.
const MAX_GATHERED: usize = 64;

/// What is gathered from a path.
#[derive(Drop)]
pub(crate) struct Gathered {
    /// The comparisons and reads of which tests are put together, each followed by its denial.
    pub(crate) tests: Vec<Expr>,
    /// The numbers.
    pub(crate) numbers: Vec<i128>,
}

/// Adds the expression and its denial, if they are not there.
fn push_both(alloc: Global, tests: &mut Vec<Expr>, e: &Expr) -> Result<(), AllocError> {
    if MAX_GATHERED <= tests.len() {
        return Ok(());
    }
    let own = copied(alloc, e)?;
    push_new(alloc, tests, own)?;
    let other = denied(alloc, e)?;
    push_new(alloc, tests, other)
}

/// Adds the comparisons of which a test is put together, and what is read besides.
#[cycle(leaves)]
fn push_tests(alloc: Global, tests: &mut Vec<Expr>, e: &Expr) -> Result<(), AllocError> {
    match e {
        Expr::Cmp { .. } | Expr::Read { .. } => push_both(alloc, tests, e),
        Expr::Const { .. } | Expr::Un { .. } | Expr::Bin { .. } => Ok(()),
        Expr::Cast { .. }
        | Expr::And { .. }
        | Expr::Or { .. }
        | Expr::Not { .. }
        | Expr::Cond { .. } => push_tests_of_parts(alloc, tests, e),
    }
}

/// Adds those of the parts.
#[cycle(leaves)]
fn push_tests_of_parts(alloc: Global, tests: &mut Vec<Expr>, e: &Expr) -> Result<(), AllocError> {
    match parts_of(e) {
        Parts::None => Ok(()),
        Parts::One(part) => push_tests(alloc, tests, part),
        Parts::Two(left, right) => {
            push_tests(alloc, tests, left)?;
            push_tests(alloc, tests, right)
        }
        Parts::Three(test, yes, no) => {
            push_tests(alloc, tests, test)?;
            push_tests(alloc, tests, yes)?;
            push_tests(alloc, tests, no)
        }
    }
}

/// Adds the number, if it is not there.
fn push_number(numbers: &mut Vec<i128>, number: i128) -> Result<(), AllocError> {
    if numbers.contains(&number) || MAX_GATHERED <= numbers.len() {
        return Ok(());
    }
    numbers.push(number)?;
    Ok(())
}

/// Adds the numbers that stand in the expression.
#[cycle(numbers)]
fn push_numbers(numbers: &mut Vec<i128>, e: &Expr) -> Result<(), AllocError> {
    match e {
        Expr::Const { value, .. } => push_number(numbers, *value),
        _ => push_numbers_of_parts(numbers, e),
    }
}

/// Adds those of the parts.
#[cycle(numbers)]
fn push_numbers_of_parts(numbers: &mut Vec<i128>, e: &Expr) -> Result<(), AllocError> {
    match parts_of(e) {
        Parts::None => Ok(()),
        Parts::One(part) => push_numbers(numbers, part),
        Parts::Two(left, right) => {
            push_numbers(numbers, left)?;
            push_numbers(numbers, right)
        }
        Parts::Three(test, yes, no) => {
            push_numbers(numbers, test)?;
            push_numbers(numbers, yes)?;
            push_numbers(numbers, no)
        }
    }
}

/// Whether the expression is a truth put together of others.
fn is_truth(e: &Expr) -> bool {
    match e {
        Expr::Cmp { .. } | Expr::And { .. } | Expr::Or { .. } | Expr::Not { .. } => true,
        Expr::Cast { arg, .. } => match arg.get() {
            Expr::Cmp { .. } | Expr::And { .. } | Expr::Or { .. } | Expr::Not { .. } => true,
            _ => false,
        },
        _ => false,
    }
}

/// Adds what stands in the act.
fn gather(alloc: Global, gathered: &mut Gathered, act: &Act) -> Result<(), AllocError> {
    match act {
        Act::Assume { test, .. } => {
            push_tests(alloc, &mut gathered.tests, test)?;
            push_numbers(&mut gathered.numbers, test)
        }
        Act::Assign { value, .. } => {
            if is_truth(value) {
                push_tests(alloc, &mut gathered.tests, value)?;
            }
            push_numbers(&mut gathered.numbers, value)
        }
        Act::Skip | Act::Input { .. } | Act::Call { .. } | Act::Return { .. } => Ok(()),
    }
}

/// What stands in the edges of a path, from its last edge on.
pub(crate) fn gathered_along(
    alloc: Global,
    cfa: &Cfa,
    edges: &[u32],
) -> Result<Gathered, AllocError>
    requires path { AllByRecursion (λ edge. edge < length cfa.now.edges) edges.now }
{
    let mut gathered = Gathered {
        tests: Vec::new(alloc),
        numbers: Vec::new(alloc),
    };
    let mut place = edges.len();
    while 0 < place {
        place -= 1;
        gather(alloc, &mut gathered, &cfa.edge(edges[place]).act)?;
    }
    Ok(gathered)
}

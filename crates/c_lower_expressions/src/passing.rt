//! Writes of values to parameters (`passed` of `c_core_rules`, `specs/Expressions.antt`). Proved
//! with `proofs/ParameterWrites.antt`.
ghost use Rattle.std.specs.Prelude.{◌≡◌, ◌+◌, IfOk};
ghost use Rattle.c_core_rules.specs.Expressions.{passed, cells_from};

use c_lower_values::{cell_at, set};
use c_types_rules::{Object, cells_of};
use cpa_expr::Expr;
use cpa_ints::{Boxed, Seq};
use cpa_model_trees::CoreTree;
use std::alloc::{AllocError, Global};

/// The cell behind so many others.
pub fn cell_behind(first: u32, count: u128) -> Result<u32, AllocError>
    ensures { IfOk result (λ cell. cell ≡ first + count) }
{
    let cell = u128::from(first).checked_add(count).ok_or(AllocError)?;
    u32::try_from(cell).ok().ok_or(AllocError)
}

/// Writes of values to parameters, as far as there are both.
#[tactic(auto, using(crate::proofs::ParameterWrites::passed_rules))]
pub fn passed(
    alloc: Global,
    origin: u32,
    first: u32,
    objects: &[Object],
    values: Vec<Boxed<Expr>>,
) -> Result<Seq<CoreTree>, AllocError>
    ensures { IfOk result (λ trees. trees
        ≡ passed origin (cells_from first objects.now) values.items) }
{
    let mut trees = Seq::new(alloc);
    let mut first = first;
    let mut objects = objects;
    for v in values {
        let [object, more @ ..] = objects else {
            return Ok(trees);
        };
        let tree = set(alloc, origin, cell_at(object.ty, first), v)?;
        trees.push(tree)?;
        first = cell_behind(first, cells_of(*object))?;
        objects = more;
    }
    Ok(trees)
}

//! What is read off a model of a form's query, by specs/Forms of `cpa_form_rules`.
//! Proved by the checker alone.

ghost use Rattle.std.specs.Prelude.{◌≡◌, map, take, IfOk};
ghost use Rattle.cpa_form_rules.specs.Forms.{value_in};

use cpa_form_renaming::Place;
use std::alloc::{AllocError, Global};

/// The value of a cell of the query.
fn value_in(values: &[i128], number: u32) -> i128
    ensures { result ≡ value_in values.now number }
{
    match values.get(number as usize) {
        Some(value) => *value,
        None => 0,
    }
}

/// The values of cells, in order.
pub(crate) fn values_at(
    alloc: Global,
    numbers: &[u32],
    values: &[i128],
) -> Result<Vec<i128>, AllocError>
    ensures { IfOk result (λ vs. vs.items ≡ map (value_in values.now) numbers.now) }
{
    numbers
        .iter()
        .map(|number| value_in(values, *number))
        .collect(alloc)
}

/// The values at places, in order.
pub(crate) fn present_values(
    alloc: Global,
    places: &[Place],
    values: &[i128],
) -> Result<Vec<i128>, AllocError>
    ensures { IfOk result (λ vs. vs.items
        ≡ map (λ place. value_in values.now place.number) places.now) }
{
    places
        .iter()
        .map(|place| value_in(values, place.number))
        .collect(alloc)
}

/// So many first values, as far as there are any.
pub(crate) fn first_values(
    alloc: Global,
    count: usize,
    values: &[i128],
) -> Result<Vec<i128>, AllocError>
    ensures { IfOk result (λ vs. vs.items ≡ take count values.now) }
{
    values[..count.min(values.len())].to_vec(alloc)
}

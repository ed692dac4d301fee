//! The least place of a call that leads back (`LeadsBack` of `specs/Recursion.antt` of
//! `c_types_rules`). Proved in proofs/Circles.
ghost use Rattle.std.specs.Prelude.{◌≡◌, IfOk};
ghost use Rattle.std.specs.List.{All, filter};
ghost use Rattle.std.specs.List.Sorted.{IsNonDecreasingBy};
ghost use Rattle.c_types_rules.specs.Recursion.{Among, LeadsBack};
ghost use Rattle.c_types_recursion.specs.Least.{FindsLeast};
ghost use Rattle.c_types_recursion.specs.Marks.{IsWithin, HasCircular, is_level};

use crate::Call;
use crate::links::{Links, at};
use crate::ranks::ranks_of;
use crate::reach::{bodies_of, is_circular};
use std::alloc::{AllocError, Global};

/// Whether both bodies of a call have one rank.
fn is_level(ranks: &[usize], call: &Call) -> bool
    ensures { result ≡ is_level ranks.now call.now }
{
    at(ranks, call.caller as usize) == at(ranks, call.callee as usize)
}

/// The calls that join two bodies of one rank.
fn level_calls(alloc: Global, ranks: &[usize], calls: &[Call]) -> Result<Vec<Call>, AllocError>
    ensures { IfOk result (λ found. found.items ≡ filter (is_level ranks.now) calls.now) }
{
    calls
        .iter()
        .copied()
        .filter(|call| is_level(ranks, call))
        .collect(alloc)
}

/// The calls that can lead back, by their places.
fn candidates(
    alloc: Global,
    bodies: usize,
    calls: &[Call],
    links: &Links,
) -> Result<Vec<Call>, AllocError>
    ensures some { IfOk result (λ found. All (λ call. Among call calls.now) found.items) }
    ensures each { IfOk result (λ found. HasCircular calls.now found.items) }
    ensures order { IfOk result (λ found. IsNonDecreasingBy (λ call. call.place) found.items) }
{
    let ranks = ranks_of(alloc, bodies, calls, links)?;
    let mut found = level_calls(alloc, &ranks, calls)?;
    found.sort_by_key(|call| call.place)?;
    Ok(found)
}

/// The place of the first of these calls that leads back.
fn first_circular(
    alloc: Global,
    bodies: usize,
    calls: &[Call],
    links: &Links,
    found: &[Call],
) -> Result<Option<u32>, AllocError>
    requires within { All (IsWithin bodies) calls.now }
    requires some { All (λ call. Among call calls.now) found.now }
    requires each { HasCircular calls.now found.now }
    requires order { IsNonDecreasingBy (λ call. call.place) found.now }
    ensures { IfOk result (FindsLeast (LeadsBack calls.now)) }
{
    for call in found {
        let leads_back = is_circular(alloc, bodies, calls, links, call)?;
        if leads_back {
            return Ok(Some(call.place));
        }
    }
    Ok(None)
}

/// The least place of a call whose called function reaches the one in which the call stands. It
/// takes memory in the greatest number of a body.
pub fn least_leading_back(alloc: Global, calls: &[Call]) -> Result<Option<u32>, AllocError>
    ensures { IfOk result (FindsLeast (LeadsBack calls.now)) }
{
    let bodies = bodies_of(calls);
    let links = Links::new(alloc, bodies, calls)?;
    let found = candidates(alloc, bodies, calls, &links)?;
    first_circular(alloc, bodies, calls, &links, &found)
}

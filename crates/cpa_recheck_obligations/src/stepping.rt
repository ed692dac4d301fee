//! Where an edge leads from a spot, by `specs/Obligations.antt` and `specs/Forms.antt`.
//! Proved with `proofs/stepping/`.

ghost use Rattle.std.specs.Prelude.{◌≡◌, IfOk, is_some};
ghost use Rattle.cpa_model.specs.Stacks.{popped};
ghost use Rattle.cpa_recheck_obligations.specs.Forms.{behind};
ghost use Rattle.cpa_recheck_obligations.specs.Obligations.{leaves, stack_behind};

use crate::spots::{Spot, permits};
use cpa_model::{Act, Edge, Seq, step_stack};
use std::alloc::{AllocError, Global};

/// Whether the site is on top of the stack.
fn is_on_top(sites: &[u32], site: u32) -> bool
    ensures { result ≡ is_some (popped site sites.now) }
{
    match sites.split_last() {
        None => false,
        Some((top, _)) => *top == site,
    }
}

/// Whether the act can be done with the stack that is said. It takes no memory.
fn is_possible(act: &Act, stack: &Option<Seq<u32>>) -> bool
    ensures { result ≡ is_some (stack_behind act.now stack.now) }
{
    match (act, stack) {
        (Act::Return { site }, Some(sites)) => is_on_top(sites.as_slice(), *site),
        _ => true,
    }
}

/// Whether the edge can be taken from some state of the spot, by its point and its stack. It takes
/// no memory.
pub(crate) fn leaves(spot: &Spot, edge: &Edge) -> bool
    ensures { result ≡ leaves spot.now edge.now }
{
    permits(spot.point, edge.from) && is_possible(&edge.act, &spot.stack)
}

/// The stack behind the act, where one is said; None where the act is not possible with it.
fn stack_behind(
    alloc: Global,
    act: &Act,
    stack: &Option<Seq<u32>>,
) -> Result<Option<Option<Seq<u32>>>, AllocError>
    ensures { IfOk result (λ then. then ≡ stack_behind act.now stack.now) }
{
    match stack {
        None => Ok(Some(None)),
        Some(sites) => {
            let mut sites = sites.as_slice().to_vec(alloc)?;
            let done = step_stack(act, &mut sites)?;
            if done {
                Ok(Some(Some(Seq::from_vec(sites))))
            } else {
                Ok(None)
            }
        }
    }
}

/// The spot behind the edge; None where the edge is not possible from this one. It fails only where
/// memory runs out.
pub fn behind(alloc: Global, edge: &Edge, spot: &Spot) -> Result<Option<Spot>, AllocError>
    ensures { IfOk result (λ then. then ≡ behind edge.now spot.now) }
{
    let then = stack_behind(alloc, &edge.act, &spot.stack)?;
    match then {
        None => Ok(None),
        Some(stack) => Ok(Some(Spot {
            point: Some(edge.to),
            stack,
        })),
    }
}

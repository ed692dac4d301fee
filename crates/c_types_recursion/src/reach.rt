//! Which bodies a body reaches (`Reaches` of `specs/Recursion.antt` of `c_types_rules`): marks, put
//! through one call after another until they are closed. Proved in proofs/Marks.
ghost use Rattle.std.specs.Prelude.{◌≡◌, ℕ, ◌+◌, ◌<◌, ◌≤◌, ◌↔◌, ◌&&◌, not, true, false};
ghost use Rattle.std.specs.Prelude.{length, slice_set, replicate, IfOk, IsTrue, if◌then◌else◌};
ghost use Rattle.std.specs.List.{All};
ghost use Rattle.c_types_rules.specs.Recursion.{Reaches};
ghost use Rattle.c_types_recursion.specs.Marks.{IsWithin, is_marked, IsMarked, unmarked, Keeps};
ghost use Rattle.c_types_recursion.specs.Marks.{Grows, IsClosed, IsCircular};

use crate::Call;
use crate::links::Links;
use std::alloc::{AllocError, Global};

/// How many bodies there are at least, one of this number among them.
fn with_body(bodies: usize, body: u32) -> usize
    ensures kept { bodies ≤ result }
    ensures above { body < result }
{
    if bodies <= body as usize {
        body as usize + 1
    } else {
        bodies
    }
}

/// How many bodies there are at least, by the numbers in calls.
pub(crate) fn bodies_of(calls: &[Call]) -> usize
    ensures { All (IsWithin result) calls.now }
{
    let mut bodies = 0;
    for call in calls {
        bodies = with_body(with_body(bodies, call.caller), call.callee);
    }
    bodies
}

/// Marks what a marked body calls, and says whether it was not marked yet.
fn mark(seen: &mut [bool], call: &Call) -> bool
    requires { IsWithin (length seen.old) call.now }
    ensures fresh { result ≡ (is_marked seen.old call.now.caller
        && not (is_marked seen.old call.now.callee)) }
    ensures marked { seen.new
        ≡ (if result then slice_set seen.old call.now.callee true else seen.old) }
{
    let is_fresh = seen[call.caller as usize] && !seen[call.callee as usize];
    if is_fresh {
        seen[call.callee as usize] = true;
    }
    is_fresh
}

/// Puts the marks through each call once, and says whether that made one.
#[tactic(auto, using(crate::proofs::Marks::passed_step, crate::proofs::Marks::closed_all))]
fn pass(seen: &mut [bool], calls: &[Call]) -> bool
    requires { All (IsWithin (length seen.old)) calls.now }
    ensures kept { Keeps seen.old seen.new }
    ensures grown { Grows calls.now seen.old seen.new }
    ensures closed { result ≡ false → IsClosed calls.now seen.new }
    ensures fewer { unmarked seen.new + (if result then 1 else 0) ≤ unmarked seen.old }
{
    let mut changed = false;
    for call in calls {
        let is_fresh = mark(seen, call);
        changed |= is_fresh;
    }
    changed
}

/// Marks what a body calls, and lists what was not marked yet.
fn follow(
    calls: &[Call],
    links: &Links,
    seen: &mut [bool],
    body: usize,
    found: &mut Vec<usize>,
) -> Result<(), AllocError>
    requires { All (IsWithin (length seen.old)) calls.now }
    ensures kept { Keeps seen.old seen.new }
    ensures grown { Grows calls.now seen.old seen.new }
{
    let mut link = links.first(body);
    for _ in calls {
        let Some((call, next)) = links.call(calls, link) else {
            break;
        };
        if mark(seen, call) {
            found.push(call.callee as usize)?;
        }
        link = next;
    }
    Ok(())
}

/// Marks what a marked body reaches, one body after another. That none is left out, `pass` sees.
fn explore(
    alloc: Global,
    calls: &[Call],
    links: &Links,
    seen: &mut [bool],
    start: usize,
) -> Result<(), AllocError>
    requires { All (IsWithin (length seen.old)) calls.now }
    ensures kept { Keeps seen.old seen.new }
    ensures grown { Grows calls.now seen.old seen.new }
{
    let mut found = Vec::new(alloc);
    found.push(start)?;
    for _ in 0..seen.len() {
        let Some(body) = found.pop() else {
            break;
        };
        follow(calls, links, seen, body, &mut found)?;
    }
    Ok(())
}

/// One mark, on this body.
fn marked(alloc: Global, bodies: usize, start: usize) -> Result<Vec<bool>, AllocError>
    requires { start < bodies }
    ensures { IfOk result (λ seen. seen.items ≡ slice_set (replicate bodies false) start true) }
{
    let mut seen = vec![in alloc; false; bodies]?;
    seen[start] = true;
    Ok(seen)
}

/// Marks the bodies that a body reaches.
fn reached(
    alloc: Global,
    bodies: usize,
    calls: &[Call],
    links: &Links,
    start: usize,
) -> Result<Vec<bool>, AllocError>
    requires within { All (IsWithin bodies) calls.now }
    requires start { start < bodies }
    ensures len { IfOk result (λ seen. length seen.items ≡ bodies) }
    ensures marked { IfOk result (λ seen.
        (body : ℕ) → IsMarked seen.items body ↔ Reaches calls.now start body) }
{
    let mut seen = marked(alloc, bodies, start)?;
    explore(alloc, calls, links, &mut seen, start)?;
    let mut changed = true;
    while changed {
        changed = pass(&mut seen, calls);
    }
    Ok(seen)
}

/// Whether the called function of a call reaches the one in which the call stands.
pub(crate) fn is_circular(
    alloc: Global,
    bodies: usize,
    calls: &[Call],
    links: &Links,
    call: &Call,
) -> Result<bool, AllocError>
    requires within { All (IsWithin bodies) calls.now }
    requires one { IsWithin bodies call.now }
    ensures { IfOk result (λ circular. IsTrue circular ↔ IsCircular calls.now call.now) }
{
    let seen = reached(alloc, bodies, calls, links, call.callee as usize)?;
    Ok(seen[call.caller as usize])
}

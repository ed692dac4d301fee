//! What an act does to a stack of call sites, by `stack_after` of `specs/Stacks.antt`; shown in
//! `specs/lemmas/Stacks.antt`.
ghost use Rattle.std.specs.Prelude.{◌≡◌, None, Some, IfOk, false, if◌then◌else◌};
ghost use Rattle.cpa_model.specs.Stacks.{popped, stack_after};

use crate::automaton::Act;
use std::alloc::AllocError;

/// Does to the stack what the act does, or answers `false` where the act cannot be done: a return
/// to another site than the one on top. It fails only where memory runs out.
pub fn step_stack(act: &Act, sites: &mut Vec<u32>) -> Result<bool, AllocError>
    ensures after { IfOk result (λ done. (if done then Some sites.new.items else None)
        ≡ stack_after act.now sites.old.items) }
    ensures kept { IfOk result (λ done. done ≡ false → sites.new.items ≡ sites.old.items) }
{
    match act {
        Act::Call { site } => {
            sites.push(*site)?;
            Ok(true)
        }
        Act::Return { site } => Ok(pop_site(sites, *site)),
        _ => Ok(true),
    }
}

/// Takes the top off the stack where it is this site.
fn pop_site(sites: &mut Vec<u32>, site: u32) -> bool
    ensures after { (if result then Some sites.new.items else None)
        ≡ popped site sites.old.items }
    ensures kept { result ≡ false → sites.new.items ≡ sites.old.items }
{
    match sites.split_last() {
        None => false,
        Some((top, _)) => {
            if *top == site {
                sites.pop();
                true
            } else {
                false
            }
        }
    }
}

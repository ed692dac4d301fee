//! The calls of each body, as chains of their numbers. No clause speaks of what stands in a chain:
//! it only says what is to be tried next.
ghost use Rattle.std.specs.Prelude.{◌≡◌, slice_index, IfSome};
ghost use Rattle.c_types_rules.specs.Recursion.{Among};

use crate::Call;
use std::alloc::{AllocError, Global};

/// Chains of calls. A link is the number of a call and one, or 0 at the end of a chain.
#[derive(Drop)]
pub(crate) struct Links {
    /// The first link of each body.
    firsts: Vec<usize>,
    /// The link behind each call.
    nexts: Vec<usize>,
}

/// What stands at a place, or 0 past the end.
pub(crate) fn at(table: &[usize], place: usize) -> usize
    ensures { result ≡ slice_index table.now place }
{
    match table.get(place) {
        Some(number) => *number,
        None => 0,
    }
}

/// Puts a number at a place, if it is one.
pub(crate) fn put(table: &mut [usize], place: usize, number: usize) {
    if let Some(entry) = table.get_mut(place) {
        *entry = number;
    }
}

impl Links {
    /// The chains of these calls.
    pub(crate) fn new(alloc: Global, bodies: usize, calls: &[Call]) -> Result<Links, AllocError> {
        let mut firsts = vec![in alloc; 0; bodies]?;
        let mut nexts = Vec::new(alloc);
        for (number, call) in calls.iter().enumerate() {
            nexts.push(at(&firsts, call.caller as usize))?;
            put(&mut firsts, call.caller as usize, number + 1);
        }
        Ok(Links { firsts, nexts })
    }

    /// The first link of a body.
    pub(crate) fn first(&self, body: usize) -> usize {
        at(&self.firsts, body)
    }

    /// The call of a link, and the link behind it.
    pub(crate) fn call<'a>(&self, calls: &'a [Call], link: usize) -> Option<(&'a Call, usize)>
        ensures { IfSome result (λ found. Among found.0.now calls.now) }
    {
        let number = link.checked_sub(1)?;
        let call = calls.get(number)?;
        Some((call, at(&self.nexts, number)))
    }
}

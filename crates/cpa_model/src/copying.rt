//! Copies of elements, equal to what they copy.
ghost use Rattle.std.specs.Prelude.{◌≡◌, IfOk};

use crate::facts::Elem;
use std::alloc::AllocError;

/// An equal element, which shares the facts: it takes no memory, and fails only where so many share
/// them that they can't be counted.
pub fn copy_elem(elem: &Elem) -> Result<Elem, AllocError>
    ensures { IfOk result (λ e. e ≡ elem.now) }
{
    Ok(Elem {
        facts: elem.facts.share()?,
    })
}

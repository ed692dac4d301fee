//! Lists that take little more room than their items. Each call keeps the items, by the checker
//! alone.

ghost use Rattle.std.specs.Prelude.{◌≡◌, ◌<◌, vec_len, vec_capacity, OnOk};

use cpa_ints::Seq;
use std::alloc::AllocError;

/// Room for one item more. A list that is full grows by an eighth, so that few places stay empty.
pub(crate) fn reserve_one<T>(items: &mut Vec<T>) -> Result<(), AllocError>
    ensures items { items.new.items ≡ items.old.items }
    ensures room { OnOk result (vec_len items.new < vec_capacity items.new) }
{
    if items.len() < items.capacity() {
        return Ok(());
    }
    items.reserve_exact(items.len() / 8 + 1)
}

/// The list of these items, in a place of their size.
pub(crate) fn trimmed<T: Drop>(items: Vec<T>) -> Seq<T>
    ensures { result ≡ items.items }
{
    let mut items = items;
    items.shrink_to_fit();
    Seq::from_vec(items)
}

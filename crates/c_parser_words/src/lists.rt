//! Lists that take no more room than their items. Proved by the checker alone.
ghost use Rattle.std.specs.Prelude.{◌≡◌};

use cpa_ints::Seq;

/// The same list in a place of its size: one that has grown item by item has up to twice the room.
pub fn trimmed<T: Drop>(items: Seq<T>) -> Seq<T>
    ensures { result ≡ items }
{
    let mut all = items.into_vec();
    all.shrink_to_fit();
    Seq::from_vec(all)
}

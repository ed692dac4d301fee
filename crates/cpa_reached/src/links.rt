//! What is kept of each entry beside it: how deep it lies, and who names it. `specs/Kept.antt` says
//! what holds of it.

ghost use Rattle.std.specs.Prelude.{◌≡◌, ℕ, ◌<◌, true, Some, length, slice_get, vec_capacity};
ghost use Rattle.std.specs.Prelude.{vec_len};
ghost use Rattle.std.specs.Prelude.{OnOk, OnErr};
ghost use Rattle.cpa_model.specs.Ascending.{AreAscending};
ghost use Rattle.cpa_reached.specs.Kept.{at_link, lists, link_numbers, depth_of};
ghost use Rattle.cpa_reached.specs.Kept.{is_named_by};
ghost use Rattle.cpa_reached.specs.Members.{is_in};

use cpa_iface::FewNumbers;
use std::alloc::AllocError;

/// What is kept of an entry.
#[derive(Drop)]
pub(crate) struct Link {
    /// The entry's number.
    pub(crate) number: u32,
    /// How many entries lie above it by parents.
    pub(crate) depth: u32,
    /// All entries that name it as their parent or in their uses, and maybe some that did.
    pub(crate) namers: FewNumbers,
}

/// Notes that an entry names the one at this place. Where memory runs out nothing has changed.
pub(crate) fn name_at(links: &mut Vec<Link>, place: usize, by: u32) -> Result<(), AllocError>
    requires ascend { AreAscending (link_numbers links.old.items) }
    requires within { place < length links.old.items }
    ensures ok { (n : ℕ) → slice_get (link_numbers links.old.items) place ≡ Some n
        → OnOk result (links.new.items ≡ at_link n (lists by) links.old.items) }
    ensures err { OnErr result (links.new.items ≡ links.old.items) }
    ensures len { vec_len links.new ≡ vec_len links.old }
    ensures capacity { vec_capacity links.new ≡ vec_capacity links.old }
{
    links[place].namers.push(by)
}

/// How deep the entry at this place lies.
pub(crate) fn depth_at(links: &[Link], place: usize) -> u32
    requires ascend { AreAscending (link_numbers links.now) }
    requires within { place < length links.now }
    ensures { (n : ℕ) → slice_get (link_numbers links.now) place ≡ Some n
        → result ≡ depth_of n links.now }
{
    links[place].depth
}

/// The numbers of those that are listed as naming the entry at this place.
pub(crate) fn namers_at(links: &[Link], place: usize) -> &[u32]
    requires ascend { AreAscending (link_numbers links.now) }
    requires within { place < length links.now }
    ensures { (n m : ℕ) → slice_get (link_numbers links.now) place ≡ Some n
        → is_named_by links.now n m ≡ true → is_in m result.now ≡ true }
{
    links[place].namers.as_slice()
}

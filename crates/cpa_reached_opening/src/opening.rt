//! The tests of one entry, and what is left of it: `specs/Opening.antt`, shown in
//! `proofs/Waiting.antt`.

ghost use Rattle.std.specs.Prelude.{◌≡◌, IsTrue, ◌↔◌};
ghost use Rattle.std.specs.List.{list_any};
ghost use Rattle.cpa_model.specs.Ascending.{AreAscending};
ghost use Rattle.cpa_reached_opening.specs.Members.{is_in};
ghost use Rattle.cpa_reached_opening.specs.Opening.{WaitsAgain, is_opened, opened, waits_again};

use cpa_iface::{Entry, FewNumbers};
use std::alloc::Global;

/// Whether the number is one of these, by halving.
pub fn is_gone(gone: &[u32], number: u32) -> bool
    requires { AreAscending gone.now }
    ensures { result ≡ is_in number gone.now }
{
    gone.binary_search(&number).is_ok()
}

/// Whether one of the uses is among those that go.
fn uses_gone(uses: &[u32], gone: &[u32]) -> bool
    requires { AreAscending gone.now }
    ensures { result ≡ list_any (λ n. is_in n gone.now) uses.now }
{
    uses.iter().any(|used| is_gone(gone, *used))
}

/// Whether an entry that is kept waits again: it is the pivot, or it used an entry that goes.
fn is_opened(entry: &Entry, gone: &[u32], pivot: u32) -> bool
    requires { AreAscending gone.now }
    ensures { result ≡ is_opened gone.now pivot entry.now }
{
    entry.number == pivot || uses_gone(entry.uses.as_slice(), gone)
}

/// Whether the entry stays and waits again, where those below the pivot go.
pub fn waits_again(entry: &Entry, gone: &[u32], pivot: u32) -> bool
    requires { AreAscending gone.now }
    ensures value { result ≡ waits_again gone.now pivot entry.now }
    ensures means { IsTrue result ↔ WaitsAgain gone.now pivot entry.now }
{
    !is_gone(gone, entry.number) && is_opened(entry, gone, pivot)
}

/// The entry waits and uses nothing. It takes no memory.
pub fn open_entry(entry: &mut Entry, alloc: Global)
    ensures { entry.new ≡ opened entry.old }
{
    entry.uses = FewNumbers::new(alloc);
    entry.waiting = true;
}

//! The way up from an entry, by parents. What a path is stands in `specs/Paths.antt`.
//! Proved with `proofs/Climbing.antt`.

ghost use Rattle.std.specs.Prelude.{◌≡◌, Some, IfOk};
ghost use Rattle.cpa_iface.specs.declared.entries.Entry.{Entry as AnEntry};
ghost use Rattle.cpa_model.specs.Ascending.{AreAscending};
ghost use Rattle.cpa_reached.specs.Members.{IsIn};
ghost use Rattle.cpa_reached.specs.Entries.{numbers, IsLive};
ghost use Rattle.cpa_reached.specs.Kept.{IsTree, HasParent};
ghost use Rattle.cpa_reached.specs.Paths.{IsPathTo};

use crate::finding::{parent_of, place};
use crate::links::{Link, depth_at};
use cpa_iface::Entry;
use std::alloc::{AllocError, Global};

/// The parent of the entry of this number, which has one, with the edge from it.
pub(crate) fn parent(entries: &[Entry], number: u32) -> (u32, u32)
    requires ascend { AreAscending (numbers entries.now) }
    requires parent { HasParent entries.now number }
    ensures { (e : AnEntry) → IsIn e entries.now → e.number ≡ number → e.parent ≡ Some result }
{
    match parent_of(entries, number) {
        Some(pair) => pair,
        None => unreachable!(),
    }
}

/// The edges that lead to the entry, from the one without parent on.
pub(crate) fn path_to(
    entries: &[Entry],
    links: &[Link],
    alloc: Global,
    entry: u32,
) -> Result<Vec<u32>, AllocError>
    requires tree { IsTree entries.now links.now }
    requires live { IsLive entries.now entry }
    ensures { IfOk result (λ edges. IsPathTo entries.now entry edges.items) }
{
    let depth = depth_at(links, place(entries, entry));
    let mut edges = Vec::new(alloc);
    let mut at = entry;
    'up: for _above in 0..depth {
        let (number, edge) = parent(entries, at);
        edges.push(edge)?;
        at = number;
    }
    edges.reverse();
    Ok(edges)
}

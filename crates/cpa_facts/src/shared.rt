//! A list that copies share, which contracts see as what it holds.
//! `shared_items` stands in `specs/Sharing.antt`.

ghost use Rattle.std.specs.Prelude.{◌≡◌, ◌<◌, ◌↔◌, ◌^◌, [], length, IfOk, IsTrue};
ghost use Rattle.std.specs.Cmp.Lexicographic.{pointwise, lists_per};
ghost use Rattle.std.specs.Iterator.Adapters.{IterYieldsInOrder, IterYieldsInReverse};
ghost use Rattle.std.specs.Iterator.Runs.{EveryRun, ItemsMapTo};
ghost use Rattle.std.specs.Slice.Iter.{iter_rest, iter_steps};

use cpa_ints::Seq;
use std::alloc::{AllocError, Global};
use std::marker::Model;
use std::slice;
use std::sync::Arc;

/// A list that its copies share, so that a copy takes no memory, in any thread. Contracts see it
/// as the list of its items.
#[derive(Drop)]
pub struct Shared<T> {
    /// Nothing where there is no item.
    items: Option<Arc<Seq<T>>>,
}

impl<T> Model for Shared<T> {
    ghost use Rattle.std.specs.Prelude.{List};
    ghost use Rattle.std.specs.Coded.{coded_list};
    ghost use Rattle.cpa_facts.specs.Sharing.{shared_items};

    ghost Value = { List T };

    ghost coded = { coded_list T.code };

    ghost view = { λ s. shared_items s.items };
}

impl<T> Shared<T> {
    /// The empty list. It takes no memory.
    pub fn new() -> Shared<T>
        ensures { result ≡ [] }
    {
        Shared { items: None }
    }

    /// The items, in order.
    pub fn as_slice(&self) -> &[T]
        ensures { result.now ≡ self.now }
    {
        match &self.items {
            Some(items) => items.as_slice(),
            None => &[],
        }
    }

    /// How many items there are.
    pub fn len(&self) -> usize
        ensures { result ≡ length self.now }
    {
        self.as_slice().len()
    }

    /// Whether there is no item.
    pub fn is_empty(&self) -> bool
        ensures { IsTrue result ↔ (self.now ≡ []) }
    {
        self.as_slice().is_empty()
    }

    /// The items, one after the other.
    pub fn iter(&self) -> slice::Iter<'_, T>
        ensures rest { iter_rest result ≡ self.now }
        ensures len { length (iter_rest result) ≡ length self.now }
        ensures bound { length (iter_rest result) < 2 ^ 64 }
        ensures runs { IterYieldsInOrder T }
        ensures runs_back { IterYieldsInReverse T }
    {
        self.as_slice().iter()
    }

    /// The same list once more. It takes no memory, and fails only where so many share the list
    /// that they can't be counted.
    pub fn share(&self) -> Result<Shared<T>, AllocError>
        ensures { IfOk result (λ s. s ≡ self.now) }
    {
        match &self.items {
            Some(items) => Ok(Shared {
                items: Some(Arc::try_clone(items)?),
            }),
            None => Ok(Shared { items: None }),
        }
    }
}

impl<T: Drop> Shared<T> {
    /// A list of these items, which has no more room than they need. No item takes no memory.
    pub fn from_seq(alloc: Global, items: Seq<T>) -> Result<Shared<T>, AllocError>
        ensures { IfOk result (λ s. s ≡ items) }
    {
        if items.is_empty() {
            return Ok(Shared { items: None });
        }
        Ok(Shared {
            items: Some(Arc::new(alloc, trimmed(items))?),
        })
    }
}

/// The list of these items, in a place of their size.
pub(crate) fn trimmed<T: Drop>(items: Seq<T>) -> Seq<T>
    ensures { result ≡ items }
{
    let mut items = items.into_vec();
    items.shrink_to_fit();
    Seq::from_vec(items)
}

impl<'a, T> IntoIterator for &'a Shared<T> {
    type Item = &'a T;

    type IntoIter = slice::Iter<'a, T>;

    ghost into_iter_gives = { λ s it. (iter_rest it ≡ s.now) × (length (iter_rest it) < 2 ^ 64)
        × EveryRun (iter_steps {A = T}) (λ p. ItemsMapTo p (λ x. x.now) (iter_rest p.from)) };

    fn into_iter(self) -> slice::Iter<'a, T> {
        self.as_slice().iter()
    }
}

/// Lists are equal where they are as long and equal item by item.
impl<T: PartialEq> PartialEq for Shared<T> {
    ghost eq = { pointwise T.eq };

    ghost laws = { lists_per T.laws };

    fn eq(&self, other: &Self) -> bool {
        self.as_slice() == other.as_slice()
    }
}

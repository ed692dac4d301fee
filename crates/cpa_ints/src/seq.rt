//! Lists that contracts see as what they hold, so that a tree of them is plain data. Each clause
//! names the list that `Model` gives; `specs/formers` lets a tree hold itself through one.
ghost use Rattle.std.specs.Prelude.{◌≡◌, [], ◌∷◌, ◌++◌, ◌<◌, ◌^◌, length, slice_get, ◌↔◌, IsTrue};
ghost use Rattle.std.specs.Prelude.{OnOk, OnErr, OnSome};
ghost use Rattle.std.specs.Option.{option_copied};
ghost use Rattle.std.specs.Cmp.Lexicographic.{pointwise, lists_per, lists_equiv};
ghost use Rattle.std.specs.Iterator.Adapters.{IterYieldsInOrder, IterYieldsInReverse};
ghost use Rattle.std.specs.Iterator.Runs.{EveryRun, ItemsMapTo};
ghost use Rattle.std.specs.Slice.Iter.{iter_rest, iter_steps};

use std::alloc::{AllocError, Global};
use std::marker::Model;
use std::slice;

/// A `Vec` that contracts see as the list of its items, so that equal lists are equal values.
#[derive(Drop)]
pub struct Seq<T> {
    items: Vec<T>,
}

impl<T> Model for Seq<T> {
    ghost use Rattle.std.specs.Prelude.{List};
    ghost use Rattle.std.specs.Coded.{coded_list};

    ghost Value = { List T };

    ghost coded = { coded_list T.code };

    ghost view = { λ s. s.items.items };
}

impl<T> Seq<T> {
    /// The empty list, which takes no memory until an item is pushed.
    pub fn new(alloc: Global) -> Seq<T>
        ensures { result ≡ [] }
    {
        Seq {
            items: Vec::new(alloc),
        }
    }

    /// The items of a vector, in order.
    pub fn from_vec(items: Vec<T>) -> Seq<T>
        ensures { result ≡ items.items }
    {
        Seq { items }
    }

    /// The items, in order.
    pub fn as_slice(&self) -> &[T]
        ensures { result.now ≡ self.now }
    {
        self.items.as_slice()
    }

    /// How many items there are.
    pub fn len(&self) -> usize
        ensures { result ≡ length self.now }
    {
        self.items.len()
    }

    /// Whether there is no item.
    pub fn is_empty(&self) -> bool
        ensures { IsTrue result ↔ (self.now ≡ []) }
    {
        self.items.is_empty()
    }

    /// The item at a place, counted from 0.
    pub fn get(&self, index: usize) -> Option<&T>
        ensures value { option_copied result ≡ slice_get self.now index }
        ensures within { OnSome result (index < length self.now) }
    {
        self.items.get(index)
    }

    /// The items, one after the other.
    pub fn iter(&self) -> slice::Iter<'_, T>
        ensures rest { iter_rest result ≡ self.now }
        ensures len { length (iter_rest result) ≡ length self.now }
        ensures bound { length (iter_rest result) < 2 ^ 64 }
        ensures runs { IterYieldsInOrder T }
        ensures runs_back { IterYieldsInReverse T }
    {
        self.items.as_slice().iter()
    }

    /// The vector of the items.
    pub fn into_vec(self) -> Vec<T>
        ensures { result.items ≡ self }
    {
        let Seq { items } = self;
        items
    }
}

impl<T: Drop> Seq<T> {
    /// Adds an item at the end. Where memory runs out the list stays as it was.
    pub fn push(&mut self, item: T) -> Result<(), AllocError>
        ensures ok { OnOk result (self.new ≡ self.old ++ item ∷ []) }
        ensures err { OnErr result (self.new ≡ self.old) }
    {
        self.items.push(item)?;
        Ok(())
    }
}

impl<'a, T> IntoIterator for &'a Seq<T> {
    type Item = &'a T;

    type IntoIter = slice::Iter<'a, T>;

    ghost into_iter_gives = { λ s it. (iter_rest it ≡ s.now) × (length (iter_rest it) < 2 ^ 64)
        × EveryRun (iter_steps {A = T}) (λ p. ItemsMapTo p (λ x. x.now) (iter_rest p.from)) };

    fn into_iter(self) -> slice::Iter<'a, T> {
        self.items.as_slice().iter()
    }
}

/// Lists are equal where they are as long and equal item by item.
impl<T: PartialEq> PartialEq for Seq<T> {
    ghost eq = { pointwise T.eq };

    ghost laws = { lists_per T.laws };

    fn eq(&self, other: &Self) -> bool {
        self.as_slice() == other.as_slice()
    }
}

impl<T: Eq> Eq for Seq<T> {
    ghost laws = { lists_equiv T.Eq.laws };
}

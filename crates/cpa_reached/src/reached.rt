//! The reached set: its calls, each of which does exactly what a definition of `specs/` says. What
//! is kept beside the entries stands in `specs/Kept.antt`, and in no contract here.

ghost use Rattle.std.specs.Prelude.{◌≡◌, ℕ, [], List, IfOk, OnOk, OnErr, IfSome, IfNone};
ghost use Rattle.std.specs.List.{filter};
ghost use Rattle.cpa_model.specs.declared.facts.Elem.{Elem as AnElem};
ghost use Rattle.cpa_reached.specs.Entries.{IsLive, IsNext, IsNumbered, numbers, waiting_numbers};
ghost use Rattle.cpa_reached.specs.Members.{IsIn};
ghost use Rattle.cpa_reached.specs.Calls.{begun, taken, added, replaced, used, refined, closed};
ghost use Rattle.cpa_reached.specs.Calls.{restarted, indexed};
ghost use Rattle.cpa_reached.specs.Removal.{AreBelow, RemovesBelow, is_opened, without};
ghost use Rattle.cpa_reached.specs.Keyed.{keyed};
ghost use Rattle.cpa_reached.specs.Marks.{IsMarkOf};
ghost use Rattle.cpa_reached.specs.Passed.{LeavesOut, IsPassedBy};
ghost use Rattle.cpa_reached.specs.Paths.{IsPathTo};
ghost use Rattle.cpa_reached_key.specs.Rows.{picked};

use crate::lists::reserve_one;
use crate::marks::{self, Mark, mark_of};
use crate::table::{self, Table};
use crate::{finding, index, pruning, tracing};
use cpa_iface::{Entry, Order, Precision, Turn};
use cpa_ints::Seq;
use cpa_model::{Elem, Path};
use cpa_reached_key::{self, Key};
use std::alloc::{AllocError, Global};
use std::marker::Model;

/// Entries by number, in the order in which they came, and the journal of the turns (CAV 2007,
/// section 2).
#[derive(Drop)]
pub struct Reached {
    table: Table,
    /// The mark of each number that was given out.
    marks: Vec<Mark>,
    journal: Vec<Turn>,
}

impl Model for Reached {
    ghost use Rattle.cpa_reached.specs.Entries.{ReachedSet};
    ghost use Rattle.cpa_expr.specs.contracts.tree.Expr as e;
    ghost use Rattle.std.specs.Coded.{codes};

    ghost Value = { ReachedSet };

    ghost coded = { Prim.hlevel (codes, e.the_row.coded) };

    ghost use Rattle.cpa_reached.specs.Tables.{IsWholeTable};

    ghost view = { λ r. record {
      live = r.table.entries.items;
      journal = r.journal.items;
      next = r.table.next;
      places = r.table.places;
    } };

    ghost invariant = { λ r. IsWholeTable r.table r.marks.items };
}

impl Reached {
    /// Entry 0 alone, which waits.
    pub fn new(
        alloc: Global,
        elems: Vec<Elem>,
        precisions: Vec<Precision>,
    ) -> Result<Reached, AllocError>
        ensures { IfOk result (λ r. r ≡ begun elems.items precisions.items) }
    {
        let mut marks = Vec::new(alloc);
        marks.push(mark_of(&elems))?;
        Ok(Reached {
            table: table::begin(alloc, elems, precisions)?,
            marks,
            journal: Vec::new(alloc),
        })
    }

    /// The waiting entry that is first in the order. It no longer waits. Takes no memory.
    pub fn take_next(&mut self, order: Order) -> Option<u32>
        ensures next { IfSome result (IsNext order self.old.live) }
        ensures taken { IfSome result (λ n. self.new ≡ taken n self.old) }
        ensures none { IfNone result (waiting_numbers self.old.live ≡ []) }
        ensures same { IfNone result (self.new ≡ self.old) }
    {
        table::take_next(&mut self.table, order)
    }

    /// An entry that waits, with the next number. Its parent uses it.
    pub fn add(
        &mut self,
        elems: Vec<Elem>,
        precisions: Vec<Precision>,
        parent: (u32, u32),
    ) -> Result<u32, AllocError>
        requires { IsLive self.old.live parent.0 }
        ensures number { IfOk result (λ n. n ≡ self.old.next) }
        ensures ok { OnOk result
            (self.new ≡ added self.old elems.items precisions.items parent) }
        ensures err { OnErr result (self.new ≡ self.old) }
    {
        let mark = mark_of(&elems);
        reserve_one(&mut self.marks)?;
        let number = table::add(&mut self.table, elems, precisions, parent)?;
        self.marks.push_reserved(mark);
        Ok(number)
    }

    /// An entry that waits, with the next number, in the place of an old one.
    pub fn replace(&mut self, old: u32, elems: Vec<Elem>) -> Result<u32, AllocError>
        requires { IsLive self.old.live old }
        ensures number { IfOk result (λ n. n ≡ self.old.next) }
        ensures ok { OnOk result (self.new ≡ replaced self.old old elems.items) }
        ensures err { OnErr result (self.new ≡ self.old) }
    {
        let mark = mark_of(&elems);
        reserve_one(&mut self.marks)?;
        let number = table::replace(&mut self.table, old, elems)?;
        self.marks.push_reserved(mark);
        Ok(number)
    }

    /// Notes that an entry covers a successor of another one.
    pub fn note_use(&mut self, entry: u32, by: u32) -> Result<(), AllocError>
        requires entry { IsLive self.old.live entry }
        requires by { IsLive self.old.live by }
        ensures ok { OnOk result (self.new ≡ used self.old entry by) }
        ensures err { OnErr result (self.new ≡ self.old) }
    {
        table::note_use(&mut self.table, entry, by)
    }

    /// What lies strictly below the pivot goes. The pivot, and each entry that used what goes,
    /// waits and uses nothing; their numbers are given, ascending.
    pub fn remove_below(&mut self, pivot: u32) -> Result<Vec<u32>, AllocError>
        requires { IsLive self.old.live pivot }
        ensures live { OnOk result (RemovesBelow pivot self.old.live self.new.live) }
        ensures opened { (gone : List ℕ) → AreBelow pivot self.old.live gone
            → IfOk result (λ opened. opened.items ≡ numbers (filter (is_opened gone pivot)
            (without gone self.old.live))) }
        ensures numbered { IsNumbered self.old }
        ensures journal { self.new.journal ≡ self.old.journal }
        ensures next { self.new.next ≡ self.old.next }
        ensures places { self.new.places ≡ self.old.places }
        ensures err { OnErr result (self.new ≡ self.old) }
    {
        pruning::remove_below(&mut self.table, pivot)
    }

    /// Other precisions for an entry. Takes no memory.
    pub fn set_precisions(&mut self, entry: u32, precisions: Vec<Precision>)
        requires { IsLive self.old.live entry }
        ensures { self.new ≡ refined self.old entry precisions.items }
    {
        table::set_precisions(&mut self.table, entry, precisions);
    }

    /// One row more for the journal, whatever it says.
    pub fn close_turn(&mut self, turn: Turn) -> Result<(), AllocError>
        ensures ok { OnOk result (self.new ≡ closed self.old turn) }
        ensures err { OnErr result (self.new ≡ self.old) }
    {
        reserve_one(&mut self.journal)?;
        self.journal.push_reserved(turn);
        Ok(())
    }

    /// Empties the journal. Takes no memory.
    pub fn start_round(&mut self)
        ensures { self.new ≡ restarted self.old }
    {
        self.journal.clear();
    }

    /// From now on the elements at these places are an entry's key. Without this call there are no
    /// places, and all entries have one key.
    pub fn index_by(&mut self, places: &[u32]) -> Result<(), AllocError>
        ensures ok { OnOk result (self.new ≡ indexed self.old places.now) }
        ensures err { OnErr result (self.new ≡ self.old) }
    {
        table::index_by(&mut self.table, places)
    }

    /// The key of a row: its elements at the places, as far as it has so many.
    pub fn key_of(&self, elems: &[Elem]) -> Result<Key, AllocError>
        ensures { IfOk result (λ key. key.elems ≡ picked self.now.places elems.now) }
    {
        cpa_reached_key::key_of(self.table.alloc, self.table.places.as_slice(), elems)
    }

    /// The numbers of the entries that have the key, ascending. Takes no memory.
    pub fn under(&self, key: &Key) -> &[u32]
        ensures numbers { result.now ≡ keyed self.now.places key.now.elems self.now.live }
        ensures numbered { IsNumbered self.now }
    {
        index::under(&self.table.index, key)
    }

    /// The numbers under the key but those of entries that the mark tells apart from its row, by
    /// their marks alone.
    pub fn left_under(&self, key: &Key, mark: Option<Mark>) -> Result<Vec<u32>, AllocError>
        ensures left { (row : List AnElem) → IfSome mark (λ m. IsMarkOf m row)
            → IfOk result (λ left. LeavesOut (IsPassedBy mark row self.now.live)
            (keyed self.now.places key.now.elems self.now.live) left.items) }
        ensures numbered { IsNumbered self.now }
    {
        let numbers = self.under(key);
        match mark {
            Some(mark) => {
                let left = marks::left(self.table.alloc, mark, &self.marks, numbers)?;
                Ok(left)
            }
            None => {
                let all = numbers.to_vec(self.table.alloc)?;
                Ok(all)
            }
        }
    }

    /// The entries, in order of numbers. Takes no memory.
    pub fn live(&self) -> &[Entry]
        ensures live { result.now ≡ self.now.live }
        ensures numbered { IsNumbered self.now }
    {
        self.table.entries.as_slice()
    }

    /// The entry of this number. Takes no memory.
    pub fn entry(&self, number: u32) -> &Entry
        requires { IsLive self.now.live number }
        ensures is_in { IsIn result.now self.now.live }
        ensures number { result.now.number ≡ number }
        ensures numbered { IsNumbered self.now }
    {
        finding::entry(&self.table.entries, number)
    }

    /// The rows of the journal since the round began. Takes no memory.
    pub fn journal(&self) -> &[Turn]
        ensures { result.now ≡ self.now.journal }
    {
        self.journal.as_slice()
    }

    /// The edges that lead to the entry from the one without parent.
    pub fn path_to(&self, entry: u32) -> Result<Path, AllocError>
        requires { IsLive self.now.live entry }
        ensures { IfOk result (λ path. IsPathTo self.now.live entry path.edges) }
    {
        let table = &self.table;
        let edges = tracing::path_to(&table.entries, &table.links, table.alloc, entry)?;
        Ok(Path {
            edges: Seq::from_vec(edges),
        })
    }

    /// The entries, in order of numbers, and the journal. Takes no memory.
    pub fn into_parts(self) -> (Vec<Entry>, Vec<Turn>)
        ensures live { result.0.items ≡ self.live }
        ensures journal { result.1.items ≡ self.journal }
    {
        let Reached {
            table,
            marks: _,
            journal,
        } = self;
        (table::into_entries(table), journal)
    }
}

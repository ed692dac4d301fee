//! Two watched literals for each clause, with a blocker (Moskewicz et al. 2001; Eén and Sörensson
//! 2003). For speed alone: what goes on the trail is justified by a look at the clause.

ghost use Rattle.std.specs.Prelude.{◌<◌, length};
ghost use Rattle.cpa_sat_arena.specs.declared.literal.TheConstants.{NO_CLAUSE};

use crate::trail::Trail;
use cpa_sat_arena::{Arena, ClauseRef, LitPair, PackedLit, literal_count};
use std::alloc::{AllocError, Global};
use std::mem;

/// A watch of a clause.
#[derive(Clone, Copy)]
pub(crate) struct Watch {
    pub(crate) clause: ClauseRef,
    /// A literal of the clause: while it is true, the clause need not be looked at.
    pub(crate) blocker: PackedLit,
}

/// The watches of all literals.
#[derive(Drop)]
pub struct Watches {
    alloc: Global,
    /// The watches of each literal.
    lists: Vec<Vec<Watch>>,
    /// The two watched literals of each clause.
    pairs: Vec<LitPair>,
}

impl Watches {
    /// No clause is watched.
    pub fn new(alloc: Global, vars: u32) -> Result<Watches, AllocError> {
        let mut lists = Vec::with_capacity(alloc, literal_count(vars))?;
        for _ in 0..literal_count(vars) {
            lists.push(Vec::new(alloc))?;
        }
        Ok(Watches {
            alloc,
            lists,
            pairs: Vec::new(alloc),
        })
    }

    /// Takes all watches away.
    pub fn reset(&mut self) {
        for list in self.lists.iter_mut() {
            list.clear();
        }
    }

    /// Makes room for the next clause.
    pub fn add(&mut self) -> Result<(), AllocError> {
        self.pairs.push(LitPair::none())?;
        Ok(())
    }

    /// Takes the watches of a literal out, to be put back.
    pub(crate) fn take(&mut self, literal: PackedLit) -> Vec<Watch> {
        let number = literal.index();
        if number < self.lists.len() {
            mem::replace(&mut self.lists[number], Vec::new(self.alloc))
        } else {
            Vec::new(self.alloc)
        }
    }

    /// Puts the watches of a literal back.
    pub(crate) fn put(&mut self, literal: PackedLit, list: Vec<Watch>) {
        let number = literal.index();
        if number < self.lists.len() {
            self.lists[number] = list;
        }
    }

    /// Adds a watch to a literal.
    fn push(&mut self, literal: PackedLit, watch: Watch) -> Result<(), AllocError> {
        let number = literal.index();
        if number < self.lists.len() {
            self.lists[number].push(watch)?;
        }
        Ok(())
    }

    /// The watched literal of a clause beside this one.
    pub(crate) fn other(&self, clause: ClauseRef, literal: PackedLit) -> PackedLit {
        self.pairs
            .as_slice()
            .get(clause.index())
            .copied()
            .unwrap_or(LitPair::none())
            .other(literal)
    }

    /// Watches a literal in place of another.
    pub(crate) fn shift(
        &mut self,
        watch: &Watch,
        from: PackedLit,
        to: PackedLit,
    ) -> Result<(), AllocError> {
        let number = watch.clause.index();
        if number < self.pairs.len() {
            self.pairs[number] = LitPair::new(self.pairs[number].other(from), to);
        }
        self.push(to, *watch)
    }

    /// Watches two literals of a clause.
    fn pair(
        &mut self,
        clause: ClauseRef,
        first: PackedLit,
        second: PackedLit,
    ) -> Result<(), AllocError> {
        let number = clause.index();
        if number < self.pairs.len() {
            self.pairs[number] = LitPair::new(first, second);
        }
        self.push(
            first,
            Watch {
                clause,
                blocker: second,
            },
        )?;
        self.push(
            second,
            Watch {
                clause,
                blocker: first,
            },
        )
    }
}

/// Watches the two literals of a clause that became false last, or not yet.
pub fn watch_clause(
    watches: &mut Watches,
    trail: &Trail,
    clause: &[PackedLit],
    number: ClauseRef,
) -> Result<(), AllocError> {
    if clause.len() < 2 {
        return Ok(());
    }
    let mut first = 0;
    let mut second = 1;
    for i in 0..clause.len() {
        let late = trail.when_false(clause[i]);
        if late > trail.when_false(at(clause, first)) {
            second = first;
            first = i;
        } else if i != first && late > trail.when_false(at(clause, second)) {
            second = i;
        }
    }
    if first == second {
        second = 1 - first.min(1);
    }
    watches.pair(number, at(clause, first), at(clause, second))
}

/// The literal at the place in the clause, none after its end.
fn at(clause: &[PackedLit], place: usize) -> PackedLit {
    clause.get(place).copied().unwrap_or(PackedLit::none())
}

/// Watches all clauses.
pub fn watch_all(alloc: Global, arena: &Arena, trail: &Trail) -> Result<Watches, AllocError>
    requires { length arena.now < NO_CLAUSE }
{
    let mut watches = Watches::new(alloc, trail.vars)?;
    for number in 0..arena.len() {
        watches.add()?;
        let number = ClauseRef::new(number);
        watch_clause(&mut watches, trail, arena.clause(number), number)?;
    }
    Ok(watches)
}

/// The watch at the place, one of no clause after the end.
pub(crate) fn watch_at(list: &[Watch], place: usize) -> Watch {
    list.get(place).copied().unwrap_or(Watch {
        clause: ClauseRef::none(),
        blocker: PackedLit::none(),
    })
}

/// Keeps a watch at the place; the place behind it.
pub(crate) fn keep(list: &mut [Watch], place: usize, watch: &Watch) -> usize {
    if place < list.len() {
        list[place] = *watch;
        place + 1
    } else {
        place
    }
}

/// Moves the watches from the second place on to the first one.
pub(crate) fn close_up(list: &mut Vec<Watch>, to: usize, from: usize) {
    let mut place = to;
    for i in from..list.len() {
        let watch = watch_at(list, i);
        place = keep(list, place, &watch);
    }
    list.truncate(place);
}

//! Ranks of bodies that do not fall along a call (`DoesNotFall`): the strong components by one
//! depth-first search (Tarjan 1972). That no rank falls is tested; nothing else is said of them.
ghost use Rattle.std.specs.Prelude.{IfOk, IsTrue};
ghost use Rattle.std.specs.List.{All};
ghost use Rattle.c_types_recursion.specs.Marks.{DoesNotFall};

use crate::Call;
use crate::links::{Links, at, put};
use std::alloc::{AllocError, Global};

/// A search that has not ended.
#[derive(Drop)]
struct Search {
    /// The link that is followed next, of each body.
    left: Vec<usize>,
    /// When each body was entered, from 1 on; 0 before that.
    entered: Vec<usize>,
    /// The first entered body of those that it is known to reach, and that have no rank.
    lowest: Vec<usize>,
    /// The rank of each body; 0 before it has one.
    ranks: Vec<usize>,
    /// The bodies in which the search stands.
    path: Vec<usize>,
    /// The entered bodies that have no rank, in order.
    open: Vec<usize>,
    /// How many bodies were entered.
    time: usize,
    /// The rank that is given next. A component is closed before those that reach it.
    rank: usize,
}

impl Search {
    /// Nothing is entered.
    fn new(alloc: Global, bodies: usize) -> Result<Search, AllocError> {
        Ok(Search {
            left: vec![in alloc; 0; bodies]?,
            entered: vec![in alloc; 0; bodies]?,
            lowest: vec![in alloc; 0; bodies]?,
            ranks: vec![in alloc; 0; bodies]?,
            path: Vec::new(alloc),
            open: Vec::new(alloc),
            time: 0,
            rank: bodies,
        })
    }

    /// Enters a body.
    fn enter(&mut self, links: &Links, body: usize) -> Result<(), AllocError> {
        self.time = self.time.saturating_add(1);
        put(&mut self.left, body, links.first(body));
        put(&mut self.entered, body, self.time);
        put(&mut self.lowest, body, self.time);
        self.path.push(body)?;
        self.open.push(body)?;
        Ok(())
    }

    /// A body reaches what was entered at this time.
    fn lower(&mut self, body: usize, time: usize) {
        let lowest = at(&self.lowest, body).min(time);
        put(&mut self.lowest, body, lowest);
    }

    /// Looks at a called body.
    fn look(&mut self, links: &Links, body: usize, callee: usize) -> Result<(), AllocError> {
        let entered = at(&self.entered, callee);
        if entered == 0 {
            return self.enter(links, callee);
        }
        if at(&self.ranks, callee) == 0 {
            self.lower(body, entered);
        }
        Ok(())
    }

    /// Gives the open bodies from this one on the next rank.
    fn close(&mut self, body: usize) {
        while let Some(member) = self.open.pop() {
            put(&mut self.ranks, member, self.rank);
            if member == body {
                break;
            }
        }
        self.rank = self.rank.saturating_sub(1);
    }

    /// Leaves a body.
    fn leave(&mut self, body: usize) {
        let lowest = at(&self.lowest, body);
        if lowest == at(&self.entered, body) {
            self.close(body);
        }
        self.path.pop();
        if let Some(caller) = self.path.last().copied() {
            self.lower(caller, lowest);
        }
    }

    /// Follows one call, or leaves a body.
    fn step(&mut self, calls: &[Call], links: &Links, body: usize) -> Result<(), AllocError> {
        match links.call(calls, at(&self.left, body)) {
            Some((call, next)) => {
                put(&mut self.left, body, next);
                self.look(links, body, call.callee as usize)
            }
            None => {
                self.leave(body);
                Ok(())
            }
        }
    }
}

/// The ranks of all bodies.
fn all_ranks(
    alloc: Global,
    bodies: usize,
    calls: &[Call],
    links: &Links,
) -> Result<Vec<usize>, AllocError> {
    let mut search = Search::new(alloc, bodies)?;
    for body in 0..bodies {
        if at(&search.entered, body) == 0 {
            search.enter(links, body)?;
        }
        for _ in 0..bodies.saturating_add(calls.len()) {
            let Some(body) = search.path.last().copied() else {
                break;
            };
            search.step(calls, links, body)?;
        }
    }
    Ok(search.ranks)
}

/// Whether no rank falls along a call.
fn do_not_fall(ranks: &[usize], calls: &[Call]) -> bool
    ensures { IsTrue result → All (DoesNotFall ranks.now) calls.now }
{
    calls.iter().all(|call| at(ranks, call.caller as usize) <= at(ranks, call.callee as usize))
}

/// Ranks that do not fall along a call. None is one, where a body has no other.
pub(crate) fn ranks_of(
    alloc: Global,
    bodies: usize,
    calls: &[Call],
    links: &Links,
) -> Result<Vec<usize>, AllocError>
    ensures { IfOk result (λ ranks. All (DoesNotFall ranks.items) calls.now) }
{
    let mut ranks = all_ranks(alloc, bodies, calls, links)?;
    if !do_not_fall(&ranks, calls) {
        ranks.clear();
    }
    Ok(ranks)
}

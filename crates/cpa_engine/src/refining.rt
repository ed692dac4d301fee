//! What comes of a path that has no run: precisions grow and a round begins below a pivot, or it
//! begins again at the root, or the analysis gives up.

ghost use Rattle.std.specs.Prelude.{◌≡◌, ◌<◌, ◌≤◌, ℕ, true, false, List, ◌∷◌, drop, length, IfOk};
ghost use Rattle.std.specs.Prelude.{◌⊎◌, IsTrue};
ghost use Rattle.cpa_model.specs.Automata.{IsAutomaton};
ghost use Rattle.cpa_composite.specs.Composites.{components};
ghost use Rattle.cpa_composite.specs.Laws.{RefinedRow, SuggestionsStand};
ghost use Rattle.cpa_reached.specs.Entries.{IsLive};
ghost use Rattle.cpa_reached.specs.Paths.{IsPathTo, LeadsBack};
ghost use Rattle.cpa_engine_rounds.specs.Precisions.{HaveAll};
ghost use Rattle.cpa_engine.specs.Kept.{IsRefuted};
ghost use Rattle.cpa_engine.specs.Rounds.{IsParent, LeadsToError, LeadsUp};
ghost use Rattle.cpa_engine.specs.Searches.{IsSearch, IsCome, rounds_left, IsErrorAt};

use crate::answers::{Answer, Why};
use crate::laws::rounds_begin;
use crate::search::{Came, Search};
use cpa_composite::Composite;
use cpa_config::Config;
use cpa_engine_rounds::{begin_round, pivot_place, some_other};
use cpa_engine_turn::copy_precisions;
use cpa_iface::{Analysis, Precision, Refined};
use cpa_model::{Cfa, Path, Seq};
use cpa_reached::Reached;
use std::alloc::{AllocError, Global};
use std::mem;

/// The answer where no more refinements may be made.
fn all_refined<A: Analysis>(
    alloc: Global,
    cfa: &Cfa,
    composite: &Composite<A>,
    config: &Config,
    search: &mut Search,
    path: Path,
) -> Came
    requires search { IsSearch cfa.now (components composite.now) config.now search.old }
    requires leads { LeadsToError cfa.now search.old.reached path }
    requires refuted { IsRefuted cfa.now (components composite.now) config.now.settings path }
    requires all { length search.old.history ≡ config.now.rounds }
    ensures { IsCome cfa.now (components composite.now) config.now
        (rounds_left config.now search.old) search.new result }
{
    let history = mem::replace(&mut search.history, Seq::new(alloc));
    Came::Decided {
        answer: Answer::Unknown {
            why: Why::Rounds { path, history },
        },
    }
}

/// The parent of an entry, or itself where it has none.
fn parent(reached: &Reached, number: u32) -> u32
    requires { IsLive reached.now.live number }
    ensures live { IsLive reached.now.live result }
    ensures back { (edge : ℕ) (edges : List ℕ)
        → LeadsBack reached.now.live number (edge ∷ edges)
        → LeadsBack reached.now.live result edges }
    ensures up { (edge : ℕ) (edges : List ℕ)
        → LeadsBack reached.now.live number (edge ∷ edges)
        → IsParent reached.now.live number result }
{
    match reached.entry(number).parent {
        Some((parent, _)) => parent,
        None => number,
    }
}

/// The entry so many edges above another one.
fn ancestor(reached: &Reached, number: u32, above: usize) -> u32
    requires { IsLive reached.now.live number }
    ensures live { IsLive reached.now.live result }
    ensures back { (edges : List ℕ) → LeadsBack reached.now.live number edges
        → above ≤ length edges → LeadsBack reached.now.live result (drop above edges) }
    ensures up { (edges : List ℕ) → LeadsBack reached.now.live number edges
        → above ≤ length edges → LeadsUp reached.now.live number above result }
{
    let mut at = number;
    for _edge in 0..above {
        at = parent(reached, at);
    }
    at
}

/// A round begins with longer precisions, at the entry before which the first edge writes a cell
/// that they keep newly.
fn begin_refined<A: Analysis>(
    alloc: Global,
    cfa: &Cfa,
    composite: &Composite<A>,
    config: &Config,
    search: &mut Search,
    number: u32,
    path: Path,
    longer: Vec<Precision>,
) -> Result<Came, AllocError>
    requires automaton { IsAutomaton cfa.now }
    requires search { IsSearch cfa.now (components composite.now) config.now search.old }
    requires found { IsErrorAt cfa.now search.old.reached number }
    requires path { IsPathTo search.old.reached.live number path.edges }
    requires refuted { IsRefuted cfa.now (components composite.now) config.now.settings path }
    requires refined { RefinedRow (components composite.now) cfa.now path search.old.newest
        longer.items }
    requires more { length search.old.history < config.now.rounds }
    ensures { IfOk result (IsCome cfa.now (components composite.now) config.now
        (rounds_left config.now search.old) search.new) }
{
    rounds_begin();
    let place = pivot_place(alloc, cfa, &path, search.newest.as_slice(), &longer)?;
    let pivot = ancestor(&search.reached, number, path.edges.len() - place);
    begin_round(alloc, &mut search.reached, pivot, &longer)?;
    let newest = copy_precisions(alloc, &longer)?;
    search.history.push(Refined {
        path,
        precisions: Seq::from_vec(longer),
    })?;
    search.newest = Seq::from_vec(newest);
    search.again = false;
    Ok(Came::Again)
}

/// A round begins at the root with the newest precisions.
fn begin_again<A: Analysis>(
    alloc: Global,
    cfa: &Cfa,
    composite: &Composite<A>,
    config: &Config,
    search: &mut Search,
    number: u32,
    path: &Path,
) -> Result<Came, AllocError>
    requires automaton { IsAutomaton cfa.now }
    requires search { IsSearch cfa.now (components composite.now) config.now search.old }
    requires found { IsErrorAt cfa.now search.old.reached number }
    requires path { IsPathTo search.old.reached.live number path.now.edges }
    requires refuted { IsRefuted cfa.now (components composite.now) config.now.settings path.now }
    requires stand { SuggestionsStand cfa.now path.now (components composite.now)
        search.old.newest }
    requires more { length search.old.history < config.now.rounds }
    requires first { search.old.again ≡ false }
    requires other { HaveAll search.old.newest search.old.reached.live → ⊥ }
    ensures { IfOk result (IsCome cfa.now (components composite.now) config.now
        (rounds_left config.now search.old) search.new) }
{
    rounds_begin();
    let root = ancestor(&search.reached, number, path.edges.len());
    begin_round(alloc, &mut search.reached, root, search.newest.as_slice())?;
    search.again = true;
    Ok(Came::Again)
}

/// The answer where nothing new is kept.
fn no_new<A: Analysis>(
    alloc: Global,
    cfa: &Cfa,
    composite: &Composite<A>,
    config: &Config,
    search: &mut Search,
    path: Path,
) -> Came
    requires search { IsSearch cfa.now (components composite.now) config.now search.old }
    requires leads { LeadsToError cfa.now search.old.reached path }
    requires refuted { IsRefuted cfa.now (components composite.now) config.now.settings path }
    requires stand { SuggestionsStand cfa.now path (components composite.now) search.old.newest }
    requires more { length search.old.history < config.now.rounds }
    requires none_other { (search.old.again ≡ true)
        ⊎ HaveAll search.old.newest search.old.reached.live }
    ensures { IsCome cfa.now (components composite.now) config.now
        (rounds_left config.now search.old) search.new result }
{
    let precisions = mem::replace(&mut search.newest, Seq::new(alloc));
    Came::Decided {
        answer: Answer::Unknown {
            why: Why::NoNew { path, precisions },
        },
    }
}

/// Whether a round may begin again at the root: none did so with these newest precisions, and some
/// entry has others.
fn may_begin_again(search: &Search) -> bool
    ensures first { IsTrue result → search.now.again ≡ false }
    ensures other { IsTrue result → HaveAll search.now.newest search.now.reached.live → ⊥ }
    ensures none_other { result ≡ false
        → (search.now.again ≡ true) ⊎ HaveAll search.now.newest search.now.reached.live }
{
    !search.again && some_other(search.reached.live(), search.newest.as_slice())
}

/// Where no analysis lengthens its precision.
fn unrefined<A: Analysis>(
    alloc: Global,
    cfa: &Cfa,
    composite: &Composite<A>,
    config: &Config,
    search: &mut Search,
    number: u32,
    path: Path,
) -> Result<Came, AllocError>
    requires automaton { IsAutomaton cfa.now }
    requires search { IsSearch cfa.now (components composite.now) config.now search.old }
    requires found { IsErrorAt cfa.now search.old.reached number }
    requires path { IsPathTo search.old.reached.live number path.edges }
    requires refuted { IsRefuted cfa.now (components composite.now) config.now.settings path }
    requires stand { SuggestionsStand cfa.now path (components composite.now) search.old.newest }
    requires more { length search.old.history < config.now.rounds }
    ensures { IfOk result (IsCome cfa.now (components composite.now) config.now
        (rounds_left config.now search.old) search.new) }
{
    if may_begin_again(search) {
        return begin_again(alloc, cfa, composite, config, search, number, &path);
    }
    Ok(no_new(alloc, cfa, composite, config, search, path))
}

/// What comes of a path that has no run.
pub(crate) fn refuted<A: Analysis>(
    alloc: Global,
    cfa: &Cfa,
    composite: &mut Composite<A>,
    config: &Config,
    search: &mut Search,
    number: u32,
    path: Path,
) -> Result<Came, AllocError>
    requires automaton { IsAutomaton cfa.now }
    requires search { IsSearch cfa.now (components composite.old) config.now search.old }
    requires found { IsErrorAt cfa.now search.old.reached number }
    requires path { IsPathTo search.old.reached.live number path.edges }
    requires refuted { IsRefuted cfa.now (components composite.old) config.now.settings path }
    ensures come { IfOk result (IsCome cfa.now (components composite.old) config.now
        (rounds_left config.now search.old) search.new) }
    ensures kept { components composite.new ≡ components composite.old }
{
    if search.history.len() >= config.rounds as usize {
        return Ok(all_refined(alloc, cfa, composite, config, search, path));
    }
    let refined = composite.refine(alloc, cfa, &path, search.newest.as_slice())?;
    match refined {
        Some(longer) => begin_refined(alloc, cfa, composite, config, search, number, path, longer),
        None => unrefined(alloc, cfa, composite, config, search, number, path),
    }
}

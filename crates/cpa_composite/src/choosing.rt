//! Every choice of one element from each list, and what the analyses make of a choice: `choices`
//! and `Strengthens` of `specs/Laws.antt`, shown in `proofs/Strengthening.antt`.

ghost use Rattle.std.specs.Prelude.{◌≡◌, ◌<◌, [], ◌∷◌, ◌++◌, length, map, true, IfOk, OnOk};
ghost use Rattle.std.specs.List.{AllByRecursion, flat_map};
ghost use Rattle.std.specs.Option.{option_map};
ghost use Rattle.cpa_model.specs.Automata.{IsAutomaton};
ghost use Rattle.cpa_iface.specs.Meanings.{IsPrecision, AreShaped};
ghost use Rattle.cpa_composite.specs.Components.{Component, IsPicked, picked, ArePlaces, AreElems};
ghost use Rattle.cpa_composite.specs.Components.{ArePrecisions};
ghost use Rattle.cpa_composite.specs.Laws.{choices, Strengthens, EachStrengthened};
ghost use Rattle.cpa_composite.specs.Comparisons.{have_one_each};
ghost use Rattle.cpa_composite.specs.Steps.{StrengthensAt};

use crate::asking;
use crate::comparing::have_one_each;
use cpa_iface::{Analysis, Pick, Precision};
use cpa_model::{Cfa, Elem, copy_elem};
use std::alloc::{AllocError, Global};

/// An equal row.
pub fn copy_row(alloc: Global, row: &[Elem]) -> Result<Vec<Elem>, AllocError>
    ensures { IfOk result (λ list. list.items ≡ row.now) }
{
    let mut list = Vec::new(alloc);
    for elem in row {
        list.push(copy_elem(elem)?)?;
    }
    Ok(list)
}

/// The row with this element before it.
fn with_first(alloc: Global, first: &Elem, row: &[Elem]) -> Result<Vec<Elem>, AllocError>
    ensures { IfOk result (λ list. list.items ≡ first.now ∷ row.now) }
{
    let mut list = copy_row(alloc, row)?;
    list.insert(0, copy_elem(first)?)?;
    Ok(list)
}

/// Adds each row with this element before it.
fn push_each(
    rows: &mut Vec<Vec<Elem>>,
    alloc: Global,
    first: &Elem,
    later: &[Vec<Elem>],
) -> Result<(), AllocError>
    ensures { OnOk result (map (λ row. row.items) rows.new.items ≡
        map (λ row. row.items) rows.old.items
        ++ map (λ row. first.now ∷ row) (map (λ row. row.items) later.now)) }
{
    for row in later {
        rows.push(with_first(alloc, first, row)?)?;
    }
    Ok(())
}

/// Each element before each row, the row varying fastest.
fn before_each(
    alloc: Global,
    firsts: &[Elem],
    later: &[Vec<Elem>],
) -> Result<Vec<Vec<Elem>>, AllocError>
    ensures { IfOk result (λ rows. map (λ row. row.items) rows.items ≡
        flat_map (λ e. map (λ row. e ∷ row) (map (λ row. row.items) later.now)) firsts.now) }
{
    let mut rows = Vec::new(alloc);
    for first in firsts {
        push_each(&mut rows, alloc, first, later)?;
    }
    Ok(rows)
}

/// Every choice of one element from each list, each element copied for it.
fn copied_choices(alloc: Global, lists: &[Vec<Elem>]) -> Result<Vec<Vec<Elem>>, AllocError>
    ensures { IfOk result (λ rows. map (λ row. row.items) rows.items ≡
        choices (map (λ list. list.items) lists.now)) }
{
    match lists {
        [] => {
            let mut rows = Vec::new(alloc);
            rows.push(Vec::new(alloc))?;
            Ok(rows)
        }
        [list, lists @ ..] => {
            let later = copied_choices(alloc, lists)?;
            before_each(alloc, list, &later)
        }
    }
}

/// The one choice, where each list has one element, which is moved into it.
fn only_choice(alloc: Global, lists: Vec<Vec<Elem>>) -> Result<Vec<Elem>, AllocError>
    requires { have_one_each (map (λ list. list.items) lists.items) ≡ true }
    ensures { IfOk result (λ row. choices (map (λ list. list.items) lists.items)
        ≡ row.items ∷ []) }
{
    let mut row = Vec::new(alloc);
    for list in lists {
        let mut firsts = list;
        row.append(&mut firsts)?;
    }
    Ok(row)
}

/// Every choice of one element from each list, the last one varying fastest. Mostly each list has
/// one, and then none is copied.
pub(crate) fn choices(alloc: Global, lists: Vec<Vec<Elem>>) -> Result<Vec<Vec<Elem>>, AllocError>
    ensures { IfOk result (λ rows. map (λ row. row.items) rows.items ≡
        choices (map (λ list. list.items) lists.items)) }
{
    if have_one_each(&lists) {
        let mut rows = Vec::new(alloc);
        rows.push(only_choice(alloc, lists)?)?;
        return Ok(rows);
    }
    copied_choices(alloc, &lists)
}

/// Strengthens the element at a place among the others of the row. True where no state is left.
fn strengthen_at<A: Analysis>(
    handed: &mut Vec<A>,
    pick: &Pick,
    alloc: Global,
    cfa: &Cfa,
    place: usize,
    row: &mut Vec<Elem>,
    precision: &Precision,
) -> Result<bool, AllocError>
    requires automaton { IsAutomaton cfa.now }
    requires pick { pick.now.place < length handed.old.items }
    requires place { place < length row.old.items }
    requires row { AreShaped cfa.now row.old.items }
    requires precision { IsPrecision cfa.now precision.now }
    ensures laws { (c : Component) → IsPicked (map A.meaning handed.old.items) pick.now c →
        IfOk result (StrengthensAt cfa.now c place row.old.items precision.now row.new.items) }
    ensures kept { map A.meaning handed.new.items ≡ map A.meaning handed.old.items }
{
    let own = row.remove(place);
    let others = row.as_slice();
    let left = asking::strengthen(handed, pick, alloc, cfa, &own, others, precision)?;
    match left {
        Some(elem) => {
            row.insert(place, elem)?;
            Ok(false)
        }
        None => Ok(true),
    }
}

/// The row after each analysis has strengthened its element, among the others as they then are.
/// `None` where one of them finds that no state is left.
fn strengthen<A: Analysis>(
    handed: &mut Vec<A>,
    picks: &[Pick],
    alloc: Global,
    cfa: &Cfa,
    choice: Vec<Elem>,
    precisions: &[Precision],
) -> Result<Option<Vec<Elem>>, AllocError>
    requires automaton { IsAutomaton cfa.now }
    requires picks { ArePlaces (length handed.old.items) picks.now }
    requires choice { AreElems cfa.now (length picks.now) choice.items }
    requires precisions { ArePrecisions cfa.now (length picks.now) precisions.now }
    ensures laws { IfOk result (λ row. Strengthens cfa.now
        (picked (map A.meaning handed.old.items) picks.now) [] choice.items precisions.now
        (option_map (λ list. list.items) row)) }
    ensures kept { map A.meaning handed.new.items ≡ map A.meaning handed.old.items }
{
    let mut row = choice;
    for place in 0..picks.len() {
        let pick = &picks[place];
        let precision = &precisions[place];
        let stuck = strengthen_at(handed, pick, alloc, cfa, place, &mut row, precision)?;
        if stuck {
            return Ok(None);
        }
    }
    Ok(Some(row))
}

/// The rows of all choices that have one, in order.
pub(crate) fn strengthen_all<A: Analysis>(
    handed: &mut Vec<A>,
    picks: &[Pick],
    alloc: Global,
    cfa: &Cfa,
    choices: Vec<Vec<Elem>>,
    precisions: &[Precision],
) -> Result<Vec<Vec<Elem>>, AllocError>
    requires automaton { IsAutomaton cfa.now }
    requires picks { ArePlaces (length handed.old.items) picks.now }
    requires choices { AllByRecursion (AreElems cfa.now (length picks.now))
        (map (λ row. row.items) choices.items) }
    requires precisions { ArePrecisions cfa.now (length picks.now) precisions.now }
    ensures laws { IfOk result (λ rows. EachStrengthened cfa.now
        (picked (map A.meaning handed.old.items) picks.now) precisions.now
        (map (λ row. row.items) choices.items) (map (λ row. row.items) rows.items)) }
    ensures kept { map A.meaning handed.new.items ≡ map A.meaning handed.old.items }
{
    let mut rows = Vec::new(alloc);
    for choice in choices {
        let row = strengthen(handed, picks, alloc, cfa, choice, precisions)?;
        match row {
            Some(row) => rows.push(row)?,
            None => {}
        }
    }
    Ok(rows)
}

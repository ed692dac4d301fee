//! Reads picks: names of analyses, each with the rule by which its elements merge. That each has
//! its place is shown with `proofs/composites/picking/`.

ghost use Rattle.std.specs.Prelude.{◌<◌, IfOk};
ghost use Rattle.cpa_composite.specs.Components.{ArePlaces};

use cases_programs::rule_of_word;
use cases_reader::RowFault;
use cpa_iface::Pick;
use std::alloc::Global;

/// The analyses that may be picked, by their places: `failing` is a blind one whose third transfer
/// is refused for want of memory.
const NAMES: [&str; 8] = [
    "location",
    "callstack",
    "value",
    "blind",
    "failing",
    "guess",
    "counter",
    "eager",
];

/// The picks that words name, two words each.
pub fn picks_of(alloc: Global, words: &[&str]) -> Result<Vec<Pick>, RowFault> {
    let mut picks = Vec::new(alloc);
    let mut rest = words;
    while let [name, rule, behind @ ..] = rest {
        picks.push(pick_of(name, rule)?)?;
        rest = behind;
    }
    if !rest.is_empty() {
        return Err(RowFault::Unreadable);
    }
    Ok(picks)
}

/// The pick of an analysis by its name, with the rule of its merging.
fn pick_of(name: &str, rule: &str) -> Result<Pick, RowFault> {
    let place = place_of(name)?;
    let rule = rule_of_word(rule)?;
    Ok(Pick { place, rule })
}

/// The place of the name among `NAMES`.
fn place_of(name: &str) -> Result<u32, RowFault> {
    for place in 0..8 {
        if NAMES[place as usize] == name {
            return Ok(place);
        }
    }
    Err(RowFault::Unreadable)
}

/// A copy of picks, each of which is to have its place.
pub fn placed(alloc: Global, picks: &[Pick]) -> Result<Vec<Pick>, RowFault>
    ensures { IfOk result (λ placed. ArePlaces 8 placed.items) }
{
    let mut placed = Vec::new(alloc);
    for pick in picks {
        if pick.place >= 8 {
            return Err(RowFault::Unreadable);
        }
        placed.push(*pick)?;
    }
    Ok(placed)
}

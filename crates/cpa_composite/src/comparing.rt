//! Tests on rows. They compute what `specs/Comparisons.antt` and `specs/Laws.antt` say of them, by
//! the checker alone.

ghost use Rattle.std.specs.Prelude.{◌≡◌, map};
ghost use Rattle.cpa_composite.specs.Comparisons.{keeps_apart, agree, have_one_each};
ghost use Rattle.cpa_composite.specs.Laws.{is_longer, some_longer};

use cpa_iface::{MergeRule, Pick, Precision};
use cpa_model::Elem;
use cpa_reached_key::same_elem;

/// Whether an analysis with this rule keeps its elements apart.
pub(crate) fn keeps_apart(rule: MergeRule) -> bool
    ensures { result ≡ keeps_apart rule }
{
    match rule {
        MergeRule::Sep => true,
        MergeRule::Join | MergeRule::Widen => false,
    }
}

/// Whether the elements of each analysis that keeps them apart are the same. The last ones are
/// looked at first: those in front tell control apart, and rows of one key agree on them.
#[tactic(auto, using(crate::proofs::Compared::either_order))]
pub(crate) fn agree(picks: &[Pick], new: &[Elem], old: &[Elem]) -> bool
    ensures { result ≡ agree picks.now new.now old.now }
{
    match picks {
        [] => true,
        [pick, picks @ ..] => match new {
            [] => true,
            [elem, new @ ..] => match old {
                [] => true,
                [fellow, old @ ..] => {
                    agree(picks, new, old) && (!keeps_apart(pick.rule) || same_elem(elem, fellow))
                }
            },
        },
    }
}

/// Whether one of the two lists of a precision is longer than before.
fn is_longer(before: &Precision, after: &Precision) -> bool
    ensures { result ≡ is_longer before.now after.now }
{
    before.tracked.len() < after.tracked.len() || before.preds.len() < after.preds.len()
}

/// Whether some precision is longer than the old one at its place.
pub(crate) fn some_longer(old: &[Precision], new: &[Precision]) -> bool
    ensures { result ≡ some_longer old.now new.now }
{
    match old {
        [] => false,
        [before, old @ ..] => match new {
            [] => false,
            [after, new @ ..] => is_longer(before, after) || some_longer(old, new),
        },
    }
}

/// Whether each list has one element.
pub(crate) fn have_one_each(lists: &[Vec<Elem>]) -> bool
    ensures { result ≡ have_one_each (map (λ list. list.items) lists.now) }
{
    match lists {
        [] => true,
        [list, lists @ ..] => list.as_slice().len() == 1 && have_one_each(lists),
    }
}

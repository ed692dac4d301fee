//! Laws on the rows of successors and of merges: exact pins are followed exactly, and merging ends.
//! Shown in `proofs/` (`Following`, `Pinned`, `Moving`, `Ranked`) and `specs/lemmas/RankLaws.antt`.

ghost use Rattle.std.specs.Prelude.{◌≡◌, ℕ, ◌<◌, ◌≤◌, List, [], ◌∷◌, length, Some, slice_get};
ghost use Rattle.std.specs.Prelude.{IsTrue, ◌⊎◌};
ghost use Rattle.std.specs.List.{AllByRecursion};
ghost use Rattle.cpa_model.specs.declared.automaton.Cfa.{Cfa};
ghost use Rattle.cpa_model.specs.declared.automaton.Edge.{Edge};
ghost use Rattle.cpa_model.specs.declared.facts.Elem.{Elem};
ghost use Rattle.cpa_model.specs.declared.states.State.{State};
ghost use Rattle.cpa_model.specs.Acts.{IsEdgeOf};
ghost use Rattle.cpa_model.specs.Automata.{IsAutomaton, IsStateOf, StepsAlong, initial_state};
ghost use Rattle.cpa_iface.specs.declared.analysis.Part.TheVariants.{Store};
ghost use Rattle.cpa_iface.specs.declared.analysis.Settings.{Settings};
ghost use Rattle.cpa_iface.specs.declared.entries.Entry.{Entry};
ghost use Rattle.cpa_iface.specs.declared.precisions.Precision.{Precision};
ghost use Rattle.cpa_iface.specs.Pins.{pin_of, StepsPart, IsSettledBy};
ghost use Rattle.cpa_composite.specs.Components.{Component, StandsAt, ArePrecisions, IsEntryOf};
ghost use Rattle.cpa_composite.specs.Covers.{all_cover};
ghost use Rattle.cpa_composite.specs.Exact.{IsControl, FollowPart, ControlSteps, AreExact, BindAll};
ghost use Rattle.cpa_composite.specs.Exact.{HaveEachPart, pins};
ghost use Rattle.cpa_composite.specs.Laws.{InitialRow, SuccessorRows, MergedRow, AdjustedRow};
ghost use Rattle.cpa_composite.specs.Laws.{AgreeOnSep, WidenCovers};
ghost use Rattle.cpa_composite.specs.Ranks.{row_rank, row_height, JoinNone, HaveFixedHeights};
ghost use Rattle.cpa_composite.specs.Ranks.{IsRanked};

use cpa_model::steps_keep_states;

/// A law: where a component is exact on the point or on the stack, and its element is the pin of
/// that part of a state, each row of successors has the pin after the step of that part, and there
/// is no row where the part has no step. So all such elements of a row are the pins of one state.
pub fn control_is_followed()
    ensures follows { (cs : List Component) (cfa : Cfa) (edge : ℕ) (es : List Elem)
        (ps : List Precision) (rows : List (List Elem))
        → SuccessorRows cs cfa edge es ps rows → (i : ℕ) (c : Component) (e : Elem)
        (p : Precision) → StandsAt cs es ps i c e p → IsControl c.meaning.part
        → (g : Edge) (s : State) → slice_get cfa.edges edge ≡ Some g
        → IsStateOf cfa s → e ≡ pin_of c.meaning.part s
        → FollowPart c.meaning.part cfa g s i rows }
    ensures steps { (cs : List Component) (cfa : Cfa) (edge : ℕ) (es : List Elem)
        (ps : List Precision) (rows : List (List Elem)) (g : Edge) (s : State) (k : ℕ)
        (row : List Elem) → length ps ≡ length cs → SuccessorRows cs cfa edge es ps rows
        → slice_get cfa.edges edge ≡ Some g → IsEdgeOf cfa g → IsStateOf cfa s
        → slice_get rows k ≡ Some row → ControlSteps cs cfa g s es row }
{}

/// A law: where each component is exact, one at most of the store, and each precision binds it, the
/// one row of successors of the pins of a state, by an edge that is no input, is that of the pins
/// of the state to which the step leads. Where a part has no step there is none. Where each part
/// has its component, either there is a row and a step, or neither.
pub fn pins_are_followed()
    ensures step { (cs : List Component) (cfa : Cfa) (edge : ℕ) (ps : List Precision)
        (rows : List (List Elem)) (g : Edge) (s t : State) → AreExact cs → BindAll cfa cs ps
        → length ps ≡ length cs → SuccessorRows cs cfa edge (pins cs s) ps rows
        → slice_get cfa.edges edge ≡ Some g → IsSettledBy Store g.act → StepsAlong cfa g s t
        → rows ≡ pins cs t ∷ [] }
    ensures stuck { (cs : List Component) (cfa : Cfa) (edge : ℕ) (ps : List Precision)
        (rows : List (List Elem)) (g : Edge) (s : State) → BindAll cfa cs ps
        → length ps ≡ length cs → SuccessorRows cs cfa edge (pins cs s) ps rows
        → slice_get cfa.edges edge ≡ Some g → IsSettledBy Store g.act → IsStateOf cfa s
        → (i : ℕ) (c : Component) → slice_get cs i ≡ Some c
        → ((t : State) → StepsPart c.meaning.part cfa g s t → ⊥)
        → rows ≡ [] }
    ensures next { (cs : List Component) (cfa : Cfa) (edge : ℕ) (ps : List Precision)
        (rows : List (List Elem)) (g : Edge) (s : State) → IsAutomaton cfa → AreExact cs
        → HaveEachPart cs → BindAll cfa cs ps → length ps ≡ length cs
        → SuccessorRows cs cfa edge (pins cs s) ps rows → slice_get cfa.edges edge ≡ Some g
        → IsSettledBy Store g.act → IsStateOf cfa s → (rows ≡ [])
        ⊎ ((t : State) × StepsAlong cfa g s t × (rows ≡ pins cs t ∷ [])) }
    ensures initial { (cs : List Component) (cfa : Cfa) (settings : Settings) (es : List Elem)
        (ps : List Precision) → AreExact cs → InitialRow cs cfa settings es ps
        → es ≡ pins cs (initial_state cfa) }
    ensures adjust { (cs : List Component) (cfa : Cfa) (es : List Elem) (ps : List Precision)
        (reached : List Entry) (after : List Elem) (next : List Precision) → BindAll cfa cs ps
        → length es ≡ length cs → length ps ≡ length cs
        → AdjustedRow cs cfa es ps reached after next
        → (after ≡ es) × BindAll cfa cs next }
{
    steps_keep_states();
}

/// A law: where no component joins, a row that takes the place of an old one has a lower rank, and
/// the new row is covered by what stands there afterwards.
pub fn merging_ends()
    ensures falls { (cs : List Component) (cfa : Cfa) (new old : List Elem) (ps : List Precision)
        (merged : List Elem) → JoinNone cs → length new ≡ length cs → length old ≡ length cs
        → length ps ≡ length cs → MergedRow cs cfa new old ps merged
        → row_rank cfa cs merged < row_rank cfa cs old }
    ensures merged { (cs : List Component) (cfa : Cfa) (new old : List Elem) (ps : List Precision)
        (merged : List Elem) → JoinNone cs → length new ≡ length cs → length old ≡ length cs
        → length ps ≡ length cs → MergedRow cs cfa new old ps merged
        → IsTrue (all_cover cs new merged) }
    ensures stays { (cs : List Component) (new old : List Elem) → JoinNone cs
        → AgreeOnSep cs new old → WidenCovers cs new old → IsTrue (all_cover cs new old) }
{}

/// A law: where the height of each analysis that widens does not depend on the precision, no rank
/// is above it, in the first row and in all that come of rows of which this holds.
pub fn ranks_are_bounded()
    ensures initial { (cs : List Component) (cfa : Cfa) (settings : Settings) (es : List Elem)
        (ps : List Precision) → HaveFixedHeights cfa cs → InitialRow cs cfa settings es ps
        → IsRanked cfa cs es }
    ensures successors { (cs : List Component) (cfa : Cfa) (edge : ℕ) (es : List Elem)
        (ps : List Precision) (rows : List (List Elem)) → HaveFixedHeights cfa cs
        → length es ≡ length cs → ArePrecisions cfa (length cs) ps → IsRanked cfa cs es
        → SuccessorRows cs cfa edge es ps rows → AllByRecursion (IsRanked cfa cs) rows }
    ensures adjust { (cs : List Component) (cfa : Cfa) (es : List Elem) (ps : List Precision)
        (reached : List Entry) (after : List Elem) (next : List Precision)
        → HaveFixedHeights cfa cs → length es ≡ length cs → ArePrecisions cfa (length cs) ps
        → AllByRecursion (IsEntryOf cfa (length cs)) reached
        → AllByRecursion (λ entry. IsRanked cfa cs entry.elems) reached → IsRanked cfa cs es
        → AdjustedRow cs cfa es ps reached after next → IsRanked cfa cs after }
    ensures merge { (cs : List Component) (cfa : Cfa) (new old : List Elem) (ps : List Precision)
        (merged : List Elem) → HaveFixedHeights cfa cs → length new ≡ length cs
        → length old ≡ length cs → ArePrecisions cfa (length cs) ps → IsRanked cfa cs new
        → IsRanked cfa cs old → MergedRow cs cfa new old ps merged → IsRanked cfa cs merged }
    ensures height { (cs : List Component) (cfa : Cfa) (es : List Elem) → IsRanked cfa cs es
        → row_rank cfa cs es ≤ row_height cfa cs }
{}

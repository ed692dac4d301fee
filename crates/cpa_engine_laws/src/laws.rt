//! Laws on turns and rounds: functions whose contract is the law, and which do nothing. They are
//! shown in `specs/lemmas`.

ghost use Rattle.std.specs.Prelude.{◌≡◌, ℕ, ◌+◌, ◌*◌, ◌<◌, ◌≤◌, List, [], length, Some, slice_get};
ghost use Rattle.std.specs.Prelude.{true, IsTrue};
ghost use Rattle.std.specs.List.{Contains};
ghost use Rattle.cpa_model.specs.declared.automaton.Cfa.{Cfa};
ghost use Rattle.cpa_model.specs.declared.automaton.Path.{Path};
ghost use Rattle.cpa_model.specs.declared.facts.Elem.{Elem};
ghost use Rattle.cpa_model.specs.declared.program.Program.{Program};
ghost use Rattle.cpa_model.specs.declared.states.State.{State};
ghost use Rattle.cpa_model.specs.Automata.{IsAutomaton, IsAutomatonOf, IsStateOf, initial_state};
ghost use Rattle.cpa_model.specs.Facts.{LiesIn};
ghost use Rattle.cpa_model.specs.Programs.{IsWellFormed};
ghost use Rattle.cpa_iface.specs.declared.analysis.Part.TheVariants as part;
ghost use Rattle.cpa_iface.specs.declared.analysis.Settings.{Settings};
ghost use Rattle.cpa_iface.specs.declared.entries.Entry.{Entry};
ghost use Rattle.cpa_iface.specs.declared.merging.Order.{Order};
ghost use Rattle.cpa_iface.specs.declared.precisions.Precision.{Precision};
ghost use Rattle.cpa_iface.specs.Meanings.{Meaning, IsPathOf};
ghost use Rattle.cpa_iface.specs.Pins.{pin, pin_of};
ghost use Rattle.cpa_composite.specs.Components.{Component};
ghost use Rattle.cpa_composite.specs.Exact.{IsControl, HaveEachPart, pins};
ghost use Rattle.cpa_composite.specs.Keys.{is_key};
ghost use Rattle.cpa_composite.specs.Laws.{InitialRow, MergedRow, RefinedRow};
ghost use Rattle.cpa_composite.specs.Ranks.{row_height, HaveFixedHeights};
ghost use Rattle.cpa_reached.specs.Calls.{begun};
ghost use Rattle.cpa_reached.specs.Entries.{ReachedSet, IsNumbered, numbers, waiting_numbers};
ghost use Rattle.cpa_model.specs.Ascending.{AreAscending};
ghost use Rattle.cpa_reached.specs.Members.{IsIn};
ghost use Rattle.cpa_reached.specs.Paths.{IsPathTo};
ghost use Rattle.cpa_engine_turn.specs.Bounds.{turns_due, turns_left, KeysBound, AreBounded};
ghost use Rattle.cpa_engine_turn.specs.Bounds.{StatesBound, ArePinned};
ghost use Rattle.cpa_engine_turn.specs.Keys.{key_of, WidenBesideKeys, HaveOwnKeys, HasPlaces};
ghost use Rattle.cpa_engine_turn.specs.Stages.{fellows, first_cover};
ghost use Rattle.cpa_engine_turn.specs.Turns.{AreEntries, Turned};
ghost use Rattle.cpa_engine_laws.specs.Cells.{TellCells, all_untracked};
ghost use Rattle.cpa_engine_laws.specs.Chains.{HaveApart, PointsChain, SitesChain, WalksTo};
ghost use Rattle.cpa_engine_laws.specs.Chains.{StepsBy, AreSettled, RunsToInput};
ghost use Rattle.cpa_engine_laws.specs.Lines.{AreKeyLines, ArePinLines, KeyRoot, PinStates};
ghost use Rattle.cpa_engine_laws.specs.Lines.{HasStateKey};
ghost use Rattle.cpa_engine_laws.specs.Pairs.{ArePairs, pair_keys};
ghost use Rattle.cpa_engine_laws.specs.States.{AreReachable, HasNoInput};

use cpa_composite::{control_is_followed, pins_are_followed, ranks_are_bounded};
use cpa_model::{edges_are_sound, edges_are_steps};

/// A law: after a turn, too, each entry stands to its parent as its edge says: in the elements that
/// tell entries apart, and in all, where these pin whole states. A number tells the elements.
pub fn lines_are_kept()
    ensures keys { (cfa : Cfa) (cs : List Component) (order : Order) (old new : ReachedSet)
        → IsAutomaton cfa → IsNumbered old → AreEntries cfa (length cs) old.live
        → Turned cfa cs order old new → AreKeyLines cfa cs old.live
        → AreKeyLines cfa cs new.live }
    ensures pins { (cfa : Cfa) (cs : List Component) (order : Order) (old new : ReachedSet)
        → IsAutomaton cfa → IsNumbered old → AreEntries cfa (length cs) old.live
        → Turned cfa cs order old new → PinStates cs → ArePinLines cfa cs old.live
        → ArePinLines cfa cs new.live }
    ensures alike { (cfa : Cfa) (cs : List Component) (order : Order) (old new : ReachedSet)
        → IsNumbered old → AreEntries cfa (length cs) old.live → Turned cfa cs order old new
        → (d e : Entry) → IsIn d new.live → IsIn e new.live → d.number ≡ e.number
        → d.elems ≡ e.elems }
{
    edges_are_sound();
    control_is_followed();
    pins_are_followed();
}

/// A law: the first entry, alone, does.
pub fn lines_begin()
    ensures keys { (cfa : Cfa) (cs : List Component) (settings : Settings) (es : List Elem)
        (ps : List Precision) → InitialRow cs cfa settings es ps
        → AreKeyLines cfa cs (begun es ps).live }
    ensures pins { (cfa : Cfa) (cs : List Component) (settings : Settings) (es : List Elem)
        (ps : List Precision) → PinStates cs → settings.tracked_all ≡ true
        → settings.limit ≡ 0 → InitialRow cs cfa settings es ps
        → ArePinLines cfa cs (begun es ps).live }
{
    pins_are_followed();
}

/// A law: rows of one key have the same elements where entries are told apart. The first row has
/// the key of the initial state. A key tells point and stack, where both have a component that
/// keeps its elements apart.
pub fn keys_tell()
    ensures at { (cs : List Component) (es fs : List Elem) (i : ℕ) (c : Component) (e f : Elem)
        → length es ≡ length cs → length fs ≡ length cs → key_of cs es ≡ key_of cs fs
        → slice_get cs i ≡ Some c → slice_get es i ≡ Some e → slice_get fs i ≡ Some f
        → is_key c ≡ true → e ≡ f }
    ensures initial { (cfa : Cfa) (cs : List Component) (settings : Settings) (es : List Elem)
        (ps : List Precision) → InitialRow cs cfa settings es ps → KeyRoot cfa cs es }
    ensures control { (cfa : Cfa) (cs : List Component) (s t : State) → HaveApart cs part.Point
        → HaveApart cs part.Stack → key_of cs (pins cs s) ≡ key_of cs (pins cs t)
        → (s.point ≡ t.point) × (s.stack ≡ t.stack) }
{}

/// A law: nothing is lost where a row is compared with the entries of its key alone. A pin of the
/// point or of the stack is covered by no other one, so the first entry that covers a row is the
/// first one under its key; and rows that merge have one key.
pub fn keys_lose_nothing()
    ensures pins { (m : Meaning) (s t : State) → IsControl m.part
        → IsTrue (m.cover (pin_of m.part s) (pin_of m.part t))
        → pin_of m.part s ≡ pin_of m.part t }
    ensures covers { (cs : List Component) (r : ReachedSet) (es : List Elem) → HasPlaces cs r
        → HasStateKey cs es → ((e : Entry) → IsIn e r.live → HasStateKey cs e.elems)
        → first_cover cs es (fellows r es) ≡ first_cover cs es r.live }
    ensures merges { (cfa : Cfa) (cs : List Component) (new old : List Elem)
        (ps : List Precision) (merged : List Elem) → length new ≡ length cs
        → length old ≡ length cs → MergedRow cs cfa new old ps merged
        → key_of cs new ≡ key_of cs old }
{}

/// A law: where each part of a state has its component, the pins of a state hold of no other one.
pub fn pins_tell()
    ensures { (cfa : Cfa) (cs : List Component) (s t : State) → HaveEachPart cs
        → IsStateOf cfa s → IsStateOf cfa t → LiesIn s (pins cs t) → s ≡ t }
{}

/// A law: whatever entries are there, no more turns are left than there are keys, as often as the
/// elements of one may widen and once more; where all is exact, than there are states. And one is
/// left where an entry waits.
pub fn turns_are_bounded()
    ensures keys { (cfa : Cfa) (cs : List Component) (keys : List (List Elem))
        (xs : List Entry) → AreAscending (numbers xs) → AreBounded cfa cs keys xs
        → turns_left cfa cs (length keys) xs ≤ length keys * (1 + row_height cfa cs) }
    ensures states { (cfa : Cfa) (cs : List Component) (states : List State) (xs : List Entry)
        → PinStates cs → AreAscending (numbers xs) → ArePinned cfa cs states xs
        → turns_left cfa cs (length states) xs ≤ length states }
    ensures due { (cfa : Cfa) (cs : List Component) (xs : List Entry)
        → (waiting_numbers xs ≡ [] → ⊥) → 1 ≤ turns_due cfa cs xs }
{
    ranks_are_bounded();
}

/// A law: the keys of the points with the calls that may be open there bound the turns, and the
/// initial state has one of them.
pub fn pairs_bound_turns()
    ensures keys { (P : Program) (cfa : Cfa) (cs : List Component) (pairs : List (ℕ × List ℕ))
        → IsWellFormed P → IsAutomatonOf P cfa → ArePairs P pairs → HaveApart cs part.Point
        → HaveApart cs part.Stack → WidenBesideKeys cs → HaveFixedHeights cfa cs
        → KeysBound cfa cs (pair_keys cs pairs) }
    ensures first { (P : Program) (cfa : Cfa) (cs : List Component) (pairs : List (ℕ × List ℕ))
        → IsAutomatonOf P cfa → ArePairs P pairs
        → IsIn (key_of cs (pins cs (initial_state cfa))) (pair_keys cs pairs) }
    ensures count { (cs : List Component) (pairs : List (ℕ × List ℕ))
        → length (pair_keys cs pairs) ≡ length pairs }
{}

/// A law: the reachable states of a program without inputs bound the turns where all is exact, and
/// the initial state is one of them.
pub fn states_bound_turns()
    ensures states { (P : Program) (cfa : Cfa) (cs : List Component) (states : List State)
        → IsWellFormed P → IsAutomatonOf P cfa → AreReachable P states → HasNoInput P
        → PinStates cs → StatesBound cfa cs states }
    ensures first { (P : Program) (cfa : Cfa) (states : List State) → IsWellFormed P
        → IsAutomatonOf P cfa → AreReachable P states → IsIn (initial_state cfa) states }
{
    edges_are_steps();
}

/// A law: what holds of the path to an entry. Its points and its call sites chain where such
/// elements tell entries apart; it is shorter than there are keys where no two entries have the
/// same; and where elements pin whole states, it leads to an error and no run goes along it, it
/// has an input, and the edges before it are those of an execution.
pub fn paths_are_kept()
    ensures points { (cfa : Cfa) (cs : List Component) (r : ReachedSet) (e : Entry)
        (path : List ℕ) → IsAutomaton cfa → IsNumbered r → AreEntries cfa (length cs) r.live
        → AreKeyLines cfa cs r.live → HaveApart cs part.Point → IsIn e r.live
        → ((i p : ℕ) → slice_get e.elems i ≡ Some (pin p) → Contains cfa.errors p)
        → IsPathTo r.live e.number path
        → (q : ℕ) × PointsChain cfa cfa.start path q × Contains cfa.errors q }
    ensures sites { (cfa : Cfa) (cs : List Component) (r : ReachedSet) (e : Entry)
        (path : List ℕ) → IsAutomaton cfa → IsNumbered r → AreEntries cfa (length cs) r.live
        → AreKeyLines cfa cs r.live → HaveApart cs part.Stack → IsIn e r.live
        → IsPathTo r.live e.number path → (last : List ℕ) × SitesChain cfa [] path last }
    ensures short { (P : Program) (cfa : Cfa) (cs : List Component) (r : ReachedSet) (n : ℕ)
        (path : List ℕ) (pairs : List (ℕ × List ℕ)) → IsWellFormed P → IsAutomatonOf P cfa
        → IsNumbered r → AreEntries cfa (length cs) r.live → AreKeyLines cfa cs r.live
        → HaveApart cs part.Point → HaveApart cs part.Stack → HaveOwnKeys cs r.live
        → ArePairs P pairs → IsPathTo r.live n path → length path < length pairs }
    ensures inputs { (cfa : Cfa) (cs : List Component) (r : ReachedSet) (e : Entry)
        (path : List ℕ) → IsAutomaton cfa → IsNumbered r → AreEntries cfa (length cs) r.live
        → ArePinLines cfa cs r.live → PinStates cs → IsIn e r.live
        → ((i p : ℕ) → slice_get e.elems i ≡ Some (pin p) → Contains cfa.errors p)
        → IsPathTo r.live e.number path
        → (AreSettled cfa path → (t : State)
        → WalksTo (StepsBy cfa) (initial_state cfa) path t → Contains cfa.errors t.point → ⊥)
        → RunsToInput cfa path }
    ensures inside { (cfa : Cfa) (count : ℕ) (xs : List Entry) (n : ℕ) (path : Path)
        → AreEntries cfa count xs → IsPathTo xs n path.edges → IsPathOf cfa path }
{
    edges_are_steps();
}

/// A law: where analyses suggest cells alone, a refinement leaves fewer cells that are not tracked,
/// and there are never more than the analyses times the cells.
pub fn refinements_are_few()
    ensures falls { (cfa : Cfa) (cs : List Component) (path : Path) (old new : List Precision)
        → TellCells cfa cs → IsPathOf cfa path → length old ≡ length cs
        → RefinedRow cs cfa path old new
        → all_untracked (length cfa.cells) new < all_untracked (length cfa.cells) old }
    ensures few { (cells : ℕ) (ps : List Precision)
        → all_untracked cells ps ≤ length ps * cells }
{}

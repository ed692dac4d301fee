//! That the calls keep covered successors. The function does nothing: its contract is the law,
//! which is shown in `specs/lemmas/SuccessorLaws.antt`.

ghost use Rattle.std.specs.Prelude.{ℕ, List};
ghost use Rattle.cpa_model.specs.declared.automaton.Cfa.{Cfa};
ghost use Rattle.cpa_model.specs.declared.facts.Elem.{Elem};
ghost use Rattle.cpa_model.specs.Automata.{IsStateOf, initial_state};
ghost use Rattle.cpa_iface.specs.declared.precisions.Precision.{Precision};
ghost use Rattle.cpa_iface.specs.declared.entries.Entry.{Entry};
ghost use Rattle.cpa_iface.specs.declared.entries.Turn.{Turn};
ghost use Rattle.cpa_model.specs.Ascending.{AreAscending};
ghost use Rattle.cpa_reached.specs.Entries.{ReachedSet, numbers};
ghost use Rattle.cpa_reached.specs.Calls.{added, replaced, used, refined, closed, restarted};
ghost use Rattle.cpa_reached.specs.Removal.{RemovesBelow};
ghost use Rattle.cpa_reached.specs.Successors.{CoversSuccessors, HoldOfAll};

/// Each call but `take_next` keeps covered successors; `replace` does where the new elements hold
/// of all states of the old entry.
pub fn calls_keep_cover()
    ensures add { (cfa : Cfa) (r : ReachedSet) (es : List Elem) (ps : List Precision)
        (parent : ℕ × ℕ) → CoversSuccessors cfa r.live
        → CoversSuccessors cfa (added r es ps parent).live }
    ensures replace { (cfa : Cfa) (r : ReachedSet) (old : ℕ) (es : List Elem)
        → IsStateOf cfa (initial_state cfa) → HoldOfAll cfa r.live old es
        → CoversSuccessors cfa r.live → CoversSuccessors cfa (replaced r old es).live }
    ensures note_use { (cfa : Cfa) (r : ReachedSet) (n by : ℕ) → CoversSuccessors cfa r.live
        → CoversSuccessors cfa (used r n by).live }
    ensures remove_below { (cfa : Cfa) (pivot : ℕ) (old new : List Entry)
        → AreAscending (numbers old) → RemovesBelow pivot old new → CoversSuccessors cfa old → CoversSuccessors cfa new }
    ensures set_precisions { (cfa : Cfa) (r : ReachedSet) (n : ℕ) (ps : List Precision)
        → CoversSuccessors cfa r.live → CoversSuccessors cfa (refined r n ps).live }
    ensures close_turn { (cfa : Cfa) (r : ReachedSet) (turn : Turn) → CoversSuccessors cfa r.live
        → CoversSuccessors cfa (closed r turn).live }
    ensures start_round { (cfa : Cfa) (r : ReachedSet) → CoversSuccessors cfa r.live
        → CoversSuccessors cfa (restarted r).live }
{}

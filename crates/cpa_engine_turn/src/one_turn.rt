//! One turn of the algorithm (CAV 2007, section 2, the body of the loop). That it is `IsTurn` is
//! shown in `proofs/`, from what its steps are.

ghost use Rattle.std.specs.Prelude.{◌≡◌, ℕ, ◌<◌, [], false, List, length, IsTrue, IfOk, OnOk};
ghost use Rattle.cpa_model.specs.declared.facts.Elem.{Elem as AnElem};
ghost use Rattle.cpa_model.specs.declared.states.State.{State};
ghost use Rattle.cpa_model.specs.Automata.{IsAutomaton};
ghost use Rattle.cpa_composite.specs.Composites.{components};
ghost use Rattle.cpa_reached.specs.Entries.{waiting_numbers};
ghost use Rattle.cpa_reached.specs.Successors.{CoversSuccessors};
ghost use Rattle.cpa_engine_turn.specs.Bounds.{turns_left, KeysBound, AreBounded};
ghost use Rattle.cpa_engine_turn.specs.Bounds.{StatesBound, ArePinned};
ghost use Rattle.cpa_engine_turn.specs.Journals.{IsJournalOf};
ghost use Rattle.cpa_engine_turn.specs.Keys.{WidenBesideKeys, HaveOwnKeys, HasPlaces};
ghost use Rattle.cpa_engine_turn.specs.Turns.{AreEntries, Turned};

use crate::taking::expand_taken;
use cpa_composite::{
    Composite, control_is_followed, merging_ends, pins_are_followed, ranks_are_bounded,
};
use cpa_iface::{Analysis, Order};
use cpa_model::{Cfa, edges_are_sound, edges_are_steps};
use cpa_reached::Reached;
use std::alloc::{AllocError, Global};

/// One turn on the entry that is next in the order, which is closed in the journal. False where
/// nothing waits. A successor is compared with the entries of its key alone: all of them where the
/// reached set is indexed by no places. After want of memory it is only to be dropped.
pub fn turn<A: Analysis>(
    alloc: Global,
    cfa: &Cfa,
    composite: &mut Composite<A>,
    reached: &mut Reached,
    order: Order,
) -> Result<bool, AllocError>
    requires automaton { IsAutomaton cfa.now }
    requires entries { AreEntries cfa.now (length (components composite.old)) reached.old.live }
    requires places { HasPlaces (components composite.old) reached.old }
    ensures turned { IfOk result (λ goes. IsTrue goes →
        Turned cfa.now (components composite.old) order reached.old reached.new) }
    ensures done { IfOk result (λ goes. goes ≡ false →
        (waiting_numbers reached.old.live ≡ []) × (reached.new ≡ reached.old)) }
    ensures entries { OnOk result
        (AreEntries cfa.now (length (components composite.old)) reached.new.live) }
    ensures places { OnOk result (reached.new.places ≡ reached.old.places) }
    ensures covers { CoversSuccessors cfa.now reached.old.live
        → OnOk result (CoversSuccessors cfa.now reached.new.live) }
    ensures journal { (began : List ℕ) → IsJournalOf began reached.old
        → OnOk result (IsJournalOf began reached.new) }
    ensures keys { WidenBesideKeys (components composite.old)
        → HaveOwnKeys (components composite.old) reached.old.live
        → OnOk result (HaveOwnKeys (components composite.old) reached.new.live) }
    ensures bound { (keys : List (List AnElem))
        → KeysBound cfa.now (components composite.old) keys
        → AreBounded cfa.now (components composite.old) keys reached.old.live
        → IfOk result (λ goes.
        AreBounded cfa.now (components composite.old) keys reached.new.live
        × (IsTrue goes →
        turns_left cfa.now (components composite.old) (length keys) reached.new.live
        < turns_left cfa.now (components composite.old) (length keys) reached.old.live)) }
    ensures pins { (states : List State)
        → StatesBound cfa.now (components composite.old) states
        → ArePinned cfa.now (components composite.old) states reached.old.live
        → IfOk result (λ goes.
        ArePinned cfa.now (components composite.old) states reached.new.live
        × (IsTrue goes →
        turns_left cfa.now (components composite.old) (length states) reached.new.live
        < turns_left cfa.now (components composite.old) (length states) reached.old.live)) }
    ensures kept { components composite.new ≡ components composite.old }
{
    edges_are_steps();
    edges_are_sound();
    merging_ends();
    ranks_are_bounded();
    control_is_followed();
    pins_are_followed();
    match reached.take_next(order) {
        Some(number) => {
            expand_taken(alloc, cfa, composite, reached, number)?;
            Ok(true)
        }
        None => Ok(false),
    }
}

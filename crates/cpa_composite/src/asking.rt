//! One call of one picked analysis. Each clause is the law of the call, of the component that the
//! pick makes; that it goes through is `meant` of `cpa_composite_covers`.

ghost use Rattle.std.specs.Prelude.{◌≡◌, ◌<◌, length, map, IfOk};
ghost use Rattle.std.specs.List.{AllByRecursion};
ghost use Rattle.cpa_model.specs.Automata.{IsAutomaton};
ghost use Rattle.cpa_iface.specs.Meanings.{IsShaped, AreShaped, IsPrecision, IsPathOf, HasPlace};
ghost use Rattle.cpa_iface.specs.Laws.{InitialLaws, FirstPrecisionLaws, TransferLaws};
ghost use Rattle.cpa_iface.specs.Laws.{StrengthenLaws, MergeLaws, AdjustLaws, RefineLaws};
ghost use Rattle.cpa_composite.specs.Components.{Component, IsPicked};

use cpa_iface::{Analysis, Entry, Pick, Precision, Settings};
use cpa_model::{Cfa, Elem, Path};
use std::alloc::{AllocError, Global};

/// The element that the analysis begins with.
pub(crate) fn initial<A: Analysis>(
    handed: &mut Vec<A>,
    pick: &Pick,
    alloc: Global,
    cfa: &Cfa,
) -> Result<Elem, AllocError>
    requires automaton { IsAutomaton cfa.now }
    requires pick { pick.now.place < length handed.old.items }
    ensures laws { (c : Component) → IsPicked (map A.meaning handed.old.items) pick.now c →
        IfOk result (λ e. InitialLaws c.meaning cfa.now e) }
    ensures kept { map A.meaning handed.new.items ≡ map A.meaning handed.old.items }
{
    handed[pick.place as usize].initial(alloc, cfa)
}

/// The precision that the analysis begins with.
pub(crate) fn first_precision<A: Analysis>(
    handed: &mut Vec<A>,
    pick: &Pick,
    alloc: Global,
    cfa: &Cfa,
    settings: &Settings,
) -> Result<Precision, AllocError>
    requires automaton { IsAutomaton cfa.now }
    requires pick { pick.now.place < length handed.old.items }
    ensures laws { (c : Component) → IsPicked (map A.meaning handed.old.items) pick.now c →
        IfOk result (λ p. FirstPrecisionLaws c.meaning cfa.now settings.now p) }
    ensures kept { map A.meaning handed.new.items ≡ map A.meaning handed.old.items }
{
    handed[pick.place as usize].first_precision(alloc, cfa, settings)
}

/// The successors that the analysis gives.
pub(crate) fn transfer<A: Analysis>(
    handed: &mut Vec<A>,
    pick: &Pick,
    alloc: Global,
    cfa: &Cfa,
    edge: u32,
    elem: &Elem,
    precision: &Precision,
) -> Result<Vec<Elem>, AllocError>
    requires automaton { IsAutomaton cfa.now }
    requires pick { pick.now.place < length handed.old.items }
    requires edge { edge < length cfa.now.edges }
    requires elem { IsShaped cfa.now elem.now }
    requires precision { IsPrecision cfa.now precision.now }
    ensures laws { (c : Component) → IsPicked (map A.meaning handed.old.items) pick.now c →
        IfOk result (λ es. TransferLaws c.meaning cfa.now edge elem.now precision.now es.items) }
    ensures kept { map A.meaning handed.new.items ≡ map A.meaning handed.old.items }
{
    handed[pick.place as usize].transfer(alloc, cfa, edge, elem, precision)
}

/// What the analysis strengthens its element to.
pub(crate) fn strengthen<A: Analysis>(
    handed: &mut Vec<A>,
    pick: &Pick,
    alloc: Global,
    cfa: &Cfa,
    own: &Elem,
    others: &[Elem],
    precision: &Precision,
) -> Result<Option<Elem>, AllocError>
    requires automaton { IsAutomaton cfa.now }
    requires pick { pick.now.place < length handed.old.items }
    requires own { IsShaped cfa.now own.now }
    requires others { AreShaped cfa.now others.now }
    requires precision { IsPrecision cfa.now precision.now }
    ensures laws { (c : Component) → IsPicked (map A.meaning handed.old.items) pick.now c →
        IfOk result (λ e. StrengthenLaws c.meaning cfa.now own.now others.now precision.now e) }
    ensures kept { map A.meaning handed.new.items ≡ map A.meaning handed.old.items }
{
    handed[pick.place as usize].strengthen(alloc, cfa, own, others, precision)
}

/// What the analysis merges to, by the rule of its pick.
pub(crate) fn merge<A: Analysis>(
    handed: &mut Vec<A>,
    pick: &Pick,
    alloc: Global,
    cfa: &Cfa,
    new: &Elem,
    old: &Elem,
    precision: &Precision,
) -> Result<Elem, AllocError>
    requires automaton { IsAutomaton cfa.now }
    requires pick { pick.now.place < length handed.old.items }
    requires new { IsShaped cfa.now new.now }
    requires old { IsShaped cfa.now old.now }
    requires precision { IsPrecision cfa.now precision.now }
    ensures laws { (c : Component) → IsPicked (map A.meaning handed.old.items) pick.now c →
        IfOk result (λ e.
        MergeLaws c.meaning cfa.now pick.now.rule new.now old.now precision.now e) }
    ensures kept { map A.meaning handed.new.items ≡ map A.meaning handed.old.items }
{
    handed[pick.place as usize].merge(alloc, cfa, pick.rule, new, old, precision)
}

/// What the analysis makes of its element, and the precision that goes with it.
pub(crate) fn adjust<A: Analysis>(
    handed: &mut Vec<A>,
    pick: &Pick,
    alloc: Global,
    cfa: &Cfa,
    elem: &Elem,
    precision: &Precision,
    reached: &[Entry],
    place: u32,
) -> Result<(Elem, Precision), AllocError>
    requires automaton { IsAutomaton cfa.now }
    requires pick { pick.now.place < length handed.old.items }
    requires elem { IsShaped cfa.now elem.now }
    requires precision { IsPrecision cfa.now precision.now }
    requires reached { AllByRecursion (HasPlace cfa.now place) reached.now }
    ensures laws { (c : Component) → IsPicked (map A.meaning handed.old.items) pick.now c →
        IfOk result (λ pair. AdjustLaws c.meaning cfa.now elem.now precision.now reached.now place
        pair.0 pair.1) }
    ensures kept { map A.meaning handed.new.items ≡ map A.meaning handed.old.items }
{
    handed[pick.place as usize].adjust(alloc, cfa, elem, precision, reached, place)
}

/// The precision to which the analysis refines its own.
pub(crate) fn refine<A: Analysis>(
    handed: &mut Vec<A>,
    pick: &Pick,
    alloc: Global,
    cfa: &Cfa,
    path: &Path,
    precision: &Precision,
) -> Result<Precision, AllocError>
    requires automaton { IsAutomaton cfa.now }
    requires pick { pick.now.place < length handed.old.items }
    requires path { IsPathOf cfa.now path.now }
    requires precision { IsPrecision cfa.now precision.now }
    ensures laws { (c : Component) → IsPicked (map A.meaning handed.old.items) pick.now c →
        IfOk result (λ p. RefineLaws c.meaning cfa.now path.now precision.now p) }
    ensures kept { map A.meaning handed.new.items ≡ map A.meaning handed.old.items }
{
    handed[pick.place as usize].refine(alloc, cfa, path, precision)
}

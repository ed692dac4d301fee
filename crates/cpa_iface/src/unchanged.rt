//! What a call gives that changes nothing. Each keeps the laws of its call, whatever the analysis
//! means that tells nothing else, which is shown in `specs/lemmas/CommonLaws.antt`.

ghost use Rattle.std.specs.Prelude.{◌≡◌, ℕ, List, Some, IfOk, IfSome};
ghost use Rattle.cpa_model.specs.declared.automaton.Cfa.{Cfa};
ghost use Rattle.cpa_model.specs.declared.automaton.Path.{Path};
ghost use Rattle.cpa_model.specs.declared.facts.Elem.{Elem as AnElem};
ghost use Rattle.cpa_iface.specs.declared.entries.Entry.{Entry};
ghost use Rattle.cpa_iface.specs.declared.precisions.Precision.{Precision as APrecision};
ghost use Rattle.cpa_iface.specs.Common.{no_suggestion};
ghost use Rattle.cpa_iface.specs.Laws.{StrengthenLaws, AdjustLaws, RefineLaws};
ghost use Rattle.cpa_iface.specs.Meanings.{Meaning, IsShaped, IsPrecision};

use crate::precisions::{Precision, copy_precision};
use cpa_model::{Elem, copy_elem};
use std::alloc::{AllocError, Global};

/// The own element as it is: what `strengthen` gives where the elements of the others say nothing.
pub fn unstrengthened(own: &Elem) -> Result<Option<Elem>, AllocError>
    ensures laws { IfOk result (λ e.
        (m : Meaning) (cfa : Cfa) (others : List AnElem) (p : APrecision)
        → IfSome m.replies (λ r. Some own.now ≡ r.strengthen cfa own.now others p)
        → IsShaped cfa own.now → StrengthenLaws m cfa own.now others p e) }
    ensures given { IfOk result (λ e. e ≡ Some own.now) }
{
    Ok(Some(copy_elem(own)?))
}

/// The element and its precision as they are: what `adjust` gives where nothing is too much.
pub fn unadjusted(
    alloc: Global,
    elem: &Elem,
    precision: &Precision,
) -> Result<(Elem, Precision), AllocError>
    ensures laws { IfOk result (λ pair.
        (m : Meaning) (cfa : Cfa) (reached : List Entry) (place : ℕ)
        → IfSome m.replies (λ r. (elem.now ≡ (r.adjust cfa elem.now precision.now reached place).0)
        × (precision.now ≡ (r.adjust cfa elem.now precision.now reached place).1))
        → IsShaped cfa elem.now → IsPrecision cfa precision.now
        → AdjustLaws m cfa elem.now precision.now reached place pair.0 pair.1) }
    ensures given { IfOk result (λ pair. (pair.0 ≡ elem.now) × (pair.1 ≡ precision.now)) }
{
    Ok((copy_elem(elem)?, copy_precision(alloc, precision)?))
}

/// The precision as it is: what `refine` gives where the path suggests nothing to keep.
pub fn unrefined(alloc: Global, precision: &Precision) -> Result<Precision, AllocError>
    ensures laws { IfOk result (λ p.
        (m : Meaning) (cfa : Cfa) (path : Path) → m.suggestion cfa path ≡ Some no_suggestion
        → IfSome m.replies (λ r. precision.now ≡ r.refine cfa path precision.now)
        → IsPrecision cfa precision.now → RefineLaws m cfa path precision.now p) }
    ensures given { IfOk result (λ p. p ≡ precision.now) }
{
    copy_precision(alloc, precision)
}

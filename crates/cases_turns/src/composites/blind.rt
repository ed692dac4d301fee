//! An analysis that knows nothing, by `specs/Samples.antt`, and may run out of memory at a call of
//! its own.

ghost use Rattle.std.specs.Prelude.{◌≡◌};
ghost use Rattle.cases_turns.specs.Samples.{no_facts};

use cpa_iface::{Part, Steps};
use cpa_model::{Cfa, Elem};
use std::alloc::{AllocError, Global};

/// It knows nothing, and is exact on nothing.
#[derive(Drop)]
pub struct Blind {
    /// How many transfers there are still, up to the one that is refused. 0 where none is.
    left: u32,
}

impl Blind {
    /// The transfer of this number is refused for want of memory, 0 for none.
    pub fn new(refused: u32) -> Blind {
        Blind { left: refused }
    }
}

impl Steps for Blind {
    ghost use Rattle.cases_turns.specs.Samples.{blinds};

    ghost own = { blinds };

    fn name(&self) -> &str {
        "blind"
    }

    fn exact_on(&self) -> Part {
        Part::Nothing
    }

    fn initial(&mut self, _alloc: Global, _cfa: &Cfa) -> Result<Elem, AllocError> {
        Ok(no_facts())
    }

    fn transfer(
        &mut self,
        alloc: Global,
        _cfa: &Cfa,
        _edge: u32,
        _elem: &Elem,
    ) -> Result<Vec<Elem>, AllocError> {
        let left = self.left;
        self.left = left.saturating_sub(1);
        if left == 1 {
            return Err(AllocError);
        }
        let mut successors = Vec::new(alloc);
        successors.push(no_facts())?;
        Ok(successors)
    }
}

/// The element without facts.
pub(crate) fn no_facts() -> Elem
    ensures { result ≡ no_facts }
{
    Elem::any()
}

//! An analysis that knows nothing, by `specs/Blind.antt`.

ghost use Rattle.std.specs.Prelude.{◌≡◌};
ghost use Rattle.cases_run.specs.Blind.{no_facts};

use cpa_iface::{Part, Steps};
use cpa_model::{Cfa, Elem};
use std::alloc::{AllocError, Global};

/// It knows nothing, and is exact on nothing.
#[derive(Drop)]
pub struct Blind;

impl Steps for Blind {
    ghost use Rattle.cases_run.specs.Blind.{blinds};

    ghost own = { blinds };

    fn name(&self) -> &str {
        "blind"
    }

    fn exact_on(&self) -> Part {
        Part::Nothing
    }

    fn initial(&mut self, _alloc: Global, _cfa: &Cfa) -> Result<Elem, AllocError> {
        Ok(no_facts())
    }

    fn transfer(
        &mut self,
        alloc: Global,
        _cfa: &Cfa,
        _edge: u32,
        _elem: &Elem,
    ) -> Result<Vec<Elem>, AllocError> {
        let mut successors = Vec::new(alloc);
        successors.push(no_facts())?;
        Ok(successors)
    }
}

/// The element without facts.
fn no_facts() -> Elem
    ensures { result ≡ no_facts }
{
    Elem::any()
}

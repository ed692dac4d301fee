//! What is found once of all entries, before their obligations are looked at, by
//! `specs/Surveys.antt`.

ghost use Rattle.std.specs.Prelude.{◌<◌, ◌^◌, length, IfOk};
ghost use Rattle.cpa_recheck.specs.Surveys.{IsSurveyOf};

use cpa_model::{Cfa, Elem};
use cpa_recheck_obligations::{Spot, Table, table_of};
use cpa_recheck_weights::weights_of;
use std::alloc::{AllocError, Global};

/// The weight of each entry, and which entries stand where.
#[derive(Drop)]
pub(crate) struct Survey {
    pub weights: Vec<u64>,
    pub table: Table,
}

/// The survey of entries at these spots.
pub(crate) fn survey_of(
    alloc: Global,
    cfa: &Cfa,
    entries: &[Elem],
    spots: &[Option<Spot>],
) -> Result<Survey, AllocError>
    requires { length spots.now < 2 ^ 32 }
    ensures { IfOk result (IsSurveyOf cfa.now entries.now spots.now) }
{
    let weights = weights_of(alloc, cfa.cells.as_slice(), entries)?;
    let table = table_of(alloc, spots)?;
    Ok(Survey { weights, table })
}

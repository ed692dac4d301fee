//! Turns, paths, precisions and refinements.
ghost use Rattle.cpa_report_print.specs.Reports.{pair_data, turn_data, path_data};
ghost use Rattle.cpa_report_print.specs.Reports.{precision_data, refined_data};
ghost use Rattle.cpa_report_json.specs.Fits.{IsLow, PairFits, TurnFits, PathFits, PrecisionFits};
ghost use Rattle.cpa_report_json.specs.Fits.{RefinedFits};

use crate::fault::ReadFault;
use crate::lists::{FromJson, take_member};
use crate::steps::{close_list, close_object, open_list, open_object};
use cpa_iface::{Cells, Precision, Refined, Turn};
use cpa_model::{Path, Shared};
use json::Reader;
use std::alloc::Global;

impl FromJson for (u32, u32) {
    ghost json = { pair_data };

    ghost fits = { PairFits };

    /// Takes a list of two numbers.
    fn take(alloc: Global, reader: &mut Reader<'_>) -> Result<(u32, u32), ReadFault> {
        open_list(reader)?;
        let old = u32::take(alloc, reader)?;
        let new = u32::take(alloc, reader)?;
        close_list(reader)?;
        Ok((old, new))
    }
}

impl FromJson for Turn {
    ghost json = { turn_data };

    ghost fits = { TurnFits };

    /// Takes a row of a journal.
    fn take(alloc: Global, reader: &mut Reader<'_>) -> Result<Turn, ReadFault> {
        open_list(reader)?;
        let taken = u32::take(alloc, reader)?;
        let added = FromJson::take(alloc, reader)?;
        let replaced = FromJson::take(alloc, reader)?;
        close_list(reader)?;
        Ok(Turn {
            taken,
            added,
            replaced,
        })
    }
}

impl FromJson for Path {
    ghost json = { path_data };

    ghost fits = { PathFits };

    /// Takes a path.
    fn take(alloc: Global, reader: &mut Reader<'_>) -> Result<Path, ReadFault> {
        let edges = FromJson::take(alloc, reader)?;
        Ok(Path { edges })
    }
}

impl FromJson for Precision {
    ghost json = { precision_data };

    ghost fits = { PrecisionFits IsLow };

    /// Takes a precision.
    fn take(alloc: Global, reader: &mut Reader<'_>) -> Result<Precision, ReadFault> {
        open_object(reader)?;
        let limit = take_member(alloc, reader, "limit")?;
        let preds = take_member(alloc, reader, "preds")?;
        let tracked = take_member(alloc, reader, "tracked")?;
        close_object(reader)?;
        Ok(Precision {
            tracked: Cells::from_seq(alloc, tracked)?,
            limit,
            preds: Shared::from_seq(alloc, preds)?,
        })
    }
}

impl FromJson for Refined {
    ghost json = { refined_data };

    ghost fits = { RefinedFits IsLow };

    /// Takes a refinement.
    fn take(alloc: Global, reader: &mut Reader<'_>) -> Result<Refined, ReadFault> {
        open_object(reader)?;
        let path = take_member(alloc, reader, "path")?;
        let precisions = take_member(alloc, reader, "precisions")?;
        close_object(reader)?;
        Ok(Refined { path, precisions })
    }
}

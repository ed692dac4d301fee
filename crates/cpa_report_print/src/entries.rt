//! Turns, paths, precisions and refinements as JSON values: the definitions of
//! `specs/Reports.antt` that are named for them.
use crate::values::{Json, write_member};
use cpa_iface::{Precision, Refined, Turn};
use cpa_model::Path;
use json::Writer;
use std::alloc::{AllocError, Global};

impl Json for (u32, u32) {
    ghost use Rattle.cpa_report_print.specs.Reports.{pair_data};

    ghost json = { pair_data };

    fn write(&self, alloc: Global, writer: &mut Writer) -> Result<(), AllocError> {
        let (old, new) = self;
        writer.begin_array()?;
        old.write(alloc, writer)?;
        new.write(alloc, writer)?;
        writer.end_array()
    }
}

impl Json for Turn {
    ghost use Rattle.cpa_report_print.specs.Reports.{turn_data};

    ghost json = { turn_data };

    fn write(&self, alloc: Global, writer: &mut Writer) -> Result<(), AllocError> {
        let Turn {
            taken,
            added,
            replaced,
        } = self;
        writer.begin_array()?;
        taken.write(alloc, writer)?;
        added.write(alloc, writer)?;
        replaced.write(alloc, writer)?;
        writer.end_array()
    }
}

impl Json for Path {
    ghost use Rattle.cpa_report_print.specs.Reports.{path_data};

    ghost json = { path_data };

    fn write(&self, alloc: Global, writer: &mut Writer) -> Result<(), AllocError> {
        self.edges.write(alloc, writer)
    }
}

impl Json for Precision {
    ghost use Rattle.cpa_report_print.specs.Reports.{precision_data};

    ghost json = { precision_data };

    fn write(&self, alloc: Global, writer: &mut Writer) -> Result<(), AllocError> {
        let Precision {
            tracked,
            limit,
            preds,
        } = self;
        writer.begin_object()?;
        write_member(alloc, writer, "limit", limit)?;
        write_member(alloc, writer, "preds", preds)?;
        write_member(alloc, writer, "tracked", tracked)?;
        writer.end_object()
    }
}

impl Json for Refined {
    ghost use Rattle.cpa_report_print.specs.Reports.{refined_data};

    ghost json = { refined_data };

    fn write(&self, alloc: Global, writer: &mut Writer) -> Result<(), AllocError> {
        let Refined { path, precisions } = self;
        writer.begin_object()?;
        write_member(alloc, writer, "path", path)?;
        write_member(alloc, writer, "precisions", precisions)?;
        writer.end_object()
    }
}

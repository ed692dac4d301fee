//! Facts, elements and listed entries as JSON values: `fact_data`, `elem_data` and `listed_data` of
//! `specs/Reports.antt`.
use crate::report::Listed;
use crate::values::{Json, write_member};
use cpa_model::{Elem, Fact};
use json::Writer;
use std::alloc::{AllocError, Global};

impl Json for Fact {
    ghost use Rattle.cpa_report_print.specs.Reports.{fact_data};

    ghost json = { fact_data };

    fn write(&self, alloc: Global, writer: &mut Writer) -> Result<(), AllocError> {
        writer.begin_array()?;
        match self {
            Fact::At { point } => {
                writer.string("at")?;
                point.write(alloc, writer)?;
            }
            Fact::Stack { sites } => {
                writer.string("stack")?;
                sites.write(alloc, writer)?;
            }
            Fact::Equals { cell, value } => {
                writer.string("equals")?;
                cell.write(alloc, writer)?;
                value.write(alloc, writer)?;
            }
            Fact::Within { cell, lo, hi } => {
                writer.string("within")?;
                cell.write(alloc, writer)?;
                lo.write(alloc, writer)?;
                hi.write(alloc, writer)?;
            }
            Fact::Truth { expr, holds } => {
                writer.string("truth")?;
                expr.write(alloc, writer)?;
                u32::from(*holds).write(alloc, writer)?;
            }
        }
        writer.end_array()
    }
}

impl Json for Elem {
    ghost use Rattle.cpa_report_print.specs.Reports.{elem_data};

    ghost json = { elem_data };

    fn write(&self, alloc: Global, writer: &mut Writer) -> Result<(), AllocError> {
        writer.begin_array()?;
        for fact in &self.facts {
            fact.write(alloc, writer)?;
        }
        writer.end_array()
    }
}

impl Json for Listed {
    ghost use Rattle.cpa_report_print.specs.Reports.{listed_data};

    ghost json = { listed_data };

    fn write(&self, alloc: Global, writer: &mut Writer) -> Result<(), AllocError> {
        let Listed { number, elems } = self;
        writer.begin_object()?;
        write_member(alloc, writer, "elems", elems)?;
        write_member(alloc, writer, "number", number)?;
        writer.end_object()
    }
}

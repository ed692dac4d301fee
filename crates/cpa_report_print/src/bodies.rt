//! The members of a body and of a data model, by where their keys stand in a report: the
//! definitions of `specs/Steps.antt` that are named for them.
ghost use Rattle.std.specs.Prelude.{OnOk};
ghost use Rattle.cpa_report_print.specs.Reports.{model_members};
ghost use Rattle.cpa_report_print.specs.Steps.{front, before_form, before_model, before_points};
ghost use Rattle.cpa_report_print.specs.Steps.{before_text, behind_text};
ghost use Rattle.cpa_report_print.specs.Tokens.{Wrote};

use crate::report::Body;
use crate::values::write_member;
use cpa_ints::DataModel;
use json::Writer;
use std::alloc::{AllocError, Global};

/// Writes those whose keys stand before "form".
pub(crate) fn write_before_form(
    alloc: Global,
    writer: &mut Writer,
    body: &Body,
) -> Result<(), AllocError>
    ensures { OnOk result (Wrote writer.old writer.new (front (before_form body.now))) }
{
    match body {
        Body::True { entries } | Body::Proof { entries, .. } => {
            write_member(alloc, writer, "entries", entries)
        }
        _ => Ok(()),
    }
}

/// Writes those whose keys stand between "form" and "model".
pub(crate) fn write_before_model(
    alloc: Global,
    writer: &mut Writer,
    body: &Body,
) -> Result<(), AllocError>
    ensures { OnOk result (Wrote writer.old writer.new (front (before_model body.now))) }
{
    match body {
        Body::True { .. } | Body::Gates { .. } | Body::NoNew { .. } => Ok(()),
        Body::False { inputs, .. } => write_member(alloc, writer, "inputs", inputs),
        Body::Turns { journal } => write_member(alloc, writer, "journal", journal),
        Body::Rounds { history, .. } => write_member(alloc, writer, "history", history),
        Body::Learnt { lines, .. } => write_member(alloc, writer, "lines", lines),
        Body::Proof { logs, .. } => write_member(alloc, writer, "logs", logs),
    }
}

/// Writes what tells the data model: nothing for LP64.
pub(crate) fn write_model(writer: &mut Writer, model: DataModel) -> Result<(), AllocError>
    ensures { OnOk result (Wrote writer.old writer.new (front (model_members model))) }
{
    match model {
        DataModel::Lp64 => Ok(()),
        DataModel::Ilp32 => {
            writer.key("model")?;
            writer.string("ilp32")
        }
    }
}

/// Writes those whose keys stand between "model" and "points".
pub(crate) fn write_before_points(
    alloc: Global,
    writer: &mut Writer,
    body: &Body,
) -> Result<(), AllocError>
    ensures { OnOk result (Wrote writer.old writer.new (front (before_points body.now))) }
{
    match body {
        Body::Rounds { path, .. }
        | Body::Learnt { path, .. }
        | Body::Gates { path, .. }
        | Body::NoNew { path, .. } => write_member(alloc, writer, "path", path),
        _ => Ok(()),
    }
}

/// Writes those whose keys stand between "points" and "text".
pub(crate) fn write_before_text(
    alloc: Global,
    writer: &mut Writer,
    body: &Body,
) -> Result<(), AllocError>
    ensures { OnOk result (Wrote writer.old writer.new (front (before_text body.now))) }
{
    match body {
        Body::False { steps, .. } => write_member(alloc, writer, "steps", steps),
        Body::NoNew { precisions, .. } => write_member(alloc, writer, "precisions", precisions),
        _ => Ok(()),
    }
}

/// Writes those whose keys stand behind "text".
pub(crate) fn write_behind_text(
    alloc: Global,
    writer: &mut Writer,
    body: &Body,
) -> Result<(), AllocError>
    ensures { OnOk result (Wrote writer.old writer.new (front (behind_text body.now))) }
{
    match body {
        Body::Gates { weight, .. } => write_member(alloc, writer, "weight", weight),
        _ => Ok(()),
    }
}

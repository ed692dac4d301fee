//! The text of a report, `report_text` of `specs/Reports.antt`, and the line behind REFUSED,
//! `break_text`.
ghost use Rattle.std.specs.Prelude.{◌≡◌, ◌++◌, IfOk, option_map};
ghost use Rattle.cpa_report_print.specs.Reports.{report_data, report_text, break_text, with_feed};
ghost use Rattle.serde_json.specs.Written.{compact_text};

use crate::bodies::{
    write_before_form, write_before_model, write_before_points, write_before_text,
    write_behind_text, write_model,
};
use crate::report::{Report, form_of};
use crate::states::Break;
use crate::values::{Json, write_member};
use cpa_model::State;
use json::Writer;
use std::alloc::{AllocError, Global};

impl Json for Report {
    ghost json = { report_data };

    fn write(&self, alloc: Global, writer: &mut Writer) -> Result<(), AllocError> {
        let Report {
            text,
            points,
            cells,
            edges,
            model,
            body,
        } = self;
        writer.begin_object()?;
        write_member(alloc, writer, "cells", cells)?;
        write_member(alloc, writer, "edges", edges)?;
        write_before_form(alloc, writer, body)?;
        write_member(alloc, writer, "form", &form_of(*model))?;
        write_before_model(alloc, writer, body)?;
        write_model(writer, *model)?;
        write_before_points(alloc, writer, body)?;
        write_member(alloc, writer, "points", points)?;
        write_before_text(alloc, writer, body)?;
        write_member(alloc, writer, "text", text)?;
        write_behind_text(alloc, writer, body)?;
        writer.end_object()
    }
}

/// The text, and behind it the line of the value.
fn with_line<T: Json>(alloc: Global, text: Vec<u8>, value: &T) -> Result<Vec<u8>, AllocError>
    ensures { IfOk result (λ longer. longer.items
        ≡ text.items ++ with_feed (compact_text (T.json value.now))) }
{
    let mut writer = Writer::new(text);
    value.write(alloc, &mut writer)?;
    let mut longer = writer.into_inner();
    longer.push(b'\n')?;
    Ok(longer)
}

/// The one spelling of the report.
pub fn print(alloc: Global, report: &Report) -> Result<Vec<u8>, AllocError>
    ensures { IfOk result (λ text. text.items ≡ report_text report.now) }
{
    print_within(alloc, report, 0)
}

/// The one spelling of the report, in a vector that begins with room for so many bytes.
pub fn print_within(alloc: Global, report: &Report, room: usize) -> Result<Vec<u8>, AllocError>
    ensures { IfOk result (λ text. text.items ≡ report_text report.now) }
{
    let mut text = Vec::with_capacity(alloc, room)?;
    text.extend_from_slice(report.body.verdict().words().as_bytes())?;
    text.push(b'\n')?;
    with_line(alloc, text, report)
}

/// The line behind the verdict REFUSED: the state, and the one after it where there is one.
pub fn print_break(
    alloc: Global,
    state: &State,
    next: Option<&State>,
) -> Result<Vec<u8>, AllocError>
    ensures { IfOk result (λ text. text.items
        ≡ break_text state.now (option_map (λ s. s.now) next.entry)) }
{
    with_line(alloc, Vec::new(alloc), &Break { state, next })
}

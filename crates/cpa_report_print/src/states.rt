//! States as JSON values, and the pair of them that REFUSED tells: `state_data`, `some_state_data`
//! and `break_data` of `specs/Reports.antt`.
ghost use Rattle.std.specs.Prelude.{◌≡◌, OnOk, option_map};
ghost use Rattle.cpa_report_print.specs.Reports.{some_state_data};
ghost use Rattle.cpa_report_print.specs.Tokens.{onto, Wrote};

use crate::values::{Json, write_member};
use cpa_model::State;
use json::Writer;
use std::alloc::{AllocError, Global};

impl Json for State {
    ghost use Rattle.cpa_report_print.specs.Reports.{state_data};

    ghost json = { state_data };

    fn write(&self, alloc: Global, writer: &mut Writer) -> Result<(), AllocError> {
        let State {
            point,
            stack,
            store,
        } = self;
        writer.begin_object()?;
        write_member(alloc, writer, "point", point)?;
        write_member(alloc, writer, "stack", stack)?;
        write_member(alloc, writer, "store", &store.values)?;
        writer.end_object()
    }
}

/// A state that breaks an obligation, and the one after it where the obligation is of an edge.
#[derive(Clone, Copy)]
pub(crate) struct Break<'a> {
    pub(crate) state: &'a State,
    pub(crate) next: Option<&'a State>,
}

impl<'a> Json for Break<'a> {
    ghost use Rattle.std.specs.Prelude.{option_map};
    ghost use Rattle.cpa_report_print.specs.Reports.{break_data};

    ghost json = { λ b. break_data b.state.now (option_map (λ s. s.now) b.next) };

    fn write(&self, alloc: Global, writer: &mut Writer) -> Result<(), AllocError> {
        writer.begin_object()?;
        writer.key("next")?;
        write_some_state(alloc, writer, self.next)?;
        write_member(alloc, writer, "state", self.state)?;
        writer.end_object()
    }
}

/// Writes the state, or null where there is none.
fn write_some_state(
    alloc: Global,
    writer: &mut Writer,
    state: Option<&State>,
) -> Result<(), AllocError>
    ensures { OnOk result (Wrote writer.old writer.new
        (onto (some_state_data (option_map (λ s. s.now) state.entry)))) }
{
    match state {
        Some(state) => state.write(alloc, writer),
        None => writer.null(),
    }
}

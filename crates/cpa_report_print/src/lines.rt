//! Literals and lines of a refutation as JSON values: `literal_data` and `line_data` of
//! `specs/Reports.antt`.
ghost use Rattle.std.specs.Prelude.{◌∷◌, [], OnOk};
ghost use Rattle.std.specs.List.{flat_map};
ghost use Rattle.cpa_report_print.specs.Reports.{numbers_data, list_data, literal_data};
ghost use Rattle.cpa_report_print.specs.Tokens.{onto, Wrote};

use crate::values::Json;
use cpa_cnf::{Clause, Line, Lit, Step};
use json::Writer;
use std::alloc::{AllocError, Global};

impl Json for Lit {
    ghost json = { literal_data };

    fn write(&self, _alloc: Global, writer: &mut Writer) -> Result<(), AllocError> {
        let number = i64::from(self.var()) + 1;
        if self.is_negative() {
            writer.i64(-number)
        } else {
            writer.i64(number)
        }
    }
}

impl Json for Line {
    ghost use Rattle.cpa_report_print.specs.Reports.{line_data};

    ghost json = { line_data };

    fn write(&self, alloc: Global, writer: &mut Writer) -> Result<(), AllocError> {
        let Line {
            clause,
            first,
            steps,
        } = self;
        writer.begin_array()?;
        write_clause(alloc, writer, clause)?;
        write_chain(alloc, writer, *first, steps.as_slice())?;
        writer.end_array()
    }
}

/// Writes the list of the literals.
fn write_clause(alloc: Global, writer: &mut Writer, clause: &Clause) -> Result<(), AllocError>
    ensures { OnOk result (Wrote writer.old writer.new (onto (list_data literal_data clause.now))) }
{
    writer.begin_array()?;
    for literal in clause.literals() {
        literal.write(alloc, writer)?;
    }
    writer.end_array()
}

/// Writes the number of the first clause, and the pivot and the clause of each step.
fn write_chain(
    alloc: Global,
    writer: &mut Writer,
    first: u32,
    steps: &[Step],
) -> Result<(), AllocError>
    ensures { OnOk result (Wrote writer.old writer.new (onto (numbers_data
        (first ∷ flat_map (λ step. step.pivot ∷ step.clause ∷ []) steps.now)))) }
{
    writer.begin_array()?;
    first.write(alloc, writer)?;
    for step in steps {
        step.pivot.write(alloc, writer)?;
        step.clause.write(alloc, writer)?;
    }
    writer.end_array()
}

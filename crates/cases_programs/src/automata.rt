//! The automaton of a program of rows, where its tables are right. That the program is well formed
//! is the law of `cases_programs`.

ghost use Rattle.std.specs.Prelude.{IfOk};
ghost use Rattle.cpa_model.specs.Automata.{IsAutomaton};
ghost use Rattle.cpa_model.specs.Programs.{IsWellFormed};
ghost use Rattle.cases_programs.specs.Fits.{FitsTable};

use crate::fitting::fits_table;
use crate::table::Table;
use crate::tables_suffice;
use cases_reader::RowFault;
use cfa_build::build;
use cpa_model::{Cfa, Program, statements_are_trees};
use std::alloc::{AllocError, Global};

/// The automaton of the table's program, where its tables are right.
pub fn automaton(alloc: Global, table: &Table) -> Result<Cfa, RowFault>
    ensures { IfOk result IsAutomaton }
{
    if fits_table(table) {
        Ok(fitting_automaton(alloc, table)?)
    } else {
        Err(RowFault::Unreadable)
    }
}

/// The automaton of a table that fits. The laws which show its program well formed are called here.
fn fitting_automaton(alloc: Global, table: &Table) -> Result<Cfa, AllocError>
    requires { FitsTable table.now }
    ensures { IfOk result IsAutomaton }
{
    statements_are_trees();
    tables_suffice();
    automaton_of(alloc, &table.program)
}

/// The automaton of a program. `build` promises more: that it is the one of this program.
fn automaton_of(alloc: Global, program: &Program) -> Result<Cfa, AllocError>
    requires { IsWellFormed program.now }
    ensures { IfOk result IsAutomaton }
{
    build(alloc, program)
}

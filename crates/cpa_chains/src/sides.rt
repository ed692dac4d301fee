//! Which variables the clauses of B have, as a table. By `IsTable` of `specs/Tables.antt`; proved
//! with `proofs/Noting.antt`.

ghost use Rattle.std.specs.Prelude.{◌≡◌, ◌||◌, ◌&&◌, ◌<◌, ℕ, false, not, length};
ghost use Rattle.std.specs.Prelude.{slice_index_or, IfOk};
ghost use Rattle.cpa_chains.specs.Sides.{has_variable};
ghost use Rattle.cpa_chains.specs.Tables.{IsTable};

use cpa_cnf::{Clause, Cnf, Lit};
use std::alloc::{AllocError, Global};

/// For each variable below `vars`, whether a clause of B has it.
pub(crate) fn variables_of_b(
    alloc: Global,
    cnf: &Cnf,
    sides: &[bool],
) -> Result<Vec<bool>, AllocError>
    requires { length sides.now ≡ length cnf.now.clauses }
    ensures { IfOk result (λ table. IsTable cnf.now sides.now table.items) }
{
    let mut table = vec![in alloc; false; cnf.vars as usize]?;
    let clauses = cnf.clauses.as_slice();
    for i in 0..clauses.len() {
        note_clause(&mut table, sides[i], &clauses[i]);
    }
    Ok(table)
}

/// Notes the variables of a clause of B; a clause of A is passed over.
fn note_clause(table: &mut [bool], side: bool, clause: &Clause)
    ensures { (x : ℕ) → x < length table.old → slice_index_or table.new x false
        ≡ (slice_index_or table.old x false || (not side && has_variable clause.now x)) }
{
    if !side {
        note(table, clause.literals());
    }
}

/// Notes the variables of the literals; one beyond the table is passed over.
fn note(table: &mut [bool], literals: &[Lit])
    ensures { (x : ℕ) → x < length table.old → slice_index_or table.new x false
        ≡ (slice_index_or table.old x false || has_variable literals.now x) }
{
    for literal in literals {
        let variable = literal.var() as usize;
        if variable < table.len() {
            table[variable] = true;
        }
    }
}

//! The formulas of two parts of a path as one, `formula_of` of `cpa_interpolant_cuts`.
//! Proved with `proofs/Fitting.antt`.

ghost use Rattle.std.specs.Prelude.{◌≡◌, ◌<◌, ◌^◌, length, IfOk};
ghost use Rattle.cpa_query.specs.Queries.{IsQuery};
ghost use Rattle.cpa_blast.specs.Formulas.{formula};
ghost use Rattle.cpa_interpolant_cuts.specs.Cuts.{seen, formula_of, sides_at, shared_bits_of};
ghost use Rattle.cpa_interpolant_cuts.specs.lemmas.Meet.{AreParts};

use cpa_blast::blast;
use cpa_blast_circuits::circuits_have_values;
use cpa_cnf::Cnf;
use cpa_edgeform::EdgeForm;
use cpa_interpolant_bits::Bit;
use cpa_interpolant_joining::join;
use cpa_interpolant_names::{Seen, bits_of, meetings, names_of};
use cpa_ints::Seq;
use cpa_model::Cell;
use cpa_query::{Query, read_cells};
use std::alloc::{AllocError, Global};

/// The formulas of two parts of a path as one.
#[derive(Drop)]
pub(crate) struct JoinedParts {
    pub(crate) cnf: Cnf,
    /// For each clause whether it is one of the part before the cut.
    pub(crate) sides: Vec<bool>,
    /// For each variable the bit that it is, of a cell that both parts read.
    pub(crate) bits: Vec<Option<Bit>>,
}

/// The formula of a query, and what is seen of it.
fn see(alloc: Global, query: &Query) -> Result<(Cnf, Seen), AllocError>
    requires { IsQuery query.now }
    ensures cnf { IfOk result (λ r. r.0 ≡ formula query.now) }
    ensures seen { IfOk result (λ r. r.1 ≡ seen query.now) }
{
    let reads = read_cells(alloc, query)?;
    let (cnf, bits) = blast(alloc, query)?;
    let seen = Seen {
        firsts: bits.first,
        reads: Seq::from_vec(reads),
    };
    Ok((cnf, seen))
}

/// A formula has fewer than 2^32 variables.
fn has_few_variables(cnf: &Cnf)
    ensures { cnf.now.vars < 2 ^ 32 }
{
    let _vars = cnf.vars;
}

/// The formulas of two parts of a path as one, joined on the bits of the program's cells. It takes
/// time and memory linear in the two formulas.
pub(crate) fn join_parts(
    alloc: Global,
    cells: &[Cell],
    before: &EdgeForm,
    behind: &EdgeForm,
) -> Result<JoinedParts, AllocError>
    requires parts { AreParts cells.now before.now behind.now }
    requires few { length cells.now < 2 ^ 32 }
    ensures cnf { IfOk result (λ j. j.cnf ≡ formula_of cells.now before.now behind.now) }
    ensures sides { IfOk result (λ j. j.sides.items ≡ sides_at before.now behind.now) }
    ensures bits { IfOk result (λ j.
        j.bits.items ≡ shared_bits_of cells.now before.now behind.now) }
{
    circuits_have_values();
    let first_query = before.query()?;
    let second_query = behind.query()?;
    let first = see(alloc, &first_query)?;
    let second = see(alloc, &second_query)?;
    has_few_variables(&first.0);
    let found = meetings(alloc, cells, before, &first.1, &second.1)?;
    let names = names_of(alloc, second.0.vars, &found)?;
    let bits = bits_of(alloc, first.0.vars, &found)?;
    let joined = join(alloc, first.0, &second.0, &names)?;
    Ok(JoinedParts {
        cnf: joined.cnf,
        sides: joined.sides,
        bits,
    })
}

//! The automaton of a program, put together of its edges and its error points, by `IsAutomatonOf`;
//! shown in `proofs/Whole.antt`.
ghost use Rattle.std.specs.Prelude.{IfOk};
ghost use Rattle.cpa_model.specs.Automata.{IsAutomatonOf};
ghost use Rattle.cpa_model.specs.Programs.{IsWellFormed};

use crate::{edges, errors, places, sites};
use cpa_model::{Cfa, Program, Seq, moves_stay_inside, statements_are_trees};
use std::alloc::{AllocError, Global};

/// The automaton of a program. It takes time and memory in proportion to the program.
pub fn build(alloc: Global, program: &Program) -> Result<Cfa, AllocError>
    requires { IsWellFormed program.now }
    ensures { IfOk result (λ cfa. IsAutomatonOf program.now cfa) }
{
    statements_are_trees();
    moves_stay_inside();
    let places = places::places(alloc, program)?;
    let sites = sites::call_sites(alloc, program)?;
    let edges = edges::edges(alloc, program, &places, &sites)?;
    let errors = errors::errors(alloc, program)?;
    let cells = Vec::from_slice(alloc, program.cells.as_slice())?;
    Ok(Cfa {
        cells: Seq::from_vec(cells),
        points: program.point_count(),
        start: program.body(program.main),
        errors,
        edges,
        text_len: program.text_len,
    })
}

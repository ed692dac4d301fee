//! The program of core statements that a checked text is, and where it comes from (`IsCore` and
//! `AreOrigins` of `c_core_checked`, `specs/Texts.antt`): its trees, numbered. Proved by the
//! checker alone.
ghost use Rattle.std.specs.Prelude.{IfOk};
ghost use Rattle.c_core_checked.specs.Texts.{IsCore, AreOrigins};

use c_core_checked::CheckedText;
use cpa_ints::Seq;
use cpa_model::Program;
use cpa_model_trees::numbered_bodies;
use std::alloc::{AllocError, Global};

/// A program, and where it comes from.
#[derive(Drop)]
pub struct Traced {
    pub program: Program,
    /// The place of each statement, and then of each function that of its closing brace.
    pub points: Seq<u32>,
    /// Of each cell of an object or of a parameter the place of its name; the others have none.
    pub cells: Seq<Option<u32>>,
}

/// The program that a checked text is, and where it comes from. More than 2^32 statements are want
/// of memory.
pub fn trace(alloc: Global, checked: CheckedText) -> Result<Traced, AllocError>
    ensures built { IfOk result (λ traced. IsCore checked traced.program) }
    ensures origins { IfOk result (λ traced. AreOrigins checked traced.points traced.cells) }
{
    let numbered = numbered_bodies(alloc, checked.trees.into_vec())?;
    let mut points = numbered.places.into_vec();
    points.extend_from_slice(checked.ends.as_slice())?;
    Ok(Traced {
        program: Program {
            cells: checked.cells,
            bodies: numbered.bodies,
            main: checked.main,
            stmts: numbered.stmts,
            text_len: checked.text_len,
        },
        points: Seq::from_vec(points),
        cells: checked.names,
    })
}

/// The program alone.
pub fn core(alloc: Global, checked: CheckedText) -> Result<Program, AllocError>
    ensures built { IfOk result (λ program. IsCore checked program) }
{
    let traced = trace(alloc, checked)?;
    Ok(traced.program)
}

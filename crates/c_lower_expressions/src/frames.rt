//! The functions with a body, of which a call wants the cells (`frames_of` of `c_core_rules`,
//! `specs/Programs.antt`). Proved with `proofs/FramesAt.antt`.
ghost use Rattle.std.specs.Prelude.{◌≡◌, IfOk};
ghost use Rattle.c_core_rules.specs.Expressions.{frame_at, cells_from, behind_result};
ghost use Rattle.c_core_rules.specs.Programs.{frames_of};
ghost use Rattle.c_lower_expressions.specs.Rows.{first_at};

use c_core_rules::Location;
use c_lower_values::cell_at;
use c_types_rules::{Kind, Object, TypedFunction};
use cpa_ints::IntType;
use std::alloc::{AllocError, Global};
use std::marker::Model;

/// The functions with a body, in order, and the first cell of each; contracts see their cells.
#[derive(Drop)]
pub struct Frames<'a> {
    alloc: Global,
    first_cells: &'a [u32],
    functions: &'a [TypedFunction],
}

impl<'a> Model for Frames<'a> {
    ghost use Rattle.c_core_rules.specs.Expressions.{Frames};
    ghost use Rattle.c_core_rules.specs.Programs.{frames_of};

    ghost Value = { Frames };

    ghost view = { λ f. frames_of f.first_cells.now f.functions.now };
}

/// The cells of a function's parameters: from this one on.
#[derive(Clone, Copy)]
pub(crate) struct Parameters<'a> {
    pub(crate) first: u32,
    pub(crate) objects: &'a [Object],
}

impl<'a> Frames<'a> {
    /// Those of these functions, which begin at these cells.
    pub fn new(alloc: Global, first_cells: &'a [u32], functions: &'a [TypedFunction]) -> Frames<'a>
        ensures { result ≡ frames_of first_cells.now functions.now }
    {
        Frames {
            alloc,
            first_cells,
            functions,
        }
    }

    /// Where lists are kept.
    pub fn alloc(&self) -> Global {
        self.alloc
    }

    /// The cell of a function's result, which is read behind a call.
    pub(crate) fn result_cell(&self, body: u32) -> Location
        ensures { result ≡ (frame_at self.now body).result_cell }
    {
        result_cell(self.first_cells, self.functions, body)
    }

    /// The cells of a function's parameters, none where it has no body.
    pub(crate) fn parameters(&self, body: u32) -> Result<Parameters<'_>, AllocError>
        ensures { IfOk result (λ found. cells_from found.first found.objects.now
            ≡ (frame_at self.now body).parameters) }
    {
        parameter_cells(self.first_cells, self.functions, body)
    }
}

/// The first cell of the function of this number.
fn first_cell(first_cells: &[u32], body: u32) -> u32
    ensures { result ≡ first_at first_cells.now body }
{
    match first_cells.get(body as usize) {
        Some(first) => *first,
        None => 0,
    }
}

/// The cell of the result of the function of this number.
fn result_cell(first_cells: &[u32], functions: &[TypedFunction], body: u32) -> Location
    ensures { result ≡ (frame_at (frames_of first_cells.now functions.now) body).result_cell }
{
    match functions.get(body as usize) {
        Some(function) => { cell_at(function.result.object_type(), first_cell(first_cells, body)) }
        None => Location {
            ty: IntType::I32,
            base: 0,
            len: 1,
        },
    }
}

/// The cell behind that of a result.
fn behind_result(kind: Kind, first: u32) -> Result<u32, AllocError>
    ensures { IfOk result (λ cell. cell ≡ behind_result kind first) }
{
    match kind {
        Kind::Void => Ok(first),
        Kind::Value(_) => first.checked_add(1).ok_or(AllocError),
    }
}

/// The parameters of the function of this number.
fn parameter_cells<'a>(
    first_cells: &[u32],
    functions: &'a [TypedFunction],
    body: u32,
) -> Result<Parameters<'a>, AllocError>
    ensures { IfOk result (λ found. cells_from found.first found.objects.now
        ≡ (frame_at (frames_of first_cells.now functions.now) body).parameters) }
{
    match functions.get(body as usize) {
        Some(function) => {
            let first = behind_result(function.result, first_cell(first_cells, body))?;
            Ok(Parameters {
                first,
                objects: function.parameters.as_slice(),
            })
        }
        None => Ok(Parameters {
            first: 0,
            objects: &[],
        }),
    }
}

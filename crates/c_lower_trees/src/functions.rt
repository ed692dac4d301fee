//! The core of functions (`function_rule` and `text_rule` of `c_core_rules`,
//! `specs/Statements.antt`). Proved with `proofs/InOrder.antt`.
ghost use Rattle.std.specs.Prelude.{◌≡◌, map, OnOk, IfOk};
ghost use Rattle.c_core_rules.specs.Cells.{nothing_taken, each};
ghost use Rattle.c_core_rules.specs.Statements.{resulting, receiving, receiving_globals};
ghost use Rattle.c_core_rules.specs.Statements.{function_rule, text_rule};
ghost use Rattle.c_core_rules.specs.Programs.{frames_of};
ghost use Rattle.c_lower_values.specs.Found.{so_far};

use crate::statements::in_order;
use c_lower_expressions::Frames;
use c_lower_values::{Cells, TakenCells, block, cell_at, list_of, set};
use c_types_rules::{Global, Kind, Object, TypedFunction};
use cpa_expr::constant;
use cpa_ints::Seq;
use cpa_model::Cell;
use cpa_model_trees::CoreTree;
use std::alloc::{AllocError, Global as Memory};

/// The core of a text, in trees.
#[derive(Drop)]
pub struct TextTrees {
    pub cells: Seq<Cell>,
    /// Of each cell of an object or of a parameter the place of its name.
    pub names: Seq<Option<u32>>,
    /// A block for each function.
    pub trees: Vec<CoreTree>,
}

/// The cell of a result, which is set to 0.
fn resulting(cells: &mut Cells, origin: u32, result_kind: Kind) -> Result<Seq<CoreTree>, AllocError>
    ensures taken { OnOk result (so_far cells.new
        ≡ (resulting origin result_kind (so_far cells.old)).taken) }
    ensures made { IfOk result (λ trees. trees
        ≡ (resulting origin result_kind (so_far cells.old)).made) }
{
    let alloc = cells.alloc();
    match result_kind {
        Kind::Void => Ok(Seq::new(alloc)),
        Kind::Value(ty) => {
            let place = cells.fresh(ty)?;
            let zero = constant(alloc, ty, 0)?;
            let tree = set(alloc, origin, place, zero)?;
            list_of(alloc, tree)
        }
    }
}

/// The cells of parameters.
fn receiving(cells: &mut Cells, objects: &[Object]) -> Result<(), AllocError>
    ensures { OnOk result (so_far cells.new ≡ (receiving objects.now (so_far cells.old)).taken) }
{
    for object in objects {
        cells.take(*object, &[])?;
    }
    Ok(())
}

/// The cells of globals.
pub fn receiving_globals(cells: &mut Cells, globals: &[Global]) -> Result<(), AllocError>
    ensures { OnOk result (so_far cells.new
        ≡ (receiving_globals globals.now (so_far cells.old)).taken) }
{
    for global in globals {
        cells.take(global.object, global.starts.as_slice())?;
    }
    Ok(())
}

/// A function.
pub fn function_tree(
    cells: &mut Cells,
    frames: &Frames,
    function: &TypedFunction,
) -> Result<CoreTree, AllocError>
    ensures taken { OnOk result (so_far cells.new
        ≡ (function_rule frames.now function.now (so_far cells.old)).taken) }
    ensures made { IfOk result (λ tree. tree
        ≡ (function_rule frames.now function.now (so_far cells.old)).made) }
{
    let place = cell_at(function.result.object_type(), cells.next()?);
    let before = resulting(cells, function.place, function.result)?;
    receiving(cells, function.parameters.as_slice())?;
    let inside = in_order(cells, frames, place, function.items.as_slice(), before)?;
    Ok(block(function.place, inside))
}

/// Functions, in order.
#[tactic(auto, using(crate::proofs::InOrder::function_more, crate::proofs::InOrder::no_tree))]
fn function_trees(
    cells: &mut Cells,
    frames: &Frames,
    functions: &[TypedFunction],
) -> Result<Vec<CoreTree>, AllocError>
    ensures taken { OnOk result (so_far cells.new
        ≡ (each (map (function_rule frames.now) functions.now) (so_far cells.old)).taken) }
    ensures made { IfOk result (λ trees. trees.items
        ≡ (each (map (function_rule frames.now) functions.now) (so_far cells.old)).made) }
{
    let mut trees = Vec::new(frames.alloc());
    for function in functions {
        trees.push(function_tree(cells, frames, function)?)?;
    }
    Ok(trees)
}

/// The core of a text with these globals and functions, which begin at these cells.
pub fn text_trees(
    alloc: Memory,
    globals: &[Global],
    functions: &[TypedFunction],
    first_cells: &[u32],
) -> Result<TextTrees, AllocError>
    ensures cells { IfOk result (λ text. text.cells
        ≡ (text_rule (frames_of first_cells.now functions.now) globals.now functions.now
        nothing_taken).taken.cells) }
    ensures names { IfOk result (λ text. text.names
        ≡ (text_rule (frames_of first_cells.now functions.now) globals.now functions.now
        nothing_taken).taken.names) }
    ensures trees { IfOk result (λ text. text.trees.items
        ≡ (text_rule (frames_of first_cells.now functions.now) globals.now functions.now
        nothing_taken).made) }
{
    let frames = Frames::new(alloc, first_cells, functions);
    let mut cells = Cells::new(alloc);
    receiving_globals(&mut cells, globals)?;
    let trees = function_trees(&mut cells, &frames, functions)?;
    let TakenCells { cells, names } = cells.into_cells();
    Ok(TextTrees {
        cells,
        names,
        trees,
    })
}

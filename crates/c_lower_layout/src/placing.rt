//! The layout of a text (`specs/Layouts.antt`): the rules are run, function by function, with calls
//! that take the functions to begin where `hints.rt` says. Where they begin elsewhere the trees are
//! thrown away, and made again. Proved with `proofs/Rests.antt` and `proofs/LaidOut.antt`.
ghost use Rattle.std.specs.Prelude.{◌≡◌, ◌↔◌, ◌++◌, ◌∷◌, [], IsTrue, IfOk, OnOk};
ghost use Rattle.c_core_rules.specs.Programs.{frames_of};
ghost use Rattle.c_core_rules.specs.Statements.{function_rule};
ghost use Rattle.c_core_rules_laws.specs.Layouts.{file_cells, text_from};
ghost use Rattle.c_lower_values.specs.Found.{so_far};
ghost use Rattle.c_lower_layout.specs.Measures.{grown, marks_of, Fits};
ghost use Rattle.c_lower_layout.specs.Rests.{rest_of, AreFound, IsFinding, AreMade};
ghost use Rattle.c_lower_layout.specs.Layouts.{IsLaidOut, IsLayout};

use crate::declared::declared_cells;
use crate::fault::CoreError;
use crate::hints::likely_first_cells;
use crate::sizes::{Size, behind_body, nothing};
use c_lower_expressions::Frames;
use c_lower_trees::{function_tree, receiving_globals, text_trees};
use c_lower_values::{Cells, TakenCells};
use c_types_rules::{Global, TypedFunction};
use cpa_expr::MAX_HEIGHT;
use cpa_ints::Seq;
use cpa_model::{Cell, MAX_CELLS, MAX_POINTS};
use cpa_model_trees::CoreTree;
use std::alloc::{AllocError, Global as Memory};

/// The core of a text, and where its functions begin.
#[derive(Drop)]
pub struct TextLayout {
    /// The cells in order: those of the globals, then those of each function.
    pub cells: Seq<Cell>,
    /// Of each cell of an object or of a parameter the place of its name.
    pub names: Seq<Option<u32>>,
    /// A block for each function.
    pub trees: Seq<CoreTree>,
    /// How many cells stand before those of each function.
    pub first_cells: Seq<u32>,
}

/// Whether so many cells and points are no more than a program may have, and no expression is
/// higher.
fn is_within(taken: u32, size: Size) -> bool
    ensures { IsTrue result ↔ Fits taken size }
{
    taken <= MAX_CELLS && size.points <= u64::from(MAX_POINTS) && size.tallest <= MAX_HEIGHT
}

/// A function more, whose tree is added.
fn behind_function(
    cells: &mut Cells,
    frames: &Frames,
    function: &TypedFunction,
    size: Size,
    trees: &mut Vec<CoreTree>,
) -> Result<Size, AllocError>
    ensures taken { OnOk result (so_far cells.new
        ≡ (function_rule frames.now function.now (so_far cells.old)).taken) }
    ensures size { IfOk result (λ more. more ≡ grown size (marks_of
        ((function_rule frames.now function.now (so_far cells.old)).made ∷ []))) }
    ensures made { OnOk result (trees.new.items ≡ trees.old.items
        ++ (function_rule frames.now function.now (so_far cells.old)).made ∷ []) }
{
    let tree = function_tree(cells, frames, function)?;
    let more = behind_body(size, &tree)?;
    trees.push(tree)?;
    Ok(more)
}

/// The first cells of functions, one behind the other, whose trees are added. None as soon as they
/// are too large.
#[tactic(auto, using(crate::proofs::Rests::first_cells_rules))]
fn first_cells(
    cells: &mut Cells,
    frames: &Frames,
    functions: &[TypedFunction],
    trees: &mut Vec<CoreTree>,
) -> Result<Option<Seq<u32>>, AllocError>
    ensures found { IfOk result (λ found. IsFinding frames.now functions.now (so_far cells.old)
        (so_far cells.new) found) }
    ensures made { IfOk result (λ found. AreMade frames.now functions.now (so_far cells.old)
        trees.old.items trees.new.items found) }
{
    let mut firsts = Vec::new(frames.alloc());
    let mut size = nothing();
    for function in functions {
        let first = cells.next()?;
        if !is_within(first, size) {
            return Ok(None);
        }
        firsts.push(first)?;
        size = behind_function(cells, frames, function, size, trees)?;
    }
    let end = cells.next()?;
    if !is_within(end, size) {
        return Ok(None);
    }
    Ok(Some(Seq::from_vec(firsts)))
}

/// Whether functions begin where it was likely.
fn are_same(first_cells: &[u32], likely: &[u32]) -> bool
    ensures { IsTrue result ↔ first_cells.now ≡ likely.now }
{
    first_cells == likely
}

/// The core of a text whose functions begin at these cells.
fn core_from(
    alloc: Memory,
    globals: &[Global],
    functions: &[TypedFunction],
    first_cells: Seq<u32>,
) -> Result<TextLayout, AllocError>
    ensures first_cells { IfOk result (λ layout. layout.first_cells ≡ first_cells) }
    ensures cells { IfOk result (λ layout. layout.cells
        ≡ (text_from first_cells globals.now functions.now).taken.cells) }
    ensures names { IfOk result (λ layout. layout.names
        ≡ (text_from first_cells globals.now functions.now).taken.names) }
    ensures trees { IfOk result (λ layout. layout.trees
        ≡ (text_from first_cells globals.now functions.now).made) }
{
    let text = text_trees(alloc, globals, functions, first_cells.as_slice())?;
    Ok(TextLayout {
        cells: text.cells,
        names: text.names,
        trees: Seq::from_vec(text.trees),
        first_cells,
    })
}

/// The core of these cells and trees.
fn core_of(cells: Cells, trees: Vec<CoreTree>, first_cells: Seq<u32>) -> TextLayout
    ensures first_cells { result.first_cells ≡ first_cells }
    ensures cells { result.cells ≡ (so_far cells).cells }
    ensures names { result.names ≡ (so_far cells).names }
    ensures trees { result.trees ≡ trees.items }
{
    let TakenCells { cells, names } = cells.into_cells();
    TextLayout {
        cells,
        names,
        trees: Seq::from_vec(trees),
        first_cells,
    }
}

/// The core of a text of which these cells and trees were made with calls that take its functions
/// to begin where it was likely, and which begin here: these, or made again.
fn settled(
    alloc: Memory,
    globals: &[Global],
    functions: &[TypedFunction],
    likely: &[u32],
    cells: Cells,
    trees: Vec<CoreTree>,
    first_cells: Seq<u32>,
) -> Result<TextLayout, AllocError>
    requires found { AreFound (frames_of likely.now functions.now) functions.now
        (file_cells globals.now) (so_far cells) first_cells }
    requires made { trees.items ≡ (rest_of (frames_of likely.now functions.now) functions.now
        (file_cells globals.now)).made }
    ensures { IfOk result (IsLaidOut globals.now functions.now) }
{
    if are_same(first_cells.as_slice(), likely) {
        return Ok(core_of(cells, trees, first_cells));
    }
    drop(trees);
    let layout = core_from(alloc, globals, functions, first_cells)?;
    Ok(layout)
}

/// The layout of a text with these globals and functions.
#[tactic(auto, using(crate::proofs::LaidOut::layout_rules))]
pub fn layout(
    alloc: Memory,
    globals: &[Global],
    functions: &[TypedFunction],
) -> Result<TextLayout, CoreError>
    ensures { IsLayout globals.now functions.now result }
{
    let declared = declared_cells(globals, functions)?;
    if u128::from(MAX_CELLS) < declared {
        return Err(CoreError::TooLarge);
    }
    let mut cells = Cells::new(alloc);
    receiving_globals(&mut cells, globals)?;
    let hints = likely_first_cells(alloc, cells.next()?, functions)?;
    let likely = hints.as_slice();
    let frames = Frames::new(alloc, likely, functions);
    let mut trees = Vec::new(alloc);
    let found = first_cells(&mut cells, &frames, functions, &mut trees)?;
    match found {
        Some(first_cells) => {
            let layout = settled(alloc, globals, functions, likely, cells, trees, first_cells)?;
            Ok(layout)
        }
        None => Err(CoreError::TooLarge),
    }
}

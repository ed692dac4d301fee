//! A checked text. `IsCheckedText` of `specs/Texts.antt` says which one is a tree's.
use cpa_ints::Seq;
use cpa_model::Cell;
use cpa_model_trees::CoreTree;

/// A checked text: what the rules of the core take and make of it.
#[derive(Drop)]
pub struct CheckedText {
    /// In order: those of the objects of file scope, then those of each function.
    pub cells: Seq<Cell>,
    /// Of each cell of an object or of a parameter the place of its name; the others have none.
    pub names: Seq<Option<u32>>,
    /// A block for each function with a body, in the order of the text.
    pub trees: Seq<CoreTree>,
    /// The place of the closing brace of each of these functions, where it is left.
    pub ends: Seq<u32>,
    /// The number of `main` among the functions.
    pub main: u32,
    /// The length of the text in bytes.
    pub text_len: u32,
}

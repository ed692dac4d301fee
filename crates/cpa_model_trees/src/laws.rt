//! Laws of numbered trees: functions with an empty body, whose contract is the law. They are stated
//! in `specs/Laws.antt` and proved in `specs/lemmas/Numbered.antt`.
ghost use Rattle.cpa_model_trees.specs.Laws.{TreesAreNumbered};

/// A program of trees, of any origin, whose nodes have the parts of their heads is numbered: each
/// statement before its parts, the parts one behind the other, all inside the numbers of its
/// function.
pub fn trees_are_numbered()
    ensures { TreesAreNumbered }
{}

//! Laws of the rules of the core: functions with an empty body, whose contract is the law. They are
//! stated in `specs/Laws.antt` and proved in `specs/lemmas/`.
ghost use Rattle.c_core_rules_laws.specs.Laws.{ExpressionsAreAlike, ItemsAreAlike};
ghost use Rattle.c_core_rules_laws.specs.Laws.{FunctionsAreAlike, TextsAreAlike, FramesAreAlike};
ghost use Rattle.c_core_rules_laws.specs.Laws.{FunctionsBeginAlike, ThereIsOneLayout};
ghost use Rattle.c_core_rules_laws.specs.Laws.{TextsTakeTheSameCells, TextsAreAsLarge};

/// The two rules of an expression, its place as a left side and its name are alike under any two
/// frames of the same types.
pub fn expressions_are_alike()
    ensures { ExpressionsAreAlike }
{}

/// The rule of an item of a block is.
pub fn items_are_alike()
    ensures { ItemsAreAlike }
{}

/// The rule of a function is, whatever cells are taken before it.
pub fn functions_are_alike()
    ensures { FunctionsAreAlike }
{}

/// The rule of a text is.
pub fn texts_are_alike()
    ensures { TextsAreAlike }
{}

/// Frames of the same functions have the same types, wherever these begin.
pub fn frames_are_alike()
    ensures { FramesAreAlike }
{}

/// Under frames of the same types the functions begin at the same cells, where as many are taken
/// before them.
pub fn functions_begin_alike()
    ensures { FunctionsBeginAlike }
{}

/// The functions of a text begin at one list of cells.
pub fn there_is_one_layout()
    ensures { ThereIsOneLayout }
{}

/// The rules take the same cells for a text, wherever its functions begin.
pub fn texts_take_the_same_cells()
    ensures { TextsTakeTheSameCells }
{}

/// Where they begin, they make no more than a program may have, where they do so elsewhere.
pub fn texts_are_as_large()
    ensures { TextsAreAsLarge }
{}

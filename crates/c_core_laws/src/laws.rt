//! Laws on the core of a checked text: functions with an empty body, whose contract is the law.
//! The laws are stated in `specs/Laws.antt` and proved in `proofs/`.
ghost use Rattle.c_core_laws.specs.Laws.{CoresAreNumbered, CoresAreSmall, OneCore};
ghost use Rattle.c_core_laws.specs.Laws.{CellsStartInRange, CoresHaveAMain, JumpsAreKept};
ghost use Rattle.c_core_laws.specs.Laws.{FramesAreThere, JumpsAreSound};
ghost use Rattle.c_core_laws.specs.Laws.{GotosGoToLabels, LabelsAreBlocks, LabelsAreInOrder};
ghost use Rattle.c_core_laws.specs.Laws.{StatementsAreOfTrees};

/// A checked text has one core.
pub fn there_is_one_core()
    ensures { OneCore }
{}

/// Its statements are numbered in the order of the trees: each before its parts, the parts one
/// behind the other, all inside the numbers of its function.
pub fn cores_are_numbered()
    ensures { CoresAreNumbered }
{}

/// Of a sound text it has no more cells and points than a program has, and no higher expression.
pub fn cores_are_small()
    ensures { CoresAreSmall }
{}

/// Of a sound text its main is one of its bodies.
pub fn cores_have_a_main()
    ensures { CoresHaveAMain }
{}

/// Of a sound text each cell starts at a value of its type.
pub fn cells_start_in_range()
    ensures { CellsStartInRange }
{}

/// The tree of each function has the labels and the jumps of the typed function.
pub fn jumps_are_kept()
    ensures { JumpsAreKept }
{}

/// Each statement is one of the tree of the function in which it stands.
pub fn statements_are_of_trees()
    ensures { StatementsAreOfTrees }
{}

/// Of a sound text each goto stays in its function, and each break and continue stands in a loop.
pub fn jumps_are_sound()
    ensures { JumpsAreSound }
{}

/// The cells of the result and of the parameters of each function are there.
pub fn frames_are_there()
    ensures { FramesAreThere }
{}

/// In each function of a sound text the labels have the numbers 0, 1, .. in the order of the text.
pub fn labels_are_in_order()
    ensures { LabelsAreInOrder }
{}

/// In a sound text a goto to a name has the number of the label of this name: how many labels stand
/// before it in its function.
pub fn gotos_go_to_labels()
    ensures { GotosGoToLabels }
{}

/// Where they have these numbers, a goto of the core goes to the block of the statement behind its
/// label: the block that is made of label k is the k-th labelled one of the function's tree.
pub fn labels_are_blocks()
    ensures { LabelsAreBlocks }
{}

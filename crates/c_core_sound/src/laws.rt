//! The laws of well-formed cores: functions that do nothing, whose contract is the law.
//! Stated in `specs/Laws.antt`; proved in `proofs/TextWhole.antt` and `proofs/SoundCore.antt`.
ghost use Rattle.c_core_sound.specs.Laws.{CoresAreWellFormed, TextsAreWhole, WholeCores};

use c_core_laws::{
    cells_start_in_range, cores_are_numbered, cores_are_small, cores_have_a_main, frames_are_there,
    jumps_are_sound, statements_are_of_trees,
};
use c_lexer::constants_lie_in_range;

/// In the tree of a text each constant has a value of its type, and each comma expression an item.
pub fn texts_are_whole()
    ensures { TextsAreWhole }
{
    constants_lie_in_range();
}

/// The core of such a tree is well formed, if the tree breaks no rule.
pub fn whole_cores_are_well_formed()
    ensures { WholeCores }
{
    frames_are_there();
    statements_are_of_trees();
    cores_are_numbered();
    cores_are_small();
    jumps_are_sound();
    cores_have_a_main();
    cells_start_in_range();
}

/// The core of a sound text is well formed.
pub fn cores_are_well_formed()
    ensures { CoresAreWellFormed }
{
    texts_are_whole();
    whole_cores_are_well_formed();
}

//! The laws of cuts, stated in specs/Laws, of the places of a part of a path (specs/Places) and of
//! the variables that are bits of cells (specs/Variables). Each function does nothing: its contract
//! is the law. Proved in specs/lemmas.

ghost use Rattle.cpa_interpolant_cuts.specs.Laws.{CutsAreAsked, CutsAreRuns, CutsAreTyped};
ghost use Rattle.cpa_interpolant_cuts.specs.Laws.{CutsInterpolate};
ghost use Rattle.cpa_interpolant_cuts.specs.Places.{PlacesStandApart};
ghost use Rattle.cpa_interpolant_cuts.specs.Variables.{BitsStandApart, BitsAreVariables};

use cpa_blast_circuits::circuits_have_values;
use cpa_chains::two_lists_are_sides;

/// Where the last partial of a refutation of a cut's joined formula is an interpolant of its two
/// sides, its expression is the interpolant of the path at the cut.
pub fn cuts_interpolate()
    ensures { CutsInterpolate }
{
    circuits_have_values();
    two_lists_are_sides();
}

/// The expression of a cut is well typed over the cells of the program.
pub fn cuts_are_typed()
    ensures { CutsAreTyped }
{
    circuits_have_values();
}

/// The models of a cut's joined formula are the runs of stores through the cut.
pub fn cuts_are_runs()
    ensures { CutsAreRuns }
{
    circuits_have_values();
}

/// The two parts of a cut may be joined, and their formula may be searched.
pub fn cuts_are_asked()
    ensures { CutsAreAsked }
{
    circuits_have_values();
}

/// Each cell of a program has a place of its own, which has its type; a place moves only where the
/// part reads or writes the cell; and what is wanted reads new cells and cells that the part reads.
#[tactic(auto, using(crate::specs::Places::places_stand_apart))]
pub fn places_stand_apart()
    ensures { PlacesStandApart }
{}

/// A variable of a query's formula is a bit of one cell at most, and one bit of it.
pub fn bits_stand_apart()
    ensures { BitsStandApart }
{
    circuits_have_values();
}

/// A bit of a cell, in the store that values of the variables give, is the value of its variable.
#[tactic(auto, using(crate::specs::Variables::bits_are_variables))]
pub fn bits_are_variables()
    ensures { BitsAreVariables }
{}

//! Laws of formulas, stated in specs/Laws. Each function does nothing: its contract is the law.
//! Proved in specs/lemmas.

ghost use Rattle.cpa_blast.specs.Laws.{FormulasAreBelow, FormulasAreQueries};

use cpa_blast_circuits::circuits_have_values;

/// Each model of a query's formula gives a model of the query on the bits of its cells, and each
/// model of the query extends to one of the formula that gives it. A clause names a bit of a cell
/// only where some wanted expression may read the cell.
pub fn formulas_are_queries()
    ensures { FormulasAreQueries }
{
    circuits_have_values();
}

/// Every literal's variable is one of the formula, and so is every bit of a cell.
pub fn formulas_are_below()
    ensures { FormulasAreBelow }
{
    circuits_have_values();
}

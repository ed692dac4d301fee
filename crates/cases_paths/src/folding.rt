//! Rows on what `path_weight`, `needed` and `carried` answer. Proved safe by the checker alone.

ghost use Rattle.cpa_iface.specs.Meanings.{IsPathOf};
ghost use Rattle.cpa_model.specs.Automata.{IsAutomaton};

use cases_reader::push_number;
use cpa_expr::push_expr;
use cpa_model::{Cfa, Path};
use cpa_path::{carried, needed, path_weight};
use std::alloc::{AllocError, Global};

/// `path_weight : EDGE ..`: the weight of the path.
pub fn push_weight(out: &mut String, cfa: &Cfa, path: &Path) -> Result<(), AllocError>
    requires { IsPathOf cfa.now path.now }
{
    push_number(out, path_weight(cfa, path) as i128)
}

/// `needed : EDGE ..`: the cells.
pub fn push_needed(
    alloc: Global,
    out: &mut String,
    cfa: &Cfa,
    path: &Path,
) -> Result<(), AllocError>
    requires automaton { IsAutomaton cfa.now }
    requires path { IsPathOf cfa.now path.now }
{
    for cell in &needed(alloc, cfa, path)? {
        push_number(out, *cell as i128)?;
    }
    Ok(())
}

/// `carried : EDGE ..`: the expressions, with commas between them.
pub fn push_carried(
    alloc: Global,
    out: &mut String,
    cfa: &Cfa,
    path: &Path,
) -> Result<(), AllocError>
    requires automaton { IsAutomaton cfa.now }
    requires path { IsPathOf cfa.now path.now }
{
    let carried = carried(alloc, cfa, path)?;
    for (place, e) in carried.iter().enumerate() {
        out.push_str(if place == 0 { " " } else { ", " })?;
        push_expr(out, e)?;
    }
    Ok(())
}

//! What is gathered of a whole text, with the first fault of each rule but N13
//! (`specs/Firsts.antt`). Proved with `proofs/Law`.
ghost use Rattle.std.specs.Prelude.{◌≡◌, IfOk};
ghost use Rattle.c_types_rules.specs.Items.{text_in, nothing_before};
ghost use Rattle.c_types_rules.specs.Sound.{items_behind, starts_of, functions_of, BreaksTree};
ghost use Rattle.c_types.specs.Firsts.{FindsFirst};

use crate::entry::note_missing_main;
use crate::items::{Gathered, gather_items};
use c_grammar_tree::Unit;
use c_lexer::Rule;
use c_types_names::Survey;
use c_types_recursion::least_leading_back;
use c_types_rules::note_place;
use std::alloc::{AllocError, Global};

/// Gathers a text, which says this of its functions.
pub(crate) fn gather(alloc: Global, survey: &Survey, unit: &Unit) -> Result<Gathered, AllocError>
    requires { survey.now ≡ text_in survey.now.model unit.now.items }
    ensures names { IfOk result (λ g. g.scope.names
        ≡ (items_behind (text_in survey.now.model unit.now.items) unit.now.items
        nothing_before).names) }
    ensures starts { IfOk result (λ g. g.starts.items
        ≡ starts_of (text_in survey.now.model unit.now.items) unit.now.items nothing_before) }
    ensures functions { IfOk result (λ g. g.functions.items
        ≡ functions_of (text_in survey.now.model unit.now.items) unit.now.items nothing_before) }
    ensures first { IfOk result (λ g. FindsFirst (BreaksTree survey.now.model unit.now) g.first) }
{
    let mut gathered = Gathered::new(alloc);
    gather_items(alloc, survey, &mut gathered, unit.items.as_slice())?;
    note_missing_main(alloc, survey, unit, &mut gathered.first)?;
    let least = least_leading_back(alloc, &gathered.calls)?;
    note_place(&mut gathered.first, Rule::N10, least);
    Ok(gathered)
}

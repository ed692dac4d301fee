//! The function at which a text starts (`is_main` and `without_main` of `specs/Sound.antt` of
//! `c_types_rules`). Proved with `proofs/Entries`.
ghost use Rattle.std.specs.Prelude.{◌≡◌, IfOk, OnOk};
ghost use Rattle.std.specs.List.{list_any};
ghost use Rattle.c_types_rules.specs.First.{first_with};
ghost use Rattle.c_types_rules.specs.Items.{text_in};
ghost use Rattle.c_types_rules.specs.Sound.{has_no_parameters, is_main, without_main};

use c_grammar_tree::{Body, Item, Parameters, Unit};
use c_lexer::{Rule, TextFault};
use c_types_globals::same_kind;
use c_types_names::Survey;
use c_types_objects::{note_if, read_specifiers};
use c_types_rules::Kind;
use cpa_ints::IntType;
use std::alloc::{AllocError, Global};

/// The name of the function at which a text starts.
pub(crate) const MAIN: &[u8] = b"main";

/// Whether a function has no parameters.
fn has_no_parameters(parameters: &Parameters) -> bool
    ensures { result ≡ has_no_parameters parameters.now }
{
    match parameters {
        Parameters::Unspecified | Parameters::Void => true,
        Parameters::Listed(_) => false,
    }
}

/// Whether a text starts at this item.
fn is_main(alloc: Global, survey: &Survey, item: &Item) -> Result<bool, AllocError>
    ensures { IfOk result (λ found. found ≡ is_main survey.now item.now) }
{
    match item {
        Item::Function {
            specifiers,
            declarator,
            body: Body::Block { .. },
        } => {
            let kind = read_specifiers(alloc, survey, specifiers)?.kind;
            Ok(
                declarator.name.bytes.as_slice() == MAIN
                    && same_kind(kind, Kind::Value(IntType::I32))
                    && has_no_parameters(&declarator.parameters),
            )
        }
        _ => Ok(false),
    }
}

/// Whether a text starts at one of these items.
fn has_main(alloc: Global, survey: &Survey, items: &[Item]) -> Result<bool, AllocError>
    ensures { IfOk result (λ found. found ≡ list_any (is_main survey.now) items.now) }
{
    for item in items {
        if is_main(alloc, survey, item)? {
            return Ok(true);
        }
    }
    Ok(false)
}

/// Notes the fault of a text that starts nowhere.
#[tactic(auto, using(crate::proofs::Entries::without_is))]
pub(crate) fn note_missing_main(
    alloc: Global,
    survey: &Survey,
    unit: &Unit,
    first: &mut Option<TextFault>,
) -> Result<(), AllocError>
    requires { survey.now ≡ text_in survey.now.model unit.now.items }
    ensures { OnOk result (first.new
        ≡ first_with first.old (without_main survey.now.model unit.now)) }
{
    let has_main = has_main(alloc, survey, unit.items.as_slice())?;
    note_if(first, Rule::N11, !has_main, unit.length);
    Ok(())
}

//! The tree of a text, or its fault, which are `Tree` and `IsTreeFault` of `c_grammar_tree`;
//! `proofs/Whole.antt` goes from its items to it.
ghost use Rattle.std.specs.Prelude.{◌≡◌, ◌<◌, length, IfOk, IfErr};
ghost use Rattle.cpa_ints.specs.declared.data_model.DataModel.{DataModel};
ghost use Rattle.c_lexer.specs.Parts.{Tokens};
ghost use Rattle.c_grammar_symbols.specs.Sources.{leaf_at};
ghost use Rattle.c_grammar_tree.specs.Faults.{is_outside};
ghost use Rattle.c_grammar_tree.specs.Grammar.{Tree};
ghost use Rattle.c_grammar_symbols.specs.Symbols.{symbol_of};
ghost use Rattle.c_parser.specs.Faults.{IsRefused, IsWithin, fault_of};

use crate::items::unit_items;
use c_grammar_forms::ReadError;
use c_grammar_symbols::{Source, Symbol, tokens_are_a_source};
use c_grammar_tree::{MAX_LEVEL, Unit};
use c_lexer::{Rule, TextError, TextFault, Token};
use std::alloc::Global;

/// Whether a word that the grammar leaves out stands at this place.
fn is_outside(source: &Source, at: usize) -> bool
    requires { at < length source.now }
    ensures { result ≡ is_outside (symbol_of (leaf_at source.now at)) }
{
    matches!(source.symbol(at), Symbol::Outside(_))
}

/// The rule that the token breaks which the error names, with the token's place.
fn fault_of(source: &Source, error: ReadError) -> TextError
    requires { IsWithin source.now error }
    ensures { result ≡ fault_of source.now error }
{
    match error {
        ReadError::Unexpected { at } => {
            let rule = if is_outside(source, at) {
                Rule::S3
            } else {
                Rule::S1
            };
            let place = source.place(at);
            TextError::Fault(TextFault { rule, place })
        }
        ReadError::TooDeep { at } => {
            let rule = Rule::S2;
            let place = source.place(at);
            TextError::Fault(TextFault { rule, place })
        }
        ReadError::OutOfMemory => TextError::OutOfMemory,
    }
}

/// The tree of the text with these tokens, which a data model gives it.
///
/// One descent, linear in the tokens; memory for the tree alone. The stack is bounded by
/// `MAX_LEVEL`.
pub fn parse(alloc: Global, text: &[u8], tokens: &[Token]) -> Result<Unit, TextError>
    requires { (model : DataModel) × Tokens model text.now tokens.now }
    ensures tree { IfOk result (λ unit. Tree text.now tokens.now unit) }
    ensures fault { IfErr result (λ error. IsRefused text.now tokens.now error) }
{
    tokens_are_a_source();
    let mut source = Source::new(alloc, text, tokens)?;
    match unit_items(alloc, &mut source, 0, MAX_LEVEL - 1) {
        Ok((items, end)) => {
            let length = source.place(end);
            Ok(Unit { items, length })
        }
        Err(error) => Err(fault_of(&source, error)),
    }
}

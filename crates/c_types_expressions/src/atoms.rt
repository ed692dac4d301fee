//! Reading names and constants (`reading_step` of `c_types_rules`, `specs/Expressions.antt`).
//! Proved with `proofs/Variants.antt`.
ghost use Rattle.std.specs.Prelude.{◌≡◌, List, IfOk, OnOk};
ghost use Rattle.c_grammar_tree.specs.declared.expression.Expression.{Expression};
ghost use Rattle.c_types_rules.specs.declared.meaning.Entry.{Entry};
ghost use Rattle.c_types_rules.specs.Names.{Text};
ghost use Rattle.c_types_rules.specs.First.{first_with};
ghost use Rattle.c_types_expressions.specs.Read.{part_of, typed_of, faults_of};

use crate::read::{Read, Reader};
use c_grammar_tree::{Integer, Name};
use c_lexer::TextFault;
use c_types_rules::{Form, Kind, Named, Part, TypedExpression, named_kind, note_named};
use cpa_ints::IntType;
use std::alloc::AllocError;

impl Reader<'_> {
    /// Reads a name.
    #[tactic(auto, using(crate::proofs::Variants::read_name_rules))]
    pub(crate) fn read_name(
        &self,
        name: &Name,
        first: &mut Option<TextFault>,
    ) -> Result<Read, AllocError>
        ensures part { IfOk result (λ r. r.part
            ≡ part_of self.now.survey.now self.now.names.now (Expression.Name name.now)) }
        ensures typed { IfOk result (λ r. r.typed
            ≡ typed_of self.now.survey.now self.now.names.now (Expression.Name name.now)) }
        ensures first { OnOk result (first.new ≡ first_with first.old
            (faults_of self.now.survey.now self.now.names.now (Expression.Name name.now))) }
    {
        let found = self.names.meaning(self.survey, name.bytes.as_slice());
        note_named(first, name.place, found);
        let meaning = Named::new(self.alloc, found)?;
        Ok(Read {
            part: Part {
                place: name.place,
                kind: named_kind(found),
                form: Form::Bare {
                    place: name.place,
                    meaning: found,
                },
            },
            typed: TypedExpression::Name {
                meaning,
                place: name.place,
            },
        })
    }
}

/// Reads a number.
#[tactic(auto, using(crate::proofs::Variants::part_Number, crate::proofs::Variants::typed_Number))]
pub(crate) fn read_number(ty: IntType, value: i128, place: u32) -> Read
    ensures part { (text : Text) (names : List Entry)
        → result.part ≡ part_of text names (Expression.Number ty value place) }
    ensures typed { (text : Text) (names : List Entry)
        → result.typed ≡ typed_of text names (Expression.Number ty value place) }
{
    Read {
        part: Part::plain(place, Some(Kind::Value(ty))),
        typed: TypedExpression::Number {
            ty,
            value: Integer::new(value),
            place,
        },
    }
}

/// Reads a character constant.
#[tactic(auto, using(crate::proofs::Variants::read_character_rules))]
pub(crate) fn read_character(value: i128, place: u32) -> Read
    ensures part { (text : Text) (names : List Entry)
        → result.part ≡ part_of text names (Expression.Character value place) }
    ensures typed { (text : Text) (names : List Entry)
        → result.typed ≡ typed_of text names (Expression.Character value place) }
{
    Read {
        part: Part::plain(place, Some(Kind::Value(IntType::I32))),
        typed: TypedExpression::Character {
            value: Integer::new(value),
            place,
        },
    }
}

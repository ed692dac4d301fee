//! Reading chains of operators and comma expressions (`chain_type`, `comma_kind` of
//! `c_types_rules`, `specs/Parts.antt`). Proved with `proofs/Variants.antt` and
//! `proofs/Lists.antt`.
ghost use Rattle.std.specs.Prelude.{◌≡◌, ◌++◌, IfOk, OnOk, map};
ghost use Rattle.std.specs.List.{flat_map};
ghost use Rattle.c_grammar_tree.specs.declared.expression.Expression.{Expression};
ghost use Rattle.c_types_rules.specs.declared.meaning.Role.TheVariants.{Evaluated};
ghost use Rattle.c_types_rules.specs.First.{first_with};
ghost use Rattle.c_types_rules.specs.declared.typed.TypedExpression.TheVariants as typed;
ghost use Rattle.c_types_rules.specs.Parts.{value, chain_type, last_kind};
ghost use Rattle.c_types_rules.specs.Expressions.{plain};
ghost use Rattle.c_types_expressions.specs.Read.{part_of, typed_of, faults_of, calls_of};
ghost use Rattle.c_types_expressions.specs.Read.{link_part, link_typed, link_faults, link_calls};
ghost use Rattle.c_types_expressions.specs.Read.{role_faults, role_calls};

use crate::combine::{joined_type, kind_before, next_kind};
use crate::notes::Notes;
use crate::read::{Read, Reader};
use c_grammar_symbols::BinaryOperator;
use c_grammar_tree::Expression;
use c_types_rules::{Kind, Part, Role, TypedExpression, as_kind};
use cpa_ints::{Boxed, IntType, Seq};
use std::alloc::AllocError;

/// The type of a chain, and its typed operands behind the first.
#[derive(Drop)]
pub(crate) struct Links {
    pub(crate) ty: Option<IntType>,
    pub(crate) typed: Vec<(BinaryOperator, TypedExpression)>,
}

impl Reader<'_> {
    /// Reads the operands of a chain behind what has a type or none.
    #[cycle(read)]
    #[tactic(auto, using(c_types_rules::specs::First::first_append))]
    pub(crate) fn read_links(
        &self,
        left: Option<IntType>,
        rest: &[(BinaryOperator, Expression)],
        notes: &mut Notes,
    ) -> Result<Links, AllocError>
        ensures ty { IfOk result (λ r. r.ty
            ≡ chain_type left (map (link_part self.now.survey.now self.now.names.now) rest.now)) }
        ensures typed { IfOk result (λ r. r.typed.items
            ≡ map (link_typed self.now.survey.now self.now.names.now) rest.now) }
        ensures first { OnOk result (notes.new.first
            ≡ first_with notes.old.first (flat_map (link_faults self.now.survey.now
            self.now.names.now) rest.now)) }
        ensures calls { OnOk result (notes.new.calls.items
            ≡ notes.old.calls.items ++ flat_map (link_calls self.now.survey.now self.now.names.now
            self.now.caller) rest.now) }
    {
        let mut ty = left;
        let mut typed = Vec::with_capacity(self.alloc, rest.len())?;
        for link in rest {
            let read = self.read_used(Role::Valued, &link.1, notes)?;
            ty = joined_type(ty, link.0, read.part);
            typed.push((link.0, read.typed))?;
        }
        Ok(Links { ty, typed })
    }
}

/// A chain of what is read of its operands.
pub(crate) fn chain(head: Boxed<TypedExpression>, links: Links, place: u32) -> Read
    ensures part { result.part ≡ plain place (value links.ty) }
    ensures typed { result.typed ≡ typed.Chain head links.typed.items (value links.ty) place }
{
    let kind = as_kind(links.ty);
    Read {
        part: Part::plain(place, kind),
        typed: TypedExpression::Chain {
            first: head,
            rest: Seq::from_vec(links.typed),
            kind,
            place,
        },
    }
}

/// The type of items, and the typed items.
#[derive(Drop)]
struct Items {
    kind: Option<Kind>,
    typed: Vec<TypedExpression>,
}

impl Reader<'_> {
    /// Reads items that are evaluated one after the other, behind what has a type or none.
    #[cycle(read)]
    #[tactic(auto, using(c_types_rules::specs::First::first_append))]
    fn read_items(
        &self,
        before: Option<Kind>,
        items: &[Expression],
        notes: &mut Notes,
    ) -> Result<Items, AllocError>
        ensures kind { IfOk result (λ r. r.kind
            ≡ last_kind before (map (part_of self.now.survey.now self.now.names.now) items.now)) }
        ensures typed { IfOk result (λ r. r.typed.items
            ≡ map (typed_of self.now.survey.now self.now.names.now) items.now) }
        ensures first { OnOk result (notes.new.first
            ≡ first_with notes.old.first (flat_map (role_faults self.now.survey.now
            self.now.names.now Evaluated) items.now)) }
        ensures calls { OnOk result (notes.new.calls.items
            ≡ notes.old.calls.items ++ flat_map (role_calls self.now.survey.now self.now.names.now
            self.now.caller Evaluated) items.now) }
    {
        let mut kind = before;
        let mut typed = Vec::with_capacity(self.alloc, items.len())?;
        for item in items {
            let read = self.read_used(Role::Evaluated, item, notes)?;
            kind = next_kind(kind, read.part);
            typed.push(read.typed)?;
        }
        Ok(Items { kind, typed })
    }

    /// Reads expressions with commas between them.
    #[cycle(read)]
    #[tactic(auto, using(crate::proofs::Variants::read_comma_rules))]
    pub(crate) fn read_comma(
        &self,
        items: &[Expression],
        place: u32,
        notes: &mut Notes,
    ) -> Result<Read, AllocError>
        ensures part { IfOk result (λ r. r.part
            ≡ part_of self.now.survey.now self.now.names.now (Expression.Comma items.now place)) }
        ensures typed { IfOk result (λ r. r.typed
            ≡ typed_of self.now.survey.now self.now.names.now (Expression.Comma items.now place)) }
        ensures first { OnOk result (notes.new.first
            ≡ first_with notes.old.first (faults_of self.now.survey.now self.now.names.now
            (Expression.Comma items.now place))) }
        ensures calls { OnOk result (notes.new.calls.items
            ≡ notes.old.calls.items ++ calls_of self.now.survey.now self.now.names.now
            self.now.caller (Expression.Comma items.now place)) }
    {
        let before = kind_before(items);
        let read = self.read_items(before, items, notes)?;
        Ok(Read {
            part: Part::plain(place, read.kind),
            typed: TypedExpression::Comma {
                items: Seq::from_vec(read.typed),
                kind: read.kind,
                place,
            },
        })
    }
}

//! Reading expressions of an operator, brackets or a cast (`reading_step` of `c_types_rules`,
//! `specs/Expressions.antt`). Proved with `proofs/Variants.antt`.
ghost use Rattle.std.specs.Prelude.{◌≡◌, ◌++◌, IfOk, OnOk};
ghost use Rattle.c_grammar_tree.specs.declared.expression.Expression.{Expression};
ghost use Rattle.c_types_rules.specs.declared.typed.TypedExpression.TheVariants as typed;
ghost use Rattle.c_types_rules.specs.First.{first_with};
ghost use Rattle.c_types_rules.specs.Parts.{with_value, ends_kind, changed_kind};
ghost use Rattle.c_types_rules.specs.Expressions.{plain, tag_uses};
ghost use Rattle.c_types_rules.specs.ExpressionRules.{uses_faults};
ghost use Rattle.c_types_expressions.specs.Read.{part_of, typed_of, faults_of, calls_of};

use crate::combine::unary_kind;
use crate::notes::Notes;
use crate::read::{Read, ReadPart, Reader};
use c_grammar_symbols::{AssignmentOperator, StepOperator};
use c_grammar_tree::{Expression, TypeName, UnaryOperator};
use c_lexer::TextFault;
use c_types_rules::{
    Part, Role, TypedExpression, as_kind, cast_kind, cast_role, ends_kind, kind_of_type_name,
    note_tagged, with_value,
};
use cpa_ints::Boxed;
use std::alloc::AllocError;

impl Reader<'_> {
    /// Reads `(inner)`.
    #[cycle(read)]
    #[tactic(auto, using(crate::proofs::Variants::read_bracketed_rules))]
    pub(crate) fn read_bracketed(
        &self,
        inner: &Expression,
        place: u32,
        notes: &mut Notes,
    ) -> Result<Read, AllocError>
        ensures part { IfOk result (λ r. r.part
            ≡ part_of self.now.survey.now self.now.names.now (Expression.Bracketed inner.now
            place)) }
        ensures typed { IfOk result (λ r. r.typed
            ≡ typed_of self.now.survey.now self.now.names.now (Expression.Bracketed inner.now
            place)) }
        ensures first { OnOk result (notes.new.first
            ≡ first_with notes.old.first (faults_of self.now.survey.now self.now.names.now
            (Expression.Bracketed inner.now place))) }
        ensures calls { OnOk result (notes.new.calls.items
            ≡ notes.old.calls.items ++ calls_of self.now.survey.now self.now.names.now
            self.now.caller (Expression.Bracketed inner.now place)) }
    {
        let read = self.read_expression(inner, notes)?;
        Ok(Read {
            part: Part {
                place,
                kind: read.part.kind,
                form: read.part.form,
            },
            typed: TypedExpression::Bracketed {
                inner: Boxed::new(self.alloc, read.typed)?,
                place,
            },
        })
    }

    /// Reads `++operand` or `--operand`.
    #[cycle(read)]
    #[tactic(auto, using(crate::proofs::Variants::read_prefix_step_rules))]
    pub(crate) fn read_prefix_step(
        &self,
        operator: StepOperator,
        operand: &Expression,
        place: u32,
        notes: &mut Notes,
    ) -> Result<Read, AllocError>
        ensures part { IfOk result (λ r. r.part
            ≡ part_of self.now.survey.now self.now.names.now (Expression.PrefixStep operator
            operand.now place)) }
        ensures typed { IfOk result (λ r. r.typed
            ≡ typed_of self.now.survey.now self.now.names.now (Expression.PrefixStep operator
            operand.now place)) }
        ensures first { OnOk result (notes.new.first
            ≡ first_with notes.old.first (faults_of self.now.survey.now self.now.names.now
            (Expression.PrefixStep operator operand.now place))) }
        ensures calls { OnOk result (notes.new.calls.items
            ≡ notes.old.calls.items ++ calls_of self.now.survey.now self.now.names.now
            self.now.caller (Expression.PrefixStep operator operand.now place)) }
    {
        let read = self.read_used(Role::Changed, operand, notes)?;
        let kind = read.part.changed_kind();
        Ok(Read {
            part: Part::plain(place, kind),
            typed: TypedExpression::PrefixStep {
                operator,
                operand: Boxed::new(self.alloc, read.typed)?,
                kind,
                place,
            },
        })
    }

    /// Reads an operator before an operand.
    #[cycle(read)]
    #[tactic(auto, using(crate::proofs::Variants::read_unary_rules))]
    pub(crate) fn read_unary(
        &self,
        operator: UnaryOperator,
        operand: &Expression,
        place: u32,
        notes: &mut Notes,
    ) -> Result<Read, AllocError>
        ensures part { IfOk result (λ r. r.part
            ≡ part_of self.now.survey.now self.now.names.now (Expression.Unary operator operand.now
            place)) }
        ensures typed { IfOk result (λ r. r.typed
            ≡ typed_of self.now.survey.now self.now.names.now (Expression.Unary operator operand.now
            place)) }
        ensures first { OnOk result (notes.new.first
            ≡ first_with notes.old.first (faults_of self.now.survey.now self.now.names.now
            (Expression.Unary operator operand.now place))) }
        ensures calls { OnOk result (notes.new.calls.items
            ≡ notes.old.calls.items ++ calls_of self.now.survey.now self.now.names.now
            self.now.caller (Expression.Unary operator operand.now place)) }
    {
        let read = self.read_used(Role::Valued, operand, notes)?;
        let kind = as_kind(unary_kind(operator, read.part.kind));
        Ok(Read {
            part: Part::plain(place, kind),
            typed: TypedExpression::Unary {
                operator,
                operand: Boxed::new(self.alloc, read.typed)?,
                kind,
                place,
            },
        })
    }

    /// Notes the fault of the tag in the type of a cast, where it has one.
    #[tactic(auto, using(crate::proofs::Uses::uses_one))]
    fn note_type_name(&self, to: &TypeName, first: &mut Option<TextFault>) -> Result<(), AllocError>
        ensures { OnOk result (first.new
            ≡ first_with first.old (uses_faults (tag_uses self.now.names.now to.now))) }
    {
        if let TypeName::Enum { tag, .. } = to {
            let is_declared = self.names.has_tag(self.alloc, tag.bytes.as_slice())?;
            note_tagged(first, tag.place, is_declared);
        }
        Ok(())
    }

    /// Reads `(to) operand`.
    #[cycle(read)]
    #[tactic(auto, using(crate::proofs::Variants::read_cast_rules))]
    pub(crate) fn read_cast(
        &self,
        to: &TypeName,
        operand: &Expression,
        place: u32,
        notes: &mut Notes,
    ) -> Result<Read, AllocError>
        ensures part { IfOk result (λ r. r.part
            ≡ part_of self.now.survey.now self.now.names.now (Expression.Cast to.now operand.now
            place)) }
        ensures typed { IfOk result (λ r. r.typed
            ≡ typed_of self.now.survey.now self.now.names.now (Expression.Cast to.now operand.now
            place)) }
        ensures first { OnOk result (notes.new.first
            ≡ first_with notes.old.first (faults_of self.now.survey.now self.now.names.now
            (Expression.Cast to.now operand.now place))) }
        ensures calls { OnOk result (notes.new.calls.items
            ≡ notes.old.calls.items ++ calls_of self.now.survey.now self.now.names.now
            self.now.caller (Expression.Cast to.now operand.now place)) }
    {
        self.note_type_name(to, &mut notes.first)?;
        let wanted = kind_of_type_name(self.survey.model(), to);
        let role = cast_role(wanted);
        let read = self.read_used(role, operand, notes)?;
        let kind = cast_kind(wanted, read.part.kind);
        Ok(Read {
            part: Part::plain(place, kind),
            typed: TypedExpression::Cast {
                operand: Boxed::new(self.alloc, read.typed)?,
                kind,
                place,
            },
        })
    }
}

/// A conditional of what is read of its parts.
pub(crate) fn conditional(test: ReadPart, yes: ReadPart, no: ReadPart, place: u32) -> Read
    ensures part { result.part
        ≡ plain place (with_value (ends_kind yes.part.kind no.part.kind) test.part.kind) }
    ensures typed { result.typed ≡ typed.Conditional test.typed yes.typed no.typed
        (with_value (ends_kind yes.part.kind no.part.kind) test.part.kind) place }
{
    let kind = with_value(ends_kind(yes.part.kind, no.part.kind), test.part.kind);
    Read {
        part: Part::plain(place, kind),
        typed: TypedExpression::Conditional {
            test: test.typed,
            yes: yes.typed,
            no: no.typed,
            kind,
            place,
        },
    }
}

/// An assignment of what is read of its sides.
pub(crate) fn assignment(
    left: ReadPart,
    operator: AssignmentOperator,
    right: ReadPart,
    place: u32,
) -> Read
    ensures part { result.part
        ≡ plain place (with_value (changed_kind left.part) right.part.kind) }
    ensures typed { result.typed ≡ typed.Assignment left.typed operator right.typed
        (with_value (changed_kind left.part) right.part.kind) place }
{
    let kind = with_value(left.part.changed_kind(), right.part.kind);
    Read {
        part: Part::plain(place, kind),
        typed: TypedExpression::Assignment {
            left: left.typed,
            operator,
            right: right.typed,
            kind,
            place,
        },
    }
}

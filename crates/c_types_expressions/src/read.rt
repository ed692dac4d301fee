//! Reading an expression: what the rules see of it, its typed tree, its faults and its calls
//! (`reading` of `c_types_rules`, `specs/Expressions.antt`). Proved with `proofs/Variants.antt`.
ghost use Rattle.std.specs.Prelude.{◌≡◌, ◌++◌, IfOk, OnOk};
ghost use Rattle.c_types_rules.specs.First.{first_with};
ghost use Rattle.c_types_expressions.specs.Read.{part_of, typed_of, faults_of, calls_of};
ghost use Rattle.c_types_expressions.specs.Read.{role_faults, role_calls};

use crate::atoms::{read_character, read_number};
use crate::chains::chain;
use crate::notes::Notes;
use crate::operators::{assignment, conditional};
use crate::postfix::postfix;
use c_grammar_tree::Expression;
use c_types_names::{Names, Survey};
use c_types_rules::{Part, Role, TypedExpression, note_paired, note_taken, value_kind};
use cpa_ints::Boxed;
use std::alloc::{AllocError, Global};

/// Reads expressions where these names are declared, in the body of this number.
#[derive(Drop)]
pub struct Reader<'a> {
    pub alloc: Global,
    pub survey: &'a Survey,
    pub names: &'a Names,
    pub caller: u32,
}

/// What the rules see of an expression, and its typed tree.
#[derive(Drop)]
pub struct Read {
    pub part: Part,
    pub typed: TypedExpression,
}

/// What the rules see of a part of an expression, and its typed tree.
#[derive(Drop)]
pub(crate) struct ReadPart {
    pub(crate) part: Part,
    pub(crate) typed: Boxed<TypedExpression>,
}

impl Reader<'_> {
    /// Reads an expression in a role: holds its first fault, and notes its calls.
    #[cycle(read)]
    #[tactic(auto, using(crate::proofs::Variants::first_used, crate::proofs::Variants::calls_used))]
    pub fn read_used(
        &self,
        role: Role,
        e: &Expression,
        notes: &mut Notes,
    ) -> Result<Read, AllocError>
        ensures part { IfOk result (λ r. r.part
            ≡ part_of self.now.survey.now self.now.names.now e.now) }
        ensures typed { IfOk result (λ r. r.typed
            ≡ typed_of self.now.survey.now self.now.names.now e.now) }
        ensures first { OnOk result (notes.new.first
            ≡ first_with notes.old.first (role_faults self.now.survey.now self.now.names.now role
            e.now)) }
        ensures calls { OnOk result (notes.new.calls.items
            ≡ notes.old.calls.items ++ role_calls self.now.survey.now self.now.names.now
            self.now.caller role e.now) }
    {
        let read = self.read_expression(e, notes)?;
        note_taken(&mut notes.first, role, read.part);
        Ok(read)
    }

    /// Reads a part of an expression in a role.
    #[cycle(read)]
    fn read_part(
        &self,
        role: Role,
        e: &Expression,
        notes: &mut Notes,
    ) -> Result<ReadPart, AllocError>
        ensures part { IfOk result (λ r. r.part
            ≡ part_of self.now.survey.now self.now.names.now e.now) }
        ensures typed { IfOk result (λ r. r.typed
            ≡ typed_of self.now.survey.now self.now.names.now e.now) }
        ensures first { OnOk result (notes.new.first
            ≡ first_with notes.old.first (role_faults self.now.survey.now self.now.names.now role
            e.now)) }
        ensures calls { OnOk result (notes.new.calls.items
            ≡ notes.old.calls.items ++ role_calls self.now.survey.now self.now.names.now
            self.now.caller role e.now) }
    {
        let read = self.read_used(role, e, notes)?;
        let part = read.part;
        let typed = Boxed::new(self.alloc, read.typed)?;
        Ok(ReadPart { part, typed })
    }

    /// Reads an expression: holds its first fault, and notes its calls. A name and a number are
    /// read here, since a function takes the time at its start that the room for its other forms
    /// asks for.
    #[cycle(read)]
    #[tactic(auto, using(crate::proofs::Variants::read_expression_rules))]
    pub fn read_expression(&self, e: &Expression, notes: &mut Notes) -> Result<Read, AllocError>
        ensures part { IfOk result (λ r. r.part
            ≡ part_of self.now.survey.now self.now.names.now e.now) }
        ensures typed { IfOk result (λ r. r.typed
            ≡ typed_of self.now.survey.now self.now.names.now e.now) }
        ensures first { OnOk result (notes.new.first
            ≡ first_with notes.old.first (faults_of self.now.survey.now self.now.names.now e.now)) }
        ensures calls { OnOk result (notes.new.calls.items
            ≡ notes.old.calls.items ++ calls_of self.now.survey.now self.now.names.now
            self.now.caller e.now) }
    {
        match e {
            Expression::Name(name) => self.read_name(name, &mut notes.first),
            Expression::Number { ty, value, place } => Ok(read_number(*ty, value.get(), *place)),
            _ => self.read_form(e, notes),
        }
    }

    /// Reads an expression of any form.
    #[inline(never)]
    #[cycle(read)]
    #[tactic(auto, using(crate::proofs::Variants::read_form_rules))]
    fn read_form(&self, e: &Expression, notes: &mut Notes) -> Result<Read, AllocError>
        ensures part { IfOk result (λ r. r.part
            ≡ part_of self.now.survey.now self.now.names.now e.now) }
        ensures typed { IfOk result (λ r. r.typed
            ≡ typed_of self.now.survey.now self.now.names.now e.now) }
        ensures first { OnOk result (notes.new.first
            ≡ first_with notes.old.first (faults_of self.now.survey.now self.now.names.now e.now)) }
        ensures calls { OnOk result (notes.new.calls.items
            ≡ notes.old.calls.items ++ calls_of self.now.survey.now self.now.names.now
            self.now.caller e.now) }
    {
        match e {
            Expression::Name(name) => self.read_name(name, &mut notes.first),
            Expression::Number { ty, value, place } => Ok(read_number(*ty, value.get(), *place)),
            Expression::Character { value, place } => Ok(read_character(value.get(), *place)),
            Expression::Bracketed { inner, place } => {
                self.read_bracketed(inner.get(), *place, notes)
            }
            Expression::Postfix {
                base,
                suffixes,
                place,
            } => {
                let base = self.read_expression(base.get(), notes)?;
                let part = base.part;
                let base = Boxed::new(self.alloc, base.typed)?;
                let read = self.read_suffixes(part, suffixes.as_slice(), notes)?;
                Ok(postfix(base, read, *place))
            }
            Expression::PrefixStep {
                operator,
                operand,
                place,
            } => { self.read_prefix_step(*operator, operand.get(), *place, notes) }
            Expression::Unary {
                operator,
                operand,
                place,
            } => { self.read_unary(*operator, operand.get(), *place, notes) }
            Expression::Cast { to, operand, place } => {
                self.read_cast(to.get(), operand.get(), *place, notes)
            }
            Expression::Chain {
                first: head,
                rest,
                place,
            } => {
                let head = self.read_part(Role::Valued, head.get(), notes)?;
                let left = value_kind(head.part.kind);
                let links = self.read_links(left, rest.as_slice(), notes)?;
                Ok(chain(head.typed, links, *place))
            }
            Expression::Conditional {
                test,
                yes,
                no,
                place,
            } => {
                let test = self.read_part(Role::Valued, test.get(), notes)?;
                let yes = self.read_part(Role::Evaluated, yes.get(), notes)?;
                let no = self.read_part(Role::Evaluated, no.get(), notes)?;
                note_paired(&mut notes.first, yes.part, no.part);
                Ok(conditional(test, yes, no, *place))
            }
            Expression::Assignment {
                left,
                operator,
                right,
                place,
            } => {
                let left = self.read_part(Role::Changed, left.get(), notes)?;
                let right = self.read_part(Role::Valued, right.get(), notes)?;
                Ok(assignment(left, *operator, right, *place))
            }
            Expression::Comma { items, place } => {
                self.read_comma(items.as_slice(), *place, notes)
            }
        }
    }
}

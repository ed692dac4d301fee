//! Reading postfix expressions: a base and the suffixes behind it (`suffixed` of `c_types_rules`,
//! `specs/Expressions.antt`). Proved with `proofs/Variants.antt` and `proofs/Suffixes.antt`.
ghost use Rattle.std.specs.Prelude.{◌≡◌, ◌++◌, IfOk, OnOk, map, List};
ghost use Rattle.std.specs.List.{flat_map};
ghost use Rattle.c_grammar_tree.specs.declared.expression.Suffix.{Suffix};
ghost use Rattle.c_types_rules.specs.declared.meaning.Role.TheVariants.{Valued};
ghost use Rattle.c_types_rules.specs.declared.typed.TypedExpression.TheVariants as typed;
ghost use Rattle.c_types_rules.specs.declared.meaning.Entry.{Entry};
ghost use Rattle.c_types_rules.specs.Names.{Text};
ghost use Rattle.c_types_rules.specs.First.{first_with};
ghost use Rattle.c_types_rules.specs.Parts.{with_values};
ghost use Rattle.c_types_rules.specs.ExpressionRules.{uses_faults};
ghost use Rattle.c_types_expressions.specs.Read.{part_of, typed_of, uses_calls};
ghost use Rattle.c_types_expressions.specs.Read.{role_faults, role_calls, suffixed_of};
ghost use Rattle.c_types_expressions.specs.Read.{part_behind, typed_behind, faults_behind};
ghost use Rattle.c_types_expressions.specs.Read.{calls_behind};

use crate::calls::note_call;
use crate::notes::Notes;
use crate::read::{Read, Reader};
use c_grammar_symbols::StepOperator;
use c_grammar_tree::{Expression, Suffix};
use c_lexer::TextFault;
use c_types_rules::{
    Kind, Part, Role, TypedExpression, TypedSuffix, note_given, note_taken, with_value,
};
use cpa_ints::{Boxed, Seq};
use std::alloc::AllocError;

/// What the rules see of an expression that ends with a suffix, and the typed suffix.
#[derive(Drop)]
struct Behind {
    part: Part,
    typed: TypedSuffix,
}

/// What the rules see of an expression that ends with suffixes, and the typed suffixes.
#[derive(Drop)]
pub(crate) struct Suffixes {
    pub(crate) part: Part,
    pub(crate) typed: Vec<TypedSuffix>,
}

/// The type of a call, and the typed arguments.
#[derive(Drop)]
struct Arguments {
    kind: Option<Kind>,
    typed: Vec<TypedExpression>,
}

impl Reader<'_> {
    /// Reads arguments, the type of a call with values alone given.
    #[cycle(read)]
    #[tactic(auto, using(c_types_rules::specs::First::first_append))]
    fn read_arguments(
        &self,
        result_kind: Option<Kind>,
        arguments: &[Expression],
        notes: &mut Notes,
    ) -> Result<Arguments, AllocError>
        ensures kind { IfOk result (λ r. r.kind
            ≡ with_values result_kind (map (part_of self.now.survey.now self.now.names.now)
            arguments.now)) }
        ensures typed { IfOk result (λ r. r.typed.items
            ≡ map (typed_of self.now.survey.now self.now.names.now) arguments.now) }
        ensures first { OnOk result (notes.new.first
            ≡ first_with notes.old.first (flat_map (role_faults self.now.survey.now
            self.now.names.now Valued) arguments.now)) }
        ensures calls { OnOk result (notes.new.calls.items
            ≡ notes.old.calls.items ++ flat_map (role_calls self.now.survey.now self.now.names.now
            self.now.caller Valued) arguments.now) }
    {
        let mut kind = result_kind;
        let mut typed = Vec::with_capacity(self.alloc, arguments.len())?;
        for argument in arguments {
            let read = self.read_used(Role::Valued, argument, notes)?;
            kind = with_value(kind, read.part.kind);
            typed.push(read.typed)?;
        }
        Ok(Arguments { kind, typed })
    }

    /// Reads `[index]` behind an expression.
    #[cycle(read)]
    #[tactic(auto, using(crate::proofs::Suffixes::read_index_rules))]
    fn read_index(
        &self,
        base: Part,
        index: &Expression,
        place: u32,
        notes: &mut Notes,
    ) -> Result<Behind, AllocError>
        ensures part { IfOk result (λ r. r.part
            ≡ part_behind self.now.survey.now self.now.names.now base (Suffix.Index index.now
            place)) }
        ensures typed { IfOk result (λ r. r.typed
            ≡ typed_behind self.now.survey.now self.now.names.now base (Suffix.Index index.now
            place)) }
        ensures first { OnOk result (notes.new.first
            ≡ first_with notes.old.first (faults_behind self.now.survey.now self.now.names.now base
            (Suffix.Index index.now place))) }
        ensures calls { OnOk result (notes.new.calls.items
            ≡ notes.old.calls.items ++ calls_behind self.now.survey.now self.now.names.now
            self.now.caller base (Suffix.Index index.now place)) }
    {
        note_taken(&mut notes.first, Role::Indexed, base);
        let index = self.read_used(Role::Valued, index, notes)?;
        let kind = with_value(base.form.element_kind(), index.part.kind);
        Ok(Behind {
            part: Part {
                place: base.place,
                kind,
                form: base.form.element(),
            },
            typed: TypedSuffix::Index {
                index: index.typed,
                kind,
                place,
            },
        })
    }

    /// Reads `(arguments)` behind an expression.
    #[cycle(read)]
    #[tactic(auto, using(crate::proofs::Suffixes::read_call_rules))]
    fn read_call(
        &self,
        base: Part,
        arguments: &[Expression],
        place: u32,
        notes: &mut Notes,
    ) -> Result<Behind, AllocError>
        ensures part { IfOk result (λ r. r.part
            ≡ part_behind self.now.survey.now self.now.names.now base (Suffix.Call arguments.now
            place)) }
        ensures typed { IfOk result (λ r. r.typed
            ≡ typed_behind self.now.survey.now self.now.names.now base (Suffix.Call arguments.now
            place)) }
        ensures first { OnOk result (notes.new.first
            ≡ first_with notes.old.first (faults_behind self.now.survey.now self.now.names.now base
            (Suffix.Call arguments.now place))) }
        ensures calls { OnOk result (notes.new.calls.items
            ≡ notes.old.calls.items ++ calls_behind self.now.survey.now self.now.names.now
            self.now.caller base (Suffix.Call arguments.now place)) }
    {
        note_taken(&mut notes.first, Role::Called, base);
        note_given(&mut notes.first, base.form, arguments.len());
        note_call(&mut notes.calls, self.caller, base.form)?;
        let kind = base.form.result_kind();
        let read = self.read_arguments(kind, arguments, notes)?;
        Ok(Behind {
            part: Part::plain(base.place, read.kind),
            typed: TypedSuffix::Call {
                arguments: Seq::from_vec(read.typed),
                kind: read.kind,
                place,
            },
        })
    }
}

/// Reads `++` or `--` behind an expression.
#[tactic(auto, using(crate::proofs::Suffixes::read_step_rules))]
fn read_step(
    base: Part,
    operator: StepOperator,
    place: u32,
    first: &mut Option<TextFault>,
) -> Behind
    ensures part { (text : Text) (names : List Entry)
        → result.part ≡ part_behind text names base (Suffix.Step operator place) }
    ensures typed { (text : Text) (names : List Entry)
        → result.typed ≡ typed_behind text names base (Suffix.Step operator place) }
    ensures first { (text : Text) (names : List Entry) → first.new ≡ first_with first.old
        (faults_behind text names base (Suffix.Step operator place)) }
{
    note_taken(first, Role::Changed, base);
    let kind = base.changed_kind();
    Behind {
        part: Part::plain(base.place, kind),
        typed: TypedSuffix::Step {
            operator,
            kind,
            place,
        },
    }
}

impl Reader<'_> {
    /// Reads brackets whose tokens do not matter, behind an expression.
    #[tactic(auto, using(crate::proofs::Suffixes::read_skipped_rules))]
    fn read_skipped(&self, base: Part, place: u32, notes: &mut Notes) -> Result<Behind, AllocError>
        ensures part { (text : Text) (names : List Entry) → IfOk result (λ r. r.part
            ≡ part_behind text names base (Suffix.Skipped place)) }
        ensures typed { (text : Text) (names : List Entry) → IfOk result (λ r. r.typed
            ≡ typed_behind text names base (Suffix.Skipped place)) }
        ensures first { (text : Text) (names : List Entry) → OnOk result (notes.new.first
            ≡ first_with notes.old.first
            (faults_behind text names base (Suffix.Skipped place))) }
        ensures calls { (text : Text) (names : List Entry) → OnOk result (notes.new.calls.items
            ≡ notes.old.calls.items
            ++ calls_behind text names self.now.caller base (Suffix.Skipped place)) }
    {
        note_taken(&mut notes.first, Role::Called, base);
        note_given(&mut notes.first, base.form, 0);
        note_call(&mut notes.calls, self.caller, base.form)?;
        let kind = base.form.result_kind();
        Ok(Behind {
            part: Part::plain(base.place, kind),
            typed: TypedSuffix::Skipped { kind, place },
        })
    }

    /// Reads a suffix behind an expression.
    #[cycle(read)]
    #[tactic(auto, using(crate::proofs::Suffixes::calls_Step))]
    fn read_suffix(
        &self,
        base: Part,
        suffix: &Suffix,
        notes: &mut Notes,
    ) -> Result<Behind, AllocError>
        ensures part { IfOk result (λ r. r.part
            ≡ part_behind self.now.survey.now self.now.names.now base suffix.now) }
        ensures typed { IfOk result (λ r. r.typed
            ≡ typed_behind self.now.survey.now self.now.names.now base suffix.now) }
        ensures first { OnOk result (notes.new.first
            ≡ first_with notes.old.first (faults_behind self.now.survey.now self.now.names.now base
            suffix.now)) }
        ensures calls { OnOk result (notes.new.calls.items
            ≡ notes.old.calls.items ++ calls_behind self.now.survey.now self.now.names.now
            self.now.caller base suffix.now) }
    {
        match suffix {
            Suffix::Index { index, place } => { self.read_index(base, index.get(), *place, notes) }
            Suffix::Call { arguments, place } => {
                self.read_call(base, arguments.as_slice(), *place, notes)
            }
            Suffix::Step { operator, place } => {
                let first = &mut notes.first;
                Ok(read_step(base, *operator, *place, first))
            }
            Suffix::Skipped { place } => self.read_skipped(base, *place, notes),
        }
    }

    /// Reads suffixes behind an expression.
    #[cycle(read)]
    pub(crate) fn read_suffixes(
        &self,
        base: Part,
        suffixes: &[Suffix],
        notes: &mut Notes,
    ) -> Result<Suffixes, AllocError>
        ensures part { IfOk result (λ r. r.part
            ≡ (suffixed_of self.now.survey.now self.now.names.now base suffixes.now).part) }
        ensures typed { IfOk result (λ r. r.typed.items
            ≡ (suffixed_of self.now.survey.now self.now.names.now base suffixes.now).typed) }
        ensures first { OnOk result (notes.new.first
            ≡ first_with notes.old.first (uses_faults (suffixed_of self.now.survey.now
            self.now.names.now base suffixes.now).uses)) }
        ensures calls { OnOk result (notes.new.calls.items
            ≡ notes.old.calls.items ++ uses_calls self.now.caller (suffixed_of self.now.survey.now
            self.now.names.now base suffixes.now).uses) }
    {
        let mut part = base;
        let mut typed = Vec::with_capacity(self.alloc, suffixes.len())?;
        for suffix in suffixes {
            let read = self.read_suffix(part, suffix, notes)?;
            part = read.part;
            typed.push(read.typed)?;
        }
        Ok(Suffixes { part, typed })
    }
}

/// A postfix expression of what is read of its base and of its suffixes.
pub(crate) fn postfix(base: Boxed<TypedExpression>, suffixes: Suffixes, place: u32) -> Read
    ensures part { result.part ≡ record {
      place = place;
      kind = suffixes.part.kind;
      form = suffixes.part.form;
    } }
    ensures typed { result.typed ≡ typed.Postfix base suffixes.typed.items place }
{
    Read {
        part: Part {
            place,
            kind: suffixes.part.kind,
            form: suffixes.part.form,
        },
        typed: TypedExpression::Postfix {
            base,
            suffixes: Seq::from_vec(suffixes.typed),
            place,
        },
    }
}

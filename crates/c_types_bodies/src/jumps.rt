//! Jumps and their labels, and statements without a part: goto, break, continue, return, and
//! expressions. Proved in proofs/Forms, with `proofs/Doing`.
ghost use Rattle.std.specs.Prelude.{◌≡◌, IfOk, OnOk, unwrap_or};
ghost use Rattle.std.specs.Str.{bytes_eq};
ghost use Rattle.c_grammar_tree.specs.declared.statement.BlockItem.TheOpen.{Statement-F};
ghost use Rattle.c_types_rules.specs.Names.{place_of};
ghost use Rattle.c_types_rules.specs.TypedStatements.{grown_statement, typed_break};
ghost use Rattle.c_types_bodies.specs.Grown.{grown_of};
ghost use Rattle.c_types_bodies.specs.Views.{text_at, around_at, state_at, walked_at, AreTied};

use crate::acts::{evaluate_held, finish, jump, leave, mark, turn};
use crate::walker::{Frame, Progress, Scope};
use c_grammar_tree::{Expression, Name, Statement};
use c_types_rules::{Role, TypedStatement};
use cpa_ints::Boxed;
use std::alloc::AllocError;

/// The number of a label.
fn label_number(frame: &Frame, name: &Name) -> u32
    ensures { result ≡ unwrap_or (place_of (bytes_eq name.now.bytes) frame.now.labels.now) 0 }
{
    frame.labels.place_of(name.bytes.as_slice()).unwrap_or(0)
}

/// What a `break` is: a goto where the nearest loop or switch is a switch.
fn typed_break(break_to: Option<u32>, place: u32) -> TypedStatement
    ensures { result ≡ typed_break break_to place }
{
    match break_to {
        Some(label) => TypedStatement::Goto { label, place },
        None => TypedStatement::Break { place },
    }
}

impl Scope<'_> {
    /// Walks through an expression statement.
    pub(crate) fn walk_expression(
        &self,
        expression: &Option<Boxed<Expression>>,
        place: u32,
        progress: &mut Progress,
    ) -> Result<TypedStatement, AllocError>
        requires { AreTied self.now progress.old }
        ensures tied { OnOk result (AreTied self.now progress.new) }
        ensures names { OnOk result (progress.new.walker.names ≡ progress.old.walker.names) }
        ensures typed { IfOk result (λ t. t ≡ (grown_statement (text_at self.now)
            (Statement-F.Expression expression.now place)).typed
            (around_at self.now progress.old)) }
        ensures state { OnOk result (state_at self.now progress.new
            ≡ walked_at self.now (grown_statement (text_at self.now)
            (Statement-F.Expression expression.now place)).walk
            (state_at self.now progress.old)) }
    {
        let walker = &mut progress.walker;
        let role = Role::Evaluated;
        let expression = evaluate_held(self.alloc, self.frame, walker, role, expression)?;
        Ok(TypedStatement::Expression { expression, place })
    }

    /// Walks through a `goto`.
    pub(crate) fn walk_goto(
        &self,
        label: &Name,
        place: u32,
        progress: &mut Progress,
    ) -> Result<TypedStatement, AllocError>
        requires { AreTied self.now progress.old }
        ensures tied { OnOk result (AreTied self.now progress.new) }
        ensures names { OnOk result (progress.new.walker.names ≡ progress.old.walker.names) }
        ensures typed { IfOk result (λ t. t ≡ (grown_statement (text_at self.now)
            (Statement-F.Goto label.now place)).typed
            (around_at self.now progress.old)) }
        ensures state { OnOk result (state_at self.now progress.new
            ≡ walked_at self.now (grown_statement (text_at self.now)
            (Statement-F.Goto label.now place)).walk
            (state_at self.now progress.old)) }
    {
        let walker = &mut progress.walker;
        jump(self.alloc, self.frame, walker, &mut progress.jumps, label)?;
        Ok(TypedStatement::Goto {
            label: label_number(self.frame, label),
            place,
        })
    }

    /// Walks through a `break`.
    pub(crate) fn walk_break(&self, place: u32, progress: &mut Progress) -> TypedStatement
        requires { AreTied self.now progress.old }
        ensures tied { AreTied self.now progress.new }
        ensures names { progress.new.walker.names ≡ progress.old.walker.names }
        ensures typed { result ≡ (grown_statement (text_at self.now)
            (Statement-F.Break place)).typed (around_at self.now progress.old) }
        ensures state { state_at self.now progress.new
            ≡ walked_at self.now (grown_statement (text_at self.now)
            (Statement-F.Break place)).walk (state_at self.now progress.old) }
    {
        leave(self.frame, &mut progress.walker, self.nest, place);
        typed_break(self.nest.break_to, place)
    }

    /// Walks through a `continue`.
    pub(crate) fn walk_continue(&self, place: u32, progress: &mut Progress) -> TypedStatement
        requires { AreTied self.now progress.old }
        ensures tied { AreTied self.now progress.new }
        ensures names { progress.new.walker.names ≡ progress.old.walker.names }
        ensures typed { result ≡ (grown_statement (text_at self.now)
            (Statement-F.Continue place)).typed (around_at self.now progress.old) }
        ensures state { state_at self.now progress.new
            ≡ walked_at self.now (grown_statement (text_at self.now)
            (Statement-F.Continue place)).walk (state_at self.now progress.old) }
    {
        turn(self.frame, &mut progress.walker, self.nest, place);
        TypedStatement::Continue { place }
    }

    /// Walks through a `return`.
    pub(crate) fn walk_return(
        &self,
        value: &Option<Boxed<Expression>>,
        place: u32,
        progress: &mut Progress,
    ) -> Result<TypedStatement, AllocError>
        requires { AreTied self.now progress.old }
        ensures tied { OnOk result (AreTied self.now progress.new) }
        ensures names { OnOk result (progress.new.walker.names ≡ progress.old.walker.names) }
        ensures typed { IfOk result (λ t. t ≡ (grown_statement (text_at self.now)
            (Statement-F.Return value.now place)).typed
            (around_at self.now progress.old)) }
        ensures state { OnOk result (state_at self.now progress.new
            ≡ walked_at self.now (grown_statement (text_at self.now)
            (Statement-F.Return value.now place)).walk
            (state_at self.now progress.old)) }
    {
        let value = finish(self.alloc, self.frame, &mut progress.walker, value, place)?;
        Ok(TypedStatement::Return { value, place })
    }

    /// Walks through a labeled statement.
    #[cycle(statement)]
    pub(crate) fn walk_labeled(
        &self,
        label: &Name,
        body: &Statement,
        progress: &mut Progress,
    ) -> Result<TypedStatement, AllocError>
        requires { AreTied self.now progress.old }
        ensures tied { OnOk result (AreTied self.now progress.new) }
        ensures names { OnOk result (progress.new.walker.names ≡ progress.old.walker.names) }
        ensures typed { IfOk result (λ t. t ≡ (grown_statement (text_at self.now)
            (Statement-F.Labeled label.now (grown_of (text_at self.now) body.now))).typed
            (around_at self.now progress.old)) }
        ensures state { OnOk result (state_at self.now progress.new
            ≡ walked_at self.now (grown_statement (text_at self.now)
            (Statement-F.Labeled label.now (grown_of (text_at self.now) body.now))).walk
            (state_at self.now progress.old)) }
    {
        let number = progress.walker.passed;
        let walker = &mut progress.walker;
        mark(self.alloc, self.frame, walker, &mut progress.jumps, label)?;
        let body = self.walk_part(body, progress)?;
        Ok(TypedStatement::Labeled {
            label: number,
            body,
            place: label.place,
        })
    }
}

//! Switches, and the statements of their cases (`switching` of `specs/Statements.antt` of
//! `c_types_rules`). Proved with `proofs/Switching` and `proofs/Selecting`.
ghost use Rattle.std.specs.Prelude.{◌≡◌, ◌+◌, length, IfOk, OnOk};
ghost use Rattle.c_grammar_tree.specs.declared.expression.Expression.{Expression};
ghost use Rattle.c_grammar_tree.specs.declared.statement.BlockItem.TheOpen.{Statement-F};
ghost use Rattle.c_types_rules.specs.Statements.{switching};
ghost use Rattle.c_types_rules.specs.TypedStatements.{grown_statement};
ghost use Rattle.c_types_bodies.specs.Grown.{grown_of, labels_in, walk_of_statement};
ghost use Rattle.c_types_bodies.specs.Views.{text_at, around_at, state_at, walked_at, AreTied};
ghost use Rattle.c_types_bodies.specs.Views.{IsSwitchOn, within_switch};

use crate::acts::{evaluate_boxed, pass_label};
use crate::cases::{no_cases, select_rest, select_value, switch_on};
use crate::labels::count_labels;
use crate::walker::{Nest, Progress, Scope};
use c_grammar_tree::{Expression, Statement};
use c_types_rules::{Choice, Kind, Role, TypedStatement};
use cpa_ints::{Boxed, Seq};
use std::alloc::AllocError;
use std::mem;

/// What stands in a switch, and its cases.
#[derive(Drop)]
struct Switched {
    body: Boxed<TypedStatement>,
    choices: Seq<Choice>,
    otherwise: Option<u32>,
}

/// The number of the label after a statement, in front of which so many labels stand.
fn end_behind(passed: u32, body: &Statement) -> Result<u32, AllocError>
    ensures { IfOk result (λ end. end ≡ passed + length (labels_in body.now)) }
{
    let inside = count_labels(body)?;
    passed.checked_add(inside).ok_or(AllocError)
}

impl Scope<'_> {
    /// Walks through the body of a switch on a value of this type, which ends at this label.
    #[cycle(statement)]
    fn walk_switched(
        &self,
        body: &Statement,
        kind: Option<Kind>,
        end: u32,
        progress: &mut Progress,
    ) -> Result<Switched, AllocError>
        requires { AreTied self.now progress.old }
        ensures tied { OnOk result (AreTied self.now progress.new) }
        ensures names { OnOk result (progress.new.walker.names ≡ progress.old.walker.names) }
        ensures body { (value : Expression) → IsSwitchOn (text_at self.now)
            (walk_of_statement (text_at self.now) body.now) (around_at self.now progress.old)
            value kind end → IfOk result (λ s. s.body
            ≡ (grown_of (text_at self.now) body.now).typed (within_switch (text_at self.now) value
            (walk_of_statement (text_at self.now) body.now)
            (around_at self.now progress.old))) }
        ensures choices { (value : Expression) → IsSwitchOn (text_at self.now)
            (walk_of_statement (text_at self.now) body.now) (around_at self.now progress.old)
            value kind end → IfOk result (λ s. s.choices
            ≡ ((walk_of_statement (text_at self.now) body.now).behind
            (within_switch (text_at self.now) value
            (walk_of_statement (text_at self.now) body.now)
            (around_at self.now progress.old))).choices) }
        ensures otherwise { (value : Expression) → IsSwitchOn (text_at self.now)
            (walk_of_statement (text_at self.now) body.now) (around_at self.now progress.old)
            value kind end → IfOk result (λ s. s.otherwise
            ≡ ((walk_of_statement (text_at self.now) body.now).behind
            (within_switch (text_at self.now) value
            (walk_of_statement (text_at self.now) body.now)
            (around_at self.now progress.old))).otherwise) }
        ensures state { (value : Expression) → IsSwitchOn (text_at self.now)
            (walk_of_statement (text_at self.now) body.now) (around_at self.now progress.old)
            value kind end → OnOk result (state_at self.now progress.new
            ≡ walked_at self.now (switching (text_at self.now) value
            (walk_of_statement (text_at self.now) body.now))
            (state_at self.now progress.old)) }
    {
        let inside = Scope {
            alloc: self.alloc,
            frame: self.frame,
            nest: Nest {
                outer: self.nest.outer,
                in_loop: self.nest.in_loop,
                break_to: Some(end),
                switch: Some(switch_on(kind, progress.walker.names.len())),
            },
        };
        let fresh = no_cases(self.alloc);
        let outer = mem::replace(&mut progress.walker.cases, fresh);
        let body = inside.walk_part(body, progress)?;
        let cases = mem::replace(&mut progress.walker.cases, outer);
        pass_label(&mut progress.walker)?;
        Ok(Switched {
            body,
            choices: Seq::from_vec(cases.choices),
            otherwise: cases.otherwise,
        })
    }

    /// Walks through a `switch`.
    #[cycle(statement)]
    pub(crate) fn walk_switch(
        &self,
        body: &Statement,
        value: &Expression,
        place: u32,
        progress: &mut Progress,
    ) -> Result<TypedStatement, AllocError>
        requires { AreTied self.now progress.old }
        ensures tied { OnOk result (AreTied self.now progress.new) }
        ensures names { OnOk result (progress.new.walker.names ≡ progress.old.walker.names) }
        ensures typed { IfOk result (λ t. t ≡ (grown_statement (text_at self.now)
            (Statement-F.Switch value.now (grown_of (text_at self.now) body.now) place)).typed
            (around_at self.now progress.old)) }
        ensures state { OnOk result (state_at self.now progress.new
            ≡ walked_at self.now (grown_statement (text_at self.now)
            (Statement-F.Switch value.now (grown_of (text_at self.now) body.now) place)).walk
            (state_at self.now progress.old)) }
    {
        let end = end_behind(progress.walker.passed, body)?;
        let walker = &mut progress.walker;
        let read = evaluate_boxed(self.alloc, self.frame, walker, Role::Valued, value)?;
        let kind = read.part.kind;
        let switched = self.walk_switched(body, kind, end, progress)?;
        Ok(TypedStatement::Switch {
            value: read.typed,
            choices: switched.choices,
            otherwise: switched.otherwise.unwrap_or(end),
            body: switched.body,
            end,
            place,
        })
    }

    /// Walks through a `case`.
    #[cycle(statement)]
    pub(crate) fn walk_case(
        &self,
        body: &Statement,
        value: &Expression,
        place: u32,
        progress: &mut Progress,
    ) -> Result<TypedStatement, AllocError>
        requires { AreTied self.now progress.old }
        ensures tied { OnOk result (AreTied self.now progress.new) }
        ensures names { OnOk result (progress.new.walker.names ≡ progress.old.walker.names) }
        ensures typed { IfOk result (λ t. t ≡ (grown_statement (text_at self.now)
            (Statement-F.Case value.now (grown_of (text_at self.now) body.now) place)).typed
            (around_at self.now progress.old)) }
        ensures state { OnOk result (state_at self.now progress.new
            ≡ walked_at self.now (grown_statement (text_at self.now)
            (Statement-F.Case value.now (grown_of (text_at self.now) body.now) place)).walk
            (state_at self.now progress.old)) }
    {
        let label = select_value(
            self.alloc,
            self.frame,
            &mut progress.walker,
            &progress.jumps,
            self.nest,
            value,
            place,
        )?;
        let body = self.walk_part(body, progress)?;
        Ok(TypedStatement::Labeled { label, body, place })
    }

    /// Walks through a `default`.
    #[cycle(statement)]
    pub(crate) fn walk_default(
        &self,
        body: &Statement,
        place: u32,
        progress: &mut Progress,
    ) -> Result<TypedStatement, AllocError>
        requires { AreTied self.now progress.old }
        ensures tied { OnOk result (AreTied self.now progress.new) }
        ensures names { OnOk result (progress.new.walker.names ≡ progress.old.walker.names) }
        ensures typed { IfOk result (λ t. t ≡ (grown_statement (text_at self.now)
            (Statement-F.Default (grown_of (text_at self.now) body.now) place)).typed
            (around_at self.now progress.old)) }
        ensures state { OnOk result (state_at self.now progress.new
            ≡ walked_at self.now (grown_statement (text_at self.now)
            (Statement-F.Default (grown_of (text_at self.now) body.now) place)).walk
            (state_at self.now progress.old)) }
    {
        let jumps = &progress.jumps;
        let label = select_rest(self.frame, &mut progress.walker, jumps, self.nest, place)?;
        let body = self.walk_part(body, progress)?;
        Ok(TypedStatement::Labeled { label, body, place })
    }
}

//! Loops: `while`, `do` and `for` (`looped` of `specs/Statements.antt` of `c_types_rules`). Proved
//! in proofs/Forms and proofs/Scopes.
ghost use Rattle.std.specs.Prelude.{◌≡◌, IfOk, OnOk};
ghost use Rattle.c_grammar_tree.specs.declared.statement.BlockItem.TheOpen.{Statement-F};
ghost use Rattle.c_types_rules.specs.declared.meaning.Role.TheVariants.{Valued, Evaluated};
ghost use Rattle.c_types_rules.specs.Statements.{looped, loop, start_walk, evaluating};
ghost use Rattle.c_types_rules.specs.TypedStatements.{grown_statement, typed_for_start};
ghost use Rattle.c_types_rules.specs.TypedStatements.{typed_optional};
ghost use Rattle.c_types_bodies.specs.Grown.{grown_of};
ghost use Rattle.c_types_bodies.specs.Views.{text_at, around_at, state_at, walked_at};
ghost use Rattle.c_types_bodies.specs.Views.{AreTied, Extends};

use crate::acts::{evaluate, evaluate_optional, evaluate_tests};
use crate::declarations::walk_declaration;
use crate::walker::{Nest, Progress, Scope};
use c_grammar_tree::{Expression, ForStart, Statement};
use c_types_rules::{Role, TypedExpression, TypedForStart, TypedStatement};
use cpa_ints::Boxed;
use std::alloc::AllocError;

/// What stands in the brackets of a `for`.
#[derive(Drop)]
struct Head {
    start: TypedForStart,
    test: Option<Boxed<TypedExpression>>,
    step: Option<Boxed<TypedExpression>>,
}

impl Scope<'_> {
    /// Walks through the body of a loop.
    #[cycle(statement)]
    fn walk_looped(
        &self,
        body: &Statement,
        progress: &mut Progress,
    ) -> Result<Boxed<TypedStatement>, AllocError>
        requires { AreTied self.now progress.old }
        ensures tied { OnOk result (AreTied self.now progress.new) }
        ensures names { OnOk result (progress.new.walker.names ≡ progress.old.walker.names) }
        ensures typed { IfOk result (λ t. t ≡ (grown_of (text_at self.now) body.now).typed
            (loop (around_at self.now progress.old))) }
        ensures state { OnOk result (state_at self.now progress.new
            ≡ walked_at self.now (looped (grown_of (text_at self.now) body.now).walk)
            (state_at self.now progress.old)) }
    {
        let inside = Scope {
            alloc: self.alloc,
            frame: self.frame,
            nest: Nest {
                outer: self.nest.outer,
                in_loop: true,
                break_to: None,
                switch: self.nest.switch,
            },
        };
        let typed = inside.walk_part(body, progress)?;
        Ok(typed)
    }

    /// Walks through a `while`.
    #[cycle(statement)]
    pub(crate) fn walk_while(
        &self,
        body: &Statement,
        test: &Expression,
        place: u32,
        progress: &mut Progress,
    ) -> Result<TypedStatement, AllocError>
        requires { AreTied self.now progress.old }
        ensures tied { OnOk result (AreTied self.now progress.new) }
        ensures names { OnOk result (progress.new.walker.names ≡ progress.old.walker.names) }
        ensures typed { IfOk result (λ t. t ≡ (grown_statement (text_at self.now)
            (Statement-F.While test.now (grown_of (text_at self.now) body.now) place)).typed
            (around_at self.now progress.old)) }
        ensures state { OnOk result (state_at self.now progress.new
            ≡ walked_at self.now (grown_statement (text_at self.now)
            (Statement-F.While test.now (grown_of (text_at self.now) body.now) place)).walk
            (state_at self.now progress.old)) }
    {
        let test = evaluate(
            self.alloc,
            self.frame,
            &mut progress.walker,
            Role::Valued,
            test,
        )?;
        let body = self.walk_looped(body, progress)?;
        Ok(TypedStatement::While { test, body, place })
    }

    /// Walks through a `do`.
    #[cycle(statement)]
    pub(crate) fn walk_do(
        &self,
        body: &Statement,
        test: &Expression,
        place: u32,
        progress: &mut Progress,
    ) -> Result<TypedStatement, AllocError>
        requires { AreTied self.now progress.old }
        ensures tied { OnOk result (AreTied self.now progress.new) }
        ensures names { OnOk result (progress.new.walker.names ≡ progress.old.walker.names) }
        ensures typed { IfOk result (λ t. t ≡ (grown_statement (text_at self.now)
            (Statement-F.Do (grown_of (text_at self.now) body.now) test.now place)).typed
            (around_at self.now progress.old)) }
        ensures state { OnOk result (state_at self.now progress.new
            ≡ walked_at self.now (grown_statement (text_at self.now)
            (Statement-F.Do (grown_of (text_at self.now) body.now) test.now place)).walk
            (state_at self.now progress.old)) }
    {
        let body = self.walk_looped(body, progress)?;
        let test = evaluate(
            self.alloc,
            self.frame,
            &mut progress.walker,
            Role::Valued,
            test,
        )?;
        Ok(TypedStatement::Do { body, test, place })
    }

    /// Walks through the first part of a `for`.
    fn walk_start(
        &self,
        start: &ForStart,
        progress: &mut Progress,
    ) -> Result<TypedForStart, AllocError>
        requires { AreTied self.now progress.old }
        ensures tied { OnOk result (AreTied self.now progress.new) }
        ensures extends { OnOk result (Extends progress.old.walker.names
            progress.new.walker.names) }
        ensures typed { IfOk result (λ t. t ≡ typed_for_start (text_at self.now) start.now
            (around_at self.now progress.old)) }
        ensures state { OnOk result (state_at self.now progress.new
            ≡ walked_at self.now (start_walk (text_at self.now) start.now)
            (state_at self.now progress.old)) }
    {
        match start {
            ForStart::Declaration(declaration) => {
                let typed = walk_declaration(
                    self.alloc,
                    self.frame,
                    &mut progress.walker,
                    &mut progress.jumps,
                    self.nest,
                    declaration,
                )?;
                Ok(TypedForStart::Declaration(typed))
            }
            ForStart::Expression(expression) => {
                let typed = evaluate_optional(
                    self.alloc,
                    self.frame,
                    &mut progress.walker,
                    Role::Evaluated,
                    expression,
                )?;
                Ok(TypedForStart::Expression(typed))
            }
        }
    }

    /// Walks through what stands in the brackets of a `for`.
    fn walk_head(
        &self,
        start: &ForStart,
        test: &Option<Expression>,
        step: &Option<Expression>,
        progress: &mut Progress,
    ) -> Result<Head, AllocError>
        requires { AreTied self.now progress.old }
        ensures tied { OnOk result (AreTied self.now progress.new) }
        ensures extends { OnOk result (Extends progress.old.walker.names
            progress.new.walker.names) }
        ensures start { IfOk result (λ head. head.start ≡ typed_for_start (text_at self.now)
            start.now (around_at self.now progress.old)) }
        ensures test { IfOk result (λ head. head.test ≡ typed_optional (text_at self.now)
            ((start_walk (text_at self.now) start.now).behind (around_at self.now progress.old))
            test.now) }
        ensures step { IfOk result (λ head. head.step ≡ typed_optional (text_at self.now)
            ((start_walk (text_at self.now) start.now).behind (around_at self.now progress.old))
            step.now) }
        ensures around { OnOk result (around_at self.now progress.new
            ≡ (start_walk (text_at self.now) start.now).behind
            (around_at self.now progress.old)) }
        ensures state { OnOk result (state_at self.now progress.new
            ≡ walked_at self.now (evaluating Evaluated step.now)
            (walked_at self.now (evaluating Valued test.now)
            (walked_at self.now (start_walk (text_at self.now) start.now)
            (state_at self.now progress.old)))) }
    {
        let start = self.walk_start(start, progress)?;
        let tests = evaluate_tests(self.alloc, self.frame, &mut progress.walker, test, step)?;
        Ok(Head {
            start,
            test: tests.test,
            step: tests.step,
        })
    }

    /// Walks through a `for`.
    #[cycle(statement)]
    pub(crate) fn walk_for(
        &self,
        body: &Statement,
        start: &ForStart,
        test: &Option<Expression>,
        step: &Option<Expression>,
        place: u32,
        progress: &mut Progress,
    ) -> Result<TypedStatement, AllocError>
        requires { AreTied self.now progress.old }
        ensures tied { OnOk result (AreTied self.now progress.new) }
        ensures names { OnOk result (progress.new.walker.names ≡ progress.old.walker.names) }
        ensures typed { IfOk result (λ t. t ≡ (grown_statement (text_at self.now)
            (Statement-F.For start.now test.now step.now
            (grown_of (text_at self.now) body.now) place)).typed
            (around_at self.now progress.old)) }
        ensures state { OnOk result (state_at self.now progress.new
            ≡ walked_at self.now (grown_statement (text_at self.now)
            (Statement-F.For start.now test.now step.now
            (grown_of (text_at self.now) body.now) place)).walk
            (state_at self.now progress.old)) }
    {
        let count = progress.walker.names.len();
        let depth = progress.jumps.depth();
        let inside = Scope {
            alloc: self.alloc,
            frame: self.frame,
            nest: Nest {
                outer: count,
                in_loop: self.nest.in_loop,
                break_to: self.nest.break_to,
                switch: self.nest.switch,
            },
        };
        let head = inside.walk_head(start, test, step, progress)?;
        let body = inside.walk_looped(body, progress)?;
        progress.walker.names.keep(count);
        progress.jumps.leave(depth);
        Ok(TypedStatement::For {
            start: head.start,
            test: head.test,
            step: head.step,
            body,
            place,
        })
    }
}

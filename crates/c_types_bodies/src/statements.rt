//! Statements: their typed trees, and what their acts make of the state (`grown_of` of
//! `specs/Grown.antt`). Proved in proofs/Forms, by one lemma for each form.
ghost use Rattle.std.specs.Prelude.{◌≡◌, map, IfOk, OnOk, option_map};
ghost use Rattle.c_grammar_tree.specs.declared.statement.BlockItem.TheOpen.{Statement-F};
ghost use Rattle.c_types_rules.specs.declared.meaning.Role.TheVariants.{Valued};
ghost use Rattle.c_types_rules.specs.Statements.{followed, doing, evaluates, in_order, perhaps};
ghost use Rattle.c_types_expressions.specs.Read.{typed_of};
ghost use Rattle.c_types_rules.specs.TypedStatements.{grown, grown_statement, typed_in_order};
ghost use Rattle.c_types_bodies.specs.Grown.{grown_of, grown_walk, grown_typed, walk_of_statement};
ghost use Rattle.c_types_bodies.specs.Views.{text_at, around_at, state_at, walked_at};
ghost use Rattle.c_types_bodies.specs.Views.{AreTied, Extends};

use crate::acts::evaluate;
use crate::declarations::walk_declaration;
use crate::walker::{Nest, Progress, Scope};
use c_grammar_tree::{BlockItem, Expression, Statement};
use c_types_rules::{Role, TypedExpression, TypedItem, TypedStatement};
use cpa_ints::{Boxed, Seq};
use std::alloc::AllocError;

/// A test and what stands after it.
#[derive(Drop)]
struct Tested {
    test: Boxed<TypedExpression>,
    yes: Boxed<TypedStatement>,
}

impl Scope<'_> {
    /// Walks through a statement.
    #[cycle(statement)]
    pub(crate) fn walk_statement(
        &self,
        statement: &Statement,
        progress: &mut Progress,
    ) -> Result<TypedStatement, AllocError>
        requires { AreTied self.now progress.old }
        ensures tied { OnOk result (AreTied self.now progress.new) }
        ensures names { OnOk result (progress.new.walker.names ≡ progress.old.walker.names) }
        ensures typed { IfOk result (λ t. t ≡ (grown_of (text_at self.now) statement.now).typed
            (around_at self.now progress.old)) }
        ensures state { OnOk result (state_at self.now progress.new
            ≡ walked_at self.now (grown_of (text_at self.now) statement.now).walk
            (state_at self.now progress.old)) }
    {
        match statement {
            Statement::Block { items, place } => self.walk_block(
                items.as_slice(),
                *place,
                progress,
            ),
            Statement::Expression { expression, place } => {
                self.walk_expression(expression, *place, progress)
            }
            Statement::If {
                test,
                yes,
                no,
                place,
            } => {
                let if_test = test.get();
                let tested = self.walk_tested(yes.get(), if_test, progress)?;
                let no = self.walk_optional(no, progress)?;
                Ok(TypedStatement::If {
                    test: tested.test,
                    yes: tested.yes,
                    no,
                    place: *place,
                })
            }
            Statement::While { test, body, place } => {
                let while_test = test.get();
                self.walk_while(body.get(), while_test, *place, progress)
            }
            Statement::Do { body, test, place } => {
                let do_test = test.get();
                self.walk_do(body.get(), do_test, *place, progress)
            }
            Statement::For {
                start,
                test,
                step,
                body,
                place,
            } => {
                let for_start = start.get();
                let for_test = test.get();
                let for_step = step.get();
                self.walk_for(body.get(), for_start, for_test, for_step, *place, progress)
            }
            Statement::Goto { label, place } => self.walk_goto(label, *place, progress),
            Statement::Switch { value, body, place } => {
                let switched = value.get();
                self.walk_switch(body.get(), switched, *place, progress)
            }
            Statement::Case { value, body, place } => {
                let selected = value.get();
                self.walk_case(body.get(), selected, *place, progress)
            }
            Statement::Default { body, place } => self.walk_default(body.get(), *place, progress),
            Statement::Break { place } => Ok(self.walk_break(*place, progress)),
            Statement::Continue { place } => Ok(self.walk_continue(*place, progress)),
            Statement::Return { value, place } => self.walk_return(value, *place, progress),
            Statement::Labeled { label, body } => self.walk_labeled(label, body.get(), progress),
        }
    }

    /// Walks through a statement that is a part of another.
    #[cycle(statement)]
    pub(crate) fn walk_part(
        &self,
        statement: &Statement,
        progress: &mut Progress,
    ) -> Result<Boxed<TypedStatement>, AllocError>
        requires { AreTied self.now progress.old }
        ensures tied { OnOk result (AreTied self.now progress.new) }
        ensures names { OnOk result (progress.new.walker.names ≡ progress.old.walker.names) }
        ensures typed { IfOk result (λ t. t ≡ (grown_of (text_at self.now) statement.now).typed
            (around_at self.now progress.old)) }
        ensures state { OnOk result (state_at self.now progress.new
            ≡ walked_at self.now (grown_of (text_at self.now) statement.now).walk
            (state_at self.now progress.old)) }
    {
        let typed = self.walk_statement(statement, progress)?;
        let boxed = Boxed::new(self.alloc, typed)?;
        Ok(boxed)
    }

    /// Walks through a test and the statement after it.
    #[cycle(statement)]
    fn walk_tested(
        &self,
        yes: &Statement,
        test: &Expression,
        progress: &mut Progress,
    ) -> Result<Tested, AllocError>
        requires { AreTied self.now progress.old }
        ensures tied { OnOk result (AreTied self.now progress.new) }
        ensures names { OnOk result (progress.new.walker.names ≡ progress.old.walker.names) }
        ensures test { IfOk result (λ t. t.test
            ≡ typed_of (text_at self.now) progress.old.walker.names test.now) }
        ensures yes { IfOk result (λ t. t.yes ≡ (grown_of (text_at self.now) yes.now).typed
            (around_at self.now progress.old)) }
        ensures state { OnOk result (state_at self.now progress.new
            ≡ walked_at self.now (followed (doing (evaluates Valued test.now))
            (grown_of (text_at self.now) yes.now).walk) (state_at self.now progress.old)) }
    {
        let test = evaluate(
            self.alloc,
            self.frame,
            &mut progress.walker,
            Role::Valued,
            test,
        )?;
        let yes = self.walk_part(yes, progress)?;
        Ok(Tested { test, yes })
    }

    /// Walks through an `else`, if there is one.
    #[cycle(statement)]
    fn walk_optional(
        &self,
        statement: &Option<Boxed<Statement>>,
        progress: &mut Progress,
    ) -> Result<Option<Boxed<TypedStatement>>, AllocError>
        requires { AreTied self.now progress.old }
        ensures tied { OnOk result (AreTied self.now progress.new) }
        ensures names { OnOk result (progress.new.walker.names ≡ progress.old.walker.names) }
        ensures typed { IfOk result (λ t. t ≡ option_map (grown_typed (text_at self.now)
            (around_at self.now progress.old)) statement.now) }
        ensures state { OnOk result (state_at self.now progress.new
            ≡ walked_at self.now (perhaps
            (option_map (walk_of_statement (text_at self.now)) statement.now))
            (state_at self.now progress.old)) }
    {
        match statement {
            None => Ok(None),
            Some(statement) => {
                let typed = self.walk_part(statement.get(), progress)?;
                Ok(Some(typed))
            }
        }
    }

    /// Walks through a block.
    #[cycle(statement)]
    fn walk_block(
        &self,
        items: &[BlockItem],
        place: u32,
        progress: &mut Progress,
    ) -> Result<TypedStatement, AllocError>
        requires { AreTied self.now progress.old }
        ensures tied { OnOk result (AreTied self.now progress.new) }
        ensures names { OnOk result (progress.new.walker.names ≡ progress.old.walker.names) }
        ensures typed { IfOk result (λ t. t ≡ (grown_statement (text_at self.now)
            (Statement-F.Block (map (grown (text_at self.now)) items.now) place)).typed
            (around_at self.now progress.old)) }
        ensures state { OnOk result (state_at self.now progress.new
            ≡ walked_at self.now (grown_statement (text_at self.now)
            (Statement-F.Block (map (grown (text_at self.now)) items.now) place)).walk
            (state_at self.now progress.old)) }
    {
        let count = progress.walker.names.len();
        let depth = progress.jumps.depth();
        let inside = Scope {
            alloc: self.alloc,
            frame: self.frame,
            nest: Nest {
                outer: count,
                in_loop: self.nest.in_loop,
                break_to: self.nest.break_to,
                switch: self.nest.switch,
            },
        };
        let items = inside.walk_items(items, progress)?;
        progress.walker.names.keep(count);
        progress.jumps.leave(depth);
        Ok(TypedStatement::Block { items, place })
    }

    /// Walks through the items of a block.
    #[cycle(statement)]
    pub(crate) fn walk_items(
        &self,
        items: &[BlockItem],
        progress: &mut Progress,
    ) -> Result<Seq<TypedItem>, AllocError>
        requires { AreTied self.now progress.old }
        ensures tied { OnOk result (AreTied self.now progress.new) }
        ensures extends { OnOk result (Extends progress.old.walker.names
            progress.new.walker.names) }
        ensures typed { IfOk result
            (λ t. t ≡ typed_in_order (map (grown (text_at self.now)) items.now)
            (around_at self.now progress.old)) }
        ensures state { OnOk result (state_at self.now progress.new
            ≡ walked_at self.now (in_order (map (grown_walk (text_at self.now)) items.now))
            (state_at self.now progress.old)) }
    {
        let mut typed = Vec::with_capacity(self.alloc, items.len())?;
        for item in items {
            let one = self.walk_item(item, progress)?;
            typed.push(one)?;
        }
        Ok(Seq::from_vec(typed))
    }

    /// Walks through an item of a block.
    #[cycle(statement)]
    fn walk_item(&self, item: &BlockItem, progress: &mut Progress) -> Result<TypedItem, AllocError>
        requires { AreTied self.now progress.old }
        ensures tied { OnOk result (AreTied self.now progress.new) }
        ensures extends { OnOk result (Extends progress.old.walker.names
            progress.new.walker.names) }
        ensures typed { IfOk result (λ t. t ≡ (grown (text_at self.now) item.now).typed
            (around_at self.now progress.old)) }
        ensures state { OnOk result (state_at self.now progress.new
            ≡ walked_at self.now (grown_walk (text_at self.now) item.now)
            (state_at self.now progress.old)) }
    {
        match item {
            BlockItem::Declaration(declaration) => {
                let declared = declaration.get();
                let typed = walk_declaration(
                    self.alloc,
                    self.frame,
                    &mut progress.walker,
                    &mut progress.jumps,
                    self.nest,
                    declared,
                )?;
                Ok(TypedItem::Declaration(typed))
            }
            BlockItem::Statement(statement) => {
                let typed = self.walk_statement(statement, progress)?;
                Ok(TypedItem::Statement(typed))
            }
        }
    }
}

//! Declarations of objects in file scope (`globals_behind`, `globals_faults`, `starts_in` of
//! `specs/Items.antt` and `specs/Sound.antt` of `c_types_rules`). Proved with `proofs/Globals`.
ghost use Rattle.std.specs.Prelude.{◌≡◌, ◌++◌, OnOk};
ghost use Rattle.c_types_rules.specs.First.{first_with};
ghost use Rattle.c_types_rules.specs.Declarations.{kind_of, has_const};
ghost use Rattle.c_types_rules.specs.Items.{with_global, redeclared_object, global_behind};
ghost use Rattle.c_types_rules.specs.Items.{global_faults, globals_behind, globals_faults};
ghost use Rattle.c_types_rules.specs.Sound.{start_with, start_of, starts_in};
ghost use Rattle.c_types_rules.specs.ExpressionRules.{broken};
ghost use Rattle.c_lexer.specs.declared.fault.Rule.TheVariants as rule;
ghost use Rattle.c_types_globals.specs.Scopes.{before_of};

use crate::merging::{merged_object, redeclares_object};
use crate::{Scope, Start};
use c_grammar_tree::{Declaration, Declarator, Spelling};
use c_lexer::{Rule, TextFault};
use c_types_names::Survey;
use c_types_objects::{Qualified, note_found, note_if, read_object, read_specifiers, read_starts};
use c_types_rules::{Entry, Object};
use cpa_ints::Seq;
use std::alloc::{AllocError, Global};

/// Declares an object that has this name.
fn declare_global(
    alloc: Global,
    scope: &mut Scope,
    declarator: &Declarator,
    global: Object,
    first: &mut Option<TextFault>,
) -> Result<(), AllocError>
    ensures scope { OnOk result (before_of scope.new
        ≡ with_global global declarator.now (before_of scope.old)) }
    ensures first { OnOk result (first.new ≡ first_with first.old
        (broken rule.N2 (redeclared_object global declarator.now (before_of scope.old)))) }
{
    let name = declarator.name.bytes.as_slice();
    let initializes = declarator.initializer.is_some();
    let is_taken = redeclares_object(scope.names.declared(name), global, initializes);
    note_if(first, Rule::N2, is_taken, declarator.name.place);
    let declared = merged_object(scope.names.declared(name), global, initializes);
    let objects = scope.objects.checked_add(1).ok_or(AllocError)?;
    let name = Spelling::new(alloc, name)?;
    scope.names.declare(alloc, Entry { name, declared })?;
    scope.objects = objects;
    Ok(())
}

/// Notes what an object starts at, if it is initialized.
fn push_start(
    alloc: Global,
    starts: &mut Vec<Start>,
    declarator: &Declarator,
    values: Vec<i128>,
) -> Result<(), AllocError>
    ensures { OnOk result (starts.new.items
        ≡ starts.old.items ++ start_with declarator.now values.items) }
{
    if declarator.initializer.is_none() {
        return Ok(());
    }
    let name = Seq::from_vec(declarator.name.bytes.as_slice().to_vec(alloc)?);
    starts.push(Start {
        name,
        values: Seq::from_vec(values),
    })?;
    Ok(())
}

/// Declares an object, whose length and initializer stand in no body.
#[tactic(auto, using(c_types_rules::specs::First::first_append))]
fn declare_object(
    alloc: Global,
    survey: &Survey,
    scope: &mut Scope,
    qualified: Qualified,
    declarator: &Declarator,
    first: &mut Option<TextFault>,
    starts: &mut Vec<Start>,
) -> Result<(), AllocError>
    ensures scope { OnOk result (before_of scope.new ≡ global_behind survey.now qualified.kind
        qualified.is_const declarator.now (before_of scope.old)) }
    ensures first { OnOk result (first.new ≡ first_with first.old (global_faults survey.now
        (before_of scope.old) qualified.kind qualified.is_const declarator.now)) }
    ensures starts { OnOk result (starts.new.items ≡ starts.old.items ++ start_of survey.now
        (before_of scope.old) qualified.kind qualified.is_const declarator.now) }
{
    // N2 is named before the faults of the length, which tells whether it is broken
    let mut found = None;
    let mut calls = Vec::new(alloc);
    let global = read_object(
        alloc,
        survey,
        &scope.names,
        0,
        scope.objects,
        qualified,
        declarator,
        &mut found,
        &mut calls,
    )?;
    declare_global(alloc, scope, declarator, global, first)?;
    note_found(first, found);
    let given = &declarator.initializer;
    let values = read_starts(alloc, survey, &scope.names, global.ty, given, first)?;
    push_start(alloc, starts, declarator, values)
}

/// Declares objects whose specifiers say this.
fn declare_all(
    alloc: Global,
    survey: &Survey,
    scope: &mut Scope,
    qualified: Qualified,
    declarators: &[Declarator],
    first: &mut Option<TextFault>,
    starts: &mut Vec<Start>,
) -> Result<(), AllocError>
    ensures scope { OnOk result (before_of scope.new ≡ globals_behind survey.now qualified.kind
        qualified.is_const declarators.now (before_of scope.old)) }
    ensures first { OnOk result (first.new ≡ first_with first.old (globals_faults survey.now
        qualified.kind qualified.is_const declarators.now (before_of scope.old))) }
    ensures starts { OnOk result (starts.new.items ≡ starts.old.items ++ starts_in survey.now
        qualified.kind qualified.is_const declarators.now (before_of scope.old)) }
{
    for declarator in declarators {
        declare_object(alloc, survey, scope, qualified, declarator, first, starts)?;
    }
    Ok(())
}

/// Declares the objects of a declaration: holds their first fault, and notes what they start at.
pub fn declare_objects(
    alloc: Global,
    survey: &Survey,
    scope: &mut Scope,
    declaration: &Declaration,
    first: &mut Option<TextFault>,
    starts: &mut Vec<Start>,
) -> Result<(), AllocError>
    ensures scope { OnOk result (before_of scope.new ≡ globals_behind survey.now
        (kind_of survey.now declaration.now.specifiers) (has_const declaration.now.specifiers)
        declaration.now.declarators (before_of scope.old)) }
    ensures first { OnOk result (first.new ≡ first_with first.old (globals_faults survey.now
        (kind_of survey.now declaration.now.specifiers) (has_const declaration.now.specifiers)
        declaration.now.declarators (before_of scope.old))) }
    ensures starts { OnOk result (starts.new.items ≡ starts.old.items ++ starts_in survey.now
        (kind_of survey.now declaration.now.specifiers) (has_const declaration.now.specifiers)
        declaration.now.declarators (before_of scope.old)) }
{
    let qualified = read_specifiers(alloc, survey, &declaration.specifiers)?;
    let declarators = declaration.declarators.as_slice();
    declare_all(alloc, survey, scope, qualified, declarators, first, starts)?;
    Ok(())
}

//! Declarations in a function (`declaration_walk` of `specs/Statements.antt` of `c_types_rules`).
//! Proved with `proofs/Declaring`.
ghost use Rattle.std.specs.Prelude.{◌≡◌, ◌+◌, map, IfOk, OnOk};
ghost use Rattle.c_types_rules.specs.Statements.{declarator_walk, declaration_walk};
ghost use Rattle.c_types_rules.specs.Statements.{enumeration_walk, in_order};
ghost use Rattle.c_types_rules.specs.TypedStatements.{typed_declarator, typed_declarators};
ghost use Rattle.c_types_rules.specs.TypedStatements.{typed_declaration};
ghost use Rattle.c_types_bodies.specs.States.{walked};
ghost use Rattle.c_types_bodies.specs.Views.{state_of, around_of, IsTied, Extends};

use crate::walker::{Frame, Nest, Walker};
use c_grammar_tree::{Declaration, Declarator, Enumeration};
use c_lexer::Rule;
use c_types_jumps::Jumps;
use c_types_objects::{Qualified, note_if, read_enumeration, read_local, read_specifiers};
use c_types_rules::TypedDeclarator;
use cpa_ints::{Boxed, Seq};
use std::alloc::{AllocError, Global};

/// The number of objects with one more.
pub(crate) fn with_object(objects: u32) -> Result<u32, AllocError>
    ensures { IfOk result (λ more. more ≡ objects + 1) }
{
    objects.checked_add(1).ok_or(AllocError)
}

/// Declares an object.
pub(crate) fn walk_declarator(
    alloc: Global,
    frame: &Frame,
    walker: &mut Walker,
    jumps: &mut Jumps,
    nest: Nest,
    qualified: Qualified,
    declarator: &Declarator,
) -> Result<TypedDeclarator, AllocError>
    requires { IsTied frame.now walker.old jumps.old }
    ensures tied { OnOk result (IsTied frame.now walker.new jumps.new) }
    ensures extends { OnOk result (Extends walker.old.names walker.new.names) }
    ensures typed { IfOk result (λ t. t ≡ typed_declarator frame.now.survey.now qualified.kind
        qualified.is_const declarator.now (around_of frame.now nest walker.old)) }
    ensures state { OnOk result (state_of frame.now nest walker.new jumps.new
        ≡ walked frame.now.survey.now frame.now.caller
        (declarator_walk frame.now.survey.now qualified.kind qualified.is_const declarator.now)
        (state_of frame.now nest walker.old jumps.old)) }
{
    let name = declarator.name.bytes.as_slice();
    let is_declared = walker.names.is_declared_from(nest.outer, name);
    note_if(
        &mut walker.first,
        Rule::N2,
        is_declared,
        declarator.name.place,
    );
    let typed = read_local(
        alloc,
        frame.survey,
        &mut walker.names,
        frame.caller,
        walker.objects,
        qualified,
        declarator,
        &mut walker.first,
        &mut walker.calls,
    )?;
    jumps.enter(walker.objects)?;
    walker.objects = with_object(walker.objects)?;
    Ok(typed)
}

/// Declares what the enumerated type of a declaration declares.
fn walk_enumeration(
    alloc: Global,
    frame: &Frame,
    walker: &mut Walker,
    jumps: &Jumps,
    nest: Nest,
    enumeration: &Option<Boxed<Enumeration>>,
) -> Result<(), AllocError>
    requires { IsTied frame.now walker.old jumps.now }
    ensures tied { OnOk result (IsTied frame.now walker.new jumps.now) }
    ensures extends { OnOk result (Extends walker.old.names walker.new.names) }
    ensures state { OnOk result (state_of frame.now nest walker.new jumps.now
        ≡ walked frame.now.survey.now frame.now.caller
        (enumeration_walk frame.now.survey.now enumeration.now)
        (state_of frame.now nest walker.old jumps.now)) }
{
    read_enumeration(
        alloc,
        frame.survey,
        &mut walker.names,
        nest.outer,
        frame.caller,
        enumeration,
        &mut walker.first,
        &mut walker.calls,
    )?;
    Ok(())
}

/// Declares objects in order.
fn walk_declarators(
    alloc: Global,
    frame: &Frame,
    walker: &mut Walker,
    jumps: &mut Jumps,
    nest: Nest,
    qualified: Qualified,
    declarators: &[Declarator],
) -> Result<Seq<TypedDeclarator>, AllocError>
    requires { IsTied frame.now walker.old jumps.old }
    ensures tied { OnOk result (IsTied frame.now walker.new jumps.new) }
    ensures extends { OnOk result (Extends walker.old.names walker.new.names) }
    ensures typed { IfOk result (λ t. t ≡ typed_declarators frame.now.survey.now qualified.kind
        qualified.is_const declarators.now (around_of frame.now nest walker.old)) }
    ensures state { OnOk result (state_of frame.now nest walker.new jumps.new
        ≡ walked frame.now.survey.now frame.now.caller
        (in_order (map (declarator_walk frame.now.survey.now qualified.kind qualified.is_const)
        declarators.now)) (state_of frame.now nest walker.old jumps.old)) }
{
    let mut typed = Vec::with_capacity(alloc, declarators.len())?;
    for declarator in declarators {
        let one = walk_declarator(alloc, frame, walker, jumps, nest, qualified, declarator)?;
        typed.push(one)?;
    }
    Ok(Seq::from_vec(typed))
}

/// Declares the enumerators and the objects of a declaration.
pub(crate) fn walk_declaration(
    alloc: Global,
    frame: &Frame,
    walker: &mut Walker,
    jumps: &mut Jumps,
    nest: Nest,
    declaration: &Declaration,
) -> Result<Seq<TypedDeclarator>, AllocError>
    requires { IsTied frame.now walker.old jumps.old }
    ensures tied { OnOk result (IsTied frame.now walker.new jumps.new) }
    ensures extends { OnOk result (Extends walker.old.names walker.new.names) }
    ensures typed { IfOk result (λ t. t ≡ typed_declaration frame.now.survey.now declaration.now
        (around_of frame.now nest walker.old)) }
    ensures state { OnOk result (state_of frame.now nest walker.new jumps.new
        ≡ walked frame.now.survey.now frame.now.caller
        (declaration_walk frame.now.survey.now declaration.now)
        (state_of frame.now nest walker.old jumps.old)) }
{
    let specifiers = &declaration.specifiers;
    walk_enumeration(alloc, frame, walker, jumps, nest, &specifiers.enumeration)?;
    let qualified = read_specifiers(alloc, frame.survey, specifiers)?;
    let list = declaration.declarators.as_slice();
    let typed = walk_declarators(alloc, frame, walker, jumps, nest, qualified, list)?;
    Ok(typed)
}

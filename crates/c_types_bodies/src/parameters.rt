//! The parameters of a function (`receiving` of `specs/Statements.antt` of `c_types_rules`). Proved
//! with `proofs/Receiving`.
ghost use Rattle.std.specs.Prelude.{◌≡◌, ◌+◌, ◌≤◌, ◌++◌, ◌∷◌, [], IfOk, OnOk, map, drop};
ghost use Rattle.c_lexer.specs.declared.fault.Rule.TheVariants as rule;
ghost use Rattle.c_types_rules.specs.First.{first_with};
ghost use Rattle.c_types_rules.specs.ExpressionRules.{broken, at_if};
ghost use Rattle.c_types_rules.specs.Declarations.{parameter_object, local_entry};
ghost use Rattle.c_types_rules.specs.Declarations.{is_declared_among};
ghost use Rattle.c_types_rules.specs.Statements.{receiving, in_order};
ghost use Rattle.c_types_rules.specs.TypedStatements.{parameter_objects};
ghost use Rattle.c_types_jumps.specs.Found.{entered};
ghost use Rattle.c_types_bodies.specs.States.{walked};
ghost use Rattle.c_types_bodies.specs.Views.{state_of, with_objects, IsTied, Extends};

use crate::declarations::with_object;
use crate::walker::{Frame, Nest, Walker};
use c_grammar_tree::{Name, Parameter, Spelling};
use c_lexer::Rule;
use c_types_jumps::Jumps;
use c_types_objects::{note_if, parameter_object};
use c_types_rules::{Declared, Entry, Object};
use cpa_ints::Seq;
use std::alloc::{AllocError, Global};

/// The entry of a parameter's name.
fn parameter_entry(alloc: Global, name: &[u8], object: Object) -> Result<Entry, AllocError>
    ensures { IfOk result (λ entry. entry ≡ local_entry name.now object) }
{
    Ok(Entry {
        name: Spelling::new(alloc, name)?,
        declared: Declared::Object {
            object,
            is_initialized: false,
        },
    })
}

/// Declares the name of a parameter.
fn declare_parameter(
    alloc: Global,
    walker: &mut Walker,
    jumps: &mut Jumps,
    nest: Nest,
    name: &Name,
    object: Object,
) -> Result<(), AllocError>
    requires { jumps.old.next ≤ object.number }
    ensures names { OnOk result (walker.new.names
        ≡ walker.old.names ++ local_entry name.now.bytes object ∷ []) }
    ensures objects { OnOk result (walker.new.objects ≡ walker.old.objects) }
    ensures cases { OnOk result (walker.new.cases ≡ walker.old.cases) }
    ensures passed { OnOk result (walker.new.passed ≡ walker.old.passed) }
    ensures calls { OnOk result (walker.new.calls.items ≡ walker.old.calls.items) }
    ensures first { OnOk result (walker.new.first ≡ first_with walker.old.first (broken rule.N2
        (at_if (is_declared_among (drop nest.outer walker.old.names) name.now.bytes)
        name.now.place))) }
    ensures entered { OnOk result (jumps.new ≡ entered object.number jumps.old) }
{
    let bytes = name.bytes.as_slice();
    let is_declared = walker.names.is_declared_from(nest.outer, bytes);
    note_if(&mut walker.first, Rule::N2, is_declared, name.place);
    let entry = parameter_entry(alloc, bytes, object)?;
    walker.names.declare(alloc, entry)?;
    jumps.enter(object.number)?;
    Ok(())
}

/// Declares the name of a parameter, if it has one.
fn name_parameter(
    alloc: Global,
    frame: &Frame,
    walker: &mut Walker,
    jumps: &mut Jumps,
    nest: Nest,
    parameter: &Parameter,
    object: Object,
) -> Result<(), AllocError>
    requires tied { IsTied frame.now walker.old jumps.old }
    requires object { object ≡ parameter_object frame.now.survey.now walker.old.objects
        parameter.now }
    ensures tied { OnOk result (IsTied frame.now
        (with_objects (walker.old.objects + 1) walker.new) jumps.new) }
    ensures extends { OnOk result (Extends walker.old.names walker.new.names) }
    ensures objects { OnOk result (walker.new.objects ≡ walker.old.objects) }
    ensures state { OnOk result (state_of frame.now nest
        (with_objects (walker.old.objects + 1) walker.new) jumps.new
        ≡ walked frame.now.survey.now frame.now.caller (receiving frame.now.survey.now
        parameter.now)
        (state_of frame.now nest walker.old jumps.old)) }
{
    match &parameter.name {
        None => Ok(()),
        Some(name) => {
            declare_parameter(alloc, walker, jumps, nest, name, object)?;
            Ok(())
        }
    }
}

/// Declares a parameter.
fn walk_parameter(
    alloc: Global,
    frame: &Frame,
    walker: &mut Walker,
    jumps: &mut Jumps,
    nest: Nest,
    parameter: &Parameter,
) -> Result<Object, AllocError>
    requires { IsTied frame.now walker.old jumps.old }
    ensures tied { OnOk result (IsTied frame.now walker.new jumps.new) }
    ensures extends { OnOk result (Extends walker.old.names walker.new.names) }
    ensures object { IfOk result (λ o. o ≡ parameter_object frame.now.survey.now walker.old.objects
        parameter.now) }
    ensures objects { OnOk result (walker.new.objects ≡ walker.old.objects + 1) }
    ensures state { OnOk result (state_of frame.now nest walker.new jumps.new
        ≡ walked frame.now.survey.now frame.now.caller (receiving frame.now.survey.now
        parameter.now)
        (state_of frame.now nest walker.old jumps.old)) }
{
    let objects = with_object(walker.objects)?;
    let object = parameter_object(alloc, frame.survey, walker.objects, parameter)?;
    name_parameter(alloc, frame, walker, jumps, nest, parameter, object)?;
    walker.objects = objects;
    Ok(object)
}

/// Declares the parameters of a function.
pub(crate) fn walk_parameters(
    alloc: Global,
    frame: &Frame,
    walker: &mut Walker,
    jumps: &mut Jumps,
    nest: Nest,
    parameters: &[Parameter],
) -> Result<Seq<Object>, AllocError>
    requires { IsTied frame.now walker.old jumps.old }
    ensures tied { OnOk result (IsTied frame.now walker.new jumps.new) }
    ensures extends { OnOk result (Extends walker.old.names walker.new.names) }
    ensures objects { IfOk result (λ o. o
        ≡ parameter_objects frame.now.survey.now walker.old.objects parameters.now) }
    ensures state { OnOk result (state_of frame.now nest walker.new jumps.new
        ≡ walked frame.now.survey.now frame.now.caller (in_order
        (map (receiving frame.now.survey.now) parameters.now))
        (state_of frame.now nest walker.old jumps.old)) }
{
    let mut objects = Vec::with_capacity(alloc, parameters.len())?;
    for parameter in parameters {
        let object = walk_parameter(alloc, frame, walker, jumps, nest, parameter)?;
        objects.push(object)?;
    }
    Ok(Seq::from_vec(objects))
}

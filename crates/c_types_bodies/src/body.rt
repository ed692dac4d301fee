//! The body of a function (`specs/Bodies.antt`): its parameters, its statements, and then the
//! faults of its labels. Proved with `proofs/Whole` and `proofs/Function`.
ghost use Rattle.std.specs.Prelude.{◌≡◌, ◌++◌, OnOk, IfOk};
ghost use Rattle.std.specs.List.{flat_map};
ghost use Rattle.c_types_rules.specs.First.{first_with};
ghost use Rattle.c_types_rules.specs.Items.{body_faults, site_calls, listed};
ghost use Rattle.c_types_jumps.specs.Found.{nothing_found};
ghost use Rattle.c_types_bodies.specs.Bodies.{acts_of, objects_behind, typed_body, AreNumbered};
ghost use Rattle.c_types_bodies.specs.Views.{IsFresh};

use crate::cases::no_cases;
use crate::labels::labels_in_items;
use crate::parameters::walk_parameters;
use crate::walker::{Frame, Nest, Progress, Scope, Walker};
use c_grammar_tree::{BlockItem, Parameter, Parameters, Specifiers};
use c_lexer::TextFault;
use c_types_jumps::Jumps;
use c_types_names::{Names, Survey};
use c_types_objects::read_specifiers;
use c_types_recursion::Call;
use c_types_rules::TypedFunction;
use std::alloc::{AllocError, Global};
use std::mem;

/// A function with a body, as it stands in the text.
#[derive(Drop)]
pub struct FunctionDefinition<'a> {
    /// How many bodies stand before its own.
    pub number: u32,
    pub specifiers: &'a Specifiers,
    pub parameters: &'a Parameters,
    pub items: &'a [BlockItem],
    /// The places of its braces.
    pub place: u32,
    pub end: u32,
}

/// A body, and how many objects stand before what comes after it.
#[derive(Drop)]
pub struct ReadBody {
    pub typed: TypedFunction,
    pub objects: u32,
}

/// The parameters that a declarator lists.
fn listed(parameters: &Parameters) -> &[Parameter]
    ensures { result.now ≡ listed parameters.now }
{
    match parameters {
        Parameters::Listed(all) => all.as_slice(),
        Parameters::Unspecified | Parameters::Void => &[],
    }
}

/// Walks through a function whose name is declared.
fn walk_function(
    alloc: Global,
    survey: &Survey,
    function: &FunctionDefinition,
    progress: &mut Progress,
) -> Result<TypedFunction, AllocError>
    requires numbered { AreNumbered progress.old.walker.objects progress.old.walker.names }
    requires fresh { IsFresh progress.old.walker }
    requires jumps { progress.old.jumps ≡ nothing_found progress.old.walker.objects }
    ensures names { OnOk result (progress.new.walker.names ≡ progress.old.walker.names) }
    ensures objects { OnOk result (progress.new.walker.objects ≡ objects_behind survey.now
        progress.old.walker.names progress.old.walker.objects function.now.specifiers.now
        function.now.parameters.now function.now.items.now) }
    ensures typed { IfOk result (λ t. t ≡ typed_body survey.now progress.old.walker.names
        progress.old.walker.objects function.now.specifiers.now function.now.parameters.now
        function.now.items.now function.now.place function.now.end) }
    ensures first { OnOk result (progress.new.walker.first ≡ first_with progress.old.walker.first
        (body_faults survey.now (acts_of survey.now progress.old.walker.names
        progress.old.walker.objects function.now.specifiers.now function.now.parameters.now
        function.now.items.now))) }
    ensures calls { OnOk result (progress.new.walker.calls.items
        ≡ progress.old.walker.calls.items ++ flat_map (site_calls survey.now function.now.number)
        (acts_of survey.now progress.old.walker.names progress.old.walker.objects
        function.now.specifiers.now function.now.parameters.now function.now.items.now)) }
{
    let file = progress.walker.names.len();
    let labels = labels_in_items(alloc, function.items)?;
    let result = read_specifiers(alloc, survey, function.specifiers)?.kind;
    let frame = Frame {
        survey,
        labels: &labels,
        file,
        caller: function.number,
        result,
    };
    let nest = Nest {
        outer: file,
        in_loop: false,
        break_to: None,
        switch: None,
    };
    let walker = &mut progress.walker;
    let jumps = &mut progress.jumps;
    let parameters = walk_parameters(
        alloc,
        &frame,
        walker,
        jumps,
        nest,
        listed(function.parameters),
    )?;
    let scope = Scope {
        alloc,
        frame: &frame,
        nest,
    };
    let items = scope.walk_items(function.items, progress)?;
    progress.jumps.note(alloc, &mut progress.walker.first)?;
    progress.walker.names.keep(file);
    Ok(TypedFunction {
        result,
        parameters,
        items,
        place: function.place,
        end: function.end,
    })
}

/// Reads the body of a function, which stands behind so many objects.
pub fn read_body(
    alloc: Global,
    survey: &Survey,
    function: &FunctionDefinition,
    names: &mut Names,
    objects: u32,
    first: &mut Option<TextFault>,
    calls: &mut Vec<Call>,
) -> Result<ReadBody, AllocError>
    requires { AreNumbered objects names.old }
    ensures names { OnOk result (names.new ≡ names.old) }
    ensures objects { IfOk result (λ r. r.objects ≡ objects_behind survey.now names.old objects
        function.now.specifiers.now function.now.parameters.now function.now.items.now) }
    ensures typed { IfOk result (λ r. r.typed ≡ typed_body survey.now names.old objects
        function.now.specifiers.now function.now.parameters.now function.now.items.now
        function.now.place function.now.end) }
    ensures first { OnOk result (first.new ≡ first_with first.old (body_faults survey.now
        (acts_of survey.now names.old objects function.now.specifiers.now
        function.now.parameters.now function.now.items.now))) }
    ensures calls { OnOk result (calls.new.items ≡ calls.old.items
        ++ flat_map (site_calls survey.now function.now.number)
        (acts_of survey.now names.old objects function.now.specifiers.now
        function.now.parameters.now function.now.items.now)) }
{
    let jumps = Jumps::new(alloc, objects)?;
    let mut progress = Progress {
        walker: Walker {
            names: mem::replace(names, Names::new(alloc)),
            objects,
            passed: 0,
            cases: no_cases(alloc),
            first: *first,
            calls: mem::replace(calls, Vec::new(alloc)),
        },
        jumps,
    };
    let typed = walk_function(alloc, survey, function, &mut progress)?;
    let Walker {
        names: walked_names,
        objects,
        passed: _,
        cases: _,
        first: walked_first,
        calls: walked_calls,
    } = progress.walker;
    *names = walked_names;
    *first = walked_first;
    *calls = walked_calls;
    Ok(ReadBody { typed, objects })
}

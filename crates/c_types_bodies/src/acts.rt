//! The acts of statements that declare nothing: expressions, labels and what leaves
//! (`act_faults` of `specs/StatementRules.antt` of `c_types_rules`). Proved with `proofs/Doing`.
ghost use Rattle.std.specs.Prelude.{◌≡◌, ◌+◌, ◌||◌, not, IfOk, OnOk, is_some, option_map};
ghost use Rattle.std.specs.List.{list_any};
ghost use Rattle.std.specs.Str.{bytes_eq};
ghost use Rattle.c_types_rules.specs.declared.meaning.Role.TheVariants.{Valued, Evaluated};
ghost use Rattle.c_types_rules.specs.Statements.{evaluates, jumps as goes_to, marking};
ghost use Rattle.c_types_rules.specs.Statements.{breaks, continues};
ghost use Rattle.c_types_rules.specs.Statements.{returns};
ghost use Rattle.c_types_rules.specs.Statements.{evaluating};
ghost use Rattle.c_types_rules.specs.Statements.{followed, doing};
ghost use Rattle.c_types_rules.specs.Declarations.{is_void_kind};
ghost use Rattle.c_types_rules.specs.StatementRules.{agree};
ghost use Rattle.c_types_expressions.specs.Read.{part_of, typed_of};
ghost use Rattle.c_types_jumps.specs.Found.{Found};
ghost use Rattle.c_types_bodies.specs.declared.walker.Nest.{Nest as Nesting};
ghost use Rattle.c_types_bodies.specs.States.{done, walked};
ghost use Rattle.c_types_bodies.specs.Views.{state_of, with_passed, IsTied};

use crate::walker::{Frame, Nest, Walker};
use c_grammar_tree::{Expression, Name};
use c_lexer::Rule;
use c_types_expressions::{Notes, Read, Reader};
use c_types_jumps::Jumps;
use c_types_objects::note_if;
use c_types_rules::{Kind, Part, Role, TypedExpression};
use cpa_ints::Boxed;
use std::alloc::{AllocError, Global};

/// Evaluates an expression in a role, of which the rules see a part.
fn evaluate_part(
    alloc: Global,
    frame: &Frame,
    walker: &mut Walker,
    role: Role,
    expression: &Expression,
) -> Result<Read, AllocError>
    ensures part { IfOk result (λ r. r.part
        ≡ part_of frame.now.survey.now walker.old.names expression.now) }
    ensures typed { IfOk result (λ r. r.typed
        ≡ typed_of frame.now.survey.now walker.old.names expression.now) }
    ensures names { OnOk result (walker.new.names ≡ walker.old.names) }
    ensures objects { OnOk result (walker.new.objects ≡ walker.old.objects) }
    ensures cases { OnOk result (walker.new.cases ≡ walker.old.cases) }
    ensures passed { OnOk result (walker.new.passed ≡ walker.old.passed) }
    ensures state { (nest : Nesting) (found : Found) → OnOk result
        (state_of frame.now nest walker.new found ≡ done frame.now.survey.now frame.now.caller
        (evaluates role expression.now) (state_of frame.now nest walker.old found)) }
{
    let reader = Reader {
        alloc,
        survey: frame.survey,
        names: &walker.names,
        caller: frame.caller,
    };
    let mut notes = Notes::lent(alloc, walker.first, &mut walker.calls);
    let read = reader.read_used(role, expression, &mut notes)?;
    walker.first = notes.first;
    walker.calls = notes.calls;
    Ok(read)
}

/// What the rules see of an expression, and its typed tree.
#[derive(Drop)]
pub(crate) struct ReadPart {
    pub(crate) part: Part,
    pub(crate) typed: Boxed<TypedExpression>,
}

/// Evaluates an expression in a role, its tree in a box before anything else is read.
pub(crate) fn evaluate_boxed(
    alloc: Global,
    frame: &Frame,
    walker: &mut Walker,
    role: Role,
    expression: &Expression,
) -> Result<ReadPart, AllocError>
    ensures part { IfOk result (λ r. r.part
        ≡ part_of frame.now.survey.now walker.old.names expression.now) }
    ensures typed { IfOk result (λ r. r.typed
        ≡ typed_of frame.now.survey.now walker.old.names expression.now) }
    ensures names { OnOk result (walker.new.names ≡ walker.old.names) }
    ensures objects { OnOk result (walker.new.objects ≡ walker.old.objects) }
    ensures cases { OnOk result (walker.new.cases ≡ walker.old.cases) }
    ensures passed { OnOk result (walker.new.passed ≡ walker.old.passed) }
    ensures state { (nest : Nesting) (found : Found) → OnOk result
        (state_of frame.now nest walker.new found ≡ done frame.now.survey.now frame.now.caller
        (evaluates role expression.now) (state_of frame.now nest walker.old found)) }
{
    let read = evaluate_part(alloc, frame, walker, role, expression)?;
    let Read { part, typed } = read;
    let typed = Boxed::new(alloc, typed)?;
    Ok(ReadPart { part, typed })
}

/// Evaluates an expression in a role.
pub(crate) fn evaluate(
    alloc: Global,
    frame: &Frame,
    walker: &mut Walker,
    role: Role,
    expression: &Expression,
) -> Result<Boxed<TypedExpression>, AllocError>
    ensures typed { IfOk result (λ t. t
        ≡ typed_of frame.now.survey.now walker.old.names expression.now) }
    ensures names { OnOk result (walker.new.names ≡ walker.old.names) }
    ensures objects { OnOk result (walker.new.objects ≡ walker.old.objects) }
    ensures cases { OnOk result (walker.new.cases ≡ walker.old.cases) }
    ensures state { (nest : Nesting) (found : Found) → OnOk result
        (state_of frame.now nest walker.new found ≡ done frame.now.survey.now frame.now.caller
        (evaluates role expression.now) (state_of frame.now nest walker.old found)) }
{
    let read = evaluate_boxed(alloc, frame, walker, role, expression)?;
    Ok(read.typed)
}

/// Evaluates an expression that may be left out.
pub(crate) fn evaluate_optional(
    alloc: Global,
    frame: &Frame,
    walker: &mut Walker,
    role: Role,
    expression: &Option<Expression>,
) -> Result<Option<Boxed<TypedExpression>>, AllocError>
    ensures typed { IfOk result (λ t. t
        ≡ option_map (typed_of frame.now.survey.now walker.old.names) expression.now) }
    ensures names { OnOk result (walker.new.names ≡ walker.old.names) }
    ensures objects { OnOk result (walker.new.objects ≡ walker.old.objects) }
    ensures cases { OnOk result (walker.new.cases ≡ walker.old.cases) }
    ensures state { (nest : Nesting) (found : Found) → OnOk result
        (state_of frame.now nest walker.new found ≡ walked frame.now.survey.now frame.now.caller
        (evaluating role expression.now) (state_of frame.now nest walker.old found)) }
{
    match expression {
        None => Ok(None),
        Some(expression) => {
            let typed = evaluate(alloc, frame, walker, role, expression)?;
            Ok(Some(typed))
        }
    }
}

/// Evaluates an expression in a box that may be left out.
pub(crate) fn evaluate_held(
    alloc: Global,
    frame: &Frame,
    walker: &mut Walker,
    role: Role,
    expression: &Option<Boxed<Expression>>,
) -> Result<Option<Boxed<TypedExpression>>, AllocError>
    ensures typed { IfOk result (λ t. t
        ≡ option_map (typed_of frame.now.survey.now walker.old.names) expression.now) }
    ensures names { OnOk result (walker.new.names ≡ walker.old.names) }
    ensures objects { OnOk result (walker.new.objects ≡ walker.old.objects) }
    ensures cases { OnOk result (walker.new.cases ≡ walker.old.cases) }
    ensures state { (nest : Nesting) (found : Found) → OnOk result
        (state_of frame.now nest walker.new found ≡ walked frame.now.survey.now frame.now.caller
        (evaluating role expression.now) (state_of frame.now nest walker.old found)) }
{
    match expression {
        None => Ok(None),
        Some(expression) => {
            let typed = evaluate(alloc, frame, walker, role, expression.get())?;
            Ok(Some(typed))
        }
    }
}

/// The test and the step of a `for`.
#[derive(Drop)]
pub(crate) struct Tests {
    pub(crate) test: Option<Boxed<TypedExpression>>,
    pub(crate) step: Option<Boxed<TypedExpression>>,
}

/// Evaluates the test and the step of a `for`.
pub(crate) fn evaluate_tests(
    alloc: Global,
    frame: &Frame,
    walker: &mut Walker,
    test: &Option<Expression>,
    step: &Option<Expression>,
) -> Result<Tests, AllocError>
    ensures test { IfOk result (λ t. t.test
        ≡ option_map (typed_of frame.now.survey.now walker.old.names) test.now) }
    ensures step { IfOk result (λ t. t.step
        ≡ option_map (typed_of frame.now.survey.now walker.old.names) step.now) }
    ensures names { OnOk result (walker.new.names ≡ walker.old.names) }
    ensures objects { OnOk result (walker.new.objects ≡ walker.old.objects) }
    ensures cases { OnOk result (walker.new.cases ≡ walker.old.cases) }
    ensures state { (nest : Nesting) (found : Found) → OnOk result
        (state_of frame.now nest walker.new found ≡ walked frame.now.survey.now frame.now.caller
        (evaluating Evaluated step.now) (walked frame.now.survey.now frame.now.caller
        (evaluating Valued test.now) (state_of frame.now nest walker.old found))) }
{
    let test = evaluate_optional(alloc, frame, walker, Role::Valued, test)?;
    let step = evaluate_optional(alloc, frame, walker, Role::Evaluated, step)?;
    Ok(Tests { test, step })
}

/// Whether a break has somewhere to go.
fn has_end(nest: Nest) -> bool
    ensures { result ≡ (nest.in_loop || is_some nest.break_to) }
{
    nest.in_loop || nest.break_to.is_some()
}

/// A break.
pub(crate) fn leave(frame: &Frame, walker: &mut Walker, nest: Nest, place: u32)
    ensures names { walker.new.names ≡ walker.old.names }
    ensures objects { walker.new.objects ≡ walker.old.objects }
    ensures cases { walker.new.cases ≡ walker.old.cases }
    ensures state { (found : Found) → state_of frame.now nest walker.new found
        ≡ done frame.now.survey.now frame.now.caller (breaks place)
        (state_of frame.now nest walker.old found) }
{
    let inside = has_end(nest);
    note_if(&mut walker.first, Rule::N8, !inside, place);
}

/// A continue.
pub(crate) fn turn(frame: &Frame, walker: &mut Walker, nest: Nest, place: u32)
    ensures names { walker.new.names ≡ walker.old.names }
    ensures objects { walker.new.objects ≡ walker.old.objects }
    ensures cases { walker.new.cases ≡ walker.old.cases }
    ensures state { (found : Found) → state_of frame.now nest walker.new found
        ≡ done frame.now.survey.now frame.now.caller (continues place)
        (state_of frame.now nest walker.old found) }
{
    note_if(&mut walker.first, Rule::N8, !nest.in_loop, place);
}

/// Whether a return with a value, or one without, breaks the rule of its function.
fn is_misreturned(kind: Kind, with_value: bool) -> bool
    ensures { result ≡ agree with_value (is_void_kind kind) }
{
    match kind {
        Kind::Void => with_value,
        Kind::Value(_) => !with_value,
    }
}

/// A return.
pub(crate) fn finish(
    alloc: Global,
    frame: &Frame,
    walker: &mut Walker,
    value: &Option<Boxed<Expression>>,
    place: u32,
) -> Result<Option<Boxed<TypedExpression>>, AllocError>
    ensures typed { IfOk result (λ t. t
        ≡ option_map (typed_of frame.now.survey.now walker.old.names) value.now) }
    ensures names { OnOk result (walker.new.names ≡ walker.old.names) }
    ensures objects { OnOk result (walker.new.objects ≡ walker.old.objects) }
    ensures cases { OnOk result (walker.new.cases ≡ walker.old.cases) }
    ensures state { (nest : Nesting) (found : Found) → OnOk result
        (state_of frame.now nest walker.new found ≡ walked frame.now.survey.now frame.now.caller
        (followed (doing (returns place (is_some value.now))) (evaluating Valued value.now))
        (state_of frame.now nest walker.old found)) }
{
    let is_wrong = is_misreturned(frame.result, value.is_some());
    note_if(&mut walker.first, Rule::N16, is_wrong, place);
    let typed = evaluate_held(alloc, frame, walker, Role::Valued, value)?;
    Ok(typed)
}

/// Whether a name is no label's.
fn is_missing(frame: &Frame, name: &Name) -> bool
    ensures { result ≡ not (list_any (bytes_eq name.now.bytes) frame.now.labels.now) }
{
    match frame.labels.place_of(name.bytes.as_slice()) {
        Some(_) => false,
        None => true,
    }
}

/// A goto. That its label is there is a rule of its own.
pub(crate) fn jump(
    alloc: Global,
    frame: &Frame,
    walker: &mut Walker,
    jumps: &mut Jumps,
    name: &Name,
) -> Result<(), AllocError>
    requires { IsTied frame.now walker.old jumps.old }
    ensures tied { OnOk result (IsTied frame.now walker.new jumps.new) }
    ensures names { OnOk result (walker.new.names ≡ walker.old.names) }
    ensures objects { OnOk result (walker.new.objects ≡ walker.old.objects) }
    ensures cases { OnOk result (walker.new.cases ≡ walker.old.cases) }
    ensures state { (nest : Nesting) → OnOk result (state_of frame.now nest walker.new jumps.new
        ≡ done frame.now.survey.now frame.now.caller (goes_to name.now)
        (state_of frame.now nest walker.old jumps.old)) }
{
    let missing = is_missing(frame, name);
    note_if(&mut walker.first, Rule::N6, missing, name.place);
    jumps.goto(alloc, name)?;
    Ok(())
}

/// A count with one more.
fn with_one(count: u32) -> Result<u32, AllocError>
    ensures { IfOk result (λ more. more ≡ count + 1) }
{
    count.checked_add(1).ok_or(AllocError)
}

/// One label more stands before what comes. A function with 2^32 labels is want of memory.
pub(crate) fn pass_label(walker: &mut Walker) -> Result<(), AllocError>
    ensures { OnOk result (walker.new ≡ with_passed (walker.old.passed + 1) walker.old) }
{
    let passed = with_one(walker.passed)?;
    walker.passed = passed;
    Ok(())
}

/// A label.
pub(crate) fn mark(
    alloc: Global,
    frame: &Frame,
    walker: &mut Walker,
    jumps: &mut Jumps,
    name: &Name,
) -> Result<(), AllocError>
    requires { IsTied frame.now walker.old jumps.old }
    ensures tied { OnOk result (IsTied frame.now walker.new jumps.new) }
    ensures names { OnOk result (walker.new.names ≡ walker.old.names) }
    ensures state { (nest : Nesting) → OnOk result (state_of frame.now nest walker.new jumps.new
        ≡ walked frame.now.survey.now frame.now.caller (marking name.now)
        (state_of frame.now nest walker.old jumps.old)) }
{
    jumps.label(alloc, name)?;
    pass_label(walker)?;
    Ok(())
}

//! The core of statements (`statement_step` of `c_core_rules`, `specs/Statements.antt`), part by
//! part. Proved with the lemmas of `proofs/StatementForms.antt` and `proofs/InOrder.antt`.
ghost use Rattle.std.specs.Prelude.{◌≡◌, ◌++◌, ◌∷◌, [], map, OnOk, IfOk};
ghost use Rattle.c_core_rules.specs.Cells.{in_order};
ghost use Rattle.c_core_rules.specs.Statements.{some_unused, initialized, inputs, zeros};
ghost use Rattle.c_core_rules.specs.Statements.{initialized_each, initializing, declared};
ghost use Rattle.c_core_rules.specs.Statements.{declaration, started, leaving, left_unless};
ghost use Rattle.c_core_rules.specs.Statements.{returned, item_rule};
ghost use Rattle.c_core_rules.specs.Trees.{set, block, repeated};
ghost use Rattle.c_lower_values.specs.Found.{so_far};
ghost use Rattle.c_lower_trees.specs.Items.{statement_rule, left, do_behind, for_front, for_behind};

use crate::switches::{switch_behind, switch_front};
use c_core_rules::{Location, Valued};
use c_lower_expressions::{Frames, cell_behind, chosen_unused, unused, used};
use c_lower_values::{
    Cells, block, cell_at, input, joined, labeled, leaf, list_of, repeated, set, with,
};
use c_types_rules::{
    Object, TypedDeclarator, TypedExpression, TypedForStart, TypedInitializer, TypedItem,
    TypedStatement, cells_of,
};
use cpa_expr::constant;
use cpa_ints::{Boxed, IntType, Seq};
use cpa_model_trees::{CoreTree, Head};
use std::alloc::{AllocError, Global};

/// An expression that may be left out, its value not used.
fn some_unused(
    cells: &mut Cells,
    frames: &Frames,
    e: &Option<Boxed<TypedExpression>>,
) -> Result<Seq<CoreTree>, AllocError>
    ensures taken { OnOk result (so_far cells.new
        ≡ (some_unused frames.now e.now (so_far cells.old)).taken) }
    ensures made { IfOk result (λ trees. trees
        ≡ (some_unused frames.now e.now (so_far cells.old)).made) }
{
    match e {
        None => Ok(Seq::new(frames.alloc())),
        Some(e) => unused(cells, frames, e.get()),
    }
}

/// A write of a value to a cell, behind its statements and those in front of them.
#[tactic(auto, using(crate::proofs::Runs::behind_both))]
fn stored(
    alloc: Global,
    origin: u32,
    place: Location,
    v: Valued,
    front: Seq<CoreTree>,
) -> Result<Seq<CoreTree>, AllocError>
    ensures { IfOk result (λ trees. trees
        ≡ front ++ (v.statements ++ set origin place v.value ∷ [])) }
{
    let written = set(alloc, origin, place, v.value)?;
    let before = joined(front, v.statements)?;
    with(before, written)
}

/// A write of an expression to a cell, behind what is made already: a list of its own would be
/// moved at once.
fn initialized(
    cells: &mut Cells,
    origin: u32,
    frames: &Frames,
    place: Location,
    value: &TypedExpression,
    front: Seq<CoreTree>,
) -> Result<Seq<CoreTree>, AllocError>
    ensures taken { OnOk result (so_far cells.new
        ≡ (initialized origin frames.now place value.now (so_far cells.old)).taken) }
    ensures made { IfOk result (λ trees. trees
        ≡ front ++ (initialized origin frames.now place value.now (so_far cells.old)).made) }
{
    let v = used(cells, frames, value)?;
    stored(frames.alloc(), origin, place, v, front)
}

/// An input of each of so many cells from one on.
#[tactic(auto, using(crate::proofs::Runs::input_more, crate::proofs::Runs::input_none))]
fn inputs(alloc: Global, origin: u32, first: u32, count: u128) -> Result<Seq<CoreTree>, AllocError>
    ensures { IfOk result (λ trees. trees ≡ inputs origin first count) }
{
    let mut trees = Seq::new(alloc);
    for place in 0..count {
        let cell = cell_behind(first, place)?;
        trees.push(input(alloc, origin, cell))?;
    }
    Ok(trees)
}

/// A write of 0 to each of so many cells from one on.
#[tactic(auto, using(crate::proofs::Runs::zero_more, crate::proofs::Runs::zero_none))]
fn zeros(
    alloc: Global,
    origin: u32,
    ty: IntType,
    first: u32,
    count: u128,
) -> Result<Seq<CoreTree>, AllocError>
    ensures { IfOk result (λ trees. trees ≡ zeros origin ty first count) }
{
    let mut trees = Seq::new(alloc);
    for place in 0..count {
        let cell = cell_behind(first, place)?;
        let zero = constant(alloc, ty, 0)?;
        trees.push(set(alloc, origin, cell_at(ty, cell), zero)?)?;
    }
    Ok(trees)
}

/// An expression for each cell from one on.
#[tactic(auto, using(crate::proofs::InOrder::in_first))]
fn initialized_each(
    cells: &mut Cells,
    origin: u32,
    frames: &Frames,
    ty: IntType,
    first: u32,
    values: &[TypedExpression],
) -> Result<Seq<CoreTree>, AllocError>
    ensures taken { OnOk result (so_far cells.new
        ≡ (in_order (initialized_each origin frames.now ty first values.now)
        (so_far cells.old)).taken) }
    ensures made { IfOk result (λ trees. trees
        ≡ (in_order (initialized_each origin frames.now ty first values.now)
        (so_far cells.old)).made) }
{
    let mut before = Seq::new(frames.alloc());
    let mut cell = first;
    for value in values {
        before = initialized(cells, origin, frames, cell_at(ty, cell), value, before)?;
        cell = cell_behind(cell, 1)?;
    }
    Ok(before)
}

/// What an object starts with whose cells begin here, behind what is made already.
fn initializing(
    cells: &mut Cells,
    origin: u32,
    frames: &Frames,
    object: Object,
    initializer: &Option<TypedInitializer>,
    first: u32,
    front: Seq<CoreTree>,
) -> Result<Seq<CoreTree>, AllocError>
    ensures taken { OnOk result (so_far cells.new
        ≡ (initializing origin frames.now object initializer.now first (so_far cells.old)).taken) }
    ensures made { IfOk result (λ trees. trees ≡ front
        ++ (initializing origin frames.now object initializer.now first (so_far cells.old)).made) }
{
    match initializer {
        None => {
            let trees = inputs(frames.alloc(), origin, first, cells_of(object))?;
            joined(front, trees)
        }
        Some(TypedInitializer::Scalar(value)) => {
            let place = cell_at(object.ty, first);
            initialized(cells, origin, frames, place, value.get(), front)
        }
        Some(TypedInitializer::List(items)) => {
            let before = initialized_each(
                cells,
                origin,
                frames,
                object.ty,
                first,
                items.as_slice(),
            )?;
            let count = items.len() as u128;
            let behind = cell_behind(first, count)?;
            let left = cells_of(object).saturating_sub(count);
            let zeros = zeros(frames.alloc(), origin, object.ty, behind, left)?;
            let trees = joined(before, zeros)?;
            joined(front, trees)
        }
    }
}

/// An object that is declared, behind what is made already.
fn declared(
    cells: &mut Cells,
    frames: &Frames,
    declarator: &TypedDeclarator,
    front: Seq<CoreTree>,
) -> Result<Seq<CoreTree>, AllocError>
    ensures taken { OnOk result (so_far cells.new
        ≡ (declared frames.now declarator.now (so_far cells.old)).taken) }
    ensures made { IfOk result (λ trees. trees
        ≡ front ++ (declared frames.now declarator.now (so_far cells.old)).made) }
{
    let object = declarator.object;
    let first = cells.take(object, &[])?;
    let given = &declarator.initializer;
    initializing(cells, declarator.place, frames, object, given, first, front)
}

/// A declaration, behind what is made already.
fn declaration(
    cells: &mut Cells,
    frames: &Frames,
    declarators: &[TypedDeclarator],
    front: Seq<CoreTree>,
) -> Result<Seq<CoreTree>, AllocError>
    ensures taken { OnOk result (so_far cells.new
        ≡ (declaration frames.now declarators.now (so_far cells.old)).taken) }
    ensures made { IfOk result (λ trees. trees
        ≡ front ++ (declaration frames.now declarators.now (so_far cells.old)).made) }
{
    let mut before = front;
    for declarator in declarators {
        before = declared(cells, frames, declarator, before)?;
    }
    Ok(before)
}

/// The first part of a `for`.
fn started(
    cells: &mut Cells,
    frames: &Frames,
    start: &TypedForStart,
) -> Result<Seq<CoreTree>, AllocError>
    ensures taken { OnOk result (so_far cells.new
        ≡ (started frames.now start.now (so_far cells.old)).taken) }
    ensures made { IfOk result (λ trees. trees
        ≡ (started frames.now start.now (so_far cells.old)).made) }
{
    match start {
        TypedForStart::Declaration(declarators) => {
            let nothing = Seq::new(frames.alloc());
            declaration(cells, frames, declarators.as_slice(), nothing)
        }
        TypedForStart::Expression(e) => some_unused(cells, frames, e),
    }
}

/// The way out of a loop where a test does not hold.
fn leaving(alloc: Global, origin: u32, test: Valued) -> Result<Seq<CoreTree>, AllocError>
    ensures { IfOk result (λ trees. trees ≡ leaving origin test) }
{
    let nothing = Seq::new(alloc);
    let end = list_of(alloc, leaf(alloc, origin, Head::Break))?;
    chosen_unused(alloc, origin, test, nothing, end)
}

/// The same of an expression.
fn left(
    cells: &mut Cells,
    origin: u32,
    frames: &Frames,
    test: &TypedExpression,
) -> Result<Seq<CoreTree>, AllocError>
    ensures taken { OnOk result (so_far cells.new
        ≡ (left origin frames.now test.now (so_far cells.old)).taken) }
    ensures made { IfOk result (λ trees. trees
        ≡ (left origin frames.now test.now (so_far cells.old)).made) }
{
    let v = used(cells, frames, test)?;
    leaving(frames.alloc(), origin, v)
}

/// The same of a test that may be left out.
fn left_unless(
    cells: &mut Cells,
    origin: u32,
    frames: &Frames,
    test: &Option<Boxed<TypedExpression>>,
) -> Result<Seq<CoreTree>, AllocError>
    ensures taken { OnOk result (so_far cells.new
        ≡ (left_unless origin frames.now test.now (so_far cells.old)).taken) }
    ensures made { IfOk result (λ trees. trees
        ≡ (left_unless origin frames.now test.now (so_far cells.old)).made) }
{
    match test {
        None => Ok(Seq::new(frames.alloc())),
        Some(test) => left(cells, origin, frames, test.get()),
    }
}

/// A loop, as a list.
fn looped(
    alloc: Global,
    origin: u32,
    body: Seq<CoreTree>,
    step: Seq<CoreTree>,
) -> Result<Seq<CoreTree>, AllocError>
    ensures { IfOk result (λ trees. trees ≡ repeated origin body step ∷ []) }
{
    let tree = repeated(alloc, origin, body, step)?;
    list_of(alloc, tree)
}

/// A `while`, by its test and its body.
fn while_loop(
    alloc: Global,
    origin: u32,
    test: Seq<CoreTree>,
    body: Seq<CoreTree>,
) -> Result<Seq<CoreTree>, AllocError>
    ensures { IfOk result (λ trees. trees ≡ repeated origin (test ++ body) [] ∷ []) }
{
    let turn = joined(test, body)?;
    looped(alloc, origin, turn, Seq::new(alloc))
}

/// A `do`, which tests behind its body.
fn do_loop(
    alloc: Global,
    origin: u32,
    body: Seq<CoreTree>,
    test: Seq<CoreTree>,
) -> Result<Seq<CoreTree>, AllocError>
    ensures { IfOk result (λ trees. trees ≡ repeated origin body test ∷ []) }
{
    looped(alloc, origin, body, test)
}

/// A `for`, by what stands before it, its test, its body and its step.
fn for_loop(
    alloc: Global,
    origin: u32,
    before: Seq<CoreTree>,
    test: Seq<CoreTree>,
    body: Seq<CoreTree>,
    step: Seq<CoreTree>,
) -> Result<Seq<CoreTree>, AllocError>
    ensures { IfOk result (λ trees. trees
        ≡ block origin (before ++ repeated origin (test ++ body) step ∷ []) ∷ []) }
{
    let turn = joined(test, body)?;
    let turns = repeated(alloc, origin, turn, step)?;
    let inside = with(before, turns)?;
    list_of(alloc, block(origin, inside))
}

/// A `do` behind its body.
fn do_behind(
    cells: &mut Cells,
    origin: u32,
    frames: &Frames,
    body: Seq<CoreTree>,
    test: &TypedExpression,
) -> Result<Seq<CoreTree>, AllocError>
    ensures taken { OnOk result (so_far cells.new
        ≡ (do_behind origin frames.now body test.now (so_far cells.old)).taken) }
    ensures made { IfOk result (λ trees. trees
        ≡ (do_behind origin frames.now body test.now (so_far cells.old)).made) }
{
    let behind = left(cells, origin, frames, test)?;
    do_loop(frames.alloc(), origin, body, behind)
}

/// What stands before the body of a `for`.
#[derive(Drop)]
struct ForFront {
    start: Seq<CoreTree>,
    test: Seq<CoreTree>,
}

/// What stands before the body of a `for`.
fn for_front(
    cells: &mut Cells,
    origin: u32,
    frames: &Frames,
    start: &TypedForStart,
    test: &Option<Boxed<TypedExpression>>,
) -> Result<ForFront, AllocError>
    ensures taken { OnOk result (so_far cells.new
        ≡ (for_front origin frames.now start.now test.now (so_far cells.old)).taken) }
    ensures made { IfOk result (λ front. (front.start, front.test)
        ≡ (for_front origin frames.now start.now test.now (so_far cells.old)).made) }
{
    let start = started(cells, frames, start)?;
    let test = left_unless(cells, origin, frames, test)?;
    Ok(ForFront { start, test })
}

/// A `for` behind its body.
fn for_behind(
    cells: &mut Cells,
    origin: u32,
    frames: &Frames,
    front: ForFront,
    body: Seq<CoreTree>,
    step: &Option<Boxed<TypedExpression>>,
) -> Result<Seq<CoreTree>, AllocError>
    ensures taken { OnOk result (so_far cells.new
        ≡ (for_behind origin frames.now (front.start, front.test) body step.now
        (so_far cells.old)).taken) }
    ensures made { IfOk result (λ trees. trees
        ≡ (for_behind origin frames.now (front.start, front.test) body step.now
        (so_far cells.old)).made) }
{
    let behind = some_unused(cells, frames, step)?;
    for_loop(
        frames.alloc(),
        origin,
        front.start,
        front.test,
        body,
        behind,
    )
}

/// A return.
fn returned(
    cells: &mut Cells,
    origin: u32,
    frames: &Frames,
    place: Location,
    value: &Option<Boxed<TypedExpression>>,
) -> Result<Seq<CoreTree>, AllocError>
    ensures taken { OnOk result (so_far cells.new
        ≡ (returned origin frames.now place value.now (so_far cells.old)).taken) }
    ensures made { IfOk result (λ trees. trees
        ≡ (returned origin frames.now place value.now (so_far cells.old)).made) }
{
    let alloc = frames.alloc();
    match value {
        None => list_of(alloc, leaf(alloc, origin, Head::Leave)),
        Some(value) => {
            let nothing = Seq::new(alloc);
            let before = initialized(cells, origin, frames, place, value.get(), nothing)?;
            with(before, leaf(alloc, origin, Head::Leave))
        }
    }
}

/// A statement of a function with its result in this place.
#[cycle(statement)]
#[tactic(auto, using(crate::proofs::StatementForms::statement_rules))]
fn statement(
    cells: &mut Cells,
    frames: &Frames,
    place: Location,
    s: &TypedStatement,
) -> Result<Seq<CoreTree>, AllocError>
    ensures taken { OnOk result (so_far cells.new
        ≡ (statement_rule frames.now place s.now (so_far cells.old)).taken) }
    ensures made { IfOk result (λ trees. trees
        ≡ (statement_rule frames.now place s.now (so_far cells.old)).made) }
{
    let alloc = frames.alloc();
    match s {
        TypedStatement::Block {
            items,
            place: origin,
        } => {
            let nothing = Seq::new(alloc);
            let inside = in_order(cells, frames, place, items.as_slice(), nothing)?;
            list_of(alloc, block(*origin, inside))
        }
        TypedStatement::Expression { expression, .. } => some_unused(cells, frames, expression),
        TypedStatement::If {
            test,
            yes,
            no,
            place: origin,
        } => {
            let test = test.get();
            let v = used(cells, frames, test)?;
            let first = statement(cells, frames, place, yes.get())?;
            match no {
                None => chosen_unused(alloc, *origin, v, first, Seq::new(alloc)),
                Some(no) => {
                    let second = statement(cells, frames, place, no.get())?;
                    let trees = chosen_unused(alloc, *origin, v, first, second)?;
                    Ok(trees)
                }
            }
        }
        TypedStatement::While {
            test,
            body,
            place: origin,
        } => {
            let head = left(cells, *origin, frames, test.get())?;
            let inside = statement(cells, frames, place, body.get())?;
            while_loop(alloc, *origin, head, inside)
        }
        TypedStatement::Do {
            body,
            test,
            place: origin,
        } => {
            let inside = statement(cells, frames, place, body.get())?;
            do_behind(cells, *origin, frames, inside, test.get())
        }
        TypedStatement::For {
            start,
            test,
            step,
            body,
            place: origin,
        } => {
            let front = for_front(cells, *origin, frames, start, test)?;
            let inside = statement(cells, frames, place, body.get())?;
            for_behind(cells, *origin, frames, front, inside, step)
        }
        TypedStatement::Goto {
            label,
            place: origin,
        } => list_of(alloc, leaf(alloc, *origin, Head::Goto { label: *label })),
        TypedStatement::Break { place: origin } => {
            list_of(alloc, leaf(alloc, *origin, Head::Break))
        }
        TypedStatement::Continue { place: origin } => {
            list_of(alloc, leaf(alloc, *origin, Head::Continue))
        }
        TypedStatement::Return {
            value,
            place: origin,
        } => returned(cells, *origin, frames, place, value),
        TypedStatement::Labeled {
            body,
            place: origin,
            ..
        } => {
            let inside = statement(cells, frames, place, body.get())?;
            list_of(alloc, labeled(*origin, inside))
        }
        TypedStatement::Switch {
            value,
            choices,
            otherwise,
            body,
            place: origin,
            ..
        } => {
            let kept = switch_front(cells, *origin, frames, value.get())?;
            let inside = statement(cells, frames, place, body.get())?;
            switch_behind(alloc, *origin, kept, choices.as_slice(), *otherwise, inside)
        }
    }
}

/// Items of a block, in order, behind what is made already.
#[cycle(statement)]
pub(crate) fn in_order(
    cells: &mut Cells,
    frames: &Frames,
    place: Location,
    items: &[TypedItem],
    front: Seq<CoreTree>,
) -> Result<Seq<CoreTree>, AllocError>
    ensures taken { OnOk result (so_far cells.new
        ≡ (in_order (map (item_rule frames.now place) items.now) (so_far cells.old)).taken) }
    ensures made { IfOk result (λ trees. trees ≡ front
        ++ (in_order (map (item_rule frames.now place) items.now) (so_far cells.old)).made) }
{
    let mut before = front;
    for item in items {
        before = item_trees(cells, frames, place, item, before)?;
    }
    Ok(before)
}

/// An item of a block, behind what is made already. The list comes last: that the calls end is
/// seen by the item.
#[cycle(statement)]
#[tactic(auto, using(crate::proofs::StatementForms::item_trees_rules))]
fn item_trees(
    cells: &mut Cells,
    frames: &Frames,
    place: Location,
    item: &TypedItem,
    front: Seq<CoreTree>,
) -> Result<Seq<CoreTree>, AllocError>
    ensures taken { OnOk result (so_far cells.new
        ≡ (item_rule frames.now place item.now (so_far cells.old)).taken) }
    ensures made { IfOk result (λ trees. trees
        ≡ front ++ (item_rule frames.now place item.now (so_far cells.old)).made) }
{
    match item {
        TypedItem::Declaration(declarators) => {
            declaration(cells, frames, declarators.as_slice(), front)
        }
        TypedItem::Statement(s) => {
            let trees = statement(cells, frames, place, s)?;
            joined(front, trees)
        }
    }
}

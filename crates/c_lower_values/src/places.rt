//! Assignments, from the place that is assigned to on (`c_core_rules`, `specs/Places.antt`). Proved
//! by the checker alone.
ghost use Rattle.std.specs.Prelude.{◌≡◌, ◌∷◌, ◌++◌, [], IfOk, OnOk};
ghost use Rattle.c_core_rules.specs.Trees.{write, pure, valued};
ghost use Rattle.c_core_rules.specs.Values.{element, int};
ghost use Rattle.c_core_rules.specs.Acts.{operated, held, held_before};
ghost use Rattle.c_core_rules.specs.Places.{written, set_scalar, fixed_if, set_element, assigned};
ghost use Rattle.c_core_rules.specs.Places.{updated_at, updated, changed, step_operator};
ghost use Rattle.c_core_rules.specs.Places.{incremented, stepped_at, stepped};
ghost use Rattle.c_lower_values.specs.Found.{so_far};

use crate::acts::{fixed, followed, held, held_before, operated, statements_of};
use crate::cells::Cells;
use c_core_rules::{Location, Place, Valued};
use c_grammar_symbols::{BinaryOperator, StepOperator};
use c_lower_choices::{element, joined, number, pure, with, write};
use cpa_expr::{Expr, copied};
use cpa_ints::{Boxed, Seq};
use cpa_model_trees::CoreTree;
use std::alloc::{AllocError, Global};

/// The place with a copy of its index, read.
fn element_again(alloc: Global, place: Location, index: &Expr) -> Result<Boxed<Expr>, AllocError>
    ensures { IfOk result (λ e. e ≡ element place index.now) }
{
    let index = copied(alloc, index)?;
    element(alloc, place, index)
}

/// An index, and the place that it names, read.
#[derive(Drop)]
struct Indexed {
    index: Boxed<Expr>,
    read: Boxed<Expr>,
}

/// What an index names.
fn read_at(alloc: Global, place: Location, index: Boxed<Expr>) -> Result<Indexed, AllocError>
    ensures index { IfOk result (λ t. t.index ≡ index) }
    ensures read { IfOk result (λ t. t.read ≡ element place index) }
{
    let read = element_again(alloc, place, index.get())?;
    Ok(Indexed { index, read })
}

/// A write to a place behind the statements of the value.
fn write_behind(
    alloc: Global,
    origin: u32,
    place: Location,
    index: Boxed<Expr>,
    v: Valued,
) -> Result<Seq<CoreTree>, AllocError>
    ensures { IfOk result (λ trees. trees ≡ v.statements ++ write origin place index v.value ∷ []) }
{
    let Valued { statements, value } = v;
    let tree = write(alloc, origin, place, index, value)?;
    with(statements, tree)
}

/// A write to what an index names behind the statements of the value.
fn written_to(
    alloc: Global,
    origin: u32,
    place: Location,
    indexed: Indexed,
    v: Valued,
) -> Result<Valued, AllocError>
    ensures { IfOk result (λ w. w
        ≡ valued (v.statements ++ write origin place indexed.index v.value ∷ []) indexed.read) }
{
    let Indexed { index, read } = indexed;
    let statements = write_behind(alloc, origin, place, index, v)?;
    Ok(Valued {
        statements,
        value: read,
    })
}

/// A write to an element behind the statements of the value.
fn written_at(
    alloc: Global,
    origin: u32,
    place: Location,
    index: Boxed<Expr>,
    v: Valued,
) -> Result<Valued, AllocError>
    ensures { IfOk result (λ w. w
        ≡ valued (v.statements ++ write origin place index v.value ∷ []) (element place index)) }
{
    let indexed = read_at(alloc, place, index)?;
    written_to(alloc, origin, place, indexed, v)
}

/// A value with more statements in front of its own.
fn preceded(front: Seq<CoreTree>, v: Valued) -> Result<Valued, AllocError>
    ensures { IfOk result (λ w. w ≡ valued (front ++ v.statements) v.value) }
{
    let Valued { statements, value } = v;
    let statements = joined(front, statements)?;
    Ok(Valued { statements, value })
}

/// A write to a place behind the statements of its index and of the value.
fn written(
    alloc: Global,
    origin: u32,
    place: Location,
    index: Valued,
    v: Valued,
) -> Result<Valued, AllocError>
    ensures { IfOk result (λ w. w ≡ written origin place index v) }
{
    let Valued { statements, value } = index;
    let behind = written_at(alloc, origin, place, value, v)?;
    preceded(statements, behind)
}

/// A scalar that is set.
fn set_scalar(alloc: Global, origin: u32, place: Location, v: Valued) -> Result<Valued, AllocError>
    ensures { IfOk result (λ w. w ≡ set_scalar origin place v) }
{
    let index = number(alloc, 0)?;
    written(alloc, origin, place, index, v)
}

/// An index that is fixed where that is wanted.
pub fn fixed_if(
    cells: &mut Cells,
    origin: u32,
    fixes: bool,
    index: Valued,
) -> Result<Valued, AllocError>
    ensures taken { OnOk result (so_far cells.new
        ≡ (fixed_if origin fixes index (so_far cells.old)).taken) }
    ensures made { IfOk result (λ v. v ≡ (fixed_if origin fixes index (so_far cells.old)).made) }
{
    if fixes {
        fixed(cells, origin, index)
    } else {
        Ok(index)
    }
}

/// An index behind which more statements stand, fixed where that is wanted.
fn fixed_behind(
    cells: &mut Cells,
    origin: u32,
    fixes: bool,
    index: Valued,
    behind: Seq<CoreTree>,
) -> Result<Valued, AllocError>
    ensures taken { OnOk result (so_far cells.new
        ≡ (fixed_if origin fixes (valued (index.statements ++ behind) index.value)
        (so_far cells.old)).taken) }
    ensures made { IfOk result (λ v. v
        ≡ (fixed_if origin fixes (valued (index.statements ++ behind) index.value)
        (so_far cells.old)).made) }
{
    let both = followed(index, behind)?;
    fixed_if(cells, origin, fixes, both)
}

/// An element that is set, its index held where the value has statements.
fn set_held(
    cells: &mut Cells,
    origin: u32,
    keeps: bool,
    place: Location,
    index: Valued,
    v: Valued,
) -> Result<Valued, AllocError>
    ensures taken { OnOk result (so_far cells.new
        ≡ (fixed_if origin keeps (valued (index.statements ++ v.statements) index.value)
        (so_far cells.old)).taken) }
    ensures made { IfOk result (λ w. w ≡ written origin place
        (fixed_if origin keeps (valued (index.statements ++ v.statements) index.value)
        (so_far cells.old)).made (pure v.value)) }
{
    let Valued { statements, value } = v;
    let kept = fixed_behind(cells, origin, keeps, index, statements)?;
    let alloc = cells.alloc();
    written(alloc, origin, place, kept, pure(alloc, value))
}

/// An element that is set; its index is fixed where the value is used.
fn set_element(
    cells: &mut Cells,
    origin: u32,
    keeps: bool,
    place: Location,
    index: Valued,
    v: Valued,
) -> Result<Valued, AllocError>
    ensures taken { OnOk result (so_far cells.new
        ≡ (set_element origin keeps place index v (so_far cells.old)).taken) }
    ensures made { IfOk result (λ w. w
        ≡ (set_element origin keeps place index v (so_far cells.old)).made) }
{
    let first = held_before(cells, origin, index, &v)?;
    set_held(cells, origin, keeps, place, first, v)
}

/// l = v
fn assigned(
    cells: &mut Cells,
    origin: u32,
    keeps: bool,
    place: Place,
    v: Valued,
) -> Result<Valued, AllocError>
    ensures taken { OnOk result (so_far cells.new
        ≡ (assigned origin keeps place v (so_far cells.old)).taken) }
    ensures made { IfOk result (λ w. w ≡ (assigned origin keeps place v (so_far cells.old)).made) }
{
    match place {
        Place::Scalar(location) => set_scalar(cells.alloc(), origin, location, v),
        Place::Element(location, index) => set_element(cells, origin, keeps, location, index, v),
        Place::Neither => Ok(v),
    }
}

/// What a place holds, held where a later value has statements.
fn old_before(
    cells: &mut Cells,
    origin: u32,
    place: Location,
    index: &Expr,
    later: &Valued,
) -> Result<Valued, AllocError>
    ensures taken { OnOk result (so_far cells.new
        ≡ (held_before origin (pure (element place index.now)) later.now
        (so_far cells.old)).taken) }
    ensures made { IfOk result (λ v. v
        ≡ (held_before origin (pure (element place index.now)) later.now (so_far cells.old)).made) }
{
    let alloc = cells.alloc();
    let read = element_again(alloc, place, index)?;
    held_before(cells, origin, pure(alloc, read), later)
}

/// l operator v, the index fixed.
fn new_value(
    cells: &mut Cells,
    origin: u32,
    operator: BinaryOperator,
    place: Location,
    index: &Expr,
    v: Valued,
) -> Result<Valued, AllocError>
    ensures taken { OnOk result (so_far cells.new
        ≡ (held_before origin (pure (element place index.now)) v (so_far cells.old)).taken) }
    ensures made { IfOk result (λ w. w ≡ operated operator
        (held_before origin (pure (element place index.now)) v (so_far cells.old)).made v) }
{
    let old = old_before(cells, origin, place, index, &v)?;
    operated(cells.alloc(), operator, old, v)
}

/// l operator= v, the index fixed.
fn updated_at(
    cells: &mut Cells,
    origin: u32,
    operator: BinaryOperator,
    place: Location,
    index: Valued,
    v: Valued,
) -> Result<Valued, AllocError>
    ensures taken { OnOk result (so_far cells.new
        ≡ (updated_at origin operator place index v (so_far cells.old)).taken) }
    ensures made { IfOk result (λ w. w
        ≡ (updated_at origin operator place index v (so_far cells.old)).made) }
{
    let new = new_value(cells, origin, operator, place, index.value.get(), v)?;
    written(cells.alloc(), origin, place, index, new)
}

/// The same of any place.
fn updated(
    cells: &mut Cells,
    origin: u32,
    operator: BinaryOperator,
    place: Place,
    v: Valued,
) -> Result<Valued, AllocError>
    ensures taken { OnOk result (so_far cells.new
        ≡ (updated origin operator place v (so_far cells.old)).taken) }
    ensures made { IfOk result (λ w. w
        ≡ (updated origin operator place v (so_far cells.old)).made) }
{
    match place {
        Place::Scalar(location) => {
            let index = number(cells.alloc(), 0)?;
            updated_at(cells, origin, operator, location, index, v)
        }
        Place::Element(location, index) => updated_at(cells, origin, operator, location, index, v),
        Place::Neither => Ok(v),
    }
}

/// An assignment of either kind.
pub fn changed(
    cells: &mut Cells,
    origin: u32,
    keeps: bool,
    operator: Option<BinaryOperator>,
    place: Place,
    v: Valued,
) -> Result<Valued, AllocError>
    ensures taken { OnOk result (so_far cells.new
        ≡ (changed origin keeps operator place v (so_far cells.old)).taken) }
    ensures made { IfOk result (λ w. w
        ≡ (changed origin keeps operator place v (so_far cells.old)).made) }
{
    match operator {
        None => assigned(cells, origin, keeps, place, v),
        Some(operator) => updated(cells, origin, operator, place, v),
    }
}

/// The operator of ++ or --.
fn step_operator(operator: StepOperator) -> BinaryOperator
    ensures { result ≡ step_operator operator }
{
    match operator {
        StepOperator::Increment => BinaryOperator::Add,
        StepOperator::Decrement => BinaryOperator::Subtract,
    }
}

/// ++l and --l, the index fixed.
pub fn incremented(
    cells: &mut Cells,
    origin: u32,
    operator: StepOperator,
    place: Place,
) -> Result<Valued, AllocError>
    ensures taken { OnOk result (so_far cells.new
        ≡ (incremented origin operator place (so_far cells.old)).taken) }
    ensures made { IfOk result (λ v. v
        ≡ (incremented origin operator place (so_far cells.old)).made) }
{
    let one = number(cells.alloc(), 1)?;
    updated(cells, origin, step_operator(operator), place, one)
}

/// What a place holds, in a fresh cell behind statements.
fn old_held(
    cells: &mut Cells,
    origin: u32,
    place: Location,
    statements: Seq<CoreTree>,
    index: &Expr,
) -> Result<Valued, AllocError>
    ensures taken { OnOk result (so_far cells.new
        ≡ (held origin (valued statements (element place index.now)) (so_far cells.old)).taken) }
    ensures made { IfOk result (λ v. v
        ≡ (held origin (valued statements (element place index.now)) (so_far cells.old)).made) }
{
    let value = element_again(cells.alloc(), place, index)?;
    held(cells, origin, Valued { statements, value })
}

/// A place that is stepped behind its old value.
fn stepped_behind(
    cells: &mut Cells,
    origin: u32,
    operator: StepOperator,
    place: Location,
    old: Valued,
    index: Boxed<Expr>,
) -> Result<Valued, AllocError>
    ensures taken { OnOk result (so_far cells.new
        ≡ (updated_at origin (step_operator operator) place
        (pure index) (pure (int 1)) (so_far cells.old)).taken) }
    ensures made { IfOk result (λ v. v ≡ valued (old.statements
        ++ (updated_at origin (step_operator operator) place (pure index) (pure (int 1))
        (so_far cells.old)).made.statements) old.value) }
{
    let alloc = cells.alloc();
    let index = pure(alloc, index);
    let one = number(alloc, 1)?;
    let new = updated_at(cells, origin, step_operator(operator), place, index, one)?;
    followed(old, statements_of(new))
}

/// l++ and l--, the index fixed: the value is the old one, in a fresh cell.
fn stepped_at(
    cells: &mut Cells,
    origin: u32,
    operator: StepOperator,
    place: Location,
    index: Valued,
) -> Result<Valued, AllocError>
    ensures taken { OnOk result (so_far cells.new
        ≡ (stepped_at origin operator place index (so_far cells.old)).taken) }
    ensures made { IfOk result (λ v. v
        ≡ (stepped_at origin operator place index (so_far cells.old)).made) }
{
    let Valued { statements, value } = index;
    let old = old_held(cells, origin, place, statements, value.get())?;
    stepped_behind(cells, origin, operator, place, old, value)
}

/// The same of any place.
pub fn stepped(
    cells: &mut Cells,
    origin: u32,
    operator: StepOperator,
    place: Place,
) -> Result<Valued, AllocError>
    ensures taken { OnOk result (so_far cells.new
        ≡ (stepped origin operator place (so_far cells.old)).taken) }
    ensures made { IfOk result (λ v. v ≡ (stepped origin operator place (so_far cells.old)).made) }
{
    match place {
        Place::Scalar(location) => {
            let index = number(cells.alloc(), 0)?;
            stepped_at(cells, origin, operator, location, index)
        }
        Place::Element(location, index) => stepped_at(cells, origin, operator, location, index),
        Place::Neither => number(cells.alloc(), 0),
    }
}

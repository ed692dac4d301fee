//! The core of a `switch`, as `statement_step` of `specs/Statements.antt` of `c_core_rules` has it
//! at `Switch`.
ghost use Rattle.std.specs.Prelude.{◌≡◌, ◌++◌, ◌∷◌, [], map, OnOk, IfOk};
ghost use Rattle.c_core_rules.specs.Statements.{selecting, selected_by};
ghost use Rattle.c_core_rules.specs.Trees.{leaf};
ghost use Rattle.cpa_model_trees.specs.declared.tree.Head.TheVariants as head;
ghost use Rattle.c_lower_values.specs.Found.{so_far};
ghost use Rattle.c_lower_trees.specs.Items.{switch_front};

use c_core_rules::Valued;
use c_lower_expressions::{Frames, used};
use c_lower_values::{Cells, choice, held_promoted, joined, leaf, list_of, with};
use c_types_rules::{Choice, TypedExpression};
use cpa_expr::{CmpOp, Expr, comparison, constant, copied, type_of};
use cpa_ints::{Seq, wrap};
use cpa_model_trees::{CoreTree, Head};
use std::alloc::{AllocError, Global};

/// The value of a switch, promoted and held.
pub(crate) fn switch_front(
    cells: &mut Cells,
    origin: u32,
    frames: &Frames,
    value: &TypedExpression,
) -> Result<Valued, AllocError>
    ensures taken { OnOk result (so_far cells.new
        ≡ (switch_front origin frames.now value.now (so_far cells.old)).taken) }
    ensures made { IfOk result (λ v. v
        ≡ (switch_front origin frames.now value.now (so_far cells.old)).made) }
{
    let v = used(cells, frames, value)?;
    held_promoted(cells, origin, v)
}

/// A goto to a label, as a list.
fn going(alloc: Global, origin: u32, label: u32) -> Result<Seq<CoreTree>, AllocError>
    ensures { IfOk result (λ trees. trees ≡ leaf origin (head.Goto label) ∷ []) }
{
    list_of(alloc, leaf(alloc, origin, Head::Goto { label }))
}

/// A goto to the label of a case, where the value is that of the case.
fn selecting(alloc: Global, origin: u32, v: &Expr, one: Choice) -> Result<CoreTree, AllocError>
    ensures { IfOk result (λ tree. tree ≡ selecting origin v.now one) }
{
    let ty = type_of(v);
    let left = copied(alloc, v)?;
    let right = constant(alloc, ty, wrap(ty, one.value))?;
    let test = comparison(alloc, CmpOp::Eq, ty, left, right)?;
    let yes = going(alloc, origin, one.label)?;
    choice(alloc, origin, test, yes, Seq::new(alloc))
}

/// The gotos to the labels of cases, in order.
fn selecting_each(
    alloc: Global,
    origin: u32,
    v: &Expr,
    choices: &[Choice],
) -> Result<Seq<CoreTree>, AllocError>
    ensures { IfOk result (λ trees. trees ≡ map (selecting origin v.now) choices.now) }
{
    let mut trees = Seq::new(alloc);
    for one in choices {
        trees.push(selecting(alloc, origin, v, *one)?)?;
    }
    Ok(trees)
}

/// A switch on a value that is held, by its body.
pub(crate) fn switch_behind(
    alloc: Global,
    origin: u32,
    kept: Valued,
    choices: &[Choice],
    otherwise: u32,
    inside: Seq<CoreTree>,
) -> Result<Seq<CoreTree>, AllocError>
    ensures { IfOk result (λ trees. trees ≡ kept.statements
        ++ selected_by origin kept.value choices.now otherwise inside) }
{
    let asked = selecting_each(alloc, origin, kept.value.get(), choices)?;
    let front = joined(kept.statements, asked)?;
    let front = with(front, leaf(alloc, origin, Head::Goto { label: otherwise }))?;
    let body = with(inside, leaf(alloc, origin, Head::Labeled))?;
    joined(front, body)
}

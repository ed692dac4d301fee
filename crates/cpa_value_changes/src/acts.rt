//! What an act changes of the known values of cells, by `specs/Acts.antt`. Each function says what
//! changes, and nothing where the act cannot be done.

ghost use Rattle.std.specs.Prelude.{◌≡◌, ℤ, List, Option, ◌&&◌, ◌||◌, None, Some};
ghost use Rattle.std.specs.Prelude.{option_map, if◌then◌else◌};
ghost use Rattle.cpa_expr.specs.declared.tree.Expr.{out-Expr};
ghost use Rattle.cpa_expr.specs.Values.{is_nonzero};
ghost use Rattle.cpa_model.specs.Standing.{same_bool};
ghost use Rattle.cpa_folds.specs.Tracking.{is_tracked};
ghost use Rattle.cpa_value_changes.specs.KnownValues.{known_value};
ghost use Rattle.cpa_value_changes.specs.Acts.{is_trap, written, assigned};
ghost use Rattle.cpa_value_changes.specs.Acts.{told, first_told, set_told};
ghost use Rattle.cpa_value_changes.specs.Acts.{equated, zeroed, says_equal, learned, assumed};
ghost use Rattle.cpa_value_changes.specs.Acts.{after_act};
ghost use Rattle.cpa_value_changes.specs.Tables.{changed};

use crate::changes::Change;
use crate::known::{Gap, known_value};
use crate::table::KnownCells;
use cpa_expr::{CmpOp, Expr, is_nonzero};
use cpa_folds::{Scalar, read_of, scalar_of};
use cpa_model::Act;
use cpa_value_tracked::Tracked;

/// What a test says of a scalar.
#[derive(Clone, Copy)]
pub struct ScalarValue {
    pub read: Scalar,
    pub value: i128,
}

/// What the act changes, where it can be done.
pub fn change_by(act: &Act, cells: &KnownCells, tracked: &Tracked) -> Option<Change>
    ensures { option_map (λ c. changed c cells.now) result
        ≡ after_act (is_tracked tracked.now) act.now cells.now }
{
    match act {
        Act::Assign {
            base,
            len,
            index,
            value,
        } => assign(
            *base,
            *len,
            known_value(index, cells),
            known_value(value, cells),
        ),
        Act::Assume { test, holds } => assume(test, *holds, cells, tracked),
        Act::Input { cell } => Some(Change::of_cell(*cell as usize, None)),
        _ => Some(Change::nothing()),
    }
}

/// A write.
fn assign(base: u32, len: u32, index: Result<i128, Gap>, value: Result<i128, Gap>) -> Option<Change>
    ensures { (cells : List (Option ℤ)) → option_map (λ c. changed c cells) result
        ≡ assigned base len index value cells }
{
    if is_trap(index) || is_trap(value) {
        return None;
    }
    match index {
        Ok(at) => write(base, len, at, value.ok()),
        Err(_) => Some(Change::of_array(base, len)),
    }
}

/// Whether an evaluation traps. One whose value is only unknown does not.
fn is_trap(known: Result<i128, Gap>) -> bool
    ensures { result ≡ is_trap known }
{
    match known {
        Err(Gap::Trap) => true,
        _ => false,
    }
}

/// The value for the cell at a known index.
fn write(base: u32, len: u32, at: i128, value: Option<i128>) -> Option<Change>
    ensures { (cells : List (Option ℤ)) → option_map (λ c. changed c cells) result
        ≡ written base len at value cells }
{
    if 0 <= at && at < len as i128 {
        Some(Change::of_cell(base as usize + at as usize, value))
    } else {
        None
    }
}

/// A test.
fn assume(test: &Expr, holds: bool, cells: &KnownCells, tracked: &Tracked) -> Option<Change>
    ensures { option_map (λ c. changed c cells.now) result
        ≡ assumed (is_tracked tracked.now) test.now holds (known_value test.now cells.now)
        cells.now }
{
    match known_value(test, cells) {
        Err(Gap::Trap) => None,
        Err(Gap::Unknown) => learn(test, holds, cells, tracked),
        Ok(value) => nothing_where(is_same(is_nonzero(value), holds)),
    }
}

/// Whether the truth of a test is the one that is assumed.
fn is_same(a: bool, b: bool) -> bool
    ensures { result ≡ same_bool a b }
{
    a == b
}

/// No change, where the act can be done.
fn nothing_where(can: bool) -> Option<Change>
    ensures { (cells : List (Option ℤ)) → option_map (λ c. changed c cells) result
        ≡ (if can then Some cells else None) }
{
    if can { Some(Change::nothing()) } else { None }
}

/// What an unknown test says of cells.
fn learn(test: &Expr, holds: bool, cells: &KnownCells, tracked: &Tracked) -> Option<Change>
    ensures { option_map (λ c. changed c cells.now) result
        ≡ learned (is_tracked tracked.now) (out-Expr test.now) holds cells.now }
{
    match test {
        Expr::Cmp {
            op,
            left,
            right,
            ..
        } => {
            if says_equal(*op, holds) {
                equate(left.get(), right.get(), cells, tracked)
            } else {
                Some(Change::nothing())
            }
        }
        Expr::Read { .. } => {
            if holds {
                Some(Change::nothing())
            } else {
                Some(zero(scalar_of(test), tracked))
            }
        }
        _ => Some(Change::nothing()),
    }
}

/// Whether the comparison, where it holds or not, says that its sides are equal.
fn says_equal(op: CmpOp, holds: bool) -> bool
    ensures { result ≡ says_equal op holds }
{
    match op {
        CmpOp::Eq => holds,
        CmpOp::Ne => !holds,
        _ => false,
    }
}

/// Both sides are equal.
fn equate(left: &Expr, right: &Expr, cells: &KnownCells, tracked: &Tracked) -> Option<Change>
    ensures { option_map (λ c. changed c cells.now) result
        ≡ equated (is_tracked tracked.now) left.now right.now cells.now }
{
    let of_left = told(read_of(left), known_value(right, cells), tracked);
    let of_right = told(read_of(right), known_value(left, cells), tracked);
    set_told(first_told(of_left, of_right))
}

/// What the equality of a side with this says of a tracked scalar.
fn told(read: Option<Scalar>, known: Result<i128, Gap>, tracked: &Tracked) -> Option<ScalarValue>
    ensures { result ≡ told (is_tracked tracked.now) read known }
{
    match read {
        Some(read) => match known {
            Ok(value) => {
                if tracked.has(read.cell) {
                    Some(ScalarValue { read, value })
                } else {
                    None
                }
            }
            Err(_) => None,
        },
        None => None,
    }
}

/// The first thing that is told, and the other one only where the first tells nothing.
fn first_told(first: Option<ScalarValue>, other: Option<ScalarValue>) -> Option<ScalarValue>
    ensures { result ≡ first_told first other }
{
    match first {
        Some(it) => Some(it),
        None => other,
    }
}

/// The scalar has the value, where its type has.
fn set_told(told: Option<ScalarValue>) -> Option<Change>
    ensures { (cells : List (Option ℤ)) → option_map (λ c. changed c cells) result
        ≡ set_told told cells }
{
    match told {
        None => Some(Change::nothing()),
        Some(it) => {
            if it.read.ty.least() <= it.value && it.value <= it.read.ty.greatest() {
                Some(Change::of_cell(it.read.cell as usize, Some(it.value)))
            } else {
                None
            }
        }
    }
}

/// A tracked scalar is zero.
fn zero(read: Option<Scalar>, tracked: &Tracked) -> Change
    ensures { (cells : List (Option ℤ)) → changed result cells
        ≡ zeroed (is_tracked tracked.now) read cells }
{
    match read {
        None => Change::nothing(),
        Some(read) => {
            if tracked.has(read.cell) {
                Change::of_cell(read.cell as usize, Some(0))
            } else {
                Change::nothing()
            }
        }
    }
}

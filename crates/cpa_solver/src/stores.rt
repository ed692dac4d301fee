//! The store that the values of a formula's variables give, `store_at` of `cpa_blast`.
//! Proved with `proofs/Numbers.antt`.

ghost use Rattle.std.specs.Prelude.{◌≡◌, ◌+◌, ◌*◌, ◌≤◌, ◌<◌, ◌^◌, ◌++◌, ◌∷◌, []};
ghost use Rattle.std.specs.Prelude.{length, IfOk, OnOk};
ghost use Rattle.cpa_blast_gates.specs.Clauses.{assigned};
ghost use Rattle.cpa_blast_words.specs.Truths.{bit, values, number};
ghost use Rattle.cpa_blast.specs.Formulas.{variables_from, value_at, store_at};

use cpa_expr::Store;
use cpa_ints::{IntType, Seq, wrap};
use std::alloc::{AllocError, Global};

/// The value of a variable; one without a value is false.
fn is_true(truths: &[bool], variable: usize) -> bool
    ensures { result ≡ assigned truths.now variable }
{
    match truths.get(variable) {
        Some(truth) => *truth,
        None => false,
    }
}

/// 1 where it is true, else 0.
fn bit(truth: bool) -> u64
    ensures value { result ≡ bit truth }
    ensures small { result ≤ 1 }
{
    if truth { 1 } else { 0 }
}

/// The number with one more low bit.
fn with_bit(truth: bool, number: u64) -> u64
    requires { number < 2 ^ 63 }
    ensures { result ≡ bit truth + 2 * number }
{
    bit(truth) + 2 * number
}

/// The number of so many variables from the first one on, the low bit first.
fn number_at(truths: &[bool], first: u32, width: u32) -> u64
    requires { width ≤ 64 }
    ensures number { result ≡ number (values (assigned truths.now) (variables_from first width)) }
    ensures below { result < 2 ^ width }
{
    let mut number = 0;
    let mut place = width;
    while 0 < place {
        place -= 1;
        let truth = is_true(truths, first as usize + place as usize);
        number = with_bit(truth, number);
    }
    number
}

/// The number of a cell whose low bit is this variable.
fn value_at(ty: IntType, first: u32, truths: &[bool]) -> i128
    ensures { result ≡ value_at ty first truths.now }
{
    wrap(ty, number_at(truths, first, ty.width()) as i128)
}

/// Adds the number of a cell at the end.
fn push_value(
    values: &mut Seq<i128>,
    ty: IntType,
    first: u32,
    truths: &[bool],
) -> Result<(), AllocError>
    ensures { OnOk result (values.new ≡ values.old ++ value_at ty first truths.now ∷ []) }
{
    values.push(value_at(ty, first, truths))
}

/// The store that the values of the variables give, where these are the first bits of the cells.
pub(crate) fn store_at(
    alloc: Global,
    cells: &[IntType],
    firsts: &[u32],
    truths: &[bool],
) -> Result<Store, AllocError>
    requires { length firsts.now ≡ length cells.now }
    ensures { IfOk result (λ s. s.values ≡ store_at cells.now firsts.now truths.now) }
{
    let mut values = Seq::new(alloc);
    for i in 0..cells.len() {
        push_value(&mut values, cells[i], firsts[i], truths)?;
    }
    Ok(Store { values })
}

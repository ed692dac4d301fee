//! What is made at one place of two words: a bit, and what is carried to the next place, as
//! specs/Rows defines it; what they mean is proved in specs/lemmas/Columns.

ghost use Rattle.std.specs.Prelude.{◌≡◌, IfOk};
ghost use Rattle.cpa_blast_gates.specs.Nets.{built};
ghost use Rattle.cpa_blast_words.specs.Rows.{and_column, or_column, xor_column, choice_column};
ghost use Rattle.cpa_blast_words.specs.Rows.{sum_column, less_column, equal_column, row_in};

use cpa_blast_gates::Net;
use cpa_cnf::Lit;
use std::alloc::AllocError;

/// What is made of the bits x and y of two words at one place, and of the carry.
#[derive(Clone, Copy)]
pub enum Row {
    /// Both; the carry stays.
    And,
    /// One or both; the carry stays.
    Or,
    /// One and not the other; the carry stays.
    Xor,
    /// x where the carry is true, else y; the carry stays.
    Choose,
    /// The sum with the carry, and its carry.
    Sum,
    /// x, and what is borrowed where y and the carry are taken from x.
    Less,
    /// x, and whether the carry is true and the two are equal.
    Equal,
}

/// A bit, and what is carried on.
#[derive(Clone, Copy)]
pub(crate) struct Column {
    pub(crate) bit: Lit,
    pub(crate) carry: Lit,
}

/// Both of two bits.
fn and_column(net: &mut Net, carry: Lit, x: Lit, y: Lit) -> Result<Column, AllocError>
    ensures { IfOk result (λ c. built net.new c ≡ and_column net.old carry x y) }
{
    let bit = net.and(x, y)?;
    Ok(Column { bit, carry })
}

/// One of two bits, or both.
fn or_column(net: &mut Net, carry: Lit, x: Lit, y: Lit) -> Result<Column, AllocError>
    ensures { IfOk result (λ c. built net.new c ≡ or_column net.old carry x y) }
{
    let bit = net.or(x, y)?;
    Ok(Column { bit, carry })
}

/// One of two bits and not both.
fn xor_column(net: &mut Net, carry: Lit, x: Lit, y: Lit) -> Result<Column, AllocError>
    ensures { IfOk result (λ c. built net.new c ≡ xor_column net.old carry x y) }
{
    let bit = net.xor(x, y)?;
    Ok(Column { bit, carry })
}

/// The bit that the carry picks.
fn choice_column(net: &mut Net, carry: Lit, x: Lit, y: Lit) -> Result<Column, AllocError>
    ensures { IfOk result (λ c. built net.new c ≡ choice_column net.old carry x y) }
{
    let bit = net.choice(carry, x, y)?;
    Ok(Column { bit, carry })
}

/// A full adder.
fn sum_column(net: &mut Net, carry: Lit, x: Lit, y: Lit) -> Result<Column, AllocError>
    ensures { IfOk result (λ c. built net.new c ≡ sum_column net.old carry x y) }
{
    let unlike = net.xor(x, y)?;
    let bit = net.xor(unlike, carry)?;
    let carry = net.majority(x, y, carry)?;
    Ok(Column { bit, carry })
}

/// A borrow.
fn less_column(net: &mut Net, carry: Lit, x: Lit, y: Lit) -> Result<Column, AllocError>
    ensures { IfOk result (λ c. built net.new c ≡ less_column net.old carry x y) }
{
    let carry = net.majority(x.opposite(), y, carry)?;
    Ok(Column { bit: x, carry })
}

/// Whether all bits so far are equal.
fn equal_column(net: &mut Net, carry: Lit, x: Lit, y: Lit) -> Result<Column, AllocError>
    ensures { IfOk result (λ c. built net.new c ≡ equal_column net.old carry x y) }
{
    let unlike = net.xor(x, y)?;
    let carry = net.and(carry, unlike.opposite())?;
    Ok(Column { bit: x, carry })
}

/// What the row makes at one place.
#[tactic(auto, unfolding(crate::specs::Rows::row_in))]
pub(crate) fn row_column(
    net: &mut Net,
    row: Row,
    carry: Lit,
    x: Lit,
    y: Lit,
) -> Result<Column, AllocError>
    ensures { IfOk result (λ c. built net.new c ≡ row_in row net.old carry x y) }
{
    match row {
        Row::And => and_column(net, carry, x, y),
        Row::Or => or_column(net, carry, x, y),
        Row::Xor => xor_column(net, carry, x, y),
        Row::Choose => choice_column(net, carry, x, y),
        Row::Sum => sum_column(net, carry, x, y),
        Row::Less => less_column(net, carry, x, y),
        Row::Equal => equal_column(net, carry, x, y),
    }
}

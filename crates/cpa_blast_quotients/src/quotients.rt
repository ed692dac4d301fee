//! Quotients and remainders at a type, by the magnitudes of the operands, as specs/Quotients has
//! it; laws.rt says what they mean. Where memory runs out, more gates may stand than before.

ghost use Rattle.std.specs.Prelude.{◌≡◌, length, IfOk};
ghost use Rattle.cpa_blast_gates.specs.Nets.{built};
ghost use Rattle.cpa_blast_quotients.specs.Quotients.{signed_word, divided_magnitudes, quotient};
ghost use Rattle.cpa_blast_quotients.specs.Quotients.{remainder};

use crate::dividers::{Divided, divide};
use cpa_blast_gates::{Net, never};
use cpa_blast_words::{filling, repeated, sum_word, xor_word};
use cpa_cnf::Lit;
use cpa_ints::{IntType, Seq};
use std::alloc::{AllocError, Global};

/// The two's complement where the sign is true, else the word.
#[tactic(auto, unfolding(crate::specs::Quotients::signed_word))]
fn signed_word(alloc: Global, net: &mut Net, sign: Lit, xs: &[Lit]) -> Result<Seq<Lit>, AllocError>
    ensures built { IfOk result (λ w. built net.new w ≡ signed_word net.old sign xs.now) }
    ensures long { IfOk result (λ w. length w ≡ length xs.now) }
{
    let signs = repeated(alloc, xs.len(), sign)?;
    let turned = xor_word(alloc, net, xs, signs.as_slice())?;
    let zeros = repeated(alloc, xs.len(), never())?;
    sum_word(alloc, net, sign, turned.as_slice(), zeros.as_slice())
}

/// The magnitudes of two words of the type, divided.
#[tactic(auto, unfolding(crate::specs::Quotients::divided_magnitudes))]
fn divided_magnitudes(
    alloc: Global,
    net: &mut Net,
    ty: IntType,
    xs: &[Lit],
    ys: &[Lit],
) -> Result<Divided, AllocError>
    requires { length xs.now ≡ length ys.now }
    ensures built { IfOk result (λ d. built net.new d
        ≡ divided_magnitudes ty net.old xs.now ys.now) }
    ensures quotient_long { IfOk result (λ d. length d.quotient ≡ length xs.now) }
    ensures remainder_long { IfOk result (λ d. length d.remainder ≡ length xs.now) }
{
    let left = signed_word(alloc, net, filling(ty, xs), xs)?;
    let right = signed_word(alloc, net, filling(ty, ys), ys)?;
    divide(alloc, net, left.as_slice(), right.as_slice())
}

/// The quotient, rounded toward zero and modulo 2 to the power of the width, where the divisor is
/// not 0.
#[tactic(auto, unfolding(crate::specs::Quotients::quotient))]
pub fn quotient(
    alloc: Global,
    net: &mut Net,
    ty: IntType,
    xs: &[Lit],
    ys: &[Lit],
) -> Result<Seq<Lit>, AllocError>
    requires { length xs.now ≡ length ys.now }
    ensures built { IfOk result (λ w. built net.new w ≡ quotient ty net.old xs.now ys.now) }
    ensures long { IfOk result (λ w. length w ≡ length xs.now) }
{
    let divided = divided_magnitudes(alloc, net, ty, xs, ys)?;
    let sign = net.xor(filling(ty, xs), filling(ty, ys))?;
    signed_word(alloc, net, sign, divided.quotient.as_slice())
}

/// What the quotient leaves, with the sign of the dividend, where the divisor is not 0.
#[tactic(auto, unfolding(crate::specs::Quotients::remainder))]
pub fn remainder(
    alloc: Global,
    net: &mut Net,
    ty: IntType,
    xs: &[Lit],
    ys: &[Lit],
) -> Result<Seq<Lit>, AllocError>
    requires { length xs.now ≡ length ys.now }
    ensures built { IfOk result (λ w. built net.new w ≡ remainder ty net.old xs.now ys.now) }
    ensures long { IfOk result (λ w. length w ≡ length xs.now) }
{
    let divided = divided_magnitudes(alloc, net, ty, xs, ys)?;
    signed_word(alloc, net, filling(ty, xs), divided.remainder.as_slice())
}

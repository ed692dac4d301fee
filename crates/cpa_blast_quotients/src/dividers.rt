//! The divider of natural numbers, from the high bits of the dividend down, as specs/Dividers
//! defines it; what it means is proved in specs/lemmas/DividerMeanings.

ghost use Rattle.std.specs.Prelude.{◌≡◌, ◌+◌, length, IfOk};
ghost use Rattle.cpa_blast_gates.specs.Nets.{built};
ghost use Rattle.cpa_blast_quotients.specs.Dividers.{no_bit, stage, divide};

use cpa_blast_gates::{Net, always};
use cpa_blast_words::{Row, Walked, choose_word, joined, opposites, walk};
use cpa_cnf::Lit;
use cpa_ints::Seq;
use std::alloc::{AllocError, Global};

/// A quotient, and what it leaves.
#[derive(Drop)]
pub struct Divided {
    pub quotient: Seq<Lit>,
    pub remainder: Seq<Lit>,
}

/// Whether no bit is true, from the high bits down, so that the parts of a word above each of its
/// places share their gates.
fn no_bit(net: &mut Net, xs: &[Lit]) -> Result<Lit, AllocError>
    ensures { IfOk result (λ l. built net.new l ≡ no_bit net.old xs.now) }
{
    let mut none = always();
    let mut place = xs.len();
    while place > 0 {
        place -= 1;
        none = net.and(none, xs[place].opposite())?;
    }
    Ok(none)
}

/// One more bit of the dividend: what was left with the bit below it, less the divisor where that
/// fits. The divisor's bits are those up to this place, and those above it.
#[tactic(auto, unfolding(crate::specs::Dividers::stage))]
fn stage(
    alloc: Global,
    net: &mut Net,
    bit: Lit,
    above: &Divided,
    low: &[Lit],
    high: &[Lit],
) -> Result<Divided, AllocError>
    requires { length low.now ≡ length above.now.remainder + 1 }
    ensures built { IfOk result (λ d. built net.new d
        ≡ stage net.old bit above.now low.now high.now) }
    ensures quotient_long { IfOk result (λ d. length d.quotient
        ≡ length above.now.quotient + 1) }
    ensures remainder_long { IfOk result (λ d. length d.remainder
        ≡ length above.now.remainder + 1) }
{
    let row = joined(alloc, bit, above.remainder.as_slice())?;
    let flipped = opposites(alloc, low)?;
    let Walked { bits, carry } = walk(
        alloc,
        net,
        Row::Sum,
        always(),
        row.as_slice(),
        flipped.as_slice(),
    )?;
    let clear = no_bit(net, high)?;
    let fits = net.and(carry, clear)?;
    let remainder = choose_word(alloc, net, fits, bits.as_slice(), row.as_slice())?;
    let quotient = joined(alloc, fits, above.quotient.as_slice())?;
    Ok(Divided {
        quotient,
        remainder,
    })
}

/// The quotient of two words of one length as natural numbers, and what it leaves, where the
/// divisor is not 0.
pub fn divide(
    alloc: Global,
    net: &mut Net,
    xs: &[Lit],
    divisor: &[Lit],
) -> Result<Divided, AllocError>
    requires { length xs.now ≡ length divisor.now }
    ensures built { IfOk result (λ d. built net.new d ≡ divide net.old xs.now divisor.now) }
    ensures quotient_long { IfOk result (λ d. length d.quotient ≡ length xs.now) }
    ensures remainder_long { IfOk result (λ d. length d.remainder ≡ length xs.now) }
{
    let mut divided = Divided {
        quotient: Seq::new(alloc),
        remainder: Seq::new(alloc),
    };
    let mut place = xs.len();
    while place > 0 {
        place -= 1;
        let done = xs.len() - place;
        divided = stage(
            alloc,
            net,
            xs[place],
            &divided,
            &divisor[..done],
            &divisor[done..],
        )?;
    }
    Ok(divided)
}

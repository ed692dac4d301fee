//! The product of two words, from the high bits of the second one down, as specs/Products defines
//! it; what it means is proved in specs/lemmas/ProductMeanings.

ghost use Rattle.std.specs.Prelude.{◌≡◌, ◌+◌, length, IfOk};
ghost use Rattle.cpa_blast_gates.specs.Nets.{built};
ghost use Rattle.cpa_blast_arithmetic.specs.Products.{masked_word, added_word, product};

use cpa_blast_gates::{Net, never};
use cpa_blast_words::{and_word, joined, repeated, sum_word};
use cpa_cnf::Lit;
use cpa_ints::Seq;
use std::alloc::{AllocError, Global};

/// The word where the literal is true, else nothing.
#[tactic(auto, unfolding(crate::specs::Products::masked_word))]
fn masked_word(alloc: Global, net: &mut Net, y: Lit, xs: &[Lit]) -> Result<Seq<Lit>, AllocError>
    ensures built { IfOk result (λ w. built net.new w ≡ masked_word net.old y xs.now) }
    ensures long { IfOk result (λ w. length w ≡ length xs.now) }
{
    let mask = repeated(alloc, xs.len(), y)?;
    and_word(alloc, net, xs, mask.as_slice())
}

/// The sum of a word and a word that stands one place higher.
#[tactic(auto, unfolding(crate::specs::Products::added_word))]
fn added_word(
    alloc: Global,
    net: &mut Net,
    row: &[Lit],
    above: &[Lit],
) -> Result<Seq<Lit>, AllocError>
    requires { length row.now ≡ length above.now + 1 }
    ensures built { IfOk result (λ w. built net.new w ≡ added_word net.old row.now above.now) }
    ensures long { IfOk result (λ w. length w ≡ length row.now) }
{
    match row {
        [] => Ok(Seq::new(alloc)),
        [low, rest @ ..] => {
            let sum = sum_word(alloc, net, never(), rest, above)?;
            joined(alloc, *low, sum.as_slice())
        }
    }
}

/// The product of two words of one length, modulo 2 to the power of the length.
pub fn product(alloc: Global, net: &mut Net, xs: &[Lit], ys: &[Lit]) -> Result<Seq<Lit>, AllocError>
    requires { length xs.now ≡ length ys.now }
    ensures built { IfOk result (λ w. built net.new w ≡ product net.old xs.now ys.now) }
    ensures long { IfOk result (λ w. length w ≡ length xs.now) }
{
    let mut above = Seq::new(alloc);
    let mut place = ys.len();
    while place > 0 {
        place -= 1;
        let row = masked_word(alloc, net, ys[place], &xs[..xs.len() - place])?;
        above = added_word(alloc, net, row.as_slice(), above.as_slice())?;
    }
    Ok(above)
}

//! A row along two words, from the low bits on, as specs/Walks defines it; what it means is proved
//! in specs/lemmas/WalkMeanings.

ghost use Rattle.std.specs.Prelude.{◌≡◌, length, IfOk};
ghost use Rattle.cpa_blast_gates.specs.Nets.{built};
ghost use Rattle.cpa_blast_words.specs.Walks.{walk};

use crate::rows::{self, Row};
use cpa_blast_gates::Net;
use cpa_cnf::Lit;
use cpa_ints::Seq;
use std::alloc::{AllocError, Global};

/// The bits of a walk, and what is carried out of it.
#[derive(Drop)]
pub struct Walked {
    pub bits: Seq<Lit>,
    pub carry: Lit,
}

/// What the row makes of two words of one length. Where memory runs out, more gates may stand.
pub fn walk(
    alloc: Global,
    net: &mut Net,
    row: Row,
    carry: Lit,
    xs: &[Lit],
    ys: &[Lit],
) -> Result<Walked, AllocError>
    requires { length xs.now ≡ length ys.now }
    ensures built { IfOk result (λ w. built net.new w ≡ walk row net.old carry xs.now ys.now) }
    ensures long { IfOk result (λ w. length w.bits ≡ length xs.now) }
{
    let mut bits = Seq::new(alloc);
    let mut carried = carry;
    for i in 0..xs.len() {
        let column = rows::row_column(net, row, carried, xs[i], ys[i])?;
        bits.push(column.bit)?;
        carried = column.carry;
    }
    Ok(Walked {
        bits,
        carry: carried,
    })
}

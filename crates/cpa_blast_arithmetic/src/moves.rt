//! A word moved by so many places, as specs/Moves defines it; that the pieces are the moved word is
//! proved in proofs/Pieces.

ghost use Rattle.std.specs.Prelude.{◌≡◌, ◌^◌, ◌<◌, length, IfOk};
ghost use Rattle.cpa_blast_arithmetic.specs.Moves.{moved};

use cpa_blast_words::{push_all, push_repeated};
use cpa_cnf::Lit;
use cpa_ints::Seq;
use std::alloc::{AllocError, Global};

/// Where the bits of a word go.
#[derive(Clone, Copy)]
pub enum Direction {
    /// To places of higher bits.
    Left,
    /// To places of lower bits.
    Right,
}

/// The word moved left, filled from below.
fn moved_left(
    alloc: Global,
    places: usize,
    filling: Lit,
    xs: &[Lit],
) -> Result<Seq<Lit>, AllocError>
    ensures word { IfOk result (λ w. w ≡ moved Direction.Left places filling xs.now) }
    ensures long { IfOk result (λ w. length w ≡ length xs.now) }
{
    let lost = places.min(xs.len());
    let mut word = Seq::new(alloc);
    push_repeated(&mut word, lost, filling)?;
    push_all(&mut word, &xs[..xs.len() - lost])?;
    Ok(word)
}

/// The word moved right, filled from above.
fn moved_right(
    alloc: Global,
    places: usize,
    filling: Lit,
    xs: &[Lit],
) -> Result<Seq<Lit>, AllocError>
    ensures word { IfOk result (λ w. w ≡ moved Direction.Right places filling xs.now) }
    ensures long { IfOk result (λ w. length w ≡ length xs.now) }
{
    let lost = places.min(xs.len());
    let mut word = Seq::new(alloc);
    push_all(&mut word, &xs[lost..])?;
    push_repeated(&mut word, lost, filling)?;
    Ok(word)
}

/// The word moved by so many places.
pub(crate) fn moved(
    alloc: Global,
    direction: Direction,
    places: usize,
    filling: Lit,
    xs: &[Lit],
) -> Result<Seq<Lit>, AllocError>
    ensures word { IfOk result (λ w. w ≡ moved direction places filling xs.now) }
    ensures long { IfOk result (λ w. length w ≡ length xs.now) }
{
    match direction {
        Direction::Left => moved_left(alloc, places, filling, xs),
        Direction::Right => moved_right(alloc, places, filling, xs),
    }
}

/// 2 to the power of a place.
pub(crate) fn power(place: usize) -> usize
    requires { place < 64 }
    ensures { result ≡ 2 ^ place }
{
    1 << place
}

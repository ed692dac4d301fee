//! Shifts by stages, one for each bit of the amount, as specs/Shifts defines them; what they mean
//! is said by the laws (laws.rt). Where memory runs out, more gates may stand than before.

ghost use Rattle.std.specs.Prelude.{◌≡◌, ◌<◌, length, IfOk};
ghost use Rattle.cpa_blast_gates.specs.Nets.{built};
ghost use Rattle.cpa_blast_arithmetic.specs.Shifts.{amount_bits, stage, stages, is_amount};
ghost use Rattle.cpa_blast_arithmetic.specs.Shifts.{shifted_left};
ghost use Rattle.cpa_blast_arithmetic.specs.Shifts.{shifted_right};

use crate::moves::{self, Direction};
use cpa_blast_gates::{Net, never};
use cpa_blast_words::{choose_word, filling, push_all, some_bit};
use cpa_cnf::Lit;
use cpa_ints::{IntType, Seq};
use std::alloc::{AllocError, Global};

/// How many bits an amount below the type's width has.
fn amount_bits(ty: IntType) -> usize
    ensures { result ≡ amount_bits ty }
{
    match ty {
        IntType::Bool => 0,
        IntType::I8 | IntType::U8 => 3,
        IntType::I16 | IntType::U16 => 4,
        IntType::I32 | IntType::U32 => 5,
        IntType::I64 | IntType::U64 => 6,
    }
}

/// Whether the amount of a shift lies from 0 to the type's width less 1, where the amount is a word
/// of any type: whether none of its other bits is true.
#[tactic(auto, unfolding(crate::specs::Shifts::is_amount))]
pub fn is_amount(
    alloc: Global,
    net: &mut Net,
    ty: IntType,
    amount: &[Lit],
) -> Result<Lit, AllocError>
    ensures { IfOk result (λ l. built net.new l ≡ is_amount ty net.old amount.now) }
{
    let low = amount_bits(ty).min(amount.len());
    let more = some_bit(alloc, net, &amount[low..])?;
    Ok(more.opposite())
}

/// The word moved by 2 to the power of the place where the bit is true.
#[tactic(auto, unfolding(crate::specs::Shifts::stage))]
fn stage(
    alloc: Global,
    net: &mut Net,
    direction: Direction,
    filling: Lit,
    place: usize,
    bit: Lit,
    xs: &[Lit],
) -> Result<Seq<Lit>, AllocError>
    requires { place < 64 }
    ensures built { IfOk result (λ w. built net.new w
        ≡ stage direction filling net.old place bit xs.now) }
    ensures long { IfOk result (λ w. length w ≡ length xs.now) }
{
    let there = moves::moved(alloc, direction, moves::power(place), filling, xs)?;
    choose_word(alloc, net, bit, there.as_slice(), xs)
}

/// The word moved by as many places as the bits of the amount say.
fn stages(
    alloc: Global,
    net: &mut Net,
    direction: Direction,
    filling: Lit,
    xs: &[Lit],
    amount: &[Lit],
) -> Result<Seq<Lit>, AllocError>
    requires { length amount.now < 64 }
    ensures built { IfOk result (λ w. built net.new w
        ≡ stages direction filling net.old 0 xs.now amount.now) }
    ensures long { IfOk result (λ w. length w ≡ length xs.now) }
{
    let mut word = Seq::new(alloc);
    push_all(&mut word, xs)?;
    for place in 0..amount.len() {
        word = stage(
            alloc,
            net,
            direction,
            filling,
            place,
            amount[place],
            word.as_slice(),
        )?;
    }
    Ok(word)
}

/// The word times 2 to the power of the amount, modulo 2 to the power of its length, where the
/// amount fits the type.
#[tactic(auto, unfolding(crate::specs::Shifts::shifted_left))]
pub fn shifted_left(
    alloc: Global,
    net: &mut Net,
    ty: IntType,
    xs: &[Lit],
    amount: &[Lit],
) -> Result<Seq<Lit>, AllocError>
    ensures built { IfOk result (λ w. built net.new w ≡ shifted_left ty net.old xs.now amount.now) }
    ensures long { IfOk result (λ w. length w ≡ length xs.now) }
{
    let low = amount_bits(ty).min(amount.len());
    stages(alloc, net, Direction::Left, never(), xs, &amount[..low])
}

/// The word divided by 2 to the power of the amount, rounded down, where the amount fits the type.
#[tactic(auto, unfolding(crate::specs::Shifts::shifted_right))]
pub fn shifted_right(
    alloc: Global,
    net: &mut Net,
    ty: IntType,
    xs: &[Lit],
    amount: &[Lit],
) -> Result<Seq<Lit>, AllocError>
    ensures built { IfOk result (λ w. built net.new w
        ≡ shifted_right ty net.old xs.now amount.now) }
    ensures long { IfOk result (λ w. length w ≡ length xs.now) }
{
    let low = amount_bits(ty).min(amount.len());
    stages(
        alloc,
        net,
        Direction::Right,
        filling(ty, xs),
        xs,
        &amount[..low],
    )
}

//! The answers of `&&`, `||`, `!` and of conditionals, as specs/Answers defines them; what they
//! mean is proved in specs/lemmas.

ghost use Rattle.std.specs.Prelude.{◌≡◌, length, IfOk};
ghost use Rattle.cpa_ints.specs.declared.integers.IntType.TheVariants.{I32 as Int};
ghost use Rattle.cpa_blast_gates.specs.Nets.{built};
ghost use Rattle.cpa_blast_circuits.specs.Answers.{both_in, either_in, not_in, conditional_in};

use crate::answer::Answer;
use crate::operators::flag;
use cpa_blast_gates::Net;
use cpa_blast_words::{choose_word, some_bit};
use cpa_ints::IntType;
use std::alloc::{AllocError, Global};

/// Whether both are nonzero. The right one counts only where the left one is nonzero.
#[tactic(auto, unfolding(crate::specs::Answers::both_in))]
pub(crate) fn both(
    alloc: Global,
    net: &mut Net,
    a: &Answer,
    b: &Answer,
) -> Result<Answer, AllocError>
    ensures built { IfOk result (λ r. built net.new r ≡ both_in net.old a.now b.now) }
    ensures ty { IfOk result (λ r. r.ty ≡ Int) }
    ensures long { IfOk result (λ r. length r.bits ≡ 32) }
{
    let left = some_bit(alloc, net, a.bits.as_slice())?;
    let right = some_bit(alloc, net, b.bits.as_slice())?;
    let truth = net.and(left, right)?;
    let counted = net.or(left.opposite(), b.ok)?;
    let ok = net.and(a.ok, counted)?;
    let bits = flag(alloc, truth)?;
    Ok(Answer {
        ty: IntType::I32,
        bits,
        ok,
    })
}

/// Whether one is nonzero. The right one counts only where the left one is zero.
#[tactic(auto, unfolding(crate::specs::Answers::either_in))]
pub(crate) fn either(
    alloc: Global,
    net: &mut Net,
    a: &Answer,
    b: &Answer,
) -> Result<Answer, AllocError>
    ensures built { IfOk result (λ r. built net.new r ≡ either_in net.old a.now b.now) }
    ensures ty { IfOk result (λ r. r.ty ≡ Int) }
    ensures long { IfOk result (λ r. length r.bits ≡ 32) }
{
    let left = some_bit(alloc, net, a.bits.as_slice())?;
    let right = some_bit(alloc, net, b.bits.as_slice())?;
    let truth = net.or(left, right)?;
    let counted = net.or(left, b.ok)?;
    let ok = net.and(a.ok, counted)?;
    let bits = flag(alloc, truth)?;
    Ok(Answer {
        ty: IntType::I32,
        bits,
        ok,
    })
}

/// Whether it is zero.
#[tactic(auto, unfolding(crate::specs::Answers::not_in))]
pub(crate) fn negation(alloc: Global, net: &mut Net, a: &Answer) -> Result<Answer, AllocError>
    ensures built { IfOk result (λ r. built net.new r ≡ not_in net.old a.now) }
    ensures ty { IfOk result (λ r. r.ty ≡ Int) }
    ensures long { IfOk result (λ r. length r.bits ≡ 32) }
{
    let truth = some_bit(alloc, net, a.bits.as_slice())?;
    let bits = flag(alloc, truth.opposite())?;
    Ok(Answer {
        ty: IntType::I32,
        bits,
        ok: a.ok,
    })
}

/// One of two answers, picked by the test. The other one does not count.
#[tactic(auto, unfolding(crate::specs::Answers::conditional_in))]
pub(crate) fn conditional(
    alloc: Global,
    net: &mut Net,
    ty: IntType,
    test: &Answer,
    yes: &Answer,
    no: &Answer,
) -> Result<Answer, AllocError>
    requires { length yes.now.bits ≡ length no.now.bits }
    ensures built { IfOk result (λ r.
        built net.new r ≡ conditional_in ty net.old test.now yes.now no.now) }
    ensures ty { IfOk result (λ r. r.ty ≡ ty) }
    ensures long { IfOk result (λ r. length r.bits ≡ length yes.now.bits) }
{
    let truth = some_bit(alloc, net, test.bits.as_slice())?;
    let bits = choose_word(alloc, net, truth, yes.bits.as_slice(), no.bits.as_slice())?;
    let end = net.choice(truth, yes.ok, no.ok)?;
    let ok = net.and(test.ok, end)?;
    Ok(Answer { ty, bits, ok })
}

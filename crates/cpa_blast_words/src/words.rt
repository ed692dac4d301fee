//! The operators of specs/Words. What they mean is said by the laws (laws.rt). Where memory runs
//! out, more gates may stand than before.

ghost use Rattle.std.specs.Prelude.{◌≡◌, ◌+◌, ◌++◌, ◌<◌, ◌∷◌, []};
ghost use Rattle.std.specs.Prelude.{length, replicate, IfOk};
ghost use Rattle.std.specs.Prelude.{OnOk};
ghost use Rattle.cpa_cnf.specs.Literals.{opposite};
ghost use Rattle.cpa_blast_gates.specs.Nets.{built};
ghost use Rattle.cpa_blast_words.specs.Words.{and_word, or_word, xor_word, choose_word, sum_word};
ghost use Rattle.cpa_blast_words.specs.Words.{difference_word, negated_word, less, less_signed};
ghost use Rattle.cpa_blast_words.specs.Words.{equal};
ghost use Rattle.cpa_blast_words.specs.Words.{some_bit, opposites, falses, flipped_top};
ghost use Rattle.cpa_blast_words.specs.Words.{resized_word};
ghost use Rattle.cpa_blast_words.specs.Words.{constant_literal, constant_word, filling, cast_word};

use crate::rows::Row;
use crate::walks::{Walked, walk};
use cpa_blast_gates::{Net, always, never};
use cpa_cnf::Lit;
use cpa_ints::{IntType, Seq};
use std::alloc::{AllocError, Global};

/// Adds the literals at the end.
pub fn push_all(word: &mut Seq<Lit>, xs: &[Lit]) -> Result<(), AllocError>
    ensures { OnOk result (word.new ≡ word.old ++ xs.now) }
{
    for x in xs {
        word.push(*x)?;
    }
    Ok(())
}

/// Adds the opposites at the end.
fn push_opposites(word: &mut Seq<Lit>, xs: &[Lit]) -> Result<(), AllocError>
    ensures { OnOk result (word.new ≡ word.old ++ opposites xs.now) }
{
    for x in xs {
        word.push(x.opposite())?;
    }
    Ok(())
}

/// Adds the literal so many times.
pub fn push_repeated(word: &mut Seq<Lit>, count: usize, literal: Lit) -> Result<(), AllocError>
    ensures { OnOk result (word.new ≡ word.old ++ replicate count literal) }
{
    'push: for _pushed in 0..count {
        word.push(literal)?;
    }
    Ok(())
}

/// The literal so many times.
pub fn repeated(alloc: Global, count: usize, literal: Lit) -> Result<Seq<Lit>, AllocError>
    ensures word { IfOk result (λ w. w ≡ replicate count literal) }
    ensures long { IfOk result (λ w. length w ≡ count) }
{
    let mut word = Seq::new(alloc);
    push_repeated(&mut word, count, literal)?;
    Ok(word)
}

/// A literal with a word above it.
pub fn joined(alloc: Global, low: Lit, rest: &[Lit]) -> Result<Seq<Lit>, AllocError>
    ensures word { IfOk result (λ w. w ≡ low ∷ rest.now) }
    ensures long { IfOk result (λ w. length w ≡ length rest.now + 1) }
{
    let mut word = Seq::new(alloc);
    word.push(low)?;
    push_all(&mut word, rest)?;
    Ok(word)
}

/// Each literal's opposite.
pub fn opposites(alloc: Global, xs: &[Lit]) -> Result<Seq<Lit>, AllocError>
    ensures word { IfOk result (λ w. w ≡ opposites xs.now) }
    ensures long { IfOk result (λ w. length w ≡ length xs.now) }
{
    let mut word = Seq::new(alloc);
    push_opposites(&mut word, xs)?;
    Ok(word)
}

/// As many false literals.
fn falses(alloc: Global, xs: &[Lit]) -> Result<Seq<Lit>, AllocError>
    ensures word { IfOk result (λ w. w ≡ falses xs.now) }
    ensures long { IfOk result (λ w. length w ≡ length xs.now) }
{
    repeated(alloc, xs.len(), never())
}

/// The word with its top literal flipped.
fn flipped_top(alloc: Global, xs: &[Lit]) -> Result<Seq<Lit>, AllocError>
    ensures word { IfOk result (λ w. w ≡ flipped_top xs.now) }
    ensures long { IfOk result (λ w. length w ≡ length xs.now) }
{
    let top = xs.len().saturating_sub(1);
    let mut word = Seq::new(alloc);
    push_all(&mut word, &xs[..top])?;
    push_opposites(&mut word, &xs[top..])?;
    Ok(word)
}

/// Both, bit by bit.
#[tactic(auto, unfolding(crate::specs::Words::and_word))]
pub fn and_word(
    alloc: Global,
    net: &mut Net,
    xs: &[Lit],
    ys: &[Lit],
) -> Result<Seq<Lit>, AllocError>
    requires { length xs.now ≡ length ys.now }
    ensures built { IfOk result (λ w. built net.new w ≡ and_word net.old xs.now ys.now) }
    ensures long { IfOk result (λ w. length w ≡ length xs.now) }
{
    let Walked { bits, .. } = walk(alloc, net, Row::And, never(), xs, ys)?;
    Ok(bits)
}

/// One or both, bit by bit.
#[tactic(auto, unfolding(crate::specs::Words::or_word))]
pub fn or_word(alloc: Global, net: &mut Net, xs: &[Lit], ys: &[Lit]) -> Result<Seq<Lit>, AllocError>
    requires { length xs.now ≡ length ys.now }
    ensures built { IfOk result (λ w. built net.new w ≡ or_word net.old xs.now ys.now) }
    ensures long { IfOk result (λ w. length w ≡ length xs.now) }
{
    let Walked { bits, .. } = walk(alloc, net, Row::Or, never(), xs, ys)?;
    Ok(bits)
}

/// One and not both, bit by bit.
#[tactic(auto, unfolding(crate::specs::Words::xor_word))]
pub fn xor_word(
    alloc: Global,
    net: &mut Net,
    xs: &[Lit],
    ys: &[Lit],
) -> Result<Seq<Lit>, AllocError>
    requires { length xs.now ≡ length ys.now }
    ensures built { IfOk result (λ w. built net.new w ≡ xor_word net.old xs.now ys.now) }
    ensures long { IfOk result (λ w. length w ≡ length xs.now) }
{
    let Walked { bits, .. } = walk(alloc, net, Row::Xor, never(), xs, ys)?;
    Ok(bits)
}

/// The first word where the test is true, else the second.
#[tactic(auto, unfolding(crate::specs::Words::choose_word))]
pub fn choose_word(
    alloc: Global,
    net: &mut Net,
    test: Lit,
    xs: &[Lit],
    ys: &[Lit],
) -> Result<Seq<Lit>, AllocError>
    requires { length xs.now ≡ length ys.now }
    ensures built { IfOk result (λ w. built net.new w ≡ choose_word net.old test xs.now ys.now) }
    ensures long { IfOk result (λ w. length w ≡ length xs.now) }
{
    let Walked { bits, .. } = walk(alloc, net, Row::Choose, test, xs, ys)?;
    Ok(bits)
}

/// The sum with a carry, modulo 2 to the power of the length.
#[tactic(auto, unfolding(crate::specs::Words::sum_word))]
pub fn sum_word(
    alloc: Global,
    net: &mut Net,
    carry: Lit,
    xs: &[Lit],
    ys: &[Lit],
) -> Result<Seq<Lit>, AllocError>
    requires { length xs.now ≡ length ys.now }
    ensures built { IfOk result (λ w. built net.new w ≡ sum_word net.old carry xs.now ys.now) }
    ensures long { IfOk result (λ w. length w ≡ length xs.now) }
{
    let Walked { bits, .. } = walk(alloc, net, Row::Sum, carry, xs, ys)?;
    Ok(bits)
}

/// The difference, modulo 2 to the power of the length.
#[tactic(auto, unfolding(crate::specs::Words::difference_word))]
pub fn difference_word(
    alloc: Global,
    net: &mut Net,
    xs: &[Lit],
    ys: &[Lit],
) -> Result<Seq<Lit>, AllocError>
    requires { length xs.now ≡ length ys.now }
    ensures built { IfOk result (λ w. built net.new w ≡ difference_word net.old xs.now ys.now) }
    ensures long { IfOk result (λ w. length w ≡ length xs.now) }
{
    let flipped = opposites(alloc, ys)?;
    sum_word(alloc, net, always(), xs, flipped.as_slice())
}

/// The two's complement.
#[tactic(auto, unfolding(crate::specs::Words::negated_word))]
pub fn negated_word(alloc: Global, net: &mut Net, xs: &[Lit]) -> Result<Seq<Lit>, AllocError>
    ensures built { IfOk result (λ w. built net.new w ≡ negated_word net.old xs.now) }
    ensures long { IfOk result (λ w. length w ≡ length xs.now) }
{
    let flipped = opposites(alloc, xs)?;
    let zeros = falses(alloc, xs)?;
    sum_word(alloc, net, always(), flipped.as_slice(), zeros.as_slice())
}

/// Whether the first word is less, as natural numbers.
#[tactic(auto, unfolding(crate::specs::Words::less))]
pub fn less(alloc: Global, net: &mut Net, xs: &[Lit], ys: &[Lit]) -> Result<Lit, AllocError>
    requires { length xs.now ≡ length ys.now }
    ensures { IfOk result (λ l. built net.new l ≡ less net.old xs.now ys.now) }
{
    let walked = walk(alloc, net, Row::Less, never(), xs, ys)?;
    Ok(walked.carry)
}

/// Whether the first word is less, in two's complement.
#[tactic(auto, unfolding(crate::specs::Words::less_signed))]
pub fn less_signed(alloc: Global, net: &mut Net, xs: &[Lit], ys: &[Lit]) -> Result<Lit, AllocError>
    requires { length xs.now ≡ length ys.now }
    ensures { IfOk result (λ l. built net.new l ≡ less_signed net.old xs.now ys.now) }
{
    let left = flipped_top(alloc, xs)?;
    let right = flipped_top(alloc, ys)?;
    less(alloc, net, left.as_slice(), right.as_slice())
}

/// Whether the words are equal.
#[tactic(auto, unfolding(crate::specs::Words::equal))]
pub fn equal(alloc: Global, net: &mut Net, xs: &[Lit], ys: &[Lit]) -> Result<Lit, AllocError>
    requires { length xs.now ≡ length ys.now }
    ensures { IfOk result (λ l. built net.new l ≡ equal net.old xs.now ys.now) }
{
    let walked = walk(alloc, net, Row::Equal, always(), xs, ys)?;
    Ok(walked.carry)
}

/// Whether some bit is true.
#[tactic(auto, unfolding(crate::specs::Words::some_bit))]
pub fn some_bit(alloc: Global, net: &mut Net, xs: &[Lit]) -> Result<Lit, AllocError>
    ensures { IfOk result (λ l. built net.new l ≡ some_bit net.old xs.now) }
{
    let zeros = falses(alloc, xs)?;
    let none = equal(alloc, net, xs, zeros.as_slice())?;
    Ok(none.opposite())
}

/// The word at another width: its low bits, or with more bits of the filling literal.
fn resized_word(
    alloc: Global,
    width: usize,
    filling: Lit,
    xs: &[Lit],
) -> Result<Seq<Lit>, AllocError>
    ensures { IfOk result (λ w. w ≡ resized_word width filling xs.now) }
{
    let mut word = Seq::new(alloc);
    if width <= xs.len() {
        push_all(&mut word, &xs[..width])?;
    } else {
        push_all(&mut word, xs)?;
        push_repeated(&mut word, width - xs.len(), filling)?;
    }
    Ok(word)
}

/// By what a word of the type is filled: its top literal where the type has negative values.
pub fn filling(ty: IntType, xs: &[Lit]) -> Lit
    ensures { result ≡ filling ty xs.now }
{
    if !ty.signed() || xs.is_empty() {
        return never();
    }
    xs[xs.len() - 1]
}

/// A word of one literal.
fn single(alloc: Global, literal: Lit) -> Result<Seq<Lit>, AllocError>
    ensures { IfOk result (λ w. w ≡ literal ∷ []) }
{
    let mut word = Seq::new(alloc);
    word.push(literal)?;
    Ok(word)
}

/// A word of one type as a word of another: for `Bool` whether it has a true bit, else its low
/// bits, or with more bits of its sign.
#[tactic(auto, unfolding(crate::specs::Words::cast_word))]
pub fn cast_word(
    alloc: Global,
    net: &mut Net,
    from: IntType,
    onto: IntType,
    xs: &[Lit],
) -> Result<Seq<Lit>, AllocError>
    ensures { IfOk result (λ w. built net.new w ≡ cast_word from onto net.old xs.now) }
{
    if onto.width() == 1 {
        let truth = some_bit(alloc, net, xs)?;
        single(alloc, truth)
    } else {
        resized_word(alloc, onto.width() as usize, filling(from, xs), xs)
    }
}

/// The literal of a truth value.
fn constant_literal(value: bool) -> Lit
    ensures { result ≡ constant_literal value }
{
    if value { always() } else { never() }
}

/// The low bits of a number.
pub fn constant_word(alloc: Global, width: usize, number: u64) -> Result<Seq<Lit>, AllocError>
    ensures { IfOk result (λ w. w ≡ constant_word width number) }
{
    let mut word = Seq::new(alloc);
    let mut rest = number;
    'push: for _pushed in 0..width {
        word.push(constant_literal(rest % 2 == 1))?;
        rest /= 2;
    }
    Ok(word)
}

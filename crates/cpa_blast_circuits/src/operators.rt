//! The answers of operators, casts and constants, as specs/Answers defines them; what they mean is
//! proved in specs/lemmas.

ghost use Rattle.std.specs.Prelude.{◌≡◌, false, length, IfOk};
ghost use Rattle.cpa_ints.specs.declared.integers.IntType.TheVariants.{I32 as Int};
ghost use Rattle.cpa_ints.specs.Integers.{width};
ghost use Rattle.cpa_ints.specs.Bits.{bits_of};
ghost use Rattle.cpa_blast_gates.specs.Nets.{built};
ghost use Rattle.cpa_expr.specs.Shape.{is_shift};
ghost use Rattle.cpa_blast_circuits.specs.Answers.{constant_answer, unary_in, binary_word};
ghost use Rattle.cpa_blast_circuits.specs.Answers.{binary_test};
ghost use Rattle.cpa_blast_circuits.specs.Answers.{binary_in, less_at, compared, flag};
ghost use Rattle.cpa_blast_circuits.specs.Answers.{comparison_in};
ghost use Rattle.cpa_blast_circuits.specs.Answers.{cast_in};

use crate::answer::Answer;
use cpa_blast_arithmetic::{is_amount, product, shifted_left, shifted_right};
use cpa_blast_gates::{Net, always, never};
use cpa_blast_quotients::{quotient, remainder};
use cpa_blast_words::{
    and_word, cast_word, constant_word, difference_word, equal, less, less_signed, negated_word,
    opposites, or_word, push_repeated, some_bit, sum_word, words_are_long, xor_word,
};
use cpa_cnf::Lit;
use cpa_expr::{BinOp, CmpOp, UnOp};
use cpa_ints::{IntType, Seq};
use std::alloc::{AllocError, Global};

/// The two's complement of a number at the type's width.
fn pattern(ty: IntType, value: i128) -> u64
    ensures { result ≡ bits_of ty value }
{
    (value.cast_unsigned() & ((1u128 << ty.width()) - 1)) as u64
}

/// A number of the type.
pub(crate) fn constant(alloc: Global, ty: IntType, value: i128) -> Result<Answer, AllocError>
    ensures answer { IfOk result (λ a. a ≡ constant_answer ty value) }
    ensures ty { IfOk result (λ a. a.ty ≡ ty) }
    ensures long { IfOk result (λ a. length a.bits ≡ width ty) }
{
    words_are_long();
    let bits = constant_word(alloc, ty.width() as usize, pattern(ty, value))?;
    Ok(Answer {
        ty,
        bits,
        ok: always(),
    })
}

/// The word of an operator on one word.
#[tactic(auto, unfolding(crate::specs::Answers::unary_in))]
pub(crate) fn unary(
    alloc: Global,
    net: &mut Net,
    op: UnOp,
    ty: IntType,
    a: &Answer,
) -> Result<Answer, AllocError>
    ensures built { IfOk result (λ r. built net.new r ≡ unary_in op ty net.old a.now) }
    ensures ty { IfOk result (λ r. r.ty ≡ ty) }
    ensures long { IfOk result (λ r. length r.bits ≡ length a.now.bits) }
{
    let bits = match op {
        UnOp::Neg => negated_word(alloc, net, a.bits.as_slice())?,
        UnOp::Flip => opposites(alloc, a.bits.as_slice())?,
    };
    Ok(Answer { ty, bits, ok: a.ok })
}

/// The word of an operator on two words.
#[tactic(auto, unfolding(crate::specs::Answers::binary_word))]
fn binary_word(
    alloc: Global,
    net: &mut Net,
    op: BinOp,
    ty: IntType,
    xs: &[Lit],
    ys: &[Lit],
) -> Result<Seq<Lit>, AllocError>
    requires { is_shift op ≡ false → length xs.now ≡ length ys.now }
    ensures built { IfOk result (λ w. built net.new w ≡ binary_word op ty net.old xs.now ys.now) }
    ensures long { IfOk result (λ w. length w ≡ length xs.now) }
{
    match op {
        BinOp::Add => sum_word(alloc, net, never(), xs, ys),
        BinOp::Sub => difference_word(alloc, net, xs, ys),
        BinOp::Mul => product(alloc, net, xs, ys),
        BinOp::Div => quotient(alloc, net, ty, xs, ys),
        BinOp::Rem => remainder(alloc, net, ty, xs, ys),
        BinOp::BitAnd => and_word(alloc, net, xs, ys),
        BinOp::BitOr => or_word(alloc, net, xs, ys),
        BinOp::BitXor => xor_word(alloc, net, xs, ys),
        BinOp::Shl => shifted_left(alloc, net, ty, xs, ys),
        BinOp::Shr => shifted_right(alloc, net, ty, xs, ys),
    }
}

/// Whether the operator has a value, by its right operand.
#[tactic(auto, unfolding(crate::specs::Answers::binary_test))]
fn binary_test(
    alloc: Global,
    net: &mut Net,
    op: BinOp,
    ty: IntType,
    ys: &[Lit],
) -> Result<Lit, AllocError>
    ensures { IfOk result (λ l. built net.new l ≡ binary_test op ty net.old ys.now) }
{
    match op {
        BinOp::Div | BinOp::Rem => some_bit(alloc, net, ys),
        BinOp::Shl | BinOp::Shr => is_amount(alloc, net, ty, ys),
        _ => Ok(always()),
    }
}

/// The answer of an operator on two.
#[tactic(auto, unfolding(crate::specs::Answers::binary_in))]
pub(crate) fn binary(
    alloc: Global,
    net: &mut Net,
    op: BinOp,
    ty: IntType,
    a: &Answer,
    b: &Answer,
) -> Result<Answer, AllocError>
    requires { is_shift op ≡ false → length a.now.bits ≡ length b.now.bits }
    ensures built { IfOk result (λ r. built net.new r ≡ binary_in op ty net.old a.now b.now) }
    ensures ty { IfOk result (λ r. r.ty ≡ ty) }
    ensures long { IfOk result (λ r. length r.bits ≡ length a.now.bits) }
{
    let bits = binary_word(alloc, net, op, ty, a.bits.as_slice(), b.bits.as_slice())?;
    let test = binary_test(alloc, net, op, ty, b.bits.as_slice())?;
    let both = net.and(a.ok, b.ok)?;
    let ok = net.and(both, test)?;
    Ok(Answer { ty, bits, ok })
}

/// Whether the first word of the type is less.
#[tactic(auto, unfolding(crate::specs::Answers::less_at))]
fn less_at(
    alloc: Global,
    net: &mut Net,
    ty: IntType,
    xs: &[Lit],
    ys: &[Lit],
) -> Result<Lit, AllocError>
    requires { length xs.now ≡ length ys.now }
    ensures { IfOk result (λ l. built net.new l ≡ less_at ty net.old xs.now ys.now) }
{
    if ty.signed() {
        less_signed(alloc, net, xs, ys)
    } else {
        less(alloc, net, xs, ys)
    }
}

/// Whether two words of the type compare so.
#[tactic(auto, unfolding(crate::specs::Answers::compared))]
fn compared(
    alloc: Global,
    net: &mut Net,
    op: CmpOp,
    ty: IntType,
    xs: &[Lit],
    ys: &[Lit],
) -> Result<Lit, AllocError>
    requires { length xs.now ≡ length ys.now }
    ensures { IfOk result (λ l. built net.new l ≡ compared op ty net.old xs.now ys.now) }
{
    match op {
        CmpOp::Eq => equal(alloc, net, xs, ys),
        CmpOp::Ne => Ok(equal(alloc, net, xs, ys)?.opposite()),
        CmpOp::Lt => less_at(alloc, net, ty, xs, ys),
        CmpOp::Le => Ok(less_at(alloc, net, ty, ys, xs)?.opposite()),
        CmpOp::Gt => less_at(alloc, net, ty, ys, xs),
        CmpOp::Ge => Ok(less_at(alloc, net, ty, xs, ys)?.opposite()),
    }
}

/// The word of the int 1 where the literal is true, else of 0.
pub(crate) fn flag(alloc: Global, literal: Lit) -> Result<Seq<Lit>, AllocError>
    ensures word { IfOk result (λ w. w ≡ flag literal) }
    ensures long { IfOk result (λ w. length w ≡ 32) }
{
    let mut word = Seq::new(alloc);
    word.push(literal)?;
    push_repeated(&mut word, 31, never())?;
    Ok(word)
}

/// The answer of a comparison.
#[tactic(auto, unfolding(crate::specs::Answers::comparison_in))]
pub(crate) fn comparison(
    alloc: Global,
    net: &mut Net,
    op: CmpOp,
    ty: IntType,
    a: &Answer,
    b: &Answer,
) -> Result<Answer, AllocError>
    requires { length a.now.bits ≡ length b.now.bits }
    ensures built { IfOk result (λ r. built net.new r ≡ comparison_in op ty net.old a.now b.now) }
    ensures ty { IfOk result (λ r. r.ty ≡ Int) }
    ensures long { IfOk result (λ r. length r.bits ≡ 32) }
{
    let truth = compared(alloc, net, op, ty, a.bits.as_slice(), b.bits.as_slice())?;
    let ok = net.and(a.ok, b.ok)?;
    let bits = flag(alloc, truth)?;
    Ok(Answer {
        ty: IntType::I32,
        bits,
        ok,
    })
}

/// The answer at another type.
#[tactic(auto, unfolding(crate::specs::Answers::cast_in))]
pub(crate) fn cast(
    alloc: Global,
    net: &mut Net,
    ty: IntType,
    a: &Answer,
) -> Result<Answer, AllocError>
    ensures built { IfOk result (λ r. built net.new r ≡ cast_in ty net.old a.now) }
    ensures ty { IfOk result (λ r. r.ty ≡ ty) }
    ensures long { IfOk result (λ r. length r.bits ≡ width ty) }
{
    words_are_long();
    let bits = cast_word(alloc, net, a.ty, ty, a.bits.as_slice())?;
    Ok(Answer { ty, bits, ok: a.ok })
}

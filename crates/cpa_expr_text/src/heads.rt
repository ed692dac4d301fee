//! The words of a node before those of its parts.
ghost use Rattle.std.specs.Prelude.{◌≡◌, ◌∷◌, ◌^◌, ◌<◌, ℕ, ℤ, List, IfSome, decimal, FitsSigned};
ghost use Rattle.std.specs.Int.{w128};
ghost use Rattle.std.specs.Fmt.{signed_decimal};
ghost use Rattle.cpa_ints.specs.declared.integers.IntType.{IntType as Ty};
ghost use Rattle.cpa_expr.specs.Words.{type_word};
ghost use Rattle.cpa_expr_text.specs.declared.heads.Head.{Head as AHead};
ghost use Rattle.cpa_expr_text.specs.Kinds.{kind_of, further_onto, head_onto, FitsHead};
ghost use Rattle.cpa_expr_text.specs.Reading.{Word, texts, Passed};
ghost use Rattle.cpa_expr_text.specs.declared.kinds.Kind.TheVariants as kind;

use crate::kinds::{Kind, kind_spelled, type_spelled};
use crate::numbers::{integer, small};
use cpa_expr::{BinOp, CmpOp, UnOp};
use cpa_ints::IntType;

/// A node of one part, without it.
#[derive(Clone, Copy)]
pub(crate) enum One {
    Read { ty: IntType, base: u32, len: u32 },
    Un { op: UnOp, ty: IntType },
    Cast { ty: IntType },
    Not,
}

/// A node of two parts, without them.
#[derive(Clone, Copy)]
pub(crate) enum Two {
    Bin { op: BinOp, ty: IntType },
    Cmp { op: CmpOp, ty: IntType },
    Both,
    Either,
}

/// A node without its parts.
#[derive(Clone, Copy)]
pub(crate) enum Head {
    Leaf { ty: IntType, value: i128 },
    One(One),
    Two(Two),
    Three { ty: IntType },
}

/// The type whose word comes first.
#[tactic(auto, using(crate::proofs::Tables::known_type))]
fn take_type<'w>(words: &'w [&'w str]) -> Option<(IntType, &'w [&'w str])>
    ensures { (t : Ty) (rest : List Word) → texts words.entry.now ≡ type_word t ∷ rest
        → Passed t rest result }
{
    let (first, rest) = words.split_first()?;
    let ty = type_spelled(*first)?;
    Some((ty, rest))
}

/// The number of 32 bits that comes first.
fn take_small<'w>(words: &'w [&'w str]) -> Option<(u32, &'w [&'w str])>
    ensures read { (n : ℕ) (rest : List Word) → n < 2 ^ 32
        → texts words.entry.now ≡ decimal n ∷ rest → Passed n rest result }
    ensures fit { IfSome result (λ p. p.0 < 2 ^ 32) }
{
    let (first, rest) = words.split_first()?;
    let number = small(*first)?;
    Some((number, rest))
}

/// The number of 128 bits that comes first.
fn take_integer<'w>(words: &'w [&'w str]) -> Option<(i128, &'w [&'w str])>
    ensures read { (z : ℤ) (rest : List Word) → FitsSigned w128 z
        → texts words.entry.now ≡ signed_decimal z ∷ rest → Passed z rest result }
    ensures fit { IfSome result (λ p. FitsSigned w128 p.0) }
{
    let (first, rest) = words.split_first()?;
    let number = integer(*first)?;
    Some((number, rest))
}

/// A constant behind its first word.
fn take_constant<'w>(words: &'w [&'w str]) -> Option<(Head, &'w [&'w str])>
    ensures read { (h : AHead) (rest : List Word) → kind.Const ≡ kind_of h → FitsHead h
        → texts words.entry.now ≡ further_onto h rest → Passed h rest result }
    ensures fit { IfSome result (λ p. FitsHead p.0) }
{
    let (ty, rest) = take_type(words)?;
    let (value, rest) = take_integer(rest)?;
    Some((Head::Leaf { ty, value }, rest))
}

/// A read behind its first word.
fn take_read<'w>(words: &'w [&'w str]) -> Option<(Head, &'w [&'w str])>
    ensures read { (h : AHead) (rest : List Word) → kind.Read ≡ kind_of h → FitsHead h
        → texts words.entry.now ≡ further_onto h rest → Passed h rest result }
    ensures fit { IfSome result (λ p. FitsHead p.0) }
{
    let (ty, rest) = take_type(words)?;
    let (base, rest) = take_small(rest)?;
    let (len, rest) = take_small(rest)?;
    Some((Head::One(One::Read { ty, base, len }), rest))
}

/// An operator of one argument behind its first word.
fn take_unary<'w>(op: UnOp, words: &'w [&'w str]) -> Option<(Head, &'w [&'w str])>
    ensures read { (h : AHead) (rest : List Word) → kind.Un op ≡ kind_of h
        → texts words.entry.now ≡ further_onto h rest → Passed h rest result }
    ensures fit { IfSome result (λ p. FitsHead p.0) }
{
    let (ty, rest) = take_type(words)?;
    Some((Head::One(One::Un { op, ty }), rest))
}

/// An operator of two arguments behind its first word.
fn take_binary<'w>(op: BinOp, words: &'w [&'w str]) -> Option<(Head, &'w [&'w str])>
    ensures read { (h : AHead) (rest : List Word) → kind.Bin op ≡ kind_of h
        → texts words.entry.now ≡ further_onto h rest → Passed h rest result }
    ensures fit { IfSome result (λ p. FitsHead p.0) }
{
    let (ty, rest) = take_type(words)?;
    Some((Head::Two(Two::Bin { op, ty }), rest))
}

/// A comparison behind its first word.
fn take_comparison<'w>(op: CmpOp, words: &'w [&'w str]) -> Option<(Head, &'w [&'w str])>
    ensures read { (h : AHead) (rest : List Word) → kind.Cmp op ≡ kind_of h
        → texts words.entry.now ≡ further_onto h rest → Passed h rest result }
    ensures fit { IfSome result (λ p. FitsHead p.0) }
{
    let (ty, rest) = take_type(words)?;
    Some((Head::Two(Two::Cmp { op, ty }), rest))
}

/// A conversion behind its first word.
fn take_cast<'w>(words: &'w [&'w str]) -> Option<(Head, &'w [&'w str])>
    ensures read { (h : AHead) (rest : List Word) → kind.Cast ≡ kind_of h
        → texts words.entry.now ≡ further_onto h rest → Passed h rest result }
    ensures fit { IfSome result (λ p. FitsHead p.0) }
{
    let (ty, rest) = take_type(words)?;
    Some((Head::One(One::Cast { ty }), rest))
}

/// A choice behind its first word.
fn take_choice<'w>(words: &'w [&'w str]) -> Option<(Head, &'w [&'w str])>
    ensures read { (h : AHead) (rest : List Word) → kind.Cond ≡ kind_of h
        → texts words.entry.now ≡ further_onto h rest → Passed h rest result }
    ensures fit { IfSome result (λ p. FitsHead p.0) }
{
    let (ty, rest) = take_type(words)?;
    Some((Head::Three { ty }, rest))
}

/// A node of the kind behind its first word.
fn take_further<'w>(kind: Kind, words: &'w [&'w str]) -> Option<(Head, &'w [&'w str])>
    ensures read { (h : AHead) (rest : List Word) → kind ≡ kind_of h → FitsHead h
        → texts words.entry.now ≡ further_onto h rest → Passed h rest result }
    ensures fit { IfSome result (λ p. FitsHead p.0) }
{
    match kind {
        Kind::Const => take_constant(words),
        Kind::Read => take_read(words),
        Kind::Un(op) => take_unary(op, words),
        Kind::Bin(op) => take_binary(op, words),
        Kind::Cmp(op) => take_comparison(op, words),
        Kind::Cast => take_cast(words),
        Kind::Both => Some((Head::Two(Two::Both), words)),
        Kind::Either => Some((Head::Two(Two::Either), words)),
        Kind::Not => Some((Head::One(One::Not), words)),
        Kind::Cond => take_choice(words),
    }
}

/// The node that comes first, without its parts.
#[tactic(auto, using(crate::proofs::Tables::known_kind))]
pub(crate) fn take_head<'w>(words: &'w [&'w str]) -> Option<(Head, &'w [&'w str])>
    ensures read { (h : AHead) (rest : List Word) → FitsHead h
        → texts words.entry.now ≡ head_onto h rest → Passed h rest result }
    ensures fit { IfSome result (λ p. FitsHead p.0) }
{
    let (first, rest) = words.split_first()?;
    let kind = kind_spelled(*first)?;
    take_further(kind, rest)
}

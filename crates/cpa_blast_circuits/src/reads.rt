//! The read of a cell by an index, as specs/Reads defines it; what it means is proved in
//! specs/lemmas/ReadMeanings.

ghost use Rattle.std.specs.Prelude.{◌≡◌, ◌+◌, ◌++◌, ◌≤◌, length, map, take, IfOk, OnOk};
ghost use Rattle.cpa_blast_gates.specs.Nets.{built};
ghost use Rattle.cpa_ints.specs.declared.integers.IntType.TheVariants.{U64 as Long};
ghost use Rattle.cpa_blast_words.specs.Words.{cast_word, constant_word};
ghost use Rattle.cpa_blast_circuits.specs.Reads.{halved, first_word, picked, inside, cell_bits};
ghost use Rattle.cpa_blast_circuits.specs.Reads.{read_in};
ghost use Rattle.cpa_blast_circuits.specs.Reads.{AreAlike};

use crate::answer::{Answer, Word};
use cpa_blast_gates::Net;
use cpa_blast_words::{
    cast_word, choose_word, constant_word, filling, less, push_all, words_are_long,
};
use cpa_cnf::Lit;
use cpa_ints::{IntType, Seq};
use std::alloc::{AllocError, Global};

/// An equal word.
fn copied(alloc: Global, xs: &[Lit]) -> Result<Seq<Lit>, AllocError>
    ensures { IfOk result (λ w. w ≡ xs.now) }
{
    let mut word = Seq::new(alloc);
    push_all(&mut word, xs)?;
    Ok(word)
}

/// Adds the words of the cells at the end.
fn push_bits(alloc: Global, words: &mut Vec<Seq<Lit>>, cells: &[Word]) -> Result<(), AllocError>
    ensures { OnOk result (words.new.items ≡ words.old.items ++ map (λ w. w.bits) cells.now) }
{
    for cell in cells {
        let word = copied(alloc, cell.bits.as_slice())?;
        words.push(word)?;
    }
    Ok(())
}

/// Of each two words, of which there are two or more, the second where the literal is true, else
/// the first.
fn halved_pairs(
    alloc: Global,
    net: &mut Net,
    bit: Lit,
    words: &[Seq<Lit>],
) -> Result<Vec<Seq<Lit>>, AllocError>
    requires { AreAlike (length (first_word words.now)) words.now }
    ensures built { IfOk result (λ ws. built net.new ws.items ≡ halved net.old bit words.now) }
    ensures alike { IfOk result (λ ws. AreAlike (length (first_word words.now)) ws.items) }
{
    let mut halves = Vec::new(alloc);
    let mut rest = words;
    while let [first, second, behind @ ..] = rest {
        let chosen = choose_word(alloc, net, bit, second.as_slice(), first.as_slice())?;
        halves.push(chosen)?;
        rest = behind;
    }
    push_last(alloc, &mut halves, rest)?;
    Ok(halves)
}

/// Adds the first of the words at the end, if there is one.
fn push_last(
    alloc: Global,
    halves: &mut Vec<Seq<Lit>>,
    words: &[Seq<Lit>],
) -> Result<(), AllocError>
    ensures { OnOk result (halves.new.items ≡ halves.old.items ++ take 1 words.now) }
{
    match words {
        [] => Ok(()),
        [last, ..] => {
            let word = copied(alloc, last.as_slice())?;
            halves.push(word)?;
            Ok(())
        }
    }
}

/// Of each two words the second where the literal is true, else the first.
fn halved(
    alloc: Global,
    net: &mut Net,
    bit: Lit,
    words: Vec<Seq<Lit>>,
) -> Result<Vec<Seq<Lit>>, AllocError>
    requires { AreAlike (length (first_word words.items)) words.items }
    ensures built { IfOk result (λ ws. built net.new ws.items ≡ halved net.old bit words.items) }
    ensures alike { IfOk result (λ ws. AreAlike (length (first_word words.items)) ws.items) }
{
    if words.len() <= 1 {
        Ok(words)
    } else {
        halved_pairs(alloc, net, bit, words.as_slice())
    }
}

/// The first word, empty where there is none.
fn first_word(alloc: Global, words: &[Seq<Lit>]) -> Result<Seq<Lit>, AllocError>
    ensures { IfOk result (λ w. w ≡ first_word words.now) }
{
    match words {
        [] => Ok(Seq::new(alloc)),
        [first, ..] => copied(alloc, first.as_slice()),
    }
}

/// The word at the number that the bits stand for.
fn picked(
    alloc: Global,
    net: &mut Net,
    bits: &[Lit],
    words: Vec<Seq<Lit>>,
) -> Result<Seq<Lit>, AllocError>
    requires { AreAlike (length (first_word words.items)) words.items }
    ensures { IfOk result (λ w. built net.new w ≡ picked net.old bits.now words.items) }
{
    let mut words = words;
    for bit in bits {
        words = halved(alloc, net, *bit, words)?;
    }
    let word = first_word(alloc, words.as_slice())?;
    Ok(word)
}

/// Whether the word of the type stands for a number from 0 to `len` - 1.
#[tactic(auto, unfolding(crate::specs::Reads::inside))]
fn inside(
    alloc: Global,
    net: &mut Net,
    ty: IntType,
    len: u32,
    xs: &[Lit],
) -> Result<Lit, AllocError>
    ensures { IfOk result (λ l. built net.new l ≡ inside ty len net.old xs.now) }
{
    let wide = widened(alloc, net, xs)?;
    let bound = bound(alloc, len)?;
    let below = less(alloc, net, wide.as_slice(), bound.as_slice())?;
    let sign = filling(ty, xs);
    let inside = net.and(below, sign.opposite())?;
    Ok(inside)
}

/// The word as a natural number of 64 bits.
fn widened(alloc: Global, net: &mut Net, xs: &[Lit]) -> Result<Seq<Lit>, AllocError>
    ensures built { IfOk result (λ w. built net.new w ≡ cast_word Long Long net.old xs.now) }
    ensures long { IfOk result (λ w. length w ≡ 64) }
{
    words_are_long();
    let wide = cast_word(alloc, net, IntType::U64, IntType::U64, xs)?;
    Ok(wide)
}

/// The word of a number of cells.
fn bound(alloc: Global, len: u32) -> Result<Seq<Lit>, AllocError>
    ensures word { IfOk result (λ w. w ≡ constant_word 64 len) }
    ensures long { IfOk result (λ w. length w ≡ 64) }
{
    words_are_long();
    let word = constant_word(alloc, 64, len as u64)?;
    Ok(word)
}

/// The words of the cells.
fn cell_bits(alloc: Global, cells: &[Word]) -> Result<Vec<Seq<Lit>>, AllocError>
    ensures { IfOk result (λ ws. ws.items ≡ map (λ w. w.bits) cells.now) }
{
    let mut words = Vec::new(alloc);
    push_bits(alloc, &mut words, cells)?;
    Ok(words)
}

/// The answer of a read of one of `len` cells from `base` on.
#[tactic(auto, unfolding(crate::specs::Reads::read_in))]
pub(crate) fn read(
    alloc: Global,
    net: &mut Net,
    cells: &[Word],
    ty: IntType,
    base: u32,
    len: u32,
    index: &Answer,
) -> Result<Answer, AllocError>
    requires there { base + len ≤ length cells.now }
    requires alike { AreAlike (length (first_word (cell_bits cells.now base len)))
        (cell_bits cells.now base len) }
    ensures built { IfOk result (λ r.
        built net.new r ≡ read_in cells.now ty base len net.old index.now) }
    ensures ty { IfOk result (λ r. r.ty ≡ ty) }
{
    let first = base as usize;
    let words = cell_bits(alloc, &cells[first..first + len as usize])?;
    let bits = picked(alloc, net, index.bits.as_slice(), words)?;
    let below = inside(alloc, net, index.ty, len, index.bits.as_slice())?;
    let ok = net.and(index.ok, below)?;
    Ok(Answer { ty, bits, ok })
}

//! The variables of the bits of cells, as specs/Formulas gives them out.
//! Proved with `proofs/Turns.antt`.

ghost use Rattle.std.specs.Prelude.{◌≡◌, ◌+◌, ◌*◌, ◌++◌, length, map, replicate, IfOk, OnOk};
ghost use Rattle.cpa_blast_gates.specs.Nets.{vars, built};
ghost use Rattle.cpa_ints.specs.Integers.{width};
ghost use Rattle.cpa_blast.specs.Formulas.{with_inputs, variables_from, places_of, is_due};
ghost use Rattle.cpa_blast.specs.Formulas.{next_place, with_bits, word_of, words_of, place_of};

use cpa_blast_circuits::Word;
use cpa_blast_gates::{Net, never};
use cpa_blast_words::push_repeated;
use cpa_cnf::Lit;
use cpa_ints::{IntType, Seq};
use std::alloc::{AllocError, Global};

/// A cell, whether it is read, and the variable of its low bit, 0 where it has none yet.
#[derive(Clone, Copy)]
pub(crate) struct Place {
    pub(crate) ty: IntType,
    pub(crate) is_read: bool,
    pub(crate) first: u32,
}

/// The cells without variables.
pub(crate) fn places_of(
    alloc: Global,
    cells: &[IntType],
    marks: &[bool],
) -> Result<Vec<Place>, AllocError>
    requires { length marks.now ≡ length cells.now }
    ensures { IfOk result (λ ps. ps.items ≡ places_of cells.now marks.now) }
{
    let mut places = Vec::new(alloc);
    for i in 0..cells.len() {
        places.push(Place {
            ty: cells[i],
            is_read: marks[i],
            first: 0,
        })?;
    }
    Ok(places)
}

/// Adds so many variables of either value.
fn add_inputs(net: &mut Net, count: u32) -> Result<(), AllocError>
    ensures { OnOk result (net.new ≡ with_inputs count net.old) }
{
    'add: for _added in 0..count {
        net.input()?;
    }
    Ok(())
}

/// Whether the cell gets its variables now.
fn is_due(reading: bool, is_read: bool) -> bool
    ensures { result ≡ is_due reading is_read }
{
    if reading { is_read } else { !is_read }
}

/// The place of a cell whose variables are the next ones.
fn placed(net: &mut Net, place: Place) -> Result<Place, AllocError>
    ensures { IfOk result (λ p. built net.new p ≡ built (with_inputs (width place.ty) net.old)
        (place_of place.ty place.is_read (vars net.old))) }
{
    let first = net.vars();
    add_inputs(net, place.ty.width())?;
    Ok(Place {
        ty: place.ty,
        is_read: place.is_read,
        first,
    })
}

/// The cell with the next variables, where it is due.
#[tactic(auto, unfolding(crate::specs::Formulas::next_place))]
fn next_place(net: &mut Net, reading: bool, place: Place) -> Result<Place, AllocError>
    ensures { IfOk result (λ p. built net.new p ≡ next_place reading place net.old) }
{
    if is_due(reading, place.is_read) {
        placed(net, place)
    } else {
        Ok(place)
    }
}

/// New variables for the bits of the cells that are read, or of the others.
pub(crate) fn with_bits(
    alloc: Global,
    net: &mut Net,
    reading: bool,
    places: &[Place],
) -> Result<Vec<Place>, AllocError>
    ensures { IfOk result (λ ps. built net.new ps.items ≡ with_bits reading places.now net.old) }
{
    let mut made = Vec::new(alloc);
    for i in 0..places.len() {
        let place = next_place(net, reading, places[i])?;
        made.push(place)?;
    }
    Ok(made)
}

/// The literal of a variable so many behind the first one.
fn variable(first: u32, behind: u32) -> Result<Lit, AllocError>
    ensures { IfOk result (λ l. l ≡ 2 * (first + behind)) }
{
    match first.checked_add(behind) {
        Some(number) => Ok(Lit::new(number, false)),
        None => Err(AllocError),
    }
}

/// Adds the literals of so many variables from the first one on.
fn push_variables(word: &mut Seq<Lit>, first: u32, count: u32) -> Result<(), AllocError>
    ensures { OnOk result (word.new ≡ word.old ++ variables_from first count) }
{
    for i in 0..count {
        let literal = variable(first, i)?;
        word.push(literal)?;
    }
    Ok(())
}

/// The literals of so many variables from the first one on.
fn variables(alloc: Global, first: u32, count: u32) -> Result<Seq<Lit>, AllocError>
    ensures { IfOk result (λ w. w ≡ variables_from first count) }
{
    let mut word = Seq::new(alloc);
    push_variables(&mut word, first, count)?;
    Ok(word)
}

/// So many false literals.
fn falses(alloc: Global, count: u32) -> Result<Seq<Lit>, AllocError>
    ensures { IfOk result (λ w. w ≡ replicate count 1) }
{
    let mut word = Seq::new(alloc);
    push_repeated(&mut word, count as usize, never())?;
    Ok(word)
}

/// The bits of a cell for the circuits.
fn bits_of(alloc: Global, place: Place) -> Result<Seq<Lit>, AllocError>
    ensures { IfOk result (λ w. w ≡ (word_of place).bits) }
{
    if place.is_read {
        variables(alloc, place.first, place.ty.width())
    } else {
        falses(alloc, place.ty.width())
    }
}

/// The word of a cell for the circuits.
fn word_of(alloc: Global, place: Place) -> Result<Word, AllocError>
    ensures { IfOk result (λ w. w ≡ word_of place) }
{
    let bits = bits_of(alloc, place)?;
    Ok(Word { ty: place.ty, bits })
}

/// The words of the cells for the circuits.
pub(crate) fn words_of(alloc: Global, places: &[Place]) -> Result<Vec<Word>, AllocError>
    ensures { IfOk result (λ ws. ws.items ≡ words_of places.now) }
{
    let mut words = Vec::new(alloc);
    for place in places {
        let word = word_of(alloc, *place)?;
        words.push(word)?;
    }
    Ok(words)
}

/// The variable of the low bit of each cell.
pub(crate) fn firsts_of(alloc: Global, places: &[Place]) -> Result<Seq<u32>, AllocError>
    ensures { IfOk result (λ fs. fs ≡ map (λ p. p.first) places.now) }
{
    let mut firsts = Seq::new(alloc);
    for place in places {
        firsts.push(place.first)?;
    }
    Ok(firsts)
}

//! Stores from which an act may lead on, tried before anything is asked: a query has a number for
//! each bit of each cell, and a guess looks at the cells that the act reads alone. Nothing is
//! promised of a guess: whoever uses one looks at it.

use cpa_expr::{Parts, parts_of, value};
use cpa_interp::put;
use cpa_model::{Act, Cell, Cfa, Expr, Seq, Store, has_truth};
use cpa_query::mark_reads;
use std::alloc::{AllocError, Global};

/// How many stores are tried.
const TRIED: usize = 64;

/// How many numbers are tried in a cell, at most.
const NUMBERS: usize = 32;

/// Adds the numbers that stand in the expression, each with the two beside it.
fn note_numbers(numbers: &mut Vec<i128>, e: &Expr) -> Result<(), AllocError> {
    if numbers.len() >= NUMBERS {
        return Ok(());
    }
    if let Expr::Const { value, .. } = e {
        numbers.push(*value)?;
        numbers.push(value.saturating_add(1))?;
        numbers.push(value.saturating_sub(1))?;
    }
    match parts_of(e) {
        Parts::None => Ok(()),
        Parts::One(part) => note_numbers(numbers, part),
        Parts::Two(left, right) => {
            note_numbers(numbers, left)?;
            note_numbers(numbers, right)
        }
        Parts::Three(test, yes, no) => {
            note_numbers(numbers, test)?;
            note_numbers(numbers, yes)?;
            note_numbers(numbers, no)
        }
    }
}

/// Marks the cells that the act reads, and adds the numbers that stand in it.
fn note_act(marks: &mut [bool], numbers: &mut Vec<i128>, act: &Act) -> Result<(), AllocError> {
    match act {
        Act::Assume { test, .. } => {
            mark_reads(marks, test);
            note_numbers(numbers, test)
        }
        Act::Assign { index, value, .. } => {
            mark_reads(marks, index);
            mark_reads(marks, value);
            note_numbers(numbers, index)?;
            note_numbers(numbers, value)
        }
        _ => Ok(()),
    }
}

/// Whether the act can be done on the store.
fn leads_from(act: &Act, store: &Store) -> bool {
    match act {
        Act::Assume { test, holds } => has_truth(test, *holds, store),
        Act::Assign {
            len,
            index,
            value: written,
            ..
        } => match value(index, store) {
            Some(place) => 0 <= place
                && place < i128::from(*len)
                && value(written, store).is_some(),
            None => false,
        },
        _ => true,
    }
}

/// The value with which each cell begins.
fn first_values(alloc: Global, cells: &[Cell]) -> Result<Vec<i128>, AllocError> {
    let mut values = Vec::new(alloc);
    for cell in cells {
        values.push(cell.start)?;
    }
    Ok(values)
}

/// The number to try in the cell that is the so-manieth to be varied: those of the first cell come
/// one after the other, and those of each further one at another pace.
fn number_for(numbers: &[i128], round: usize, varied: usize) -> Option<&i128> {
    let count = numbers.len();
    if count == 0 {
        return None;
    }
    let pace = varied.wrapping_mul(round / count);
    numbers.get(round.wrapping_add(pace) % count)
}

/// The places that are marked.
fn marked_places(alloc: Global, marks: &[bool]) -> Result<Vec<usize>, AllocError> {
    let mut places = Vec::new(alloc);
    for (place, marked) in marks.iter().enumerate() {
        if *marked {
            places.push(place)?;
        }
    }
    Ok(places)
}

/// Puts the numbers of a round into these cells of the store, where they take them.
fn vary(
    alloc: Global,
    store: &mut Store,
    cells: &[Cell],
    places: &[usize],
    numbers: &[i128],
    round: usize,
) {
    let mut varied: usize = 0;
    for place in places {
        if let (Some(cell), Some(number)) = (
            cells.get(*place),
            number_for(numbers, round, varied),
        ) {
            if cell.ty.contains(*number) {
                put(alloc, store, *place, *number);
            }
        }
        varied = varied.wrapping_add(1);
    }
}

/// A store from which the act leads on, if one is guessed.
pub(crate) fn guesses(alloc: Global, cfa: &Cfa, act: &Act) -> Result<Vec<Store>, AllocError> {
    let mut found = Vec::new(alloc);
    let mut marks = vec![in alloc; false; cfa.cells.len()]?;
    let mut numbers = Vec::new(alloc);
    numbers.push(0)?;
    numbers.push(1)?;
    note_act(&mut marks, &mut numbers, act)?;
    let places = marked_places(alloc, &marks)?;
    let mut store = Store {
        values: Seq::from_vec(first_values(alloc, cfa.cells.as_slice())?),
    };
    for round in 0..TRIED {
        if leads_from(act, &store) {
            found.push(store)?;
            return Ok(found);
        }
        vary(
            alloc,
            &mut store,
            cfa.cells.as_slice(),
            &places,
            &numbers,
            round,
        );
    }
    Ok(found)
}

//! Where the points and the cells of a text's program come from. It owes safety alone, proved by
//! the checker alone.
ghost use Rattle.std.specs.Prelude.{◌≤◌, length};
ghost use Rattle.c_lexer.specs.declared.lexer.TheConstants.{MAX_TEXT};

use c_lexer::TextError;
use c_program::traced_program;
use cases_reader::Place;
use cpa_ints::DataModel;
use std::alloc::{AllocError, Global};

/// The places of a text in a line.
pub(crate) fn line(alloc: Global, text: &[u8], model: DataModel) -> Result<String, TextError>
    requires { length text.now ≤ MAX_TEXT }
{
    let traced = traced_program(alloc, text, model)?;
    Ok(line_of(
        alloc,
        text,
        traced.points.as_slice(),
        traced.cells.as_slice(),
    )?)
}

/// These places, each the offset of a byte, in a line.
fn line_of(
    alloc: Global,
    text: &[u8],
    points: &[u32],
    cells: &[Option<u32>],
) -> Result<String, AllocError> {
    let mut line = String::from_str(alloc, "points")?;
    for point in points {
        push_place(&mut line, text, *point)?;
    }
    for cell in cells {
        push_cell(&mut line, text, *cell)?;
    }
    Ok(line)
}

/// Adds the place of a byte.
fn push_place(line: &mut String, text: &[u8], offset: u32) -> Result<(), AllocError> {
    let place = Place::of(text, offset as usize);
    write!(line, " {place}")
}

/// Adds a cell, with its name and its place where it has them.
fn push_cell(line: &mut String, text: &[u8], cell: Option<u32>) -> Result<(), AllocError> {
    line.push_str("; cell")?;
    match cell {
        Some(from) => {
            push_name(line, text, from as usize)?;
            push_place(line, text, from)
        }
        None => Ok(()),
    }
}

/// Adds the name that begins at a byte.
fn push_name(line: &mut String, text: &[u8], from: usize) -> Result<(), AllocError> {
    line.push_str(" ")?;
    for byte in text.iter().skip(from) {
        if !byte.is_ascii_alphanumeric() && *byte != b'_' {
            break;
        }
        line.push(*byte as char)?;
    }
    Ok(())
}

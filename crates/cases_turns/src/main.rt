//! Prints each row of the standard input with what an analysis, a reached set, a composite or a
//! whole analysis answers to the call that it names. README.md says how the wanted answers were
//! made.
#![tactic(auto)]

mod analyses;
mod composites;
mod predicates;
mod reached;
mod rows;
mod setting;

use analyses::Boxes;
use cpa_callstack::Callstack;
use cpa_composite::Handed;
use cpa_iface::{Location, Plain};
use cpa_interval::Interval;
use cpa_value::Value;
use rows::Rows;
use std::alloc::Global;
use std::io::{self, BufRead, BufReader, BufWriter, Write};

/// What the rows set lives from the first row to the last.
fn main(rt: HostRuntime) -> io::Result<()> {
    let alloc = rt.alloc();
    let mut boxes = Boxes {
        location: Handed {
            analysis: Box::new(alloc, Plain(Location))?,
        },
        callstack: Handed {
            analysis: Box::new(alloc, Plain(Callstack))?,
        },
        value: Handed {
            analysis: Box::new(alloc, Value::new())?,
        },
        interval: Handed {
            analysis: Box::new(alloc, Interval::new())?,
        },
    };
    let mut rows = Rows::new(alloc)?;
    answer_all(&rt, &mut boxes, &mut rows)
}

/// Answers row by row.
fn answer_all(rt: &HostRuntime, boxes: &mut Boxes, rows: &mut Rows) -> io::Result<()> {
    let alloc = rt.alloc();
    let mut out = BufWriter::new(alloc, io::writer(rt))?;
    for line in BufReader::new(alloc, rt.reader())?.lines(alloc) {
        print_row(alloc, &mut out, boxes, rows, line?.as_str())?;
    }
    out.flush()
}

/// Prints a row with its answer.
fn print_row<W: Write>(
    alloc: Global,
    out: &mut W,
    boxes: &mut Boxes,
    rows: &mut Rows,
    line: &str,
) -> io::Result<()> {
    let printed = rows.answered(alloc, boxes, line)?;
    writeln!(out, "{printed}")
}

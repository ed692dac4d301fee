//! Prints each row of the standard input with what it asks of a program: replays, facts, edges and
//! paths. README.md says how the wanted answers were made.
#![tactic(auto)]

mod additions;
mod asking;
mod edge_rows;
mod fact_rows;
mod folding;
mod interpolant_rows;
mod judging;
mod numbers;
mod path_rows;
mod replay_rows;
mod rows;
mod runs;
mod told;

use cases_programs::Table;
use std::io::{self, BufRead, BufReader, BufWriter, Write};
use std::thread::Threads;

/// The program that the rows set lives from the first row to the last.
fn main(rt: HostRuntime) -> io::Result<()> {
    let mut table = Table::new(rt.alloc());
    answer_all(&rt, &rt, &mut table)
}

/// Answers row by row. Threads are started by the second handle.
fn answer_all<R: Threads + Sync>(
    rt: &HostRuntime,
    threads: &R,
    table: &mut Table,
) -> io::Result<()> {
    let alloc = rt.alloc();
    let mut out = BufWriter::new(alloc, io::writer(rt))?;
    for line in BufReader::new(alloc, rt.reader())?.lines(alloc) {
        let line = line?;
        let printed = rows::answered(threads, alloc, table, line.as_str())?;
        writeln!(out, "{printed}")?;
    }
    out.flush()
}

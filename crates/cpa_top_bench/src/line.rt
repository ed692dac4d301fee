//! The line of a measurement: `bench_line` of `specs/Measurements.antt`.
ghost use Rattle.std.specs.Prelude.{◌≡◌, ◌++◌, decimal, IfOk, OnOk};
ghost use Rattle.std.specs.String.{string_bytes};
ghost use Rattle.cpa_top_bench.specs.Measurements.{bench_line};

use crate::Measured;
use std::alloc::{AllocError, Global};

/// Adds a word and a count.
fn push_count(line: &mut String, word: &str, count: usize) -> Result<(), AllocError>
    ensures { OnOk result (string_bytes line.new
        ≡ string_bytes line.old ++ word.now ++ decimal count) }
{
    line.push_str(word)?;
    write!(line, "{count}")
}

/// The line that says what came of a measurement of so many functions.
pub fn bench_line(alloc: Global, functions: u32, measured: Measured) -> Result<String, AllocError>
    ensures { IfOk result (λ line. string_bytes line ≡ bench_line functions measured) }
{
    let mut line = String::new(alloc);
    push_count(&mut line, "bench ", functions as usize)?;
    push_count(&mut line, " points ", measured.points as usize)?;
    push_count(&mut line, " edges ", measured.edges)?;
    push_count(&mut line, " entries ", measured.entries)?;
    line.push_str(" ")?;
    line.push_str(measured.verdict.words())?;
    line.push_str("\n")?;
    Ok(line)
}

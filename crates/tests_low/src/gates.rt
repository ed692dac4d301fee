//! That the parts of `first_bad` of `cpa_audit` tell their gates and run at the same time, which no
//! clause says; and its answers, since a call takes a handle that no row has.

use cpa_audit::{Gate, NoGate, first_bad};
use cpa_cnf::{Clause, Cnf, Line, Lit, Step};
use cpa_ints::Seq;
use std::alloc::{AllocError, Global};
use std::sync::atomic::{AtomicU64, Ordering};
use std::test::Fail;

/// A turn looks once at the flag of part 1.
const TURNS: u32 = 100_000_000;

/// What part 1 sets, and what part 0 saw of it.
#[derive(Drop)]
struct Flags {
    begun: AtomicU64,
    seen: AtomicU64,
}

impl Gate for Flags {
    /// Part 1 sets its flag; part 0 looks for it, at most so many turns.
    fn enter(&self, part: u32) {
        if part == 1 {
            self.begun.store(1, Ordering::SeqCst);
            return;
        }
        for _ in 0..TURNS {
            if self.begun.load(Ordering::SeqCst) == 1 {
                self.seen.store(1, Ordering::SeqCst);
                return;
            }
        }
    }
}

/// The clause of these literals, of which a number 2 * var + neg stands for one.
fn clause(alloc: Global, numbers: &[u32]) -> Result<Clause, AllocError> {
    let mut literals = Vec::new(alloc);
    for number in numbers {
        literals.push(Lit::new(number / 2, number % 2 == 1))?;
    }
    Clause::from_lits(literals)
}

/// The line of this clause from the clause `first` by one step.
fn line(
    alloc: Global,
    numbers: &[u32],
    first: u32,
    pivot: u32,
    other: u32,
) -> Result<Line, AllocError> {
    let mut steps = Seq::new(alloc);
    steps.push(Step {
        pivot,
        clause: other,
    })?;
    Ok(Line {
        clause: clause(alloc, numbers)?,
        first,
        steps,
    })
}

/// All four clauses of two variables.
fn formula(alloc: Global) -> Result<Cnf, AllocError> {
    let mut clauses = Seq::new(alloc);
    for numbers in [[0, 2], [0, 3], [1, 2], [1, 3]] {
        clauses.push(clause(alloc, &numbers)?)?;
    }
    Ok(Cnf { vars: 2, clauses })
}

/// Three lines that refute it, where the second has the negative literal.
fn log(alloc: Global, second: u32) -> Result<Vec<Line>, AllocError> {
    let mut lines = Vec::new(alloc);
    lines.push(line(alloc, &[0], 0, 1, 1)?)?;
    lines.push(line(alloc, &[second], 2, 1, 3)?)?;
    lines.push(line(alloc, &[], 4, 0, 5)?)?;
    Ok(lines)
}

/// A refutation has no bad line, with one worker or several; where the second line's clause is
/// another one, that line is the first bad one.
#[test]
fn every_number_of_workers_finds_the_same_line(rt: HostRuntime) -> Result<(), Fail> {
    let alloc = rt.alloc();
    let cnf = formula(alloc)?;
    let good = log(alloc, 1)?;
    let bad = log(alloc, 0)?;
    for workers in [1, 2, 8, 64] {
        let none = first_bad(&rt, alloc, &cnf, &good, workers, &NoGate)?;
        let some = first_bad(&rt, alloc, &cnf, &bad, workers, &NoGate)?;
        assert!(rt; none.is_none(), "{workers} workers");
        assert!(rt; some == Some(1), "{workers} workers");
    }
    Ok(())
}

/// Part 0 sees that part 1 has begun while it waits: a body that takes the parts one by one on one
/// thread fails here, and nothing hangs.
#[test]
fn two_parts_run_at_the_same_time(rt: HostRuntime) -> Result<(), Fail> {
    let alloc = rt.alloc();
    let cnf = formula(alloc)?;
    let lines = log(alloc, 1)?;
    let flags = Flags {
        begun: AtomicU64::new(0),
        seen: AtomicU64::new(0),
    };
    let found = first_bad(&rt, alloc, &cnf, &lines, 2, &flags)?;
    assert!(rt; found.is_none());
    assert_eq!(rt; flags.seen.load(Ordering::SeqCst), 1);
    Ok(())
}

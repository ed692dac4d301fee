//! The check of a log by several threads: the parts are halved until one is left, and what the
//! halves give is joined. By `specs/LeastBad.antt`, with `proofs/Neighbours.antt`.

ghost use Rattle.std.specs.Prelude.{◌≡◌, ◌<◌, ◌≤◌, ◌+◌, ◌^◌, ℕ, length, IfOk, vec_len};
ghost use Rattle.std.specs.List.{AllByRecursion};
ghost use Rattle.std.specs.Thread.{IsSync};
ghost use Rattle.cpa_audit.specs.LeastBad.{IsLeastBad, IsLeastBadOfParts, joined};
ghost use Rattle.cpa_audit.specs.Cuts.{AreParts};

use crate::gate::Gate;
use crate::runs::{check_run, cut};
use cpa_cnf::{Cnf, Line, Marks};
use std::alloc::{AllocError, Global};
use std::thread::{Threads, join};

/// A table of marks for each part.
#[tactic(auto, using(crate::proofs::Neighbours::all_push))]
fn tables(alloc: Global, vars: u32, workers: u32) -> Result<Vec<Marks>, AllocError>
    ensures len { IfOk result (λ tables. vec_len tables ≡ workers) }
    ensures fit { IfOk result (λ tables. AllByRecursion (λ table. table ≡ vars) tables.items) }
{
    let mut tables = Vec::new(alloc);
    for _ in 0..workers {
        tables.push(Marks::new(alloc, vars)?)?;
    }
    Ok(tables)
}

/// The least bad line of a part, behind its gate.
fn check_part<G: Gate>(
    cnf: &Cnf,
    log: &[Line],
    gate: &G,
    workers: u32,
    part: u32,
    marks: &mut Marks,
) -> Option<u32>
    requires inside { part < workers }
    requires room { length log.now < 2 ^ 32 }
    requires fits { marks.old ≡ cnf.now.vars }
    ensures { IsLeastBadOfParts cnf.now log.now workers part 1 result }
{
    gate.enter(part);
    let lines = log.len() as u32;
    let from = cut(lines, workers, part);
    let end = cut(lines, workers, part + 1);
    check_run(cnf, log, from, end, marks)
}

/// The answer of neighbours: that of the first, or else that of the second.
fn joined(first: Option<u32>, second: Option<u32>) -> Option<u32>
    ensures { result ≡ joined first second }
{
    first.or(second)
}

/// The least bad line of the parts from `first` on, as many as there are tables.
#[cycle(parts)]
fn check_parts<R: Threads + Sync, G: Gate>(
    rt: &R,
    cnf: &Cnf,
    log: &[Line],
    gate: &G,
    workers: u32,
    first: u32,
    tables: &mut [Marks],
) -> Option<u32>
    requires parts { AreParts workers first cnf.now.vars tables.old }
    requires some { 0 < length tables.old }
    requires room { length log.now < 2 ^ 32 }
    ensures { IsLeastBadOfParts cnf.now log.now workers first (length tables.old) result }
{
    if tables.len() == 1 {
        return check_part(cnf, log, gate, workers, first, &mut tables[0]);
    }
    let half = tables.len() / 2;
    let (front, back) = tables.split_at_mut(half);
    check_halves(
        rt,
        cnf,
        log,
        gate,
        workers,
        first,
        first + half as u32,
        front,
        back,
    )
}

/// The least bad line of two neighbouring rows of parts, each a thread's work.
#[cycle(parts)]
fn check_halves<R: Threads + Sync, G: Gate>(
    rt: &R,
    cnf: &Cnf,
    log: &[Line],
    gate: &G,
    workers: u32,
    first: u32,
    middle: u32,
    front: &mut [Marks],
    back: &mut [Marks],
) -> Option<u32>
    requires front { AreParts workers first cnf.now.vars front.old }
    requires back { AreParts workers middle cnf.now.vars back.old }
    requires halves { (0 < length front.old) × (0 < length back.old) }
    requires middle { middle ≡ first + length front.old }
    requires room { length log.now < 2 ^ 32 }
    ensures { IsLeastBadOfParts cnf.now log.now workers first
        (length front.old + length back.old) result }
{
    let (a, b) = join(
        rt,
        || -> Option<u32>
            requires { IsSync R.row × IsSync G.row × AreParts workers first cnf.now.vars front.now
                × (0 < length front.now) × (length log.now < 2 ^ 32) }
            ensures { IsLeastBadOfParts cnf.entry.now log.entry.now workers first
                (length front.entry.now) result }
        { check_parts(rt, cnf, log, gate, workers, first, front) },
        || -> Option<u32>
            requires { IsSync R.row × IsSync G.row × AreParts workers middle cnf.now.vars back.now
                × (0 < length back.now) × (length log.now < 2 ^ 32) }
            ensures { IsLeastBadOfParts cnf.entry.now log.entry.now workers middle
                (length back.entry.now) result }
        { check_parts(rt, cnf, log, gate, workers, middle, back) },
    );
    joined(a, b)
}

/// The least line of the log that is not good, None where each is, for every number of workers and
/// every gate. The lines are cut into as many runs, whose lengths differ by at most 1; the runs are
/// halved and joined, and part p tells the gate as it begins. All memory is taken before the first
/// join; a log of 2^32 lines is want of memory.
pub fn first_bad<R: Threads + Sync, G: Gate>(
    rt: &R,
    alloc: Global,
    cnf: &Cnf,
    log: &[Line],
    workers: u32,
    gate: &G,
) -> Result<Option<u32>, AllocError>
    requires { (0 < workers) × (workers ≤ 64) }
    ensures { IfOk result (IsLeastBad cnf.now log.now) }
{
    if log.len() > u32::MAX as usize {
        return Err(AllocError);
    }
    let mut tables = tables(alloc, cnf.vars, workers)?;
    Ok(check_parts(rt, cnf, log, gate, workers, 0, &mut tables))
}

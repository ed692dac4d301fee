//! The runs of lines, the check of one by one thread, and what two neighbours give together. By
//! `specs/LeastBad.antt` and `specs/Cuts.antt`, with `proofs/Neighbours.antt`.

ghost use Rattle.std.specs.Prelude.{◌≡◌, ◌<◌, ◌≤◌, ◌^◌, ℕ, length};
ghost use Rattle.cpa_audit.specs.Cuts.{cut};
ghost use Rattle.cpa_audit.specs.LeastBad.{IsLeastBadBetween};

use cpa_cnf::{Cnf, Line, Marks, check_line};

/// The number of the line with which a part begins.
pub(crate) fn cut(lines: u32, workers: u32, part: u32) -> u32
    requires some { 0 < workers }
    requires inside { part ≤ workers }
    ensures value { result ≡ cut lines workers part }
    ensures within { result ≤ lines }
{
    (u64::from(part) * u64::from(lines) / u64::from(workers)) as u32
}

/// The least bad line of a run.
pub(crate) fn check_run(
    cnf: &Cnf,
    log: &[Line],
    from: u32,
    end: u32,
    marks: &mut Marks,
) -> Option<u32>
    requires inside { end ≤ length log.now }
    requires fits { marks.old ≡ cnf.now.vars }
    ensures { IsLeastBadBetween cnf.now log.now from end result }
{
    for i in from..end {
        if !check_line(cnf, log, i, marks) {
            return Some(i);
        }
    }
    None
}

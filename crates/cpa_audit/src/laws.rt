//! Laws of the least bad line and of the cuts. Each function does nothing: its contract is the law.
//! Proved with `proofs/Neighbours.antt`.

ghost use Rattle.std.specs.Prelude.{◌≡◌, ◌<◌, ◌≤◌, ◌+◌, ◌/◌, ℕ, List, Option};
ghost use Rattle.cpa_cnf.specs.declared.formula.Cnf.{Cnf};
ghost use Rattle.cpa_cnf.specs.declared.formula.Line.{Line};
ghost use Rattle.cpa_audit.specs.Cuts.{cut};
ghost use Rattle.cpa_audit.specs.LeastBad.{IsLeastBad};

/// A log has one least bad line, or none: so no two calls of `first_bad` answer differently,
/// whatever their numbers of workers and their gates.
pub fn a_log_has_one_least_bad_line()
    ensures { (cnf : Cnf) (log : List Line) (a b : Option ℕ)
        → IsLeastBad cnf log a → IsLeastBad cnf log b → a ≡ b }
{}

/// The runs go from the first line to the last, each of as many lines as the quotient says, or of
/// one more.
pub fn runs_are_even()
    ensures first { (lines workers : ℕ) → 0 < workers → cut lines workers 0 ≡ 0 }
    ensures last { (lines workers : ℕ) → 0 < workers → cut lines workers workers ≡ lines }
    ensures each { (lines workers part : ℕ) → 0 < workers
        → (cut lines workers part + lines / workers ≤ cut lines workers (part + 1))
        × (cut lines workers (part + 1) ≤ cut lines workers part + lines / workers + 1) }
{}

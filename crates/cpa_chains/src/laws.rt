//! Laws of the two sides. Each function does nothing: its contract is the law.
//! Proved with `proofs/Joining.antt`.

ghost use Rattle.std.specs.Prelude.{◌≡◌, ℕ, ◌++◌, true, false, List, length, replicate};
ghost use Rattle.cpa_chains.specs.Sides.{clauses_on};

/// Where the clauses of B stand behind those of A, each side has its own.
pub fn two_lists_are_sides()
    ensures first { (front back : List (List ℕ)) → clauses_on true
        (replicate (length front) true ++ replicate (length back) false) (front ++ back) ≡ front }
    ensures second { (front back : List (List ℕ)) → clauses_on false
        (replicate (length front) true ++ replicate (length back) false) (front ++ back) ≡ back }
{}

//! Laws of refutations and clauses. Each function does nothing: its contract is the law.
//! Proved with `proofs/Refutations.antt`.

ghost use Rattle.std.specs.Prelude.{◌≡◌, ℕ, Bool, List};
ghost use Rattle.cpa_cnf.specs.Clauses.{has, IsClause};
ghost use Rattle.cpa_cnf.specs.declared.formula.Cnf.{Cnf};
ghost use Rattle.cpa_cnf.specs.declared.formula.Line.{Line};
ghost use Rattle.cpa_cnf.specs.Lines.{IsRefutation};
ghost use Rattle.cpa_cnf.specs.Models.{IsModel};

/// A formula with a refutation has no model.
pub fn a_refuted_formula_has_no_model()
    ensures { (cnf : Cnf) (log : List Line) (values : List Bool)
        → IsRefutation cnf log → IsModel cnf values → ⊥ }
{}

/// Two clauses with the same literals are equal.
pub fn a_clause_is_its_literals()
    ensures { (a b : List ℕ) → IsClause a → IsClause b → ((l : ℕ) → has a l ≡ has b l) → a ≡ b }
{}

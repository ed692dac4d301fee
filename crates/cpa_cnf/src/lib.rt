//! Clauses, resolution and lines of a refutation. The definitions stand in specs/: literals and
//! clauses, resolvents, good lines, models; what `check_line` accepts refutes.
#![tactic(auto)]

mod checking;
mod clause;
mod formula;
mod laws;
mod literal;
mod marks;
mod resolution;

pub use checking::check_line;
pub use clause::Clause;
pub use formula::{Cnf, Line, Step};
pub use laws::{a_clause_is_its_literals, a_refuted_formula_has_no_model};
pub use literal::Lit;
pub use marks::Marks;
pub use resolution::resolve;

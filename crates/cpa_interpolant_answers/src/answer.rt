//! What comes of one cut of a path. What each answer holds is `IsAnswer` of specs/Answers.

use cpa_cnf::Line;
use cpa_expr::Expr;
use cpa_ints::Boxed;

/// What comes of a cut of a path.
#[derive(Drop)]
pub enum Answer {
    /// The expression behind the cut.
    Next(Boxed<Expr>),
    /// A run of stores goes through the cut.
    Run,
    /// The search wrote all lines that were allowed, without a decision.
    Learnt(Vec<Line>),
    /// The two parts weigh this much together, which is more than was allowed.
    Gates(u64),
    /// The lines refute the cut's formula, and their expression is too large.
    Large(Vec<Line>),
}

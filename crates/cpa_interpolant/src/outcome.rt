//! What comes of a walk over the cuts of a path. What each outcome holds is `IsAlong` of
//! specs/Along.

use cpa_cnf::Line;
use cpa_expr::{Expr, Store};

/// What comes of the cuts of a path.
#[derive(Drop)]
pub enum Along {
    /// Interpolants of the path: one before each edge, and one behind the last.
    Cuts {
        exprs: Vec<Expr>,
    },
    /// A model of the path's query from any store.
    Model {
        store: Store,
    },
    /// At this cut the search wrote all lines that were allowed, without a decision.
    Learnt {
        exprs: Vec<Expr>,
        cut: u32,
        lines: Vec<Line>,
    },
    /// The two parts of this cut weigh this much together, which is more than was allowed.
    Gates {
        exprs: Vec<Expr>,
        cut: u32,
        weight: u64,
    },
    /// The lines refute the formula of this cut, and their expression is too large.
    Large {
        exprs: Vec<Expr>,
        cut: u32,
        lines: Vec<Line>,
    },
}

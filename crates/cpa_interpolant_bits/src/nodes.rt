//! What a node is, and what is known of a truth.
//! What they ask of an assignment and of a store is said in specs/Nodes.

use cpa_cnf::Lit;

/// A truth over variables: that of a literal, or of two earlier nodes together.
#[derive(Clone, Copy, PartialEq, Eq, Hash)]
pub enum Node {
    Literal(Lit),
    /// Both nodes are true.
    Both(u32, u32),
    /// One of the nodes is true.
    Either(u32, u32),
}

/// A truth that is known whatever the variables are, or that of a node.
#[derive(Clone, Copy)]
pub enum Condition {
    Known(bool),
    Open(u32),
}

//! The nodes with the number of each by the node, so that an equal one is found by hash.
//! What is kept is `IsTable` of specs/Tables, proved by the checker alone.

ghost use Rattle.std.specs.Prelude.{◌≡◌, ◌∷◌, [], IfOk, OnOk, OnErr, None, length};
ghost use Rattle.cpa_interpolant_bits.specs.Nodes.{made, place_of, shared};
ghost use Rattle.cpa_interpolant_bits.specs.Tables.{nodes_of, IsTable};

use crate::nodes::{Condition, Node};
use std::alloc::{AllocError, Global};
use std::collections::HashMap;

/// The most nodes of a table: a u32 counts them.
pub(crate) const MOST_NODES: usize = u32::MAX as usize;

/// The nodes, the oldest one first, and the number of the newest of each kind of equal ones.
#[derive(Drop)]
pub(crate) struct Table {
    pub(crate) nodes: Vec<Node>,
    pub(crate) places: HashMap<Node, u32>,
}

/// No nodes.
pub(crate) fn empty(alloc: Global) -> Table
    ensures table { IsTable result }
    ensures empty { nodes_of result ≡ [] }
{
    Table {
        nodes: Vec::new(alloc),
        places: HashMap::new(alloc),
    }
}

/// The number of a node that stands.
fn find(table: &Table, node: &Node) -> Option<u32>
    requires { IsTable table.now }
    ensures { result ≡ place_of (nodes_of table.now) node.now }
{
    table.places.get(node).copied()
}

/// Adds a node, and gives its number. Where memory runs out, or there are 2^32 - 1 nodes, the table
/// stays as it is.
fn push(table: &mut Table, node: &Node) -> Result<u32, AllocError>
    requires { IsTable table.old }
    ensures table { IsTable table.new }
    ensures pushed { OnOk result (nodes_of table.new ≡ node.now ∷ nodes_of table.old) }
    ensures number { IfOk result (λ n. n ≡ length (nodes_of table.old)) }
    ensures kept { OnErr result (nodes_of table.new ≡ nodes_of table.old) }
{
    let number = table.nodes.len();
    if number + 1 >= MOST_NODES {
        return Err(AllocError);
    }
    table.nodes.reserve(1)?;
    table.places.insert(*node, number as u32)?;
    table.nodes.push_reserved(*node);
    Ok(number as u32)
}

/// A node that does not stand yet.
#[tactic(auto, unfolding(crate::specs::Nodes::shared))]
fn make(table: &mut Table, node: &Node) -> Result<Condition, AllocError>
    requires table { IsTable table.old }
    requires new { place_of (nodes_of table.old) node.now ≡ None }
    ensures table { IsTable table.new }
    ensures made { IfOk result (λ c. made (nodes_of table.new) c
        ≡ shared (nodes_of table.old) node.now) }
    ensures kept { OnErr result (nodes_of table.new ≡ nodes_of table.old) }
{
    let number = push(table, node)?;
    Ok(Condition::Open(number))
}

/// The truth of the node, which is made where no equal one stands.
#[tactic(auto, unfolding(crate::specs::Nodes::shared))]
pub(crate) fn share(table: &mut Table, node: &Node) -> Result<Condition, AllocError>
    requires { IsTable table.old }
    ensures table { IsTable table.new }
    ensures made { IfOk result (λ c. made (nodes_of table.new) c
        ≡ shared (nodes_of table.old) node.now) }
    ensures kept { OnErr result (nodes_of table.new ≡ nodes_of table.old) }
{
    match find(table, node) {
        Some(number) => Ok(Condition::Open(number)),
        None => make(table, node),
    }
}

//! Conditions under construction. Contracts see the list of the nodes, the newest one first; each
//! call is an operator of specs/Nodes, whose meaning is a law (laws.rt).

ghost use Rattle.std.specs.Prelude.{◌≡◌, [], IfOk, OnErr};
ghost use Rattle.cpa_interpolant_bits.specs.Nodes.{made, literal_made, both_made, either_made};
ghost use Rattle.cpa_interpolant_bits.specs.Nodes.{both_nodes, either_nodes, IsInside, IsScoped};
ghost use Rattle.cpa_interpolant_bits.specs.Nodes.{expr_in};
ghost use Rattle.cpa_interpolant_bits.specs.Limits.{unless_large};
ghost use Rattle.cpa_interpolant_bits.specs.Tables.{nodes_of, IsTable};

use crate::bits::Bit;
use crate::building;
use crate::nodes::{Condition, Node};
use crate::table::{self, Table};
use cpa_cnf::Lit;
use cpa_expr::Expr;
use cpa_ints::Boxed;
use std::alloc::{AllocError, Global};
use std::marker::Model;

/// Truths over variables as nodes, each of which stands once. Where memory runs out, or there would
/// be 2^32 - 1 nodes, a call leaves them as they are.
#[derive(Drop)]
pub struct Conditions {
    table: Table,
}

impl Model for Conditions {
    ghost use Rattle.std.specs.Prelude.{List};
    ghost use Rattle.std.specs.Coded.{codes};
    ghost use Rattle.cpa_interpolant_bits.specs.declared.nodes.Node.{Node};
    ghost use Rattle.cpa_interpolant_bits.specs.contracts.nodes.Node as node;
    ghost use Rattle.cpa_interpolant_bits.specs.Tables.{nodes_of, IsTable};

    ghost Value = { List Node };

    ghost coded = { Prim.hlevel (codes, node.the_row.coded) };

    ghost view = { λ c. nodes_of c.table };

    ghost invariant = { λ c. IsTable c.table };
}

/// Two nodes, both of which are true.
fn both_nodes(table: &mut Table, left: u32, right: u32) -> Result<Condition, AllocError>
    requires { IsTable table.old }
    ensures table { IsTable table.new }
    ensures made { IfOk result (λ c. made (nodes_of table.new) c
        ≡ both_nodes (nodes_of table.old) left right) }
    ensures kept { OnErr result (nodes_of table.new ≡ nodes_of table.old) }
{
    if left == right {
        Ok(Condition::Open(left))
    } else {
        table::share(table, &Node::Both(left, right))
    }
}

/// Two nodes, one of which is true.
fn either_nodes(table: &mut Table, left: u32, right: u32) -> Result<Condition, AllocError>
    requires { IsTable table.old }
    ensures table { IsTable table.new }
    ensures made { IfOk result (λ c. made (nodes_of table.new) c
        ≡ either_nodes (nodes_of table.old) left right) }
    ensures kept { OnErr result (nodes_of table.new ≡ nodes_of table.old) }
{
    if left == right {
        Ok(Condition::Open(left))
    } else {
        table::share(table, &Node::Either(left, right))
    }
}

/// Both are true.
fn both(table: &mut Table, left: Condition, right: Condition) -> Result<Condition, AllocError>
    requires { IsTable table.old }
    ensures table { IsTable table.new }
    ensures made { IfOk result (λ c. made (nodes_of table.new) c
        ≡ both_made (nodes_of table.old) left right) }
    ensures kept { OnErr result (nodes_of table.new ≡ nodes_of table.old) }
{
    match (left, right) {
        (Condition::Known(true), other) => Ok(other),
        (Condition::Known(false), _) => Ok(Condition::Known(false)),
        (Condition::Open(number), Condition::Known(true)) => Ok(Condition::Open(number)),
        (Condition::Open(_), Condition::Known(false)) => Ok(Condition::Known(false)),
        (Condition::Open(left), Condition::Open(right)) => both_nodes(table, left, right),
    }
}

/// One is true.
fn either(table: &mut Table, left: Condition, right: Condition) -> Result<Condition, AllocError>
    requires { IsTable table.old }
    ensures table { IsTable table.new }
    ensures made { IfOk result (λ c. made (nodes_of table.new) c
        ≡ either_made (nodes_of table.old) left right) }
    ensures kept { OnErr result (nodes_of table.new ≡ nodes_of table.old) }
{
    match (left, right) {
        (Condition::Known(true), _) => Ok(Condition::Known(true)),
        (Condition::Known(false), other) => Ok(other),
        (Condition::Open(_), Condition::Known(true)) => Ok(Condition::Known(true)),
        (Condition::Open(number), Condition::Known(false)) => Ok(Condition::Open(number)),
        (Condition::Open(left), Condition::Open(right)) => either_nodes(table, left, right),
    }
}

impl Conditions {
    /// No nodes.
    pub fn new(alloc: Global) -> Conditions
        ensures { result ≡ [] }
    {
        Conditions {
            table: table::empty(alloc),
        }
    }

    /// The truth of a literal.
    pub fn literal(&mut self, literal: Lit) -> Result<Condition, AllocError>
        ensures made { IfOk result (λ c. made self.new c ≡ literal_made self.old literal) }
        ensures kept { OnErr result (self.new ≡ self.old) }
    {
        table::share(&mut self.table, &Node::Literal(literal))
    }

    /// Whether both are true.
    pub fn both(&mut self, left: Condition, right: Condition) -> Result<Condition, AllocError>
        ensures made { IfOk result (λ c. made self.new c ≡ both_made self.old left right) }
        ensures kept { OnErr result (self.new ≡ self.old) }
    {
        both(&mut self.table, left, right)
    }

    /// Whether one is true.
    pub fn either(&mut self, left: Condition, right: Condition) -> Result<Condition, AllocError>
        ensures made { IfOk result (λ c. made self.new c ≡ either_made self.old left right) }
        ensures kept { OnErr result (self.new ≡ self.old) }
    {
        either(&mut self.table, left, right)
    }

    /// The expression of a condition over the bits that the variables are, or None where it has
    /// more than `MAX_SIZE` nodes or is higher than `MAX_HEIGHT`. Its size is found first, in one
    /// pass over the nodes, so that no large expression is made.
    pub fn expression(
        &self,
        alloc: Global,
        bits: &[Option<Bit>],
        condition: Condition,
    ) -> Result<Option<Boxed<Expr>>, AllocError>
        requires inside { IsInside self.now condition }
        requires scoped { IsScoped self.now }
        ensures { IfOk result (λ found. found
            ≡ unless_large (expr_in bits.now self.now condition)) }
    {
        building::expression(alloc, self.table.nodes.as_slice(), bits, condition)
    }
}

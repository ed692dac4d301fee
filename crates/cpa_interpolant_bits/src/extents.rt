//! How large the expressions of nodes are, node after node and without making them, as far as u32
//! counts: `extent_of` of specs/Limits. Proved with `proofs/Measured.antt`.

ghost use Rattle.std.specs.Prelude.{◌≡◌, List, map, reverse, slice_index_or, IfOk, false};
ghost use Rattle.cpa_expr.specs.declared.tree.Expr.{Expr};
ghost use Rattle.cpa_interpolant_bits.specs.declared.bits.Bit.{Bit};
ghost use Rattle.cpa_interpolant_bits.specs.Bits.{bit_is};
ghost use Rattle.cpa_interpolant_bits.specs.Nodes.{constant_of, literal_read, node_expr, exprs};
ghost use Rattle.cpa_interpolant_bits.specs.Limits.{extent_of, joined_extent};

use crate::bits::{Bit, bit_named};
use crate::nodes::Node;
use cpa_cnf::Lit;
use std::alloc::{AllocError, Global};

/// The size and the height of an expression, or the greatest `u32` where they are more.
#[derive(Clone, Copy)]
pub(crate) struct Extent {
    pub(crate) size: u32,
    pub(crate) height: u32,
}

/// The extent of a constant.
pub(crate) const LEAF: Extent = Extent { size: 1, height: 1 };

/// The extent of a bit that is set.
const READ: Extent = Extent { size: 9, height: 6 };

/// The extent of a bit that is not set.
const UNSET: Extent = Extent {
    size: 10,
    height: 7,
};

/// The extent of the expression of a bit.
fn bit_extent(set: bool) -> Extent
    ensures { (bit : Bit) → result ≡ extent_of (bit_is bit set) }
{
    if set { READ } else { UNSET }
}

/// The extent of a literal's expression.
fn literal_extent(bits: &[Option<Bit>], literal: Lit) -> Extent
    ensures { result ≡ extent_of (literal_read bits.now literal) }
{
    match bit_named(bits, literal.var()) {
        Some(_) => bit_extent(!literal.is_negative()),
        None => LEAF,
    }
}

/// The extent at a number, that of a constant where there is none.
pub(crate) fn extent_at(extents: &[Extent], number: u32) -> Extent
    ensures { (found : List Expr) → extents.now ≡ map extent_of found
        → result ≡ extent_of (slice_index_or found number (constant_of false)) }
{
    match extents.get(number as usize) {
        Some(extent) => *extent,
        None => LEAF,
    }
}

/// The extent of two expressions under one node.
fn joined_extent(left: Extent, right: Extent) -> Extent
    ensures { result ≡ joined_extent left right }
{
    Extent {
        size: left.size.saturating_add(right.size).saturating_add(1),
        height: left.height.max(right.height).saturating_add(1),
    }
}

/// The extent of a node, by those before it.
fn node_extent(extents: &[Extent], bits: &[Option<Bit>], node: &Node) -> Extent
    ensures { (found : List Expr) → extents.now ≡ map extent_of found → result ≡ extent_of
        (node_expr bits.now (λ number. slice_index_or found number (constant_of false)) node.now) }
{
    match node {
        Node::Literal(literal) => literal_extent(bits, *literal),
        Node::Both(left, right) => joined_extent(
            extent_at(extents, *left),
            extent_at(extents, *right),
        ),
        Node::Either(left, right) => joined_extent(
            extent_at(extents, *left),
            extent_at(extents, *right),
        ),
    }
}

/// The extents of the nodes, the oldest one first.
pub(crate) fn extents(
    alloc: Global,
    nodes: &[Node],
    bits: &[Option<Bit>],
) -> Result<Vec<Extent>, AllocError>
    ensures { IfOk result (λ es. es.items ≡ map extent_of (exprs bits.now (reverse nodes.now))) }
{
    let mut extents = Vec::new(alloc);
    for node in nodes {
        let extent = node_extent(extents.as_slice(), bits, node);
        extents.push(extent)?;
    }
    Ok(extents)
}

//! The expressions of conditions, made from the root down once it is known that they are not too
//! large: `expr_in` of specs/Nodes, `unless_large` of specs/Limits. Proved with
//! `proofs/Measured.antt`.

ghost use Rattle.std.specs.Prelude.{◌≡◌, ◌<◌, IfOk, List, Option, length, map, reverse};
ghost use Rattle.cpa_expr.specs.declared.tree.Expr.{Expr};
ghost use Rattle.cpa_interpolant_bits.specs.declared.bits.Bit.{Bit};
ghost use Rattle.cpa_interpolant_bits.specs.declared.nodes.Node.{Node};
ghost use Rattle.cpa_interpolant_bits.specs.Nodes.{IsScoped, IsInside, constant_of, literal_read};
ghost use Rattle.cpa_interpolant_bits.specs.Nodes.{exprs, expr_at, expr_in};
ghost use Rattle.cpa_interpolant_bits.specs.Limits.{extent_of, is_large, unless_large};

use crate::bits::{Bit, bit_is, bit_named};
use crate::extents::{Extent, LEAF, extent_at, extents};
use crate::nodes::{Condition, Node};
use cpa_cnf::Lit;
use cpa_expr::{Expr, both, constant, either};
use cpa_ints::{Boxed, IntType};
use std::alloc::{AllocError, Global};

/// The most nodes of an expression that is made.
pub const MAX_SIZE: u32 = 2000;

/// The greatest height of an expression that is made.
pub const MAX_HEIGHT: u32 = 300;

/// An int that is 1 or 0.
fn constant_of(alloc: Global, truth: bool) -> Result<Boxed<Expr>, AllocError>
    ensures { IfOk result (λ e. e ≡ constant_of truth) }
{
    constant(alloc, IntType::I32, i128::from(truth))
}

/// The expression of a literal; one whose variable is no bit is false.
fn literal_read(
    alloc: Global,
    bits: &[Option<Bit>],
    literal: Lit,
) -> Result<Boxed<Expr>, AllocError>
    ensures { IfOk result (λ e. e ≡ literal_read bits.now literal) }
{
    match bit_named(bits, literal.var()) {
        Some(bit) => bit_is(alloc, bit, !literal.is_negative()),
        None => constant_of(alloc, false),
    }
}

/// The expression of a node that stands.
fn built(
    alloc: Global,
    nodes: &[Node],
    bits: &[Option<Bit>],
    number: u32,
) -> Result<Boxed<Expr>, AllocError>
    requires inside { number < length nodes.now }
    requires scoped { IsScoped (reverse nodes.now) }
    ensures { IfOk result (λ e. e ≡ expr_at bits.now (reverse nodes.now) number) }
{
    match &nodes[number as usize] {
        Node::Literal(literal) => literal_read(alloc, bits, *literal),
        Node::Both(left, right) => {
            let left = built(alloc, nodes, bits, *left)?;
            let right = built(alloc, nodes, bits, *right)?;
            both(alloc, left, right)
        }
        Node::Either(left, right) => {
            let left = built(alloc, nodes, bits, *left)?;
            let right = built(alloc, nodes, bits, *right)?;
            either(alloc, left, right)
        }
    }
}

/// Whether an expression of this extent is too large.
fn is_large(extent: Extent) -> bool
    ensures { (e : Expr) → extent ≡ extent_of e → result ≡ is_large e }
{
    MAX_SIZE < extent.size || MAX_HEIGHT < extent.height
}

/// The extent of a condition's expression.
fn condition_extent(extents: &[Extent], condition: Condition) -> Extent
    ensures { (bits : List (Option Bit)) (nodes : List Node)
        → extents.now ≡ map extent_of (exprs bits nodes)
        → result ≡ extent_of (expr_in bits nodes condition) }
{
    match condition {
        Condition::Known(_) => LEAF,
        Condition::Open(number) => extent_at(extents, number),
    }
}

/// The expression of the condition.
fn expression_of(
    alloc: Global,
    nodes: &[Node],
    bits: &[Option<Bit>],
    condition: Condition,
) -> Result<Boxed<Expr>, AllocError>
    requires inside { IsInside (reverse nodes.now) condition }
    requires scoped { IsScoped (reverse nodes.now) }
    ensures { IfOk result (λ e. e ≡ expr_in bits.now (reverse nodes.now) condition) }
{
    match condition {
        Condition::Known(truth) => constant_of(alloc, truth),
        Condition::Open(number) => built(alloc, nodes, bits, number),
    }
}

/// The expression of the condition, or None where it is too large.
pub(crate) fn expression(
    alloc: Global,
    nodes: &[Node],
    bits: &[Option<Bit>],
    condition: Condition,
) -> Result<Option<Boxed<Expr>>, AllocError>
    requires inside { IsInside (reverse nodes.now) condition }
    requires scoped { IsScoped (reverse nodes.now) }
    ensures { IfOk result (λ found. found
        ≡ unless_large (expr_in bits.now (reverse nodes.now) condition)) }
{
    let extents = extents(alloc, nodes, bits)?;
    let extent = condition_extent(extents.as_slice(), condition);
    if is_large(extent) {
        return Ok(None);
    }
    let expression = expression_of(alloc, nodes, bits, condition)?;
    Ok(Some(expression))
}

//! The circuit of an expression, `circuit` of specs/Circuits: one function for each form of node.
//! Its lengths are those of the types, which proofs/circuits shows.

ghost use Rattle.std.specs.Prelude.{◌≡◌, ◌≤◌, false, length, IfOk};
ghost use Rattle.cpa_ints.specs.declared.integers.IntType.TheVariants.{I32 as Int};
ghost use Rattle.cpa_ints.specs.Integers.{width};
ghost use Rattle.cpa_blast_gates.specs.Nets.{built};
ghost use Rattle.cpa_expr.specs.Shape.{type_of, is_shift, AreCells, IsTyped};
ghost use Rattle.cpa_blast_circuits.specs.Answers.{unary_in, binary_in, comparison_in, cast_in};
ghost use Rattle.cpa_blast_circuits.specs.Answers.{both_in};
ghost use Rattle.cpa_blast_circuits.specs.Answers.{either_in, not_in, conditional_in};
ghost use Rattle.cpa_blast_circuits.specs.Reads.{read_in};
ghost use Rattle.cpa_blast_circuits.specs.Circuits.{of_one, of_two, of_three, circuit};
ghost use Rattle.cpa_blast_circuits.specs.Meanings.{types_of, AreLong};

use crate::answer::{Answer, Word};
use crate::operators::{binary, cast, comparison, constant, unary};
use crate::reads::read;
use crate::selections::{both, conditional, either, negation};
use cpa_blast_gates::Net;
use cpa_expr::{BinOp, CmpOp, Expr, UnOp};
use cpa_ints::{Boxed, IntType};
use std::alloc::{AllocError, Global};

/// The bits of the expression's value, where the cells have these words, and whether it is
/// evaluated without a trap. Equal parts share their gates. Where memory runs out, more gates may
/// stand than before.
#[cycle(making)]
pub fn circuit(alloc: Global, net: &mut Net, cells: &[Word], e: &Expr) -> Result<Answer, AllocError>
    requires typed { IsTyped (types_of cells.now) e.now }
    requires long { AreLong cells.now }
    ensures built { IfOk result (λ a. built net.new a ≡ circuit cells.now e.now net.old) }
    ensures ty { IfOk result (λ a. a.ty ≡ type_of e.now) }
    ensures long { IfOk result (λ a. length a.bits ≡ width (type_of e.now)) }
{
    match e {
        Expr::Const { ty, value } => constant(alloc, *ty, *value),
        Expr::Read {
            ty,
            base,
            len,
            index,
        } => read_circuit(alloc, net, cells, *ty, *base, *len, index),
        Expr::Un { op, ty, arg } => unary_circuit(alloc, net, cells, *op, *ty, arg),
        Expr::Bin {
            op,
            ty,
            left,
            right,
        } => binary_circuit(alloc, net, cells, *op, *ty, left, right),
        Expr::Cmp {
            op,
            ty,
            left,
            right,
        } => comparison_circuit(alloc, net, cells, *op, *ty, left, right),
        Expr::Cast { ty, arg } => cast_circuit(alloc, net, cells, *ty, arg),
        Expr::And { left, right } => both_circuit(alloc, net, cells, left, right),
        Expr::Or { left, right } => either_circuit(alloc, net, cells, left, right),
        Expr::Not { arg } => not_circuit(alloc, net, cells, arg),
        Expr::Cond { ty, test, yes, no } => {
            conditional_circuit(alloc, net, cells, *ty, test, yes, no)
        }
    }
}

/// The circuit of the index, and of the read.
#[cycle(making)]
fn read_circuit(
    alloc: Global,
    net: &mut Net,
    cells: &[Word],
    ty: IntType,
    base: u32,
    len: u32,
    index: &Boxed<Expr>,
) -> Result<Answer, AllocError>
    requires typed { IsTyped (types_of cells.now) index.now }
    requires some { 1 ≤ len }
    requires there { AreCells (types_of cells.now) base len ty }
    requires long { AreLong cells.now }
    ensures built { IfOk result (λ a.
        built net.new a
        ≡ of_one (read_in cells.now ty base len) (circuit cells.now index.now) net.old) }
    ensures ty { IfOk result (λ a. a.ty ≡ ty) }
    ensures long { IfOk result (λ a. length a.bits ≡ width ty) }
{
    let index = circuit(alloc, net, cells, index.get())?;
    let answer = read(alloc, net, cells, ty, base, len, &index)?;
    Ok(answer)
}

/// The circuit of the operand, and of the operator.
#[cycle(making)]
fn unary_circuit(
    alloc: Global,
    net: &mut Net,
    cells: &[Word],
    op: UnOp,
    ty: IntType,
    arg: &Boxed<Expr>,
) -> Result<Answer, AllocError>
    requires typed { IsTyped (types_of cells.now) arg.now }
    requires same { type_of arg.now ≡ ty }
    requires long { AreLong cells.now }
    ensures built { IfOk result (λ a.
        built net.new a ≡ of_one (unary_in op ty) (circuit cells.now arg.now) net.old) }
    ensures ty { IfOk result (λ a. a.ty ≡ ty) }
    ensures long { IfOk result (λ a. length a.bits ≡ width ty) }
{
    let a = circuit(alloc, net, cells, arg.get())?;
    unary(alloc, net, op, ty, &a)
}

/// The circuits of the operands, and of the operator.
#[cycle(making)]
fn binary_circuit(
    alloc: Global,
    net: &mut Net,
    cells: &[Word],
    op: BinOp,
    ty: IntType,
    left: &Boxed<Expr>,
    right: &Boxed<Expr>,
) -> Result<Answer, AllocError>
    requires left { IsTyped (types_of cells.now) left.now }
    requires right { IsTyped (types_of cells.now) right.now }
    requires left_same { type_of left.now ≡ ty }
    requires right_same { is_shift op ≡ false → type_of right.now ≡ ty }
    requires long { AreLong cells.now }
    ensures built { IfOk result (λ a. built net.new a
        ≡ of_two (binary_in op ty)
        (circuit cells.now left.now) (circuit cells.now right.now) net.old) }
    ensures ty { IfOk result (λ a. a.ty ≡ ty) }
    ensures long { IfOk result (λ a. length a.bits ≡ width ty) }
{
    let a = circuit(alloc, net, cells, left.get())?;
    let b = circuit(alloc, net, cells, right.get())?;
    binary(alloc, net, op, ty, &a, &b)
}

/// The circuits of the operands, and of the comparison.
#[cycle(making)]
fn comparison_circuit(
    alloc: Global,
    net: &mut Net,
    cells: &[Word],
    op: CmpOp,
    ty: IntType,
    left: &Boxed<Expr>,
    right: &Boxed<Expr>,
) -> Result<Answer, AllocError>
    requires left { IsTyped (types_of cells.now) left.now }
    requires right { IsTyped (types_of cells.now) right.now }
    requires left_same { type_of left.now ≡ ty }
    requires right_same { type_of right.now ≡ ty }
    requires long { AreLong cells.now }
    ensures built { IfOk result (λ a. built net.new a ≡ of_two (comparison_in op ty)
        (circuit cells.now left.now) (circuit cells.now right.now) net.old) }
    ensures ty { IfOk result (λ a. a.ty ≡ Int) }
    ensures long { IfOk result (λ a. length a.bits ≡ 32) }
{
    let a = circuit(alloc, net, cells, left.get())?;
    let b = circuit(alloc, net, cells, right.get())?;
    comparison(alloc, net, op, ty, &a, &b)
}

/// The circuit of the operand, and of the cast.
#[cycle(making)]
fn cast_circuit(
    alloc: Global,
    net: &mut Net,
    cells: &[Word],
    ty: IntType,
    arg: &Boxed<Expr>,
) -> Result<Answer, AllocError>
    requires typed { IsTyped (types_of cells.now) arg.now }
    requires long { AreLong cells.now }
    ensures built { IfOk result (λ a.
        built net.new a ≡ of_one (cast_in ty) (circuit cells.now arg.now) net.old) }
    ensures ty { IfOk result (λ a. a.ty ≡ ty) }
    ensures long { IfOk result (λ a. length a.bits ≡ width ty) }
{
    let a = circuit(alloc, net, cells, arg.get())?;
    cast(alloc, net, ty, &a)
}

/// The circuits of both sides, and of `&&`.
#[cycle(making)]
fn both_circuit(
    alloc: Global,
    net: &mut Net,
    cells: &[Word],
    left: &Boxed<Expr>,
    right: &Boxed<Expr>,
) -> Result<Answer, AllocError>
    requires left { IsTyped (types_of cells.now) left.now }
    requires right { IsTyped (types_of cells.now) right.now }
    requires long { AreLong cells.now }
    ensures built { IfOk result (λ a. built net.new a
        ≡ of_two both_in (circuit cells.now left.now) (circuit cells.now right.now) net.old) }
    ensures ty { IfOk result (λ a. a.ty ≡ Int) }
    ensures long { IfOk result (λ a. length a.bits ≡ 32) }
{
    let a = circuit(alloc, net, cells, left.get())?;
    let b = circuit(alloc, net, cells, right.get())?;
    both(alloc, net, &a, &b)
}

/// The circuits of both sides, and of `||`.
#[cycle(making)]
fn either_circuit(
    alloc: Global,
    net: &mut Net,
    cells: &[Word],
    left: &Boxed<Expr>,
    right: &Boxed<Expr>,
) -> Result<Answer, AllocError>
    requires left { IsTyped (types_of cells.now) left.now }
    requires right { IsTyped (types_of cells.now) right.now }
    requires long { AreLong cells.now }
    ensures built { IfOk result (λ a. built net.new a
        ≡ of_two either_in (circuit cells.now left.now) (circuit cells.now right.now) net.old) }
    ensures ty { IfOk result (λ a. a.ty ≡ Int) }
    ensures long { IfOk result (λ a. length a.bits ≡ 32) }
{
    let a = circuit(alloc, net, cells, left.get())?;
    let b = circuit(alloc, net, cells, right.get())?;
    either(alloc, net, &a, &b)
}

/// The circuit of the operand, and of `!`.
#[cycle(making)]
fn not_circuit(
    alloc: Global,
    net: &mut Net,
    cells: &[Word],
    arg: &Boxed<Expr>,
) -> Result<Answer, AllocError>
    requires typed { IsTyped (types_of cells.now) arg.now }
    requires long { AreLong cells.now }
    ensures built { IfOk result (λ a.
        built net.new a ≡ of_one not_in (circuit cells.now arg.now) net.old) }
    ensures ty { IfOk result (λ a. a.ty ≡ Int) }
    ensures long { IfOk result (λ a. length a.bits ≡ 32) }
{
    let a = circuit(alloc, net, cells, arg.get())?;
    negation(alloc, net, &a)
}

/// The circuits of the test and the ends, and of the choice.
#[cycle(making)]
fn conditional_circuit(
    alloc: Global,
    net: &mut Net,
    cells: &[Word],
    ty: IntType,
    test: &Boxed<Expr>,
    yes: &Boxed<Expr>,
    no: &Boxed<Expr>,
) -> Result<Answer, AllocError>
    requires test { IsTyped (types_of cells.now) test.now }
    requires yes { IsTyped (types_of cells.now) yes.now }
    requires no { IsTyped (types_of cells.now) no.now }
    requires yes_same { type_of yes.now ≡ ty }
    requires no_same { type_of no.now ≡ ty }
    requires long { AreLong cells.now }
    ensures built { IfOk result (λ a. built net.new a ≡ of_three (conditional_in ty)
        (circuit cells.now test.now) (circuit cells.now yes.now)
        (circuit cells.now no.now) net.old) }
    ensures ty { IfOk result (λ a. a.ty ≡ ty) }
    ensures long { IfOk result (λ a. length a.bits ≡ width ty) }
{
    let test = circuit(alloc, net, cells, test.get())?;
    let (first, second) = (yes.get(), no.get());
    let first = circuit(alloc, net, cells, first)?;
    let second = circuit(alloc, net, cells, second)?;
    conditional(alloc, net, ty, &test, &first, &second)
}

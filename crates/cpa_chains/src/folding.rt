//! The partials of all lines, one after the other, as `partials_of` of `specs/Partials.antt` says.
//! That the last one is an interpolant is proved with `proofs/Interpolation.antt`.

ghost use Rattle.std.specs.Prelude.{◌≡◌, ◌+◌, ◌≤◌, ◌++◌, length, map, vec_len, vec_capacity, IfOk};
ghost use Rattle.std.specs.Prelude.{◌<◌};
ghost use Rattle.std.specs.List.{AllByRecursion};
ghost use Rattle.cpa_cnf.specs.Lines.{IsRefutation};
ghost use Rattle.cpa_chains.specs.Interpolants.{IsInterpolant, NameEarlier};
ghost use Rattle.cpa_chains.specs.Partials.{partials_of};
ghost use Rattle.cpa_chains.specs.Tables.{FitsTable, joint_by, partial_by};

use crate::partial::{Joint, Partial};
use crate::sides::variables_of_b;
use cpa_cnf::{Cnf, Line, Step};
use cpa_ints::Seq;
use std::alloc::{AllocError, Global};

/// The joint of a step: by disjunction where no clause of B has the pivot.
fn joint(table: &[bool], step: Step) -> Joint
    requires { step.pivot < length table.now }
    ensures { result ≡ joint_by table.now step }
{
    Joint {
        or: !table[step.pivot as usize],
        clause: step.clause,
    }
}

/// Adds the joints of the steps, for which there is room.
pub(crate) fn fill(table: &[bool], steps: &[Step], joints: &mut Vec<Joint>)
    requires pivots { AllByRecursion (λ step. step.pivot < length table.now) steps.now }
    requires room { vec_len joints.old + length steps.now ≤ vec_capacity joints.old }
    ensures { joints.new.items ≡ joints.old.items ++ map (joint_by table.now) steps.now }
{
    for step in steps {
        joints.push_reserved(joint(table, *step));
    }
}

/// The partial of a line.
fn partial(alloc: Global, table: &[bool], line: &Line) -> Result<Partial, AllocError>
    requires { FitsTable table.now line.now }
    ensures { IfOk result (λ p. p ≡ partial_by table.now line.now) }
{
    let mut joints = Vec::with_capacity(alloc, line.steps.len())?;
    fill(table, line.steps.as_slice(), &mut joints);
    Ok(Partial {
        first: line.first,
        joints: Seq::from_vec(joints),
    })
}

/// The partials of the lines.
fn all_partials(alloc: Global, table: &[bool], log: &[Line]) -> Result<Vec<Partial>, AllocError>
    requires { AllByRecursion (FitsTable table.now) log.now }
    ensures { IfOk result (λ list. list.items ≡ map (partial_by table.now) log.now) }
{
    let mut list = Vec::with_capacity(alloc, log.len())?;
    for line in log {
        list.push(partial(alloc, table, line)?)?;
    }
    Ok(list)
}

/// The partial interpolants of the lines of a refutation, by McMillan's rules. `sides` says of each
/// clause of the formula whether it is one of A; the others are those of B. The last partial is an
/// interpolant of the two. It takes time linear in the formula and the log.
pub fn partials(
    alloc: Global,
    cnf: &Cnf,
    sides: &[bool],
    log: &[Line],
) -> Result<Vec<Partial>, AllocError>
    requires sides { length sides.now ≡ length cnf.now.clauses }
    requires refutes { IsRefutation cnf.now log.now }
    ensures list { IfOk result (λ list. list.items ≡ partials_of cnf.now sides.now log.now) }
    ensures interpolant { IfOk result (λ list. IsInterpolant cnf.now sides.now list.items) }
    ensures order { IfOk result (λ list. NameEarlier (length cnf.now.clauses) list.items) }
{
    let table = variables_of_b(alloc, cnf, sides)?;
    let list = all_partials(alloc, &table, log)?;
    Ok(list)
}

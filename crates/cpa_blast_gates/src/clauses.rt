//! The clauses of a net's gates, as specs/Clauses lists them; that their models are the assignments
//! under which the net holds is proved in specs/lemmas/Tseitin.

ghost use Rattle.std.specs.Prelude.{◌≡◌, ◌<◌, ◌∷◌, ◌++◌, [], length, reverse, map, IfOk, OnOk};
ghost use Rattle.cpa_blast_gates.specs.Clauses.{clause_of, two_sided, chosen, gate_lists};
ghost use Rattle.cpa_blast_gates.specs.Clauses.{gate_clauses};
ghost use Rattle.cpa_blast_gates.specs.Clauses.{clauses_of};
ghost use Rattle.cpa_blast_gates.specs.declared.gate.Gate.TheVariants as of;
ghost use Rattle.cpa_blast_gates.specs.declared.table.TheConstants.{MOST_VARIABLES};

use crate::folding::always;
use crate::gate::Gate;
use cpa_cnf::{Clause, Lit, a_clause_is_its_literals};
use cpa_ints::Seq;
use std::alloc::{AllocError, Global};

/// The clause of these literals.
fn clause(literals: Vec<Lit>) -> Result<Clause, AllocError>
    ensures { IfOk result (λ c. c ≡ clause_of literals.items) }
{
    a_clause_is_its_literals();
    let sorted = Clause::from_lits(literals)?;
    Ok(sorted)
}

/// Adds the clause of these literals.
fn add(clauses: &mut Seq<Clause>, literals: Vec<Lit>) -> Result<(), AllocError>
    ensures { OnOk result (clauses.new ≡ clauses.old ++ clause_of literals.items ∷ []) }
{
    let clause = clause(literals)?;
    clauses.push(clause)
}

/// A literal is as two others where these are alike.
fn add_two_sided(
    alloc: Global,
    clauses: &mut Seq<Clause>,
    l: Lit,
    a: Lit,
    b: Lit,
) -> Result<(), AllocError>
    ensures { OnOk result (clauses.new ≡ clauses.old ++ map clause_of (two_sided l a b)) }
{
    add(clauses, vec![in alloc; l, a.opposite(), b.opposite()]?)?;
    add(clauses, vec![in alloc; l.opposite(), a, b]?)
}

/// Where the test is true, one literal is as the other.
fn add_chosen(
    alloc: Global,
    clauses: &mut Seq<Clause>,
    l: Lit,
    test: Lit,
    a: Lit,
) -> Result<(), AllocError>
    ensures { OnOk result (clauses.new ≡ clauses.old ++ map clause_of (chosen l test a)) }
{
    add(clauses, vec![in alloc; l, test.opposite(), a.opposite()]?)?;
    add(clauses, vec![in alloc; l.opposite(), test.opposite(), a]?)
}

/// A literal is both of two others.
fn add_and(
    alloc: Global,
    clauses: &mut Seq<Clause>,
    l: Lit,
    a: Lit,
    b: Lit,
) -> Result<(), AllocError>
    ensures { OnOk result (clauses.new
        ≡ clauses.old ++ map clause_of (gate_lists l (of.And a b))) }
{
    add(clauses, vec![in alloc; l.opposite(), a]?)?;
    add(clauses, vec![in alloc; l.opposite(), b]?)?;
    add(clauses, vec![in alloc; l, a.opposite(), b.opposite()]?)
}

/// A literal is one of two others and not both.
fn add_xor(
    alloc: Global,
    clauses: &mut Seq<Clause>,
    l: Lit,
    a: Lit,
    b: Lit,
) -> Result<(), AllocError>
    ensures { OnOk result (clauses.new
        ≡ clauses.old ++ map clause_of (gate_lists l (of.Xor a b))) }
{
    add(clauses, vec![in alloc; l.opposite(), a, b]?)?;
    add(
        clauses,
        vec![in alloc; l.opposite(), a.opposite(), b.opposite()]?,
    )?;
    add(clauses, vec![in alloc; l, a.opposite(), b]?)?;
    add(clauses, vec![in alloc; l, a, b.opposite()]?)
}

/// A literal is two of three others.
fn add_majority(
    alloc: Global,
    clauses: &mut Seq<Clause>,
    l: Lit,
    a: Lit,
    b: Lit,
    c: Lit,
) -> Result<(), AllocError>
    ensures { OnOk result (clauses.new
        ≡ clauses.old ++ map clause_of (gate_lists l (of.Majority a b c))) }
{
    add_two_sided(alloc, clauses, l, a, b)?;
    add_two_sided(alloc, clauses, l, a, c)?;
    add_two_sided(alloc, clauses, l, b, c)
}

/// A literal is the second where the first is true, else the third.
fn add_choice(
    alloc: Global,
    clauses: &mut Seq<Clause>,
    l: Lit,
    a: Lit,
    b: Lit,
    c: Lit,
) -> Result<(), AllocError>
    ensures { OnOk result (clauses.new
        ≡ clauses.old ++ map clause_of (gate_lists l (of.Choice a b c))) }
{
    add_chosen(alloc, clauses, l, a, b)?;
    add_chosen(alloc, clauses, l, a.opposite(), c)?;
    add_two_sided(alloc, clauses, l, b, c)
}

/// What a gate says.
fn add_gate(alloc: Global, clauses: &mut Seq<Clause>, l: Lit, gate: Gate) -> Result<(), AllocError>
    ensures { OnOk result (clauses.new ≡ clauses.old ++ gate_clauses l gate) }
{
    match gate {
        Gate::Input => Ok(()),
        Gate::And(a, b) => add_and(alloc, clauses, l, a, b),
        Gate::Xor(a, b) => add_xor(alloc, clauses, l, a, b),
        Gate::Majority(a, b, c) => add_majority(alloc, clauses, l, a, b, c),
        Gate::Choice(a, b, c) => add_choice(alloc, clauses, l, a, b, c),
    }
}

/// The clauses of the gates, the oldest one first.
pub(crate) fn all_of(alloc: Global, gates: &[Gate]) -> Result<Seq<Clause>, AllocError>
    requires { length gates.now < MOST_VARIABLES }
    ensures { IfOk result (λ cs. cs ≡ clauses_of (reverse gates.now)) }
{
    let mut clauses = Seq::new(alloc);
    add(&mut clauses, vec![in alloc; always()]?)?;
    for i in 0..gates.len() {
        add_gate(
            alloc,
            &mut clauses,
            Lit::new((i + 1) as u32, false),
            gates[i],
        )?;
    }
    Ok(clauses)
}

//! The joined formula, clause by clause: `joined` of specs/Joining.

ghost use Rattle.std.specs.Prelude.{◌≡◌, ◌++◌, map, replicate, true, false, IfOk, OnOk};
ghost use Rattle.cpa_interpolant_joining.specs.Joining.{name_of, renamed, renamed_literal};
ghost use Rattle.cpa_interpolant_joining.specs.Joining.{renamed_clause, joined, sides_of};

use cpa_cnf::{Clause, Cnf, Lit, a_clause_is_its_literals};
use cpa_ints::Seq;
use std::alloc::{AllocError, Global};

/// Two formulas as one: the clauses of the first, and behind them those of the second.
#[derive(Drop)]
pub struct Joined {
    pub cnf: Cnf,
    /// For each clause whether it is one of the first formula.
    pub sides: Vec<bool>,
}

/// The variable of the first formula that a variable of the second one is, where it is one.
fn name_of(names: &[Option<u32>], variable: u32) -> Option<u32>
    ensures { result ≡ name_of names.now variable }
{
    match names.get(variable as usize) {
        Some(name) => *name,
        None => None,
    }
}

/// What a variable of the second formula is called in the joined one.
fn renamed(first: u32, names: &[Option<u32>], variable: u32) -> Result<u32, AllocError>
    ensures { IfOk result (λ v. v ≡ renamed first names.now variable) }
{
    match name_of(names, variable) {
        Some(name) => Ok(name),
        None => match first.checked_add(variable) {
            Some(behind) => Ok(behind),
            None => Err(AllocError),
        },
    }
}

/// A literal of the second formula in the joined one.
fn renamed_literal(first: u32, names: &[Option<u32>], literal: Lit) -> Result<Lit, AllocError>
    ensures { IfOk result (λ l. l ≡ renamed_literal first names.now literal) }
{
    let variable = renamed(first, names, literal.var())?;
    Ok(Lit::new(variable, literal.is_negative()))
}

/// The literals of a clause of the second formula in the joined one.
fn renamed_literals(
    alloc: Global,
    first: u32,
    names: &[Option<u32>],
    literals: &[Lit],
) -> Result<Vec<Lit>, AllocError>
    ensures { IfOk result (λ ls. ls.items ≡ map (renamed_literal first names.now) literals.now) }
{
    let mut found = Vec::new(alloc);
    for literal in literals {
        let renamed = renamed_literal(first, names, *literal)?;
        found.push(renamed)?;
    }
    Ok(found)
}

/// A clause of the second formula in the joined one.
fn renamed_clause(
    alloc: Global,
    first: u32,
    names: &[Option<u32>],
    clause: &Clause,
) -> Result<Clause, AllocError>
    ensures { IfOk result (λ c. c ≡ renamed_clause first names.now clause.now) }
{
    a_clause_is_its_literals();
    let literals = renamed_literals(alloc, first, names, clause.literals())?;
    let sorted = Clause::from_lits(literals)?;
    Ok(sorted)
}

/// Adds the clauses of the second formula.
fn push_renamed(
    alloc: Global,
    clauses: &mut Seq<Clause>,
    first: u32,
    names: &[Option<u32>],
    second: &[Clause],
) -> Result<(), AllocError>
    ensures { OnOk result
        (clauses.new ≡ clauses.old ++ map (renamed_clause first names.now) second.now) }
{
    for clause in second {
        let renamed = renamed_clause(alloc, first, names, clause)?;
        clauses.push(renamed)?;
    }
    Ok(())
}

/// The sides of so many clauses of the first formula and of the second.
fn sides_of(alloc: Global, first: usize, second: usize) -> Result<Vec<bool>, AllocError>
    ensures { IfOk result (λ sides. sides.items ≡ replicate first true ++ replicate second false) }
{
    let mut sides = vec![in alloc; true; first]?;
    let mut others = vec![in alloc; false; second]?;
    sides.append(&mut others)?;
    Ok(sides)
}

/// The two formulas as one. A variable of the second that has a name is that variable of the first;
/// all others come behind those of the first. Want of memory is also answered where there would be
/// 2^32 variables. It takes time linear in the second formula.
pub fn join(
    alloc: Global,
    first: Cnf,
    second: &Cnf,
    names: &[Option<u32>],
) -> Result<Joined, AllocError>
    ensures cnf { IfOk result (λ j. j.cnf ≡ joined first second.now names.now) }
    ensures sides { IfOk result (λ j. j.sides.items ≡ sides_of first second.now) }
{
    let sides = sides_of(alloc, first.clauses.len(), second.clauses.len())?;
    let vars = match first.vars.checked_add(second.vars) {
        Some(vars) => vars,
        None => return Err(AllocError),
    };
    let mut clauses = first.clauses;
    push_renamed(
        alloc,
        &mut clauses,
        first.vars,
        names,
        second.clauses.as_slice(),
    )?;
    Ok(Joined {
        cnf: Cnf { vars, clauses },
        sides,
    })
}

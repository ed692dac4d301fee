//! The gates of a net with the place of each by the gate, so that an equal gate is found by hash.
//! What is kept is `IsTable` of specs/Tables, proved by the checker alone.

ghost use Rattle.std.specs.Prelude.{◌≡◌, ◌∷◌, [], IfOk, OnOk, OnErr, None};
ghost use Rattle.cpa_blast_gates.specs.Nets.{vars, place_of, with_input, shared, negated, settled};
ghost use Rattle.cpa_blast_gates.specs.Nets.{built};
ghost use Rattle.cpa_blast_gates.specs.Tables.{net_of, IsTable};

use crate::folding::Plan;
use crate::gate::Gate;
use cpa_cnf::Lit;
use std::alloc::{AllocError, Global};
use std::collections::HashMap;

/// The most variables of a net: a u32 counts them.
pub(crate) const MOST_VARIABLES: usize = u32::MAX as usize;

/// The gates, the oldest one first, and the variable of the newest of each kind of equal ones.
#[derive(Drop)]
pub(crate) struct Table {
    pub(crate) gates: Vec<Gate>,
    pub(crate) places: HashMap<Gate, u32>,
}

/// No gates.
pub(crate) fn empty(alloc: Global) -> Table
    ensures table { IsTable result }
    ensures empty { net_of result ≡ [] }
{
    Table {
        gates: Vec::new(alloc),
        places: HashMap::new(alloc),
    }
}

/// The variable of a gate that stands.
fn find(table: &Table, gate: &Gate) -> Option<u32>
    requires { IsTable table.now }
    ensures { result ≡ place_of (net_of table.now) gate.now }
{
    table.places.get(gate).copied()
}

/// Adds a gate, and gives its variable. Where memory runs out, or there are 2^32 - 2 gates, the
/// table stays as it is.
fn push(table: &mut Table, gate: &Gate) -> Result<u32, AllocError>
    requires { IsTable table.old }
    ensures table { IsTable table.new }
    ensures pushed { OnOk result (net_of table.new ≡ gate.now ∷ net_of table.old) }
    ensures variable { IfOk result (λ v. v ≡ vars (net_of table.old)) }
    ensures kept { OnErr result (net_of table.new ≡ net_of table.old) }
{
    let variable = table.gates.len() + 1;
    if variable >= MOST_VARIABLES {
        return Err(AllocError);
    }
    table.gates.reserve(1)?;
    table.places.insert(*gate, variable as u32)?;
    table.gates.push_reserved(*gate);
    Ok(variable as u32)
}

/// A new variable of either value.
pub(crate) fn input(table: &mut Table) -> Result<Lit, AllocError>
    requires { IsTable table.old }
    ensures table { IsTable table.new }
    ensures built { IfOk result (λ l. built (net_of table.new) l ≡ with_input (net_of table.old)) }
    ensures kept { OnErr result (net_of table.new ≡ net_of table.old) }
{
    let variable = push(table, &Gate::Input)?;
    Ok(Lit::new(variable, false))
}

/// The gate, made where none such stands.
#[tactic(auto, unfolding(crate::specs::Nets::shared))]
fn share(table: &mut Table, gate: &Gate) -> Result<Lit, AllocError>
    requires { IsTable table.old }
    ensures table { IsTable table.new }
    ensures built { IfOk result (λ l. built (net_of table.new) l
        ≡ shared (net_of table.old) gate.now) }
    ensures kept { OnErr result (net_of table.new ≡ net_of table.old) }
{
    match find(table, gate) {
        Some(variable) => Ok(Lit::new(variable, false)),
        None => make(table, gate),
    }
}

/// A gate that does not stand yet.
#[tactic(auto, unfolding(crate::specs::Nets::shared))]
fn make(table: &mut Table, gate: &Gate) -> Result<Lit, AllocError>
    requires table { IsTable table.old }
    requires new { place_of (net_of table.old) gate.now ≡ None }
    ensures table { IsTable table.new }
    ensures built { IfOk result (λ l. built (net_of table.new) l
        ≡ shared (net_of table.old) gate.now) }
    ensures kept { OnErr result (net_of table.new ≡ net_of table.old) }
{
    let variable = push(table, gate)?;
    Ok(Lit::new(variable, false))
}

/// The opposite of the gate.
fn share_negated(table: &mut Table, gate: &Gate) -> Result<Lit, AllocError>
    requires { IsTable table.old }
    ensures table { IsTable table.new }
    ensures built { IfOk result (λ l. built (net_of table.new) l
        ≡ negated (shared (net_of table.old) gate.now)) }
    ensures kept { OnErr result (net_of table.new ≡ net_of table.old) }
{
    let literal = share(table, gate)?;
    Ok(literal.opposite())
}

/// What a plan gives.
pub(crate) fn settle(table: &mut Table, plan: Plan) -> Result<Lit, AllocError>
    requires { IsTable table.old }
    ensures table { IsTable table.new }
    ensures built { IfOk result (λ l. built (net_of table.new) l
        ≡ settled (net_of table.old) plan) }
    ensures kept { OnErr result (net_of table.new ≡ net_of table.old) }
{
    match plan {
        Plan::Known(literal) => Ok(literal),
        Plan::Made(gate) => share(table, &gate),
        Plan::Negated(gate) => share_negated(table, &gate),
    }
}

/// How many variables there are.
pub(crate) fn vars(table: &Table) -> u32
    requires { IsTable table.now }
    ensures { result ≡ vars (net_of table.now) }
{
    (table.gates.len() + 1) as u32
}

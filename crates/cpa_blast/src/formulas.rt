//! The formula of a query, `formula` of specs/Formulas; that its models are those of the query is
//! proved in specs/lemmas.

ghost use Rattle.std.specs.Prelude.{◌≡◌, ◌<◌, ◌≤◌, ◌+◌, ◌++◌, ◌∷◌, [], ◌^◌, length, IfOk, OnOk};
ghost use Rattle.std.specs.List.{AllByRecursion, AllZip};
ghost use Rattle.cpa_cnf.specs.Lines.{AreBelow};
ghost use Rattle.cpa_blast_gates.specs.Nets.{built};
ghost use Rattle.cpa_blast_gates.specs.Clauses.{clauses_of};
ghost use Rattle.cpa_ints.specs.Integers.{width};
ghost use Rattle.cpa_query.specs.Queries.{IsQuery};
ghost use Rattle.cpa_expr.specs.Shape.{IsTyped};
ghost use Rattle.cpa_blast_circuits.specs.Meanings.{types_of, AreLong};
ghost use Rattle.cpa_blast.specs.Formulas.{told, told_in, asserted, units, formula};
ghost use Rattle.cpa_blast.specs.Formulas.{first_bits, circuits_of, all_places};

use crate::laws::formulas_are_below;
use crate::places::{Place, firsts_of, places_of, with_bits, words_of};
use cpa_blast_circuits::{Word, circuit};
use cpa_blast_gates::Net;
use cpa_blast_words::some_bit;
use cpa_cnf::{Clause, Cnf, Lit, a_clause_is_its_literals};
use cpa_expr::Expr;
use cpa_ints::Seq;
use cpa_query::{Query, read_cells};
use std::alloc::{AllocError, Global};

/// Where the bits of a query's cells stand among the variables of its formula.
#[derive(Drop)]
pub struct Bits {
    /// The variable of each cell's low bit; the higher bits are the variables behind it.
    pub first: Seq<u32>,
}

/// The clause of one literal.
fn unit(alloc: Global, literal: Lit) -> Result<Clause, AllocError>
    ensures { IfOk result (λ c. c ≡ literal ∷ []) }
{
    a_clause_is_its_literals();
    let clause = Clause::from_lits(vec![in alloc; literal]?)?;
    Ok(clause)
}

/// Adds a clause for each literal.
fn add_units(alloc: Global, clauses: &mut Seq<Clause>, literals: &[Lit]) -> Result<(), AllocError>
    ensures { OnOk result (clauses.new ≡ clauses.old ++ units literals.now) }
{
    for literal in literals {
        let clause = unit(alloc, *literal)?;
        clauses.push(clause)?;
    }
    Ok(())
}

/// The literal that is true where the other one has this value.
fn told(holds: bool, literal: Lit) -> Lit
    ensures { result ≡ told holds literal }
{
    if holds { literal } else { literal.opposite() }
}

/// What is to be true of a wanted expression.
#[derive(Clone, Copy)]
pub(crate) struct Required {
    pub(crate) ok: Lit,
    pub(crate) truth: Lit,
}

/// The circuit of a wanted expression, and what is to be true of it.
#[tactic(auto, unfolding(crate::specs::Formulas::told_in))]
fn one_told(
    alloc: Global,
    net: &mut Net,
    cells: &[Word],
    e: &Expr,
    holds: bool,
) -> Result<Required, AllocError>
    requires typed { IsTyped (types_of cells.now) e.now }
    requires long { AreLong cells.now }
    ensures { IfOk result (λ t. built net.new t ≡ told_in cells.now e.now holds net.old) }
{
    let answer = circuit(alloc, net, cells, e)?;
    let truth = some_bit(alloc, net, answer.bits.as_slice())?;
    Ok(Required {
        ok: answer.ok,
        truth: told(holds, truth),
    })
}

/// The circuits of the wanted expressions, and the literals that are to be true.
fn asserted(
    alloc: Global,
    net: &mut Net,
    cells: &[Word],
    wanted: &[(Expr, bool)],
) -> Result<Seq<Lit>, AllocError>
    requires typed { AllByRecursion (λ one. IsTyped (types_of cells.now) one.0) wanted.now }
    requires long { AreLong cells.now }
    ensures { IfOk result (λ ls. built net.new ls ≡ asserted cells.now wanted.now net.old) }
{
    let mut literals = Seq::new(alloc);
    for one in wanted {
        let told = one_told(alloc, net, cells, &one.0, one.1)?;
        literals.push(told.ok)?;
        literals.push(told.truth)?;
    }
    Ok(literals)
}

/// The clauses of the net, and one for each literal.
fn clauses_with(alloc: Global, net: &Net, literals: &[Lit]) -> Result<Seq<Clause>, AllocError>
    ensures { IfOk result (λ cs. cs ≡ clauses_of net.now ++ units literals.now) }
{
    let mut clauses = net.clauses(alloc)?;
    add_units(alloc, &mut clauses, literals)?;
    Ok(clauses)
}

/// The circuits of a query: the net, what is to be true, and the variables of the cells.
#[derive(Drop)]
struct Assembled {
    net: Net,
    literals: Seq<Lit>,
    places: Vec<Place>,
}

/// The circuits of the query.
fn circuits(alloc: Global, query: &Query) -> Result<Assembled, AllocError>
    requires { IsQuery query.now }
    ensures literals { IfOk result (λ r. r.literals ≡ (circuits_of query.now).value) }
    ensures places { IfOk result (λ r. built r.net r.places.items ≡ all_places query.now) }
{
    let marks = read_cells(alloc, query)?;
    let mut net = Net::new(alloc);
    let places = places_of(alloc, query.cells.as_slice(), marks.as_slice())?;
    let read = with_bits(alloc, &mut net, true, places.as_slice())?;
    let words = words_of(alloc, read.as_slice())?;
    let literals = asserted(alloc, &mut net, words.as_slice(), query.wanted.as_slice())?;
    let places = with_bits(alloc, &mut net, false, read.as_slice())?;
    Ok(Assembled {
        net,
        literals,
        places,
    })
}

/// A list in memory has fewer than 2^64 items.
fn has_few_cells(query: &Query)
    ensures { length query.now.cells < 2 ^ 64 }
{
    let _cells = query.cells.len();
}

/// The formula of the query, and where the bits of its cells stand. Each model of the query extends
/// to a model of the formula, and each model of the formula gives one of the query (laws.rt). Want
/// of memory is also answered where the formula would have 2^32 variables.
pub fn blast(alloc: Global, query: &Query) -> Result<(Cnf, Bits), AllocError>
    requires { IsQuery query.now }
    ensures formula { IfOk result (λ r. r.0 ≡ formula query.now) }
    ensures bits { IfOk result (λ r. r.1.first ≡ first_bits query.now) }
    ensures below { IfOk result (λ r. AllByRecursion (AreBelow r.0.vars) r.0.clauses) }
    ensures bits_below { IfOk result (λ r.
        AllZip (λ t first. first + width t ≤ r.0.vars) query.now.cells r.1.first) }
{
    formulas_are_below();
    has_few_cells(query);
    let made = circuits(alloc, query)?;
    let clauses = clauses_with(alloc, &made.net, made.literals.as_slice())?;
    let first = firsts_of(alloc, made.places.as_slice())?;
    let vars = made.net.vars();
    Ok((Cnf { vars, clauses }, Bits { first }))
}

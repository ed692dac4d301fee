//! The edges of the automaton, by the points that they leave: for each statement and each exit its
//! moves (`AreEdgesFrom`). That the edges of a statement are its moves: `proofs/Statements.antt`.

ghost use Rattle.std.specs.Prelude.{◌≡◌, ◌+◌, ◌<◌, ◌++◌, ◌∷◌, [], ℕ, List, Some, true, false};
ghost use Rattle.std.specs.Prelude.{length, map, option_to_list, IfSome, IfOk, OnOk};
ghost use Rattle.std.specs.List.{All};
ghost use Rattle.cpa_model.specs.declared.automaton.Act.TheVariants as acts;
ghost use Rattle.cpa_model.specs.declared.program.Stmt.TheVariants as stmts;
ghost use Rattle.cpa_model.specs.Automata.{edge_of};
ghost use Rattle.cpa_model.specs.Programs.{IsWellFormed, IsStmt, Next, InLoop, exit_of};
ghost use Rattle.cpa_model.specs.Programs.{point_count};
ghost use Rattle.cpa_model.specs.TreeLaws.{TreeLaws};
ghost use Rattle.cfa_build.specs.Places.{IsPlace, ArePlaces};
ghost use Rattle.cfa_build.specs.Edges.{AreSitesBelow, AreEdgesBelow, AreEdgesFrom, edges_in};
ghost use Rattle.cfa_build.specs.Edges.{return_edge};

use crate::places::{Place, place_of};
use cpa_expr::{Expr, copy};
use cpa_model::{Act, Edge, Program, Seq, Stmt};
use std::alloc::{AllocError, Global};

/// The edges that leave a statement, in order.
#[derive(Drop)]
enum Outgoing {
    Nothing,
    One(Edge),
    Two(Edge, Edge),
}

/// One edge.
fn one(from: u32, act: Act, to: u32) -> Outgoing
    ensures { edges_in result ≡ edge_of from act to ∷ [] }
{
    Outgoing::One(Edge { from, to, act })
}

/// The edge that does nothing to the stack and the store.
fn skip(from: u32, to: u32) -> Outgoing
    ensures { edges_in result ≡ edge_of from acts.Skip to ∷ [] }
{
    one(from, Act::Skip, to)
}

/// That edge, if there is a point to go to.
fn skip_if(from: u32, to: Option<u32>) -> Outgoing
    ensures { edges_in result ≡ map (λ m. edge_of from acts.Skip m) (option_to_list to) }
{
    match to {
        Some(m) => skip(from, m),
        None => Outgoing::Nothing,
    }
}

/// The two edges of a test.
fn branch(
    alloc: Global,
    from: u32,
    test: &Expr,
    first: u32,
    second: u32,
) -> Result<Outgoing, AllocError>
    ensures { IfOk result (λ outgoing. edges_in outgoing
        ≡ edge_of from (acts.Assume test.now true) first
        ∷ edge_of from (acts.Assume test.now false) second ∷ []) }
{
    let holds = Act::Assume {
        test: copy(alloc, test)?,
        holds: true,
    };
    let fails = Act::Assume {
        test: copy(alloc, test)?,
        holds: false,
    };
    Ok(Outgoing::Two(
        Edge {
            from,
            to: first,
            act: holds,
        },
        Edge {
            from,
            to: second,
            act: fails,
        },
    ))
}

/// The act of an assignment.
fn assignment(
    alloc: Global,
    base: u32,
    len: u32,
    index: &Expr,
    value: &Expr,
) -> Result<Act, AllocError>
    ensures { IfOk result (λ act. act ≡ acts.Assign base len index.now value.now) }
{
    Ok(Act::Assign {
        base,
        len,
        index: copy(alloc, index)?,
        value: copy(alloc, value)?,
    })
}

/// Where control goes from a block: to its first item, or to `next` where it has none.
fn first_or(items: &[u32], next: u32) -> u32
    ensures empty { items.now ≡ [] → result ≡ next }
    ensures first { (item : ℕ) (rest : List ℕ) → items.now ≡ item ∷ rest → result ≡ item }
{
    match items {
        [item, ..] => *item,
        [] => next,
    }
}

/// The step of the loop `n`, if there is such a loop.
fn step_of(program: &Program, n: u32) -> Option<u32>
    requires { n < length program.now.stmts }
    ensures found { IfSome result
        (λ step. (body : ℕ) × IsStmt program.now n (stmts.Loop body step)) }
    ensures all { (body step : ℕ) → IsStmt program.now n (stmts.Loop body step)
        → result ≡ Some step }
{
    match program.statement(n) {
        Stmt::Loop { step, .. } => Some(*step),
        _ => None,
    }
}

/// What follows the nearest loop around the statement `n`.
fn after_loop(program: &Program, places: &[Place], place: Place, n: u32) -> Option<u32>
    requires trees { TreeLaws program.now }
    requires placed { ArePlaces program.now places.now }
    requires place { IsPlace program.now n place }
    ensures found { IfSome result (λ m. (l : ℕ) × InLoop program.now l n × Next program.now l m) }
    ensures all { (l m : ℕ) → InLoop program.now l n → Next program.now l m → result ≡ Some m }
{
    match place.inner_loop {
        Some(l) => Some(place_of(places, l).next),
        None => None,
    }
}

/// The step of the nearest loop around the statement `n`.
fn loop_step(program: &Program, place: Place, n: u32) -> Option<u32>
    requires trees { TreeLaws program.now }
    requires place { IsPlace program.now n place }
    ensures found { IfSome result
        (λ m. (l body : ℕ) × InLoop program.now l n × IsStmt program.now l (stmts.Loop body m)) }
    ensures all { (l body m : ℕ) → InLoop program.now l n → IsStmt program.now l (stmts.Loop body m)
        → result ≡ Some m }
{
    match place.inner_loop {
        Some(l) => step_of(program, l),
        None => None,
    }
}

/// The edges that leave the statement `n`.
fn leaving(
    alloc: Global,
    program: &Program,
    places: &[Place],
    n: u32,
) -> Result<Outgoing, AllocError>
    requires well_formed { IsWellFormed program.now }
    requires trees { TreeLaws program.now }
    requires placed { ArePlaces program.now places.now }
    requires inside { n < length program.now.stmts }
    ensures { IfOk result (λ outgoing. AreEdgesFrom program.now n (edges_in outgoing)) }
{
    let place = place_of(places, n);
    match program.statement(n) {
        Stmt::Block { items } => Ok(skip(n, first_or(items.as_slice(), place.next))),
        Stmt::If { test, yes, no } => branch(alloc, n, test, *yes, *no),
        Stmt::Loop { body, .. } => Ok(skip(n, *body)),
        Stmt::Assign {
            base,
            len,
            index,
            value,
        } => {
            let act = assignment(alloc, *base, *len, index, value)?;
            Ok(one(n, act, place.next))
        }
        Stmt::Input { cell } => Ok(one(n, Act::Input { cell: *cell }, place.next)),
        Stmt::Call { function } => Ok(one(n, Act::Call { site: n }, program.body(*function))),
        Stmt::Goto { to } => Ok(skip(n, *to)),
        Stmt::Break => Ok(skip_if(n, after_loop(program, places, place, n))),
        Stmt::Continue => Ok(skip_if(n, loop_step(program, place, n))),
        Stmt::Leave => Ok(skip(n, program.exit(place.function))),
        Stmt::Stop | Stmt::Error => Ok(Outgoing::Nothing),
    }
}

/// Adds the edges that leave the statement `n`.
fn add_leaving(
    alloc: Global,
    program: &Program,
    places: &[Place],
    n: u32,
    edges: &mut Seq<Edge>,
) -> Result<(), AllocError>
    requires well_formed { IsWellFormed program.now }
    requires trees { TreeLaws program.now }
    requires placed { ArePlaces program.now places.now }
    requires inside { n < length program.now.stmts }
    requires below { AreEdgesBelow program.now n edges.old }
    ensures { OnOk result (AreEdgesBelow program.now (n + 1) edges.new) }
{
    let outgoing = leaving(alloc, program, places, n)?;
    match outgoing {
        Outgoing::Nothing => Ok(()),
        Outgoing::One(edge) => edges.push(edge),
        Outgoing::Two(first, second) => {
            edges.push(first)?;
            edges.push(second)
        }
    }
}

/// Adds the edges from an exit to what follows each of the calls.
fn add_return_edges(
    places: &[Place],
    exit: u32,
    sites: &[u32],
    edges: &mut Seq<Edge>,
) -> Result<(), AllocError>
    requires { All (λ site. site < length places.now) sites.now }
    ensures { OnOk result (edges.new ≡ edges.old ++ map (return_edge exit places.now) sites.now) }
{
    for site in sites {
        edges.push(Edge {
            from: exit,
            to: place_of(places, *site).next,
            act: Act::Return { site: *site },
        })?;
    }
    Ok(())
}

/// Adds the edges that leave the exit of the function `f`.
fn add_returns(
    program: &Program,
    places: &[Place],
    sites: &[Seq<u32>],
    f: u32,
    edges: &mut Seq<Edge>,
) -> Result<(), AllocError>
    requires well_formed { IsWellFormed program.now }
    requires trees { TreeLaws program.now }
    requires placed { ArePlaces program.now places.now }
    requires sites { AreSitesBelow program.now (length program.now.stmts) sites.now }
    requires inside { f < length program.now.bodies }
    requires below { AreEdgesBelow program.now (exit_of program.now f) edges.old }
    ensures { OnOk result (AreEdgesBelow program.now (exit_of program.now f + 1) edges.new) }
{
    if f == program.main {
        return Ok(());
    }
    add_return_edges(places, program.exit(f), sites[f as usize].as_slice(), edges)
}

/// All edges.
pub(crate) fn edges(
    alloc: Global,
    program: &Program,
    places: &[Place],
    sites: &[Seq<u32>],
) -> Result<Seq<Edge>, AllocError>
    requires well_formed { IsWellFormed program.now }
    requires trees { TreeLaws program.now }
    requires placed { ArePlaces program.now places.now }
    requires sites { AreSitesBelow program.now (length program.now.stmts) sites.now }
    ensures { IfOk result (AreEdgesBelow program.now (point_count program.now)) }
{
    let mut edges = Seq::new(alloc);
    for n in 0..program.stmts.len() {
        add_leaving(alloc, program, places, n as u32, &mut edges)?;
    }
    for f in 0..program.bodies.len() {
        add_returns(program, places, sites, f as u32, &mut edges)?;
    }
    Ok(edges)
}

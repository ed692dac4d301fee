//! What an edge makes of an element, by `specs/Stacks.antt`.

ghost use Rattle.std.specs.Prelude.{◌≡◌, ◌∷◌, [], Some, IfOk, option_map};
ghost use Rattle.std.specs.List.{list_all};
ghost use Rattle.cpa_model.specs.Stacks.{stack_after};
ghost use Rattle.cpa_model.specs.Standing.{same_sites};
ghost use Rattle.cpa_callstack.specs.Stacks.{with_stack, any_stack, first_stack, names_stack};
ghost use Rattle.cpa_callstack.specs.Stacks.{elem_of, stacks_after, next_stacks};

use cpa_model::{Act, Edge, Elem, Fact, Facts, Seq, step_stack};
use std::alloc::{AllocError, Global};

/// What the edge makes of the element.
pub(crate) fn next_stacks(alloc: Global, elem: &Elem, edge: &Edge) -> Result<Vec<Elem>, AllocError>
    ensures { IfOk result (λ es. es.items ≡ next_stacks elem.now edge.now) }
{
    let facts = &elem.facts;
    match first_stack(facts) {
        None => any_stack(alloc),
        Some(sites) => agreed(alloc, &edge.act, facts, sites),
    }
}

/// The element of the stack after the act, where no fact names another stack than this one.
fn agreed(alloc: Global, act: &Act, facts: &Facts, sites: &[u32]) -> Result<Vec<Elem>, AllocError>
    ensures { IfOk result (λ es. es.items ≡ stacks_after act.now facts.now (Some sites.now)) }
{
    if all_name(facts, sites) {
        after(alloc, act, sites)
    } else {
        Ok(Vec::new(alloc))
    }
}

/// Whether no fact names another stack.
fn all_name(facts: &Facts, sites: &[u32]) -> bool
    ensures { result ≡ list_all (names_stack sites.now) facts.now }
{
    facts.iter().all(|fact| names_stack(fact, sites))
}

/// The element of the stack after the act, where the act can be done.
fn after(alloc: Global, act: &Act, sites: &[u32]) -> Result<Vec<Elem>, AllocError>
    ensures { IfOk result (λ es. es.items ≡ elem_of (stack_after act.now sites.now)) }
{
    let mut stack = sites.to_vec(alloc)?;
    if !step_stack(act, &mut stack)? {
        return Ok(Vec::new(alloc));
    }
    only(alloc, elem_of_sites(alloc, Seq::from_vec(stack))?)
}

/// The list of one element.
fn only(alloc: Global, elem: Elem) -> Result<Vec<Elem>, AllocError>
    ensures { IfOk result (λ es. es.items ≡ elem ∷ []) }
{
    let mut elems = Vec::new(alloc);
    elems.push(elem)?;
    Ok(elems)
}

/// The element without facts.
fn any_stack(alloc: Global) -> Result<Vec<Elem>, AllocError>
    ensures { IfOk result (λ es. es.items ≡ any_stack ∷ []) }
{
    only(alloc, Elem::any())
}

/// The element of one fact, that this is the stack.
pub(crate) fn with_stack(alloc: Global, sites: &[u32]) -> Result<Elem, AllocError>
    ensures { IfOk result (λ e. e ≡ with_stack sites.now) }
{
    elem_of_sites(alloc, Seq::from_vec(sites.to_vec(alloc)?))
}

/// The element of one fact, made of a list of its own: these are the call sites, bottom first.
fn elem_of_sites(alloc: Global, sites: Seq<u32>) -> Result<Elem, AllocError>
    ensures { IfOk result (λ e. e ≡ with_stack sites) }
{
    let mut facts = Seq::new(alloc);
    facts.push(Fact::Stack { sites })?;
    Elem::new(alloc, facts)
}

/// The stack that the first fact on it names.
fn first_stack(facts: &Facts) -> Option<&[u32]>
    ensures { option_map (λ sites. sites.now) result ≡ first_stack facts.now }
{
    for fact in facts {
        if let Fact::Stack { sites } = fact {
            return Some(sites.as_slice());
        }
    }
    None
}

/// Whether the fact does not name another stack.
fn names_stack(fact: &Fact, sites: &[u32]) -> bool
    ensures { result ≡ names_stack sites.now fact.now }
{
    match fact {
        Fact::Stack { sites: own } => is_same(own.as_slice(), sites),
        _ => true,
    }
}

/// Whether two stacks have the same sites in the same order.
fn is_same(a: &[u32], b: &[u32]) -> bool
    ensures { result ≡ same_sites a.now b.now }
{
    a == b
}

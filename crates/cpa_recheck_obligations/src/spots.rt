//! Where a state may stand for an entry to hold of it, and entries as one element, by
//! `specs/Spots.antt`. Proved with `proofs/spots/`.

ghost use Rattle.std.specs.Prelude.{◌≡◌, ◌++◌, None, Some, IfOk, OnOk, if◌then◌else◌, fold};
ghost use Rattle.cpa_recheck_obligations.specs.lemmas.SpotLaws.{same_spot-equiv, same_spot-per};
ghost use Rattle.cpa_recheck_obligations.specs.lemmas.SpotLaws.{spot_writes-alike};
ghost use Rattle.cpa_recheck_obligations.specs.Spots.{joined, spot_of, spot_of_parts, noted};
ghost use Rattle.cpa_recheck_obligations.specs.Spots.{permits};
ghost use Rattle.cpa_recheck_obligations.specs.Spots.{permits_stack, same_point, same_spot};
ghost use Rattle.cpa_recheck_obligations.specs.Spots.{same_stack};
ghost use Rattle.cpa_recheck_obligations.specs.Writes.{point_writes, spot_writes, stack_writes};

use cpa_model::{Elem, Fact, Seq, copy_fact, same_sites};
use std::alloc::{AllocError, Global};
use std::hash::{Hash, Hasher};

/// A point and a stack of call sites, as far as facts say them.
#[derive(Drop)]
pub struct Spot {
    pub point: Option<u32>,
    /// The call sites from the bottom to the top.
    pub stack: Option<Seq<u32>>,
}

/// Spots are equal where the same point is said, or none, and the same stack, or none.
impl PartialEq for Spot {
    ghost eq = { same_spot };

    ghost laws = { same_spot-per };

    fn eq(&self, other: &Self) -> bool {
        same_point(self.point, other.point) && same_stack(&self.stack, &other.stack)
    }
}

impl Eq for Spot {
    ghost laws = { same_spot-equiv };
}

/// A hash is fed the point, if one is said.
fn feed_point<H: Hasher>(point: Option<u32>, state: &mut H)
    ensures { state.new ≡ fold H.write state.old (point_writes point) }
{
    match point {
        None => {}
        Some(point) => point.hash(state),
    }
}

/// A hash is fed the sites of the stack, if one is said.
fn feed_stack<H: Hasher>(stack: &Option<Seq<u32>>, state: &mut H)
    ensures { state.new ≡ fold H.write state.old (stack_writes stack.now) }
{
    match stack {
        None => {}
        Some(sites) => sites.as_slice().hash(state),
    }
}

/// Equal spots feed a hash alike.
impl Hash for Spot {
    ghost hash_input = { spot_writes };

    ghost respects_eq = { spot_writes-alike.fed };

    fn hash<H: Hasher>(&self, state: &mut H) {
        feed_point(self.point, state);
        feed_stack(&self.stack, state);
    }
}

/// The stack of call sites, if one is said.
fn copy_stack(alloc: Global, stack: &Option<Seq<u32>>) -> Result<Option<Seq<u32>>, AllocError>
    ensures { IfOk result (λ copy. copy ≡ stack.now) }
{
    match stack {
        None => Ok(None),
        Some(sites) => Ok(Some(Seq::from_vec(sites.as_slice().to_vec(alloc)?))),
    }
}

/// The spot with this point and this stack.
pub(crate) fn spot_with(
    alloc: Global,
    point: Option<u32>,
    stack: &Option<Seq<u32>>,
) -> Result<Spot, AllocError>
    ensures { IfOk result (λ spot. spot ≡ spot_of_parts point stack.now) }
{
    let stack = copy_stack(alloc, stack)?;
    Ok(Spot { point, stack })
}

/// The elements of an entry as one, which has all their facts.
pub fn joined(alloc: Global, elems: &[Elem]) -> Result<Elem, AllocError>
    ensures { IfOk result (λ e. e ≡ joined elems.now) }
{
    let mut facts = Seq::new(alloc);
    for elem in elems {
        push_facts(alloc, &mut facts, elem)?;
    }
    Elem::new(alloc, facts)
}

/// Adds the facts of an element.
fn push_facts(alloc: Global, facts: &mut Seq<Fact>, elem: &Elem) -> Result<(), AllocError>
    ensures { OnOk result (facts.new ≡ facts.old ++ elem.now.facts) }
{
    for fact in &elem.facts {
        facts.push(copy_fact(alloc, fact)?)?;
    }
    Ok(())
}

/// The spot of an element: the point and the stack that its facts name, None where two of them
/// differ. It fails only where memory runs out.
pub fn spot_of(alloc: Global, elem: &Elem) -> Result<Option<Spot>, AllocError>
    ensures { IfOk result (λ spot. spot ≡ spot_of elem.now) }
{
    let mut spot = Spot {
        point: None,
        stack: None,
    };
    for fact in &elem.facts {
        let allowed = note(alloc, &mut spot, fact)?;
        if !allowed {
            return Ok(None);
        }
    }
    Ok(Some(spot))
}

/// Notes what a fact says of the point or of the stack; false where it says another one than is
/// noted.
fn note(alloc: Global, spot: &mut Spot, fact: &Fact) -> Result<bool, AllocError>
    ensures { IfOk result (λ allowed. (if allowed then Some spot.new else None)
        ≡ noted fact.now spot.old) }
{
    match fact {
        Fact::At { point } => Ok(note_point(spot, *point)),
        Fact::Stack { sites } => note_stack(alloc, spot, sites),
        _ => Ok(true),
    }
}

/// Notes a point.
fn note_point(spot: &mut Spot, point: u32) -> bool
    ensures { (if result then Some spot.new else None)
        ≡ (if permits spot.old.point point
        then Some (record { point = Some point; stack = spot.old.stack }) else None) }
{
    let allowed = permits(spot.point, point);
    if allowed {
        spot.point = Some(point);
    }
    allowed
}

/// Notes a stack.
fn note_stack(alloc: Global, spot: &mut Spot, sites: &Seq<u32>) -> Result<bool, AllocError>
    ensures { IfOk result (λ allowed. (if allowed then Some spot.new else None)
        ≡ (if permits_stack spot.old.stack sites.now
        then Some (record { point = spot.old.point; stack = Some sites.now }) else None)) }
{
    let allowed = permits_stack(&spot.stack, sites);
    if allowed {
        let copy = sites.as_slice().to_vec(alloc)?;
        spot.stack = Some(Seq::from_vec(copy));
    }
    Ok(allowed)
}

/// Whether the point is allowed beside what is said.
pub(crate) fn permits(said: Option<u32>, point: u32) -> bool
    ensures { result ≡ permits said point }
{
    match said {
        None => true,
        Some(own) => own == point,
    }
}

/// Whether the stack is allowed beside what is said.
fn permits_stack(said: &Option<Seq<u32>>, sites: &Seq<u32>) -> bool
    ensures { result ≡ permits_stack said.now sites.now }
{
    match said {
        None => true,
        Some(own) => same_sites(own, sites),
    }
}

/// Whether the same point is said, or none.
fn same_point(a: Option<u32>, b: Option<u32>) -> bool
    ensures { result ≡ same_point a b }
{
    match (a, b) {
        (None, None) => true,
        (Some(p), Some(q)) => p == q,
        _ => false,
    }
}

/// Whether the same stack is said, or none.
fn same_stack(a: &Option<Seq<u32>>, b: &Option<Seq<u32>>) -> bool
    ensures { result ≡ same_stack a.now b.now }
{
    match (a, b) {
        (None, None) => true,
        (Some(s), Some(t)) => same_sites(s, t),
        _ => false,
    }
}

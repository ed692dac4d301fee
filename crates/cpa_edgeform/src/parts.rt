//! The parts of a form, and what each word of specs/Forms of `cpa_form_rules` does to them.
//! Proved with `proofs/parts/`.

ghost use Rattle.std.specs.Prelude.{◌≡◌, ◌+◌, ◌-◌, ◌^◌, ◌<◌, ◌≤◌, vec_len, vec_capacity};
ghost use Rattle.std.specs.Prelude.{OnOk, OnErr, IfOk};
ghost use Rattle.cpa_form_rules.specs.Drafts.{placed, moved};
ghost use Rattle.cpa_form_rules.specs.Forms.{draft_of, joined, weighed};
ghost use Rattle.cpa_edgeform.specs.Parts.{form_in, places_or, with_places, with_one_input};

use crate::settling::push_copies;
use crate::writing::{move_cells, put};
use cpa_expr::Expr;
use cpa_form_renaming::Place;
use cpa_form_rules::Draft;
use cpa_ints::{IntType, Seq};
use std::alloc::{AllocError, Global};

/// A query, where the present value of each cell of the program stands in it, the cells of its
/// inputs, and the weight of what was added.
#[derive(Drop)]
pub(crate) struct Parts {
    pub(crate) alloc: Global,
    pub(crate) cells: Vec<IntType>,
    pub(crate) wanted: Vec<(Expr, bool)>,
    pub(crate) places: Vec<Place>,
    pub(crate) inputs: Vec<u32>,
    pub(crate) weight: u64,
}

/// Equal parts. It fails only where memory runs out.
pub(crate) fn copy(parts: &Parts) -> Result<Parts, AllocError>
    ensures { IfOk result (λ made. form_in made ≡ form_in parts.now) }
{
    let alloc = parts.alloc;
    let mut wanted = Seq::new(alloc);
    push_copies(alloc, &mut wanted, parts.wanted.as_slice())?;
    Ok(Parts {
        alloc,
        cells: parts.cells.to_vec(alloc)?,
        wanted: wanted.into_vec(),
        places: parts.places.to_vec(alloc)?,
        inputs: parts.inputs.to_vec(alloc)?,
        weight: parts.weight,
    })
}

/// Nothing yet, behind the query. There are 2^32 numbers of cells.
pub(crate) fn draft_of(parts: &Parts) -> Result<Draft, AllocError>
    ensures { IfOk result (λ draft. draft ≡ draft_of (form_in parts.now)) }
{
    let count = parts.cells.len();
    if count > u32::MAX as usize {
        return Err(AllocError);
    }
    Ok(Draft {
        first: count as u32,
        cells: Seq::new(parts.alloc),
        wanted: Seq::new(parts.alloc),
    })
}

/// The draft behind the query, and new places where there are some.
pub(crate) fn join(
    parts: &mut Parts,
    draft: Draft,
    moved: Option<Seq<Place>>,
) -> Result<(), AllocError>
    ensures ok { OnOk result (form_in parts.new
        ≡ joined (form_in parts.old) (placed draft (places_or moved parts.old.places.items))) }
    ensures err { OnErr result (form_in parts.new ≡ form_in parts.old) }
    ensures inputs { parts.new.inputs ≡ parts.old.inputs }
{
    let Draft { cells, wanted, .. } = draft;
    let mut cells = cells.into_vec();
    let mut wanted = wanted.into_vec();
    parts.wanted.reserve(wanted.len())?;
    parts.cells.append(&mut cells)?;
    parts.wanted.append(&mut wanted)?;
    if let Some(places) = moved {
        parts.places = places.into_vec();
    }
    Ok(())
}

/// Room for one input more.
pub(crate) fn reserve_input(parts: &mut Parts) -> Result<(), AllocError>
    ensures same { form_in parts.new ≡ form_in parts.old }
    ensures room { OnOk result (vec_len parts.new.inputs < vec_capacity parts.new.inputs) }
{
    parts.inputs.reserve(1)
}

/// One input more, for which there is room: the present value of a cell of the program.
pub(crate) fn put_input(parts: &mut Parts, cell: u32, place: Place)
    requires { vec_len parts.old.inputs < vec_capacity parts.old.inputs }
    ensures { form_in parts.new ≡ with_one_input cell place.number place.ty (form_in parts.old) }
{
    parts.inputs.push_reserved(place.number);
    put(&mut parts.places, cell as usize, place);
}

/// New places for cells that follow each other, from the first one's on.
pub(crate) fn put_cells(parts: &mut Parts, base: u32, len: u32, to: Place)
    requires { to.number + len ≤ 2 ^ 32 - 1 }
    ensures { form_in parts.new ≡ with_places
        (moved base to.number to.ty len parts.old.places.items) (form_in parts.old) }
{
    move_cells(&mut parts.places, base, len, to);
}

/// So much more weight.
pub(crate) fn weigh(parts: &mut Parts, more: u64)
    ensures { form_in parts.new ≡ weighed more (form_in parts.old) }
{
    parts.weight = parts.weight.saturating_add(more);
}

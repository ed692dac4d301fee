//! Places at which expressions can be read, `settled` of specs/Drafts of `cpa_form_rules`.
//! Proved with `proofs/settling/`.

ghost use Rattle.std.specs.Prelude.{◌≡◌, ◌++◌, map, length, IfOk, OnOk};
ghost use Rattle.std.specs.List.{list_all};
ghost use Rattle.cpa_form_renaming.specs.Renaming.{is_whole};
ghost use Rattle.cpa_query.specs.Queries.{reads};
ghost use Rattle.cpa_form_rules.specs.Drafts.{placed, copied, asked_of, settled};
ghost use Rattle.cpa_edgeform.specs.Parts.{places_or, stood, own_place};

use crate::drafting::named;
use crate::nodes::scalar;
use cpa_expr::{Expr, copy};
use cpa_form_renaming::{Place, is_whole};
use cpa_form_rules::Draft;
use cpa_ints::{IntType, Seq};
use cpa_query::{Query, read_cells};
use std::alloc::{AllocError, Global};

/// Whether each array that the expressions read stands in one piece.
fn are_whole(asked: &[(Expr, bool)], places: &[Place]) -> bool
    ensures { result ≡ list_all (λ one. is_whole places.now one.0) asked.now }
{
    asked.iter().all(|one| is_whole(&one.0, places))
}

/// Adds copies of expressions with their truths.
pub(crate) fn push_copies(
    alloc: Global,
    out: &mut Seq<(Expr, bool)>,
    asked: &[(Expr, bool)],
) -> Result<(), AllocError>
    ensures { OnOk result (out.new ≡ out.old ++ asked.now) }
{
    for one in asked {
        out.push((copy(alloc, &one.0)?, one.1))?;
    }
    Ok(())
}

/// The types of the places.
fn types(alloc: Global, places: &[Place]) -> Result<Vec<IntType>, AllocError>
    ensures { IfOk result (λ ts. ts.items ≡ map (λ place. place.ty) places.now) }
{
    places.iter().map(|place| place.ty).collect(alloc)
}

/// The expressions, asked of the program's cells.
fn asked_of(alloc: Global, asked: &[(Expr, bool)], places: &[Place]) -> Result<Query, AllocError>
    ensures { IfOk result (λ q. q ≡ asked_of places.now asked.now) }
{
    let cells = Seq::from_vec(types(alloc, places)?);
    let mut wanted = Seq::new(alloc);
    push_copies(alloc, &mut wanted, asked)?;
    Ok(Query { cells, wanted })
}

/// The cells that the expressions read.
fn marks_of(
    alloc: Global,
    asked: &[(Expr, bool)],
    places: &[Place],
) -> Result<Vec<bool>, AllocError>
    ensures marks { IfOk result (λ marks. marks.items ≡ reads (asked_of places.now asked.now)) }
    ensures long { IfOk result (λ marks. length marks.items ≡ length places.now) }
{
    let query = asked_of(alloc, asked, places)?;
    let marks = read_cells(alloc, &query)?;
    Ok(marks)
}

/// A cell of its own for a place that is marked, with the same value.
fn copied_place(
    alloc: Global,
    draft: &mut Draft,
    marked: bool,
    place: Place,
) -> Result<Place, AllocError>
    ensures { IfOk result (λ p. stood draft.new p ≡ own_place marked place draft.old) }
{
    if marked {
        let read = scalar(alloc, place.ty, place.number)?;
        let number = named(alloc, draft, read)?;
        Ok(Place {
            number,
            ty: place.ty,
        })
    } else {
        Ok(place)
    }
}

/// The places, with a cell of its own for each that is marked.
fn copied(
    alloc: Global,
    draft: &mut Draft,
    marks: &[bool],
    places: &[Place],
) -> Result<Seq<Place>, AllocError>
    requires { length marks.now ≡ length places.now }
    ensures { IfOk result (λ ps. placed draft.new ps ≡ copied marks.now places.now draft.old) }
{
    let mut made = Seq::new(alloc);
    for i in 0..places.len() {
        let place = copied_place(alloc, draft, marks[i], places[i])?;
        made.push(place)?;
    }
    Ok(made)
}

/// The places at which the expressions can be read, where they are not those that stand.
pub(crate) fn settle(
    alloc: Global,
    draft: &mut Draft,
    asked: &[(Expr, bool)],
    places: &[Place],
) -> Result<Option<Seq<Place>>, AllocError>
    ensures { IfOk result (λ moved. placed draft.new (places_or moved places.now)
        ≡ settled asked.now places.now draft.old) }
{
    if are_whole(asked, places) {
        return Ok(None);
    }
    let marks = marks_of(alloc, asked, places)?;
    let made = copied(alloc, draft, marks.as_slice(), places)?;
    Ok(Some(made))
}

/// The new places where there are some, else the old ones.
pub(crate) fn places_or<'a>(moved: &'a Option<Seq<Place>>, places: &'a [Place]) -> &'a [Place]
    ensures { result.now ≡ places_or moved.now places.now }
{
    match moved {
        Some(moved) => moved.as_slice(),
        None => places,
    }
}

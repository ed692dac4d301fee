//! Where control goes after each statement, in one pass from the bodies down. The table filled is
//! `ArePlaces`; that a part's place follows from the whole's: `proofs/Known.antt`.

ghost use Rattle.std.specs.Prelude.{◌≡◌, ◌+◌, ◌<◌, length, slice_get, Some, IfOk};
ghost use Rattle.std.specs.List.{All};
ghost use Rattle.cpa_model.specs.Programs.{IsWellFormed, after_part, after_item, parts_of};
ghost use Rattle.cpa_model.specs.TreeLaws.{TreeLaws};
ghost use Rattle.cfa_build.specs.Places.{ArePlaces, ArePlacesBelow, PartsPlaced, within};

use cpa_model::{Program, Stmt, statements_are_trees};
use std::alloc::{AllocError, Global};

/// Of a statement: the point to which control goes after it, the nearest loop that encloses it,
/// and the function in which it stands.
#[derive(Clone, Copy)]
pub(crate) struct Place {
    pub next: u32,
    pub inner_loop: Option<u32>,
    pub function: u32,
}

/// Writes the places of the items of a block whose own place is `whole`.
fn place_items(items: &[u32], whole: Place, places: &mut [Place])
    requires { All (λ c. c < length places.old) items.now }
    ensures { PartsPlaced (after_item items.now) whole places.old places.new }
{
    let mut place = whole;
    for i in (0..items.len()).rev() {
        let item = items[i];
        places[item as usize] = place;
        place.next = item;
    }
}

/// Writes the places of the parts of the statement `n`, whose own place is `whole`.
fn place_parts(n: u32, stmt: &Stmt, whole: Place, places: &mut [Place])
    requires { All (λ c. c < length places.old) (parts_of stmt.now) }
    ensures { PartsPlaced (after_part n stmt.now) (within n stmt.now whole) places.old places.new }
{
    statements_are_trees();
    match stmt {
        Stmt::Block { items } => place_items(items.as_slice(), whole, places),
        Stmt::If { yes, no, .. } => {
            places[*no as usize] = whole;
            places[*yes as usize] = whole;
        }
        Stmt::Loop { body, step } => {
            let inside = Place {
                next: n,
                inner_loop: Some(n),
                function: whole.function,
            };
            places[*step as usize] = inside;
            places[*body as usize] = Place {
                next: *step,
                ..inside
            };
        }
        _ => {}
    }
}

/// The place of the statement `n`.
pub(crate) fn place_of(places: &[Place], n: u32) -> Place
    requires { n < length places.now }
    ensures { slice_get places.now n ≡ Some result }
{
    places[n as usize]
}

/// Writes the places of the parts of the statement `n`, which the table knows.
fn place_parts_of(program: &Program, n: u32, places: &mut [Place])
    requires trees { TreeLaws program.now }
    requires inside { n < length program.now.stmts }
    requires below { ArePlacesBelow program.now n places.old }
    ensures { ArePlacesBelow program.now (n + 1) places.new }
{
    let whole = place_of(places, n);
    place_parts(n, program.statement(n), whole, places);
}

/// Writes the places of the functions' bodies.
fn place_bodies(program: &Program, places: &mut [Place])
    requires well_formed { IsWellFormed program.now }
    requires trees { TreeLaws program.now }
    requires each { length places.old ≡ length program.now.stmts }
    ensures { ArePlacesBelow program.now 0 places.new }
{
    for (f, body) in program.bodies.iter().enumerate() {
        places[*body as usize] = Place {
            next: program.exit(f as u32),
            inner_loop: None,
            function: f as u32,
        };
    }
}

/// The place of each statement.
pub(crate) fn places(alloc: Global, program: &Program) -> Result<Vec<Place>, AllocError>
    requires well_formed { IsWellFormed program.now }
    requires trees { TreeLaws program.now }
    ensures { IfOk result (λ places. ArePlaces program.now places.items) }
{
    let unknown = Place {
        next: 0,
        inner_loop: None,
        function: 0,
    };
    let count = program.stmts.len();
    let mut places = vec![in alloc; unknown; count]?;
    place_bodies(program, &mut places);
    for n in 0..count {
        place_parts_of(program, n as u32, &mut places);
    }
    Ok(places)
}

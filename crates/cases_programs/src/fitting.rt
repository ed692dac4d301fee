//! Whether the tables of a program are right, by `specs/Fits.antt`. Jumps out of loops are not
//! taken.

ghost use Rattle.std.specs.Prelude.{◌≡◌, ◌+◌, ◌^◌, ◌<◌, ◌≤◌, Some, IsTrue, length, slice_get};
ghost use Rattle.std.specs.List.{AllByRecursion};
ghost use Rattle.cpa_ints.specs.Integers.{IsInRange};
ghost use Rattle.cpa_expr.specs.Shape.{AreCells, type_of};
ghost use Rattle.cpa_model.specs.Expressions.{IsExpr, types_of};
ghost use Rattle.cpa_model.specs.Programs.{Tiles, parts_of, point_count};
ghost use Rattle.cases_programs.specs.Samples.{Each, IsGood};
ghost use Rattle.cases_programs.specs.Fits.{entry_of, FitsStmt};

use crate::table::Table;
use cpa_expr::type_of;
use cpa_model::{Cell, Expr, IntType, MAX_CELLS, MAX_POINTS, Program, Stmt, is_expr};

/// The number that a table has for this one, 0 where it has none.
fn entry_of(numbers: &[u32], number: usize) -> u32
    ensures { result ≡ entry_of numbers.now number }
{
    match numbers.get(number) {
        Some(entry) => *entry,
        None => 0,
    }
}

/// Whether the trees of these statements stand side by side from the first number to the last.
fn tile(ends: &[u32], first: usize, parts: &[u32], last: usize) -> bool
    ensures { IsTrue result → Tiles ends.now first parts.now last }
{
    match parts {
        [] => first == last,
        [part, parts @ ..] => match ends.get(*part as usize) {
            Some(next) => *part as usize == first && tile(ends, *next as usize, parts, last),
            None => false,
        },
    }
}

/// Whether the parts of a statement tile its tree, from the number behind its own to its end.
fn parts_tile(ends: &[u32], first: usize, stmt: &Stmt, last: usize) -> bool
    ensures { IsTrue result → Tiles ends.now first (parts_of stmt.now) last }
{
    match stmt {
        Stmt::Block { items } => tile(ends, first, items.as_slice(), last),
        Stmt::If { yes, no, .. } => tile(ends, first, &[*yes, *no], last),
        Stmt::Loop { body, step } => tile(ends, first, &[*body, *step], last),
        _ => first == last,
    }
}

/// Whether all these statements stand in the function.
fn are_owned(owners: &[u32], parts: &[u32], owner: u32) -> bool
    ensures { IsTrue result → AllByRecursion (λ c. entry_of owners.now c ≡ owner) parts.now }
{
    match parts {
        [] => true,
        [part, parts @ ..] => {
            entry_of(owners, *part as usize) == owner && are_owned(owners, parts, owner)
        }
    }
}

/// Whether the parts of a statement stand in the function.
fn parts_owned(owners: &[u32], stmt: &Stmt, owner: u32) -> bool
    ensures { IsTrue result →
        AllByRecursion (λ c. entry_of owners.now c ≡ owner) (parts_of stmt.now) }
{
    match stmt {
        Stmt::Block { items } => are_owned(owners, items.as_slice(), owner),
        Stmt::If { yes, no, .. } => are_owned(owners, &[*yes, *no], owner),
        Stmt::Loop { body, step } => are_owned(owners, &[*body, *step], owner),
        _ => true,
    }
}

/// Whether `len` cells from `base` on are there and have the type.
fn are_cells(cells: &[Cell], base: u32, len: u32, ty: IntType) -> bool
    ensures { IsTrue result → AreCells (types_of cells.now) base len ty }
{
    for i in 0..len {
        if !is_cell(cells, base as usize + i as usize, ty) {
            return false;
        }
    }
    true
}

/// Whether the cell is there and has the type.
fn is_cell(cells: &[Cell], cell: usize, ty: IntType) -> bool
    ensures { IsTrue result → slice_get (types_of cells.now) cell ≡ Some ty }
{
    match cells.get(cell) {
        Some(found) => found.ty == ty,
        None => false,
    }
}

/// Whether a write names cells that are there, with an index and a value that are well typed.
fn is_write(cells: &[Cell], base: u32, len: u32, index: &Expr, value: &Expr) -> bool
    ensures len { IsTrue result → 1 ≤ len }
    ensures index { IsTrue result → IsExpr cells.now index.now }
    ensures value { IsTrue result → IsExpr cells.now value.now }
    ensures cells { IsTrue result → AreCells (types_of cells.now) base len (type_of value.now) }
{
    1 <= len
        && is_expr(index, cells)
        && is_expr(value, cells)
        && are_cells(cells, base, len, type_of(value))
}

/// Whether a statement is sound, a call by the levels of the functions, a jump by its own function.
fn is_good(table: &Table, number: usize, stmt: &Stmt) -> bool
    ensures { IsTrue result → IsGood table.now.program (entry_of table.now.owners)
        (entry_of table.now.levels) number stmt.now }
{
    let cells = table.program.cells.as_slice();
    match stmt {
        Stmt::If { test, .. } => is_expr(test, cells),
        Stmt::Assign {
            base,
            len,
            index,
            value,
        } => is_write(cells, *base, *len, index, value),
        Stmt::Input { cell } => (*cell as usize) < cells.len(),
        Stmt::Call { function } => calls_lower(table, number, *function),
        Stmt::Goto { to } => jumps_within(table, number, *to),
        Stmt::Break | Stmt::Continue => false,
        Stmt::Block { .. } | Stmt::Loop { .. } | Stmt::Leave | Stmt::Stop | Stmt::Error => true,
    }
}

/// Whether a called function is there and has a lower level than the calling one, so that none
/// reaches itself.
fn calls_lower(table: &Table, number: usize, function: u32) -> bool
    ensures there { IsTrue result → function < length table.now.program.bodies }
    ensures lower { IsTrue result → entry_of table.now.levels function
        < entry_of table.now.levels (entry_of table.now.owners number) }
{
    let levels = table.levels.as_slice();
    let owner = entry_of(table.owners.as_slice(), number);
    (function as usize) < table.program.bodies.len()
        && entry_of(levels, function as usize) < entry_of(levels, owner as usize)
}

/// Whether a jump leads to a statement that is there, in the function of the jump.
fn jumps_within(table: &Table, number: usize, to: u32) -> bool
    ensures there { IsTrue result → to < length table.now.program.stmts }
    ensures within { IsTrue result →
        entry_of table.now.owners to ≡ entry_of table.now.owners number }
{
    let owners = table.owners.as_slice();
    (to as usize) < table.program.stmts.len()
        && entry_of(owners, to as usize) == entry_of(owners, number)
}

/// Whether the tables are right of a statement.
fn fits_stmt(table: &Table, number: usize, stmt: &Stmt) -> bool
    requires { number + 1 < 2 ^ 64 }
    ensures { IsTrue result → FitsStmt table.now number stmt.now }
{
    let ends = table.ends.as_slice();
    let owners = table.owners.as_slice();
    match ends.get(number) {
        Some(end) => {
            parts_tile(ends, number + 1, stmt, *end as usize)
                && parts_owned(owners, stmt, entry_of(owners, number))
                && is_good(table, number, stmt)
        }
        None => false,
    }
}

/// Whether the tables are right of these statements, the first one having this number.
fn fit_from(table: &Table, number: usize, stmts: &[Stmt]) -> bool
    requires { number + length stmts.now < 2 ^ 64 }
    ensures { IsTrue result → Each (FitsStmt table.now) number stmts.now }
{
    match stmts {
        [] => true,
        [stmt, stmts @ ..] => {
            fits_stmt(table, number, stmt) && fit_from(table, number + 1, stmts)
        }
    }
}

/// Whether these bodies stand in their functions, the first one being that of this function.
fn own_from(owners: &[u32], function: usize, bodies: &[u32]) -> bool
    requires { function + length bodies.now < 2 ^ 64 }
    ensures { IsTrue result → Each (λ f n. entry_of owners.now n ≡ f) function bodies.now }
{
    match bodies {
        [] => true,
        [body, bodies @ ..] => {
            entry_of(owners, *body as usize) as usize == function
                && own_from(owners, function + 1, bodies)
        }
    }
}

/// Whether each body stands in its function.
fn own_bodies(table: &Table) -> bool
    ensures { IsTrue result →
        Each (λ f n. entry_of table.now.owners n ≡ f) 0 table.now.program.bodies }
{
    own_from(table.owners.as_slice(), 0, table.program.bodies.as_slice())
}

/// Whether each cell's start is in the range of its type.
fn are_starts(cells: &[Cell]) -> bool
    ensures { IsTrue result → AllByRecursion (λ cell. IsInRange cell.ty cell.start) cells.now }
{
    for cell in cells {
        if !cell.ty.contains(cell.start) {
            return false;
        }
    }
    true
}

/// Whether the program is small, and main is there.
fn is_small(program: &Program) -> bool
    ensures cells { IsTrue result → length program.now.cells ≤ MAX_CELLS }
    ensures points { IsTrue result → point_count program.now ≤ MAX_POINTS }
    ensures main { IsTrue result → program.now.main < length program.now.bodies }
{
    let stmts = program.stmts.len();
    let bodies = program.bodies.len();
    program.cells.len() <= MAX_CELLS as usize
        && stmts <= MAX_POINTS as usize
        && bodies <= MAX_POINTS as usize - stmts
        && (program.main as usize) < bodies
}

/// Whether the tables are right, and the program is small.
pub(crate) fn fits_table(table: &Table) -> bool
    ensures each { IsTrue result → length table.now.ends ≡ length table.now.program.stmts }
    ensures trees { IsTrue result → Tiles table.now.ends 0 table.now.program.bodies
        (length table.now.program.stmts) }
    ensures stmts { IsTrue result → Each (FitsStmt table.now) 0 table.now.program.stmts }
    ensures bodies { IsTrue result →
        Each (λ f n. entry_of table.now.owners n ≡ f) 0 table.now.program.bodies }
    ensures starts { IsTrue result →
        AllByRecursion (λ cell. IsInRange cell.ty cell.start) table.now.program.cells }
    ensures few_cells { IsTrue result → length table.now.program.cells ≤ MAX_CELLS }
    ensures few_points { IsTrue result → point_count table.now.program ≤ MAX_POINTS }
    ensures main { IsTrue result → table.now.program.main < length table.now.program.bodies }
{
    let program = &table.program;
    let stmts = program.stmts.len();
    table.ends.len() == stmts
        && tile(table.ends.as_slice(), 0, program.bodies.as_slice(), stmts)
        && fit_from(table, 0, program.stmts.as_slice())
        && own_bodies(table)
        && are_starts(program.cells.as_slice())
        && is_small(program)
}

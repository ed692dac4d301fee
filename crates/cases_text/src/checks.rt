//! What a check of a text says, as a line: what `check_in` of `c_types` answers.
//! Proved safe by the checker alone.
ghost use Rattle.std.specs.Prelude.{◌≤◌, length};
ghost use Rattle.c_lexer.specs.declared.lexer.TheConstants.{MAX_TEXT};

use crate::texts::{Asked, answer};
use c_lexer::TextError;
use cpa_expr::type_word;
use cpa_ints::{DataModel, Seq};
use cpa_model::Cell;
use std::alloc::{AllocError, Global};

/// Objects of each type, arrays and functions, which stand in front of an expression that is asked
/// for its type.
const HEAD: &str = "\
    _Bool b;char c;unsigned char d;short s;unsigned short t;int i;unsigned int u;long l;\
    unsigned long m;long long n;unsigned long long o;int a[3];char e[2];unsigned long g[2];\
    _Bool fb(void){return 0;}char fc(void){return 0;}unsigned char fd(void){return 0;}\
    short fs(void){return 0;}unsigned short ft(void){return 0;}int fi(void){return 0;}\
    unsigned int fu(void){return 0;}long fl(void){return 0;}\
    unsigned long fm(void){return 0;}void v(void){}";

/// The cells of a text's core.
fn cells_of(alloc: Global, text: &[u8], model: DataModel) -> Result<Seq<Cell>, TextError>
    requires { length text.now ≤ MAX_TEXT }
{
    let tokens = c_lexer::tokens_in(alloc, text, model)?;
    let unit = c_parser::parse(alloc, text, &tokens)?;
    match c_types::check_in(alloc, &unit, model) {
        Ok(typed) => Ok(typed.cells),
        Err(error) => Err(error),
    }
}

/// The word "sound".
pub(crate) fn soundness(alloc: Global, text: &[u8], model: DataModel) -> Result<String, TextError>
    requires { length text.now ≤ MAX_TEXT }
{
    cells_of(alloc, text, model)?;
    Ok(String::from_str(alloc, "sound")?)
}

/// The cells of a text.
pub(crate) fn cells(alloc: Global, text: &[u8], model: DataModel) -> Result<String, TextError>
    requires { length text.now ≤ MAX_TEXT }
{
    let cells = cells_of(alloc, text, model)?;
    Ok(cell_list(alloc, cells.as_slice())?)
}

/// The first cell of a text.
pub(crate) fn first_start(alloc: Global, text: &[u8], model: DataModel) -> Result<String, TextError>
    requires { length text.now ≤ MAX_TEXT }
{
    let first = cells_of(alloc, text, model)?.as_slice().first().copied();
    let line = match first {
        Some(cell) => cell_words(alloc, cell),
        None => String::from_str(alloc, "none"),
    };
    Ok(line?)
}

/// The type of the last cell of a text, or "void" where the text breaks a rule.
pub(crate) fn last_type(alloc: Global, text: &[u8], model: DataModel) -> Result<String, TextError>
    requires { length text.now ≤ MAX_TEXT }
{
    let word = match cells_of(alloc, text, model) {
        Ok(cells) => cells.as_slice().last().map_or("none", kept_type),
        Err(TextError::Fault(_)) => "void",
        Err(TextError::OutOfMemory) => return Err(TextError::OutOfMemory),
    };
    Ok(String::from_str(alloc, word)?)
}

/// The word of a cell's type.
fn kept_type(cell: &Cell) -> &'static str {
    type_word(cell.ty)
}

/// What is asked of a text that ends in a `main` with this statement, behind the objects and
/// functions of `HEAD`.
fn behind_head(
    alloc: Global,
    statement: &str,
    asked: Asked,
    model: DataModel,
) -> Result<String, AllocError> {
    let text = format!(in alloc; "{HEAD}int main(void){{{statement};}}")?;
    answer(alloc, text.as_str(), asked, model)
}

/// The type of an expression behind the objects and functions of `HEAD`: that of the cell that
/// keeps its value while the right operand of a `==` is written. One that has no value is void.
pub(crate) fn expression_type(
    alloc: Global,
    row: &str,
    model: DataModel,
) -> Result<String, AllocError> {
    let line = behind_head(alloc, row, Asked::Soundness, model)?;
    if line.as_str() == "sound" {
        compared_type(alloc, row, model)
    } else {
        Ok(line)
    }
}

/// The type of the cell that keeps the value of a left operand.
fn compared_type(alloc: Global, row: &str, model: DataModel) -> Result<String, AllocError> {
    let compared = format!(in alloc; "return ({row})==(i=1)")?;
    behind_head(alloc, compared.as_str(), Asked::Kept, model)
}

/// The first cell of a text that begins with a declaration: its type, and what it starts at.
pub(crate) fn declared_start(
    alloc: Global,
    row: &str,
    model: DataModel,
) -> Result<String, AllocError> {
    let text = format!(in alloc; "{row}int main(void){{}}")?;
    answer(alloc, text.as_str(), Asked::Start, model)
}

/// A cell's type, and what it starts at.
fn cell_words(alloc: Global, cell: Cell) -> Result<String, AllocError> {
    let word = type_word(cell.ty);
    format!(in alloc; "{word} {}", cell.start)
}

/// These cells in a line.
fn cell_list(alloc: Global, cells: &[Cell]) -> Result<String, AllocError> {
    let mut line = String::new(alloc);
    for cell in cells {
        push_cell(&mut line, *cell)?;
    }
    Ok(line)
}

/// Adds a cell behind those that are there.
fn push_cell(line: &mut String, cell: Cell) -> Result<(), AllocError> {
    if !line.is_empty() {
        line.push_str(", ")?;
    }
    let word = type_word(cell.ty);
    write!(line, "{word} {}", cell.start)
}

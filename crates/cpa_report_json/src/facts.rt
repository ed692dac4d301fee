//! Facts, elements and listed entries.
ghost use Rattle.std.specs.Prelude.{◌≡◌, ◌∷◌, ◌<◌, ◌^◌, ℕ, ℤ, Bool, List, length, OnOk, IfOk};
ghost use Rattle.json.specs.Token as piece;
ghost use Rattle.json.specs.Token.{Token as Piece};
ghost use Rattle.cpa_expr.specs.declared.tree.Expr.{Expr as Tree};
ghost use Rattle.cpa_facts.specs.declared.fact.Fact.TheVariants as fact;
ghost use Rattle.cpa_report_json.specs.Fits.{AreSmall, IsWhole, IsLow};
ghost use Rattle.cpa_report_json.specs.Fits.{FactFits, ElemFits, ListedFits};
ghost use Rattle.cpa_report_json.specs.Taking.{Took};
ghost use Rattle.cpa_report_print.specs.Reports.{number_data, numbers_data, integer_data};
ghost use Rattle.cpa_report_print.specs.Reports.{expr_data, truth_data, fact_data, elem_data};
ghost use Rattle.cpa_report_print.specs.Reports.{listed_data};
ghost use Rattle.cpa_report_print.specs.Tokens.{onto};

use crate::fault::ReadFault;
use crate::lists::{FromJson, take_member};
use crate::steps::{close_list, close_object, open_list, open_object, take_text};
use crate::values::take_boxed;
use cpa_model::{Elem, Fact, Seq};
use cpa_report_print::Listed;
use json::Reader;
use std::alloc::Global;

/// Takes what stands behind the name of a fact on the point.
fn take_at(alloc: Global, reader: &mut Reader<'_>) -> Result<Fact, ReadFault>
    ensures took { (point : ℕ) (rest : List Piece) → point < 2 ^ 32
        → reader.old ≡ onto (number_data point) (piece.end_array ∷ rest)
        → Took (fact.At point) rest result reader.new }
    ensures fit { IfOk result (FactFits IsLow) }
    ensures shorter { OnOk result (length reader.new < length reader.old) }
{
    let point = u32::take(alloc, reader)?;
    close_list(reader)?;
    Ok(Fact::At { point })
}

/// Takes what stands behind the name of a fact on the stack.
fn take_stack(alloc: Global, reader: &mut Reader<'_>) -> Result<Fact, ReadFault>
    ensures took { (sites : List ℕ) (rest : List Piece) → AreSmall sites
        → reader.old ≡ onto (numbers_data sites) (piece.end_array ∷ rest)
        → Took (fact.Stack sites) rest result reader.new }
    ensures fit { IfOk result (FactFits IsLow) }
    ensures shorter { OnOk result (length reader.new < length reader.old) }
{
    let sites = FromJson::take(alloc, reader)?;
    close_list(reader)?;
    Ok(Fact::Stack { sites })
}

/// Takes what stands behind the name of a fact on the value of a cell.
fn take_equals(alloc: Global, reader: &mut Reader<'_>) -> Result<Fact, ReadFault>
    ensures took { (cell : ℕ) (value : ℤ) (rest : List Piece) → cell < 2 ^ 32 → IsWhole value
        → reader.old ≡ onto (number_data cell) (onto (integer_data value) (piece.end_array ∷ rest))
        → Took (fact.Equals cell value) rest result reader.new }
    ensures fit { IfOk result (FactFits IsLow) }
    ensures shorter { OnOk result (length reader.new < length reader.old) }
{
    let cell = u32::take(alloc, reader)?;
    let value = i128::take(alloc, reader)?;
    close_list(reader)?;
    Ok(Fact::Equals { cell, value })
}

/// Takes what stands behind the name of a fact on the bounds of a cell.
fn take_within(alloc: Global, reader: &mut Reader<'_>) -> Result<Fact, ReadFault>
    ensures took { (cell : ℕ) (lo hi : ℤ) (rest : List Piece) → cell < 2 ^ 32 → IsWhole lo
        → IsWhole hi → reader.old ≡ onto (number_data cell) (onto (integer_data lo)
        (onto (integer_data hi) (piece.end_array ∷ rest)))
        → Took (fact.Within cell lo hi) rest result reader.new }
    ensures fit { IfOk result (FactFits IsLow) }
    ensures shorter { OnOk result (length reader.new < length reader.old) }
{
    let cell = u32::take(alloc, reader)?;
    let lo = i128::take(alloc, reader)?;
    let hi = i128::take(alloc, reader)?;
    close_list(reader)?;
    Ok(Fact::Within { cell, lo, hi })
}

/// Takes a truth value, which is told as 0 or 1.
fn take_bit(alloc: Global, reader: &mut Reader<'_>) -> Result<bool, ReadFault>
    ensures took { (holds : Bool) (rest : List Piece) → reader.old ≡ onto (truth_data holds) rest
        → Took holds rest result reader.new }
    ensures shorter { OnOk result (length reader.new < length reader.old) }
{
    match u32::take(alloc, reader)? {
        0 => Ok(false),
        1 => Ok(true),
        _ => Err(ReadFault::Other),
    }
}

/// Takes what stands behind the name of a fact on the truth of an expression.
fn take_truth(alloc: Global, reader: &mut Reader<'_>) -> Result<Fact, ReadFault>
    ensures took { (expr : Tree) (holds : Bool) (rest : List Piece) → IsLow expr
        → reader.old ≡ onto (expr_data expr) (onto (truth_data holds) (piece.end_array ∷ rest))
        → Took (fact.Truth expr holds) rest result reader.new }
    ensures fit { IfOk result (FactFits IsLow) }
    ensures shorter { OnOk result (length reader.new < length reader.old) }
{
    let expr = take_boxed(alloc, reader)?;
    let holds = take_bit(alloc, reader)?;
    close_list(reader)?;
    Ok(Fact::Truth {
        expr: expr.into_inner(),
        holds,
    })
}

impl FromJson for Fact {
    ghost json = { fact_data };

    ghost fits = { FactFits IsLow };

    /// Takes a fact.
    fn take(alloc: Global, reader: &mut Reader<'_>) -> Result<Fact, ReadFault> {
        open_list(reader)?;
        let name = take_text(reader)?;
        if name == "at" {
            take_at(alloc, reader)
        } else if name == "stack" {
            take_stack(alloc, reader)
        } else if name == "equals" {
            take_equals(alloc, reader)
        } else if name == "within" {
            take_within(alloc, reader)
        } else if name == "truth" {
            take_truth(alloc, reader)
        } else {
            Err(ReadFault::Other)
        }
    }
}

impl FromJson for Elem {
    ghost json = { elem_data };

    ghost fits = { ElemFits IsLow };

    /// Takes an element.
    fn take(alloc: Global, reader: &mut Reader<'_>) -> Result<Elem, ReadFault> {
        let facts: Seq<Fact> = FromJson::take(alloc, reader)?;
        Ok(Elem::new(alloc, facts)?)
    }
}

impl FromJson for Listed {
    ghost json = { listed_data };

    ghost fits = { ListedFits IsLow };

    /// Takes an entry.
    fn take(alloc: Global, reader: &mut Reader<'_>) -> Result<Listed, ReadFault> {
        open_object(reader)?;
        let elems = take_member(alloc, reader, "elems")?;
        let number = take_member(alloc, reader, "number")?;
        close_object(reader)?;
        Ok(Listed { number, elems })
    }
}

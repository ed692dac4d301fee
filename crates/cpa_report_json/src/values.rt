//! Whole numbers with their sign, and expressions.
ghost use Rattle.std.specs.Prelude.{◌≡◌, ◌↔◌, ◌<◌, ℤ, List, length, Ok, OnOk, IfOk, IsTrue};
ghost use Rattle.std.specs.Fmt.{signed_decimal};
ghost use Rattle.cpa_expr.specs.declared.tree.Expr.{Expr as Tree};
ghost use Rattle.cpa_report_print.specs.Reports.{integer_data, expr_data};
ghost use Rattle.cpa_report_json.specs.Fits.{IsWhole, IsLow};
ghost use Rattle.cpa_report_json.specs.Taking.{Took};
ghost use Rattle.cpa_report_print.specs.Tokens.{onto};
ghost use Rattle.json.specs.Token.{Token as Piece};

use crate::fault::ReadFault;
use crate::lists::FromJson;
use crate::steps::{take_number, take_text};
use cpa_expr::Expr;
use cpa_expr_text::{integer, read};
use cpa_ints::Boxed;
use json::Reader;
use std::alloc::Global;

/// Whether the number is one that JSON keeps whole.
fn is_whole(value: i128) -> bool
    ensures { IsTrue result ↔ IsWhole value }
{
    i128::from(i64::MIN) <= value && value <= i128::from(u64::MAX)
}

/// The whole number that is written so.
fn whole(text: &str) -> Result<i128, ReadFault>
    ensures read { (z : ℤ) → IsWhole z → text.now ≡ signed_decimal z → result ≡ Ok z }
    ensures fit { IfOk result IsWhole }
{
    match integer(text) {
        Some(value) if is_whole(value) => Ok(value),
        _ => Err(ReadFault::Other),
    }
}

impl FromJson for i128 {
    ghost json = { integer_data };

    ghost fits = { IsWhole };

    /// Takes a whole number.
    fn take(_alloc: Global, reader: &mut Reader<'_>) -> Result<i128, ReadFault> {
        let text = take_number(reader)?;
        whole(text)
    }
}

/// Takes an expression of at most `MAX_HEIGHT` levels, in its box.
pub(crate) fn take_boxed(alloc: Global, reader: &mut Reader<'_>) -> Result<Boxed<Expr>, ReadFault>
    ensures took { (e : Tree) (rest : List Piece) → IsLow e
        → reader.old ≡ onto (expr_data e) rest → Took e rest result reader.new }
    ensures fit { IfOk result IsLow }
    ensures shorter { OnOk result (length reader.new < length reader.old) }
{
    let text = take_text(reader)?;
    match read(alloc, text)? {
        Some(expr) => Ok(expr),
        None => Err(ReadFault::Other),
    }
}

impl FromJson for Expr {
    ghost json = { expr_data };

    ghost fits = { IsLow };

    /// Takes an expression of at most `MAX_HEIGHT` levels.
    fn take(alloc: Global, reader: &mut Reader<'_>) -> Result<Expr, ReadFault> {
        let expr = take_boxed(alloc, reader)?;
        Ok(expr.into_inner())
    }
}

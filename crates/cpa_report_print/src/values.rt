//! What is one JSON value, and how it is written token by token: numbers, expressions, lists.
//! The tokens of a value are `onto` of `specs/Tokens.antt`.
ghost use Rattle.std.specs.Prelude.{◌∷◌, OnOk};
ghost use Rattle.json.specs.Token.{key};
ghost use Rattle.serde_json.specs.Data.{Data};
ghost use Rattle.cpa_report_print.specs.Reports.{integer_data, list_data};
ghost use Rattle.cpa_report_print.specs.Tokens.{onto, Wrote};

use cpa_expr::Expr;
use cpa_iface::Cells;
use cpa_model::{Seq, Shared};
use itoa::Buffer;
use json::Writer;
use std::alloc::{AllocError, Global};

/// What is one JSON value.
pub(crate) trait Json {
    ghost json: { Self → Data };

    /// Writes the value behind what stands there. Nothing is said of the text after an error,
    /// which comes for want of memory alone.
    fn write(&self, alloc: Global, writer: &mut Writer) -> Result<(), AllocError>
        ensures { OnOk result (Wrote writer.old writer.new (onto (json self.now))) };
}

impl Json for u32 {
    ghost use Rattle.cpa_report_print.specs.Reports.{number_data};

    ghost json = { number_data };

    fn write(&self, _alloc: Global, writer: &mut Writer) -> Result<(), AllocError> {
        writer.u64(u64::from(*self))
    }
}

impl Json for u64 {
    ghost use Rattle.cpa_report_print.specs.Reports.{number_data};

    ghost json = { number_data };

    fn write(&self, _alloc: Global, writer: &mut Writer) -> Result<(), AllocError> {
        writer.u64(*self)
    }
}

impl Json for i128 {
    ghost json = { integer_data };

    fn write(&self, _alloc: Global, writer: &mut Writer) -> Result<(), AllocError> {
        write_integer(writer, *self)
    }
}

/// Writes the number, whatever its sign is.
fn write_integer(writer: &mut Writer, value: i128) -> Result<(), AllocError>
    ensures { OnOk result (Wrote writer.old writer.new (onto (integer_data value))) }
{
    let mut buffer = Buffer::new();
    writer.number(buffer.format(value))
}

impl Json for Expr {
    ghost use Rattle.cpa_report_print.specs.Reports.{expr_data};

    ghost json = { expr_data };

    fn write(&self, alloc: Global, writer: &mut Writer) -> Result<(), AllocError> {
        let text = format!(in alloc; "{self}")?;
        writer.string(text.as_str())
    }
}

impl<T: Json> Json for Seq<T> {
    ghost use Rattle.cpa_report_print.specs.Reports.{list_data};

    ghost json = { list_data T.json };

    fn write(&self, alloc: Global, writer: &mut Writer) -> Result<(), AllocError> {
        write_items(alloc, writer, self.as_slice())
    }
}

impl<T: Json> Json for Shared<T> {
    ghost use Rattle.cpa_report_print.specs.Reports.{list_data};

    ghost json = { list_data T.json };

    fn write(&self, alloc: Global, writer: &mut Writer) -> Result<(), AllocError> {
        write_items(alloc, writer, self.as_slice())
    }
}

impl Json for Cells {
    ghost use Rattle.cpa_report_print.specs.Reports.{numbers_data};

    ghost json = { numbers_data };

    fn write(&self, alloc: Global, writer: &mut Writer) -> Result<(), AllocError> {
        write_items(alloc, writer, self.as_slice())
    }
}

/// Writes the items as an array.
fn write_items<T: Json>(alloc: Global, writer: &mut Writer, items: &[T]) -> Result<(), AllocError>
    ensures { OnOk result (Wrote writer.old writer.new (onto (list_data T.json items.now))) }
{
    writer.begin_array()?;
    for item in items {
        item.write(alloc, writer)?;
    }
    writer.end_array()
}

/// Writes a key and its value.
pub(crate) fn write_member<T: Json>(
    alloc: Global,
    writer: &mut Writer,
    name: &'static str,
    value: &T,
) -> Result<(), AllocError>
    ensures { OnOk result (Wrote writer.old writer.new
        (λ rest. key name.now ∷ onto (T.json value.now) rest)) }
{
    writer.key(name)?;
    value.write(alloc, writer)
}

//! Reports, by the verdict that they are of: the members of their object in byte order of the keys.
//! `proofs/Parts.antt` puts a report together from its parts.
ghost use Rattle.std.specs.Prelude.{◌≡◌, ◌∷◌, ◌<◌, ◌^◌, ◌↔◌, ℕ, List, IfOk, IsTrue, Some};
ghost use Rattle.std.specs.Prelude.{codes};
ghost use Rattle.std.specs.List.{AllByRecursion};
ghost use Rattle.json.specs.Token as piece;
ghost use Rattle.json.specs.Token.{Token as Piece};
ghost use Rattle.serde_json.specs.Data.{Members, member, no_members};
ghost use Rattle.cpa_iface.specs.declared.precisions.Precision.{Precision as APrecision};
ghost use Rattle.cpa_ints.specs.declared.data_model.DataModel.{DataModel as AModel};
ghost use Rattle.cpa_model.specs.Ascending.{AreAscending};
ghost use Rattle.cpa_model.specs.declared.automaton.Path.{Path as APath};
ghost use Rattle.cpa_report_json.specs.Fits.{IsLow, PrecisionFits, EntriesFit};
ghost use Rattle.cpa_report_json.specs.Fits.{PathFits, ReportFitsBy};
ghost use Rattle.cpa_report_json.specs.Taking.{IsBelowFirst, numbers_in, Took, Passed, TakesReport};
ghost use Rattle.cpa_report_print.specs.Reports.{number_data, list_data, listed_data, path_data};
ghost use Rattle.cpa_report_print.specs.Reports.{form_of, model_members, precision_data};
ghost use Rattle.cpa_report_print.specs.Reports.{report_data, verdict_of};
ghost use Rattle.cpa_report_print.specs.Steps.{chain};
ghost use Rattle.cpa_report_print.specs.Tokens.{members_onto, onto};
ghost use Rattle.cpa_report_print.specs.declared.report.Listed.{Listed as AListed};
ghost use Rattle.cpa_report_print.specs.declared.report.Report.{Report as AReport};
ghost use Rattle.cpa_report_print.specs.declared.report.Verdict.TheVariants as verdict;

use crate::fault::ReadFault;
use crate::lists::take_member;
use crate::steps::{close_object, open_object, pass_key, take_text};
use cpa_iface::Precision;
use cpa_ints::{DataModel, Seq};
use cpa_model::Path;
use cpa_report_print::{Body, Listed, Report, Verdict};
use json::Reader;
use std::alloc::Global;

/// Takes the counts that stand first in each report: the cells and the edges.
fn take_counts(alloc: Global, reader: &mut Reader<'_>) -> Result<(u32, u32), ReadFault>
    ensures took { (cells edges : ℕ) (rest : List Piece) → cells < 2 ^ 32 → edges < 2 ^ 32
        → reader.old ≡ piece.begin_object ∷ piece.key (codes "cells") ∷ onto (number_data cells)
        (piece.key (codes "edges") ∷ onto (number_data edges) rest)
        → Took (cells, edges) rest result reader.new }
    ensures fit { IfOk result (λ p. (p.0 < 2 ^ 32) × (p.1 < 2 ^ 32)) }
{
    open_object(reader)?;
    let cells = take_member(alloc, reader, "cells")?;
    let edges = take_member(alloc, reader, "edges")?;
    Ok((cells, edges))
}

/// The data model whose reports have this form.
fn model_with(form: u32) -> Option<DataModel>
    ensures { (m : AModel) → form ≡ form_of m → result ≡ Some m }
{
    match form {
        1 => Some(DataModel::Lp64),
        2 => Some(DataModel::Ilp32),
        _ => None,
    }
}

/// Takes the form of the report, which is that of a data model.
fn take_form(alloc: Global, reader: &mut Reader<'_>) -> Result<DataModel, ReadFault>
    ensures took { (m : AModel) (rest : List Piece)
        → reader.old ≡ piece.key (codes "form") ∷ onto (number_data (form_of m)) rest
        → Took m rest result reader.new }
{
    let form = take_member(alloc, reader, "form")?;
    match model_with(form) {
        Some(model) => Ok(model),
        None => Err(ReadFault::Other),
    }
}

/// Takes the counts that stand first and the form after them.
fn take_head(alloc: Global, reader: &mut Reader<'_>) -> Result<(u32, u32, DataModel), ReadFault>
    ensures took { (cells edges : ℕ) (m : AModel) (rest : List Piece)
        → cells < 2 ^ 32 → edges < 2 ^ 32
        → reader.old ≡ piece.begin_object ∷ piece.key (codes "cells") ∷ onto (number_data cells)
        (piece.key (codes "edges") ∷ onto (number_data edges)
        (piece.key (codes "form") ∷ onto (number_data (form_of m)) rest))
        → Took (cells, edges, m) rest result reader.new }
    ensures fit { IfOk result (λ p. (p.0 < 2 ^ 32) × (p.1 < 2 ^ 32)) }
{
    let (cells, edges) = take_counts(alloc, reader)?;
    let model = take_form(alloc, reader)?;
    Ok((cells, edges, model))
}

/// Takes what tells the data model, which the form has told.
fn take_model(reader: &mut Reader<'_>, model: DataModel) -> Result<(), ReadFault>
    ensures took { (ms : Members) (rest : List Piece)
        → reader.old ≡ members_onto (chain (model_members model) ms) rest
        → Passed (members_onto ms rest) result reader.new }
{
    match model {
        DataModel::Lp64 => Ok(()),
        DataModel::Ilp32 => {
            pass_key(reader, "model")?;
            if take_text(reader)? == "ilp32" {
                Ok(())
            } else {
                Err(ReadFault::Other)
            }
        }
    }
}

/// Takes what tells the data model, and the points after it.
fn take_points(alloc: Global, reader: &mut Reader<'_>, model: DataModel) -> Result<u32, ReadFault>
    ensures took { (m : AModel) (points : ℕ) (ms : Members) (rest : List Piece)
        → model ≡ m → points < 2 ^ 32
        → reader.old ≡ members_onto (chain (model_members m)
        (member (codes "points") (number_data points) ms)) rest
        → Took points (members_onto ms rest) result reader.new }
    ensures fit { IfOk result (λ points. points < 2 ^ 32) }
{
    take_model(reader, model)?;
    take_member(alloc, reader, "points")
}

/// Takes what tells the data model, and the path after it.
fn take_path(alloc: Global, reader: &mut Reader<'_>, model: DataModel) -> Result<Path, ReadFault>
    ensures took { (m : AModel) (path : APath) (ms : Members) (rest : List Piece)
        → model ≡ m → PathFits path
        → reader.old ≡ members_onto (chain (model_members m)
        (member (codes "path") (path_data path) ms)) rest
        → Took path (members_onto ms rest) result reader.new }
    ensures fit { IfOk result PathFits }
{
    take_model(reader, model)?;
    take_member(alloc, reader, "path")
}

/// Takes the length of the text, which stands last.
fn take_last(alloc: Global, reader: &mut Reader<'_>) -> Result<u32, ReadFault>
    ensures took { (text : ℕ) (rest : List Piece) → text < 2 ^ 32
        → reader.old ≡ piece.key (codes "text") ∷ onto (number_data text)
        (piece.end_object ∷ rest) → Took text rest result reader.new }
    ensures fit { IfOk result (λ text. text < 2 ^ 32) }
{
    let text = take_member(alloc, reader, "text")?;
    close_object(reader)?;
    Ok(text)
}

/// Takes the points and the length of the text, which stand last.
fn take_tail(alloc: Global, reader: &mut Reader<'_>) -> Result<(u32, u32), ReadFault>
    ensures took { (points text : ℕ) (rest : List Piece) → points < 2 ^ 32 → text < 2 ^ 32
        → reader.old ≡ piece.key (codes "points") ∷ onto (number_data points)
        (piece.key (codes "text") ∷ onto (number_data text) (piece.end_object ∷ rest))
        → Took (points, text) rest result reader.new }
    ensures fit { IfOk result (λ p. (p.0 < 2 ^ 32) × (p.1 < 2 ^ 32)) }
{
    let points = take_member(alloc, reader, "points")?;
    let text = take_last(alloc, reader)?;
    Ok((points, text))
}

/// Takes what tells the data model, the points and the length of the text, which stand last.
fn take_end(
    alloc: Global,
    reader: &mut Reader<'_>,
    model: DataModel,
) -> Result<(u32, u32), ReadFault>
    ensures took { (m : AModel) (points text : ℕ) (rest : List Piece)
        → model ≡ m → points < 2 ^ 32 → text < 2 ^ 32
        → reader.old ≡ members_onto (chain (model_members m)
        (member (codes "points") (number_data points)
        (member (codes "text") (number_data text) no_members))) rest
        → Took (points, text) rest result reader.new }
    ensures fit { IfOk result (λ p. (p.0 < 2 ^ 32) × (p.1 < 2 ^ 32)) }
{
    let points = take_points(alloc, reader, model)?;
    let text = take_last(alloc, reader)?;
    Ok((points, text))
}

/// Takes the length of the text and a weight, which stand last.
fn take_weighed(alloc: Global, reader: &mut Reader<'_>) -> Result<(u32, u64), ReadFault>
    ensures took { (text weight : ℕ) (rest : List Piece) → text < 2 ^ 32 → weight < 2 ^ 64
        → reader.old ≡ piece.key (codes "text") ∷ onto (number_data text)
        (piece.key (codes "weight") ∷ onto (number_data weight) (piece.end_object ∷ rest))
        → Took (text, weight) rest result reader.new }
    ensures fit { IfOk result (λ p. (p.0 < 2 ^ 32) × (p.1 < 2 ^ 64)) }
{
    let text = take_member(alloc, reader, "text")?;
    let weight = take_member(alloc, reader, "weight")?;
    close_object(reader)?;
    Ok((text, weight))
}

/// Takes steps and the length of the text, which stand last.
fn take_stepped(alloc: Global, reader: &mut Reader<'_>) -> Result<(u64, u32), ReadFault>
    ensures took { (steps text : ℕ) (rest : List Piece) → steps < 2 ^ 64 → text < 2 ^ 32
        → reader.old ≡ piece.key (codes "steps") ∷ onto (number_data steps)
        (piece.key (codes "text") ∷ onto (number_data text) (piece.end_object ∷ rest))
        → Took (steps, text) rest result reader.new }
    ensures fit { IfOk result (λ p. (p.0 < 2 ^ 64) × (p.1 < 2 ^ 32)) }
{
    let steps = take_member(alloc, reader, "steps")?;
    let text = take_last(alloc, reader)?;
    Ok((steps, text))
}

/// Takes precisions and the length of the text, which stand last.
fn take_refined(alloc: Global, reader: &mut Reader<'_>) -> Result<(Seq<Precision>, u32), ReadFault>
    ensures took { (precisions : List APrecision) (text : ℕ) (rest : List Piece)
        → AllByRecursion (PrecisionFits IsLow) precisions → text < 2 ^ 32
        → reader.old ≡ piece.key (codes "precisions") ∷ onto (list_data precision_data precisions)
        (piece.key (codes "text") ∷ onto (number_data text) (piece.end_object ∷ rest))
        → Took (precisions, text) rest result reader.new }
    ensures fit { IfOk result (λ p. AllByRecursion (PrecisionFits IsLow) p.0 × (p.1 < 2 ^ 32)) }
{
    let precisions = take_member(alloc, reader, "precisions")?;
    let text = take_last(alloc, reader)?;
    Ok((precisions, text))
}

/// Whether the number is below that of the first entry, if there is one.
fn is_below(number: u32, entries: &[Listed]) -> bool
    ensures { IsTrue result ↔ IsBelowFirst number (numbers_in entries.now) }
{
    match entries.first() {
        Some(entry) => number < entry.number,
        None => true,
    }
}

/// Whether the numbers of the entries ascend.
fn are_ascending(entries: &[Listed]) -> bool
    ensures { IsTrue result ↔ AreAscending (numbers_in entries.now) }
{
    let mut rest = entries;
    'entries: while let [first, behind @ ..] = rest {
        if !is_below(first.number, behind) {
            return false;
        }
        rest = behind;
    }
    true
}

/// Takes the entries of a reached set, whose numbers ascend.
fn take_entries(alloc: Global, reader: &mut Reader<'_>) -> Result<Seq<Listed>, ReadFault>
    ensures took { (entries : List AListed) (rest : List Piece) → EntriesFit IsLow entries
        → reader.old ≡ piece.key (codes "entries") ∷ onto (list_data listed_data entries) rest
        → Took entries rest result reader.new }
    ensures fit { IfOk result (EntriesFit IsLow) }
{
    let entries: Seq<Listed> = take_member(alloc, reader, "entries")?;
    if are_ascending(entries.as_slice()) {
        Ok(entries)
    } else {
        Err(ReadFault::Other)
    }
}

/// Takes the counts that stand first, entries and the form after them.
fn take_listed(
    alloc: Global,
    reader: &mut Reader<'_>,
) -> Result<(u32, u32, DataModel, Seq<Listed>), ReadFault>
    ensures took { (cells edges : ℕ) (m : AModel) (entries : List AListed) (rest : List Piece)
        → cells < 2 ^ 32 → edges < 2 ^ 32 → EntriesFit IsLow entries
        → reader.old ≡ piece.begin_object ∷ piece.key (codes "cells") ∷ onto (number_data cells)
        (piece.key (codes "edges") ∷ onto (number_data edges)
        (piece.key (codes "entries") ∷ onto (list_data listed_data entries)
        (piece.key (codes "form") ∷ onto (number_data (form_of m)) rest)))
        → Took (cells, edges, m, entries) rest result reader.new }
    ensures fit { IfOk result (λ p. (p.0 < 2 ^ 32) × (p.1 < 2 ^ 32) × EntriesFit IsLow p.3) }
{
    let (cells, edges) = take_counts(alloc, reader)?;
    let entries = take_entries(alloc, reader)?;
    let model = take_form(alloc, reader)?;
    Ok((cells, edges, model, entries))
}

/// Takes a report that the program is safe.
fn take_true(alloc: Global, reader: &mut Reader<'_>) -> Result<Report, ReadFault>
    ensures took { TakesReport verdict.True reader.old reader.new result }
    ensures fit { IfOk result (ReportFitsBy IsLow) }
    ensures verdict { IfOk result (λ r. verdict_of r.body ≡ verdict.True) }
{
    let (cells, edges, model, entries) = take_listed(alloc, reader)?;
    let (points, text) = take_end(alloc, reader, model)?;
    Ok(Report {
        text,
        points,
        cells,
        edges,
        model,
        body: Body::True { entries },
    })
}

/// Takes a report that the program is not safe.
fn take_false(alloc: Global, reader: &mut Reader<'_>) -> Result<Report, ReadFault>
    ensures took { TakesReport verdict.False reader.old reader.new result }
    ensures fit { IfOk result (ReportFitsBy IsLow) }
    ensures verdict { IfOk result (λ r. verdict_of r.body ≡ verdict.False) }
{
    let (cells, edges, model) = take_head(alloc, reader)?;
    let inputs = take_member(alloc, reader, "inputs")?;
    let points = take_points(alloc, reader, model)?;
    let (steps, text) = take_stepped(alloc, reader)?;
    Ok(Report {
        text,
        points,
        cells,
        edges,
        model,
        body: Body::False { inputs, steps },
    })
}

/// Takes a report that the turns of a round were spent.
fn take_turns(alloc: Global, reader: &mut Reader<'_>) -> Result<Report, ReadFault>
    ensures took { TakesReport verdict.Turns reader.old reader.new result }
    ensures fit { IfOk result (ReportFitsBy IsLow) }
    ensures verdict { IfOk result (λ r. verdict_of r.body ≡ verdict.Turns) }
{
    let (cells, edges, model) = take_head(alloc, reader)?;
    let journal = take_member(alloc, reader, "journal")?;
    let (points, text) = take_end(alloc, reader, model)?;
    Ok(Report {
        text,
        points,
        cells,
        edges,
        model,
        body: Body::Turns { journal },
    })
}

/// Takes a report that the rounds were spent.
fn take_rounds(alloc: Global, reader: &mut Reader<'_>) -> Result<Report, ReadFault>
    ensures took { TakesReport verdict.Rounds reader.old reader.new result }
    ensures fit { IfOk result (ReportFitsBy IsLow) }
    ensures verdict { IfOk result (λ r. verdict_of r.body ≡ verdict.Rounds) }
{
    let (cells, edges, model) = take_head(alloc, reader)?;
    let history = take_member(alloc, reader, "history")?;
    let path = take_path(alloc, reader, model)?;
    let (points, text) = take_tail(alloc, reader)?;
    Ok(Report {
        text,
        points,
        cells,
        edges,
        model,
        body: Body::Rounds { path, history },
    })
}

/// Takes a report that a search learnt as many clauses as it may.
fn take_learnt(alloc: Global, reader: &mut Reader<'_>) -> Result<Report, ReadFault>
    ensures took { TakesReport verdict.Learnt reader.old reader.new result }
    ensures fit { IfOk result (ReportFitsBy IsLow) }
    ensures verdict { IfOk result (λ r. verdict_of r.body ≡ verdict.Learnt) }
{
    let (cells, edges, model) = take_head(alloc, reader)?;
    let lines = take_member(alloc, reader, "lines")?;
    let path = take_path(alloc, reader, model)?;
    let (points, text) = take_tail(alloc, reader)?;
    Ok(Report {
        text,
        points,
        cells,
        edges,
        model,
        body: Body::Learnt { path, lines },
    })
}

/// Takes a report that a path weighs more than a query may.
fn take_gates(alloc: Global, reader: &mut Reader<'_>) -> Result<Report, ReadFault>
    ensures took { TakesReport verdict.Gates reader.old reader.new result }
    ensures fit { IfOk result (ReportFitsBy IsLow) }
    ensures verdict { IfOk result (λ r. verdict_of r.body ≡ verdict.Gates) }
{
    let (cells, edges, model) = take_head(alloc, reader)?;
    let path = take_path(alloc, reader, model)?;
    let points = take_member(alloc, reader, "points")?;
    let (text, weight) = take_weighed(alloc, reader)?;
    Ok(Report {
        text,
        points,
        cells,
        edges,
        model,
        body: Body::Gates { path, weight },
    })
}

/// Takes a report that a path gave nothing new to keep.
fn take_no_new(alloc: Global, reader: &mut Reader<'_>) -> Result<Report, ReadFault>
    ensures took { TakesReport verdict.NoNew reader.old reader.new result }
    ensures fit { IfOk result (ReportFitsBy IsLow) }
    ensures verdict { IfOk result (λ r. verdict_of r.body ≡ verdict.NoNew) }
{
    let (cells, edges, model) = take_head(alloc, reader)?;
    let path = take_path(alloc, reader, model)?;
    let points = take_member(alloc, reader, "points")?;
    let (precisions, text) = take_refined(alloc, reader)?;
    Ok(Report {
        text,
        points,
        cells,
        edges,
        model,
        body: Body::NoNew { path, precisions },
    })
}

/// Takes a report with the refutations of its obligations.
fn take_proof(alloc: Global, reader: &mut Reader<'_>) -> Result<Report, ReadFault>
    ensures took { TakesReport verdict.Proof reader.old reader.new result }
    ensures fit { IfOk result (ReportFitsBy IsLow) }
    ensures verdict { IfOk result (λ r. verdict_of r.body ≡ verdict.Proof) }
{
    let (cells, edges, model, entries) = take_listed(alloc, reader)?;
    let logs = take_member(alloc, reader, "logs")?;
    let (points, text) = take_end(alloc, reader, model)?;
    Ok(Report {
        text,
        points,
        cells,
        edges,
        model,
        body: Body::Proof { entries, logs },
    })
}

/// Takes the report of this verdict.
pub fn take_report(
    alloc: Global,
    reader: &mut Reader<'_>,
    verdict: Verdict,
) -> Result<Report, ReadFault>
    ensures took { (r : AReport) (rest : List Piece) → ReportFitsBy IsLow r
        → verdict_of r.body ≡ verdict → reader.old ≡ onto (report_data r) rest
        → Took r rest result reader.new }
    ensures fit { IfOk result (ReportFitsBy IsLow) }
    ensures verdict { IfOk result (λ r. verdict_of r.body ≡ verdict) }
{
    match verdict {
        Verdict::True => take_true(alloc, reader),
        Verdict::False => take_false(alloc, reader),
        Verdict::Turns => take_turns(alloc, reader),
        Verdict::Rounds => take_rounds(alloc, reader),
        Verdict::Learnt => take_learnt(alloc, reader),
        Verdict::Gates => take_gates(alloc, reader),
        Verdict::NoNew => take_no_new(alloc, reader),
        Verdict::Proof => take_proof(alloc, reader),
    }
}

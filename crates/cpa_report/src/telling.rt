//! The report whose text a text is. A reader promises completeness alone, so what was read is
//! printed and compared. Proved with `proofs/Plainness.antt`.
ghost use Rattle.std.specs.Prelude.{◌≡◌, ◌↔◌, ◌++◌, IsTrue, IfOk, IfSome, Some, IsUtf8};
ghost use Rattle.cpa_report.specs.Faults.{IsTold};
ghost use Rattle.cpa_report_json.specs.Fits.{IsLow, ReportFitsBy};
ghost use Rattle.cpa_report_print.specs.Reports.{report_data, report_text, verdict_of};
ghost use Rattle.cpa_report_print.specs.Reports.{verdict_words, with_feed};
ghost use Rattle.cpa_report_print.specs.declared.report.Report.{Report as AReport};
ghost use Rattle.serde_json.specs.Written.{compact_text};

use cpa_report_json::{ReadFault, take_report};
use cpa_report_print::{Report, Verdict, print_within};
use json::{Reader, Scratch};
use std::alloc::{AllocError, Global};
use std::str;

/// The report whose line it is, if it is one of the verdict; else any report of it, or none.
fn guessed(alloc: Global, line: &str, verdict: Verdict) -> Result<Option<Report>, AllocError>
    ensures read { IfOk result (λ found. (r : AReport) → ReportFitsBy IsLow r
        → verdict_of r.body ≡ verdict → line.now ≡ compact_text (report_data r)
        → found ≡ Some r) }
    ensures fit { IfOk result (λ found. IfSome found (ReportFitsBy IsLow)) }
    ensures verdict { IfOk result (λ found. IfSome found (λ r. verdict_of r.body ≡ verdict)) }
{
    let mut scratch = Scratch::new(alloc);
    let mut reader = Reader::new(line, &mut scratch)?;
    match take_report(alloc, &mut reader, verdict) {
        Ok(report) => Ok(Some(report)),
        Err(ReadFault::Other) => Ok(None),
        Err(ReadFault::OutOfMemory) => Err(AllocError),
    }
}

/// Whether it is the text of the report.
fn is_text(alloc: Global, text: &[u8], report: &Report) -> Result<bool, AllocError>
    ensures { IfOk result (λ b. IsTrue b ↔ (text.now ≡ report_text report.now)) }
{
    let spelled = print_within(alloc, report, text.len())?;
    Ok(spelled.as_slice() == text)
}

/// The report of the verdict whose text it is and whose expressions are low, if there is one. The
/// text's second line is given.
pub(crate) fn told(
    alloc: Global,
    text: &[u8],
    line: &[u8],
    verdict: Verdict,
) -> Result<Option<Report>, AllocError>
    requires { text.now ≡ with_feed (verdict_words verdict) ++ with_feed line.now }
    ensures found { IfOk result (λ found. IfSome found (IsTold text.now verdict)) }
    ensures low { IfOk result (λ found. IfSome found (ReportFitsBy IsLow)) }
    ensures every { IsUtf8 line.now → IfOk result (λ found. (r : AReport)
        → IsTold text.now verdict r → ReportFitsBy IsLow r → found ≡ Some r) }
    ensures utf8 { IfOk result (λ found. IfSome found (λ r. IsUtf8 line.now)) }
{
    let Ok(line) = str::from_utf8(line) else {
        return Ok(None);
    };
    let Some(report) = guessed(alloc, line, verdict)? else {
        return Ok(None);
    };
    if is_text(alloc, text, &report)? {
        Ok(Some(report))
    } else {
        Ok(None)
    }
}

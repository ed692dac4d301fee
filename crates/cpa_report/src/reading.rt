//! A report from its text, or the first rule that the text breaks.
ghost use Rattle.std.specs.Prelude.{◌≡◌, ◌↔◌, IsTrue, IfOk, IfErr, MatchOption, List, ℕ, IsUtf8};
ghost use Rattle.cpa_ints.specs.declared.data_model.DataModel.TheVariants.{Lp64};
ghost use Rattle.cpa_report.specs.Faults.{IsLined, IsJson, IsTold, IsFound, Breaks, IsRefused};
ghost use Rattle.cpa_report.specs.Heights.{HasNoLow, IsLineLike};
ghost use Rattle.cpa_report.specs.declared.fault.ReportError.TheVariants.{OutOfMemory};
ghost use Rattle.cpa_report.specs.declared.fault.ReportRule.TheVariants as rule;
ghost use Rattle.cpa_report_print.specs.declared.report.Report.{Report as AReport};
ghost use Rattle.cpa_report_print.specs.declared.report.Verdict.{Verdict as AVerdict};

use crate::fault::{ReportError, ReportRule};
use crate::lowering::told_high;
use crate::ranges::{has_counts, is_body_in};
use crate::telling::told;
use cpa_expr_text::a_text_is_of_one_expression;
use cpa_ints::DataModel;
use cpa_model::Cfa;
use cpa_report_print::{Report, Verdict};
use serde_json::Value;
use std::alloc::{AllocError, Global};

/// The end of a line.
const FEED: u8 = b'\n';

/// Every verdict.
const VERDICTS: [Verdict; 8] = [
    Verdict::True,
    Verdict::False,
    Verdict::Turns,
    Verdict::Rounds,
    Verdict::Learnt,
    Verdict::Gates,
    Verdict::NoNew,
    Verdict::Proof,
];

/// The line behind that of the verdict, where the text is these two.
fn line_behind(text: &[u8], verdict: Verdict) -> Option<&[u8]>
    ensures { MatchOption result ((line : List ℕ) → IsLined text.now verdict line → ⊥)
        (λ line. IsLined text.now verdict line.now) }
{
    let behind = text.strip_prefix(verdict.words().as_bytes())?;
    let line = behind.strip_prefix(b"\n")?.strip_suffix(b"\n")?;
    if line.contains(&FEED) {
        None
    } else {
        Some(line)
    }
}

/// Whether the text is the line of some verdict and one line more.
fn has_verdict(text: &[u8]) -> bool
    ensures yes { IsTrue result → (verdict : AVerdict) × (line : List ℕ)
        × IsLined text.now verdict line }
    ensures no { (verdict : AVerdict) (line : List ℕ) → IsLined text.now verdict line
        → IsTrue result }
{
    for verdict in VERDICTS {
        if line_behind(text, verdict).is_some() {
            return true;
        }
    }
    false
}

/// Whether the line is JSON that `serde_json` reads.
fn is_json(alloc: Global, line: &[u8]) -> Result<bool, AllocError>
    ensures { IfOk result (λ is. IsTrue is ↔ IsJson line.now) }
{
    match Value::from_slice(alloc, line) {
        Ok(_) => Ok(true),
        Err(error) if error.is_memory() => Err(AllocError),
        Err(_) => Ok(false),
    }
}

/// The rule that a text breaks whose line is that of a report with the counts of this one, and with
/// an expression that is too high.
fn high_rule(low: &Report, cfa: &Cfa, model: DataModel) -> ReportRule
    ensures { (text line : List ℕ) (take : AVerdict) → IsLined text take line
        → HasNoLow text take line → IsUtf8 line → IsLineLike line take low.now
        → Breaks model text cfa.now take result }
{
    if has_counts(low, cfa, model) {
        ReportRule::P4
    } else {
        ReportRule::P5
    }
}

/// The rule that a text with this line breaks, where it is that of no report with low expressions.
fn unread_rule(
    alloc: Global,
    line: &[u8],
    cfa: &Cfa,
    take: Verdict,
    model: DataModel,
) -> Result<ReportRule, AllocError>
    ensures { (text : List ℕ) → IsLined text take line.now → HasNoLow text take line.now
        → IfOk result (Breaks model text cfa.now take) }
{
    if let Some(low) = told_high(alloc, line, take)? {
        return Ok(high_rule(&low, cfa, model));
    }
    if is_json(alloc, line)? {
        Ok(ReportRule::P3)
    } else {
        Ok(ReportRule::P2)
    }
}

/// The report of the verdict whose text it is, which speaks of the program as it was read in this
/// data model: no other report has this text. Else the first rule that the text breaks.
///
/// Time is linear in the text's length but for sorted clauses. Where the text is no report's with
/// low expressions, its second line is read again with such ones in place of all; where it is no
/// report's at all, a value of `serde_json` is made of it.
pub fn read_in(
    alloc: Global,
    text: &[u8],
    cfa: &Cfa,
    take: Verdict,
    model: DataModel,
) -> Result<Report, ReportError>
    ensures found { IfOk result (IsFound model text.now cfa.now take) }
    ensures one { IfOk result (λ r. (s : AReport) → IsTold text.now take s → s ≡ r) }
    ensures refused { IfErr result (IsRefused model text.now cfa.now take) }
    ensures back { (r : AReport) → IsFound model text.now cfa.now take r
        → IfErr result (λ e. e ≡ OutOfMemory) }
{
    a_text_is_of_one_expression();
    let Some(line) = line_behind(text, take) else {
        let rule = if has_verdict(text) {
            ReportRule::P6
        } else {
            ReportRule::P1
        };
        return Err(ReportError::Fault(rule));
    };
    let Some(report) = told(alloc, text, line, take)? else {
        let rule = unread_rule(alloc, line, cfa, take, model)?;
        return Err(ReportError::Fault(rule));
    };
    if !has_counts(&report, cfa, model) {
        return Err(ReportError::Fault(ReportRule::P5));
    }
    if !is_body_in(&report.body, cfa) {
        return Err(ReportError::Fault(ReportRule::P4));
    }
    Ok(report)
}

/// The same of a program that was read where `long` has 64 bits.
pub fn read(alloc: Global, text: &[u8], cfa: &Cfa, take: Verdict) -> Result<Report, ReportError>
    ensures found { IfOk result (IsFound Lp64 text.now cfa.now take) }
    ensures one { IfOk result (λ r. (s : AReport) → IsTold text.now take s → s ≡ r) }
    ensures refused { IfErr result (IsRefused Lp64 text.now cfa.now take) }
    ensures back { (r : AReport) → IsFound Lp64 text.now cfa.now take r
        → IfErr result (λ e. e ≡ OutOfMemory) }
{
    read_in(alloc, text, cfa, take, DataModel::Lp64)
}

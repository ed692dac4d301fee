//! Lines of reports with expressions of any height: a line in which `told` finds no report is read
//! again with a low expression in place of each, so that nothing goes down as far as a text says.
//! Proved with `proofs/Heights.antt`.
ghost use Rattle.std.specs.Prelude.{◌≡◌, ◌≢◌, ◌↔◌, ◌++◌, IsTrue, IfOk, IfSome, None, IsUtf8};
ghost use Rattle.json.specs.Lex.{tokens};
ghost use Rattle.json.specs.Print.{print, IsPrintable};
ghost use Rattle.json.specs.Reads.{token_of};
ghost use Rattle.cpa_report.specs.Heights.{Lowers, LowersToken, AreGood, IsLowered, IsLineOf};
ghost use Rattle.cpa_report.specs.Heights.{IsLineLike};
ghost use Rattle.cpa_report_print.specs.Reports.{verdict_words, with_feed};
ghost use Rattle.cpa_report_print.specs.declared.report.Report.{Report as AReport};

use crate::telling::told;
use cpa_expr_text::is_expr_text;
use cpa_report_print::{Report, Verdict};
use json::{Reader, Scratch, Token, Writer};
use std::alloc::{AllocError, Global};
use std::str;

/// The text of an expression of one level.
const LOW: &str = "const i32 0";

/// The text of a low expression where this is that of any, else the text itself.
fn low_text<'a>(alloc: Global, text: &'a str) -> Result<&'a str, AllocError>
    ensures { IfOk result (λ low. Lowers text.now low.now) }
{
    if is_expr_text(alloc, text)? {
        Ok(LOW)
    } else {
        Ok(text)
    }
}

/// The token, with the text of a low expression in place of that of any.
fn low_token<'a>(alloc: Global, token: Token<'a>) -> Result<Token<'a>, AllocError>
    ensures low { IfOk result (λ t. LowersToken (token_of token.entry) (token_of t)) }
    ensures printable { IsPrintable (token_of token.entry)
        → IfOk result (λ t. IsPrintable (token_of t)) }
{
    match token {
        Token::String(text) => Ok(Token::String(low_text(alloc, text)?)),
        Token::BeginObject
        | Token::EndObject
        | Token::BeginArray
        | Token::EndArray
        | Token::Key(_)
        | Token::Number(_)
        | Token::Bool(_)
        | Token::Null
        | Token::Bad => Ok(token),
    }
}

/// Whether the bytes are the line's.
fn is_spelled(bytes: &[u8], line: &str) -> bool
    ensures { IsTrue result ↔ (bytes.now ≡ line.now) }
{
    bytes == line.as_bytes()
}

/// The line with low expressions, where the line is spelled as its tokens are printed.
fn lowered(alloc: Global, line: &str) -> Result<Option<Vec<u8>>, AllocError>
    ensures low { IfOk result (λ found. IfSome found (λ low. IsLowered line.now low.items)) }
    ensures every { AreGood (tokens line.now) → line.now ≡ print (tokens line.now)
        → IfOk result (λ found. found ≢ None) }
{
    let mut scratch = Scratch::new(alloc);
    let mut reader = Reader::new(line, &mut scratch)?;
    let mut same = Writer::new(Vec::with_capacity(alloc, line.len())?);
    let mut low = Writer::new(Vec::new(alloc));
    'tokens: while let Some(token) = reader.next() {
        if matches!(token, Token::Bad) {
            return Ok(None);
        }
        same.token(token)?;
        low.token(low_token(alloc, token)?)?;
    }
    let spelled = same.into_inner();
    if is_spelled(spelled.as_slice(), line) {
        Ok(Some(low.into_inner()))
    } else {
        Ok(None)
    }
}

/// The text with the line of the verdict in front of this one.
fn text_of(alloc: Global, verdict: Verdict, line: &[u8]) -> Result<Vec<u8>, AllocError>
    ensures { IfOk result (λ text. text.items
        ≡ with_feed (verdict_words verdict) ++ with_feed line.now) }
{
    let mut text = Vec::new(alloc);
    text.extend_from_slice(verdict.words().as_bytes())?;
    text.push(b'\n')?;
    text.extend_from_slice(line)?;
    text.push(b'\n')?;
    Ok(text)
}

/// A report with low expressions in place of those of the report whose line it is, if there is one.
pub(crate) fn told_high(
    alloc: Global,
    line: &[u8],
    verdict: Verdict,
) -> Result<Option<Report>, AllocError>
    ensures like { IfOk result (λ found. IfSome found (IsLineLike line.now verdict)) }
    ensures every { (r : AReport) → IsUtf8 line.now → IsLineOf line.now verdict r
        → IfOk result (λ found. found ≢ None) }
    ensures utf8 { IfOk result (λ found. IfSome found (λ r. IsUtf8 line.now)) }
{
    let Ok(line) = str::from_utf8(line) else {
        return Ok(None);
    };
    let Some(low) = lowered(alloc, line)? else {
        return Ok(None);
    };
    let bytes = low.as_slice();
    let text = text_of(alloc, verdict, bytes)?;
    let report = told(alloc, text.as_slice(), bytes, verdict)?;
    Ok(report)
}

//! The text of a measurement: `bench_text` of `specs/Texts.antt`.
ghost use Rattle.std.specs.Prelude.{◌≡◌, ◌≤◌, ◌++◌, length, IfOk, OnOk};
ghost use Rattle.std.specs.String.{string_bytes};
ghost use Rattle.c_lexer.specs.declared.lexer.TheConstants.{MAX_TEXT};
ghost use Rattle.cpa_top_words.specs.declared.job.TheConstants.{MAX_BENCH};
ghost use Rattle.cpa_top_bench.specs.Texts.{bench_text, lines_of, numbered};

use std::alloc::{AllocError, Global};

/// What a function has behind its number: it gives what it takes and 4 more.
const FUNCTION: &str = "(int a){int s=a;for(int i=0;i<4;i=i+1){t[i]=s;s=s+1;}return s;}\n";

/// Adds a line with a number in it.
fn push_numbered(text: &mut String, front: &str, k: u32, back: &str) -> Result<(), AllocError>
    ensures { OnOk result (string_bytes text.new
        ≡ string_bytes text.old ++ numbered front.now back.now k) }
{
    text.push_str(front)?;
    write!(text, "{k}")?;
    text.push_str(back)
}

/// Adds such a line for each number below this one.
#[tactic(auto, using(crate::proofs::Lines::one_more))]
fn push_lines(text: &mut String, front: &str, back: &str, count: u32) -> Result<(), AllocError>
    ensures { OnOk result (string_bytes text.new
        ≡ string_bytes text.old ++ lines_of (numbered front.now back.now) count) }
{
    for k in 0..count {
        push_numbered(text, front, k, back)?;
    }
    Ok(())
}

/// The text of so many functions.
fn text_of(alloc: Global, functions: u32) -> Result<String, AllocError>
    requires { functions ≤ MAX_BENCH }
    ensures { IfOk result (λ text. string_bytes text ≡ bench_text functions) }
{
    let mut text = String::from_str(alloc, "int t[8];\n")?;
    push_lines(&mut text, "int f", FUNCTION, functions)?;
    text.push_str("int main(void){int x=0;\n")?;
    push_lines(&mut text, "x=f", "(x);\n", functions)?;
    push_numbered(&mut text, "if(x!=", 4 * functions, ")reach_error();\n")?;
    text.push_str("return 0;}\n")?;
    Ok(text)
}

/// The C text that is verified to measure a run: so many functions with a loop each, and a `main`
/// that calls each of them once and tests their sum.
pub fn bench_text(alloc: Global, functions: u32) -> Result<Vec<u8>, AllocError>
    requires { functions ≤ MAX_BENCH }
    ensures text { IfOk result (λ text. text.items ≡ bench_text functions) }
    ensures short { IfOk result (λ text. length text.items ≤ MAX_TEXT) }
{
    let text = text_of(alloc, functions)?;
    Ok(text.into_bytes())
}

//! How the faults of a text are shown:
//! the words of `Display` of faults, which no clause gives.

use c_lexer::{Rule, TextError, TextFault};
use std::test::Fail;

/// A fault with its rule and its place, and want of memory.
#[test]
fn errors_are_shown(rt: HostRuntime) -> Result<(), Fail> {
    let fault = TextError::Fault(TextFault {
        rule: Rule::L3,
        place: 22,
    });
    let shown = format!(in rt.alloc(); "{fault}")?;
    assert_eq!(rt; shown.as_str(), "rule L3 is broken at byte 22");
    let shown = format!(in rt.alloc(); "{}", TextError::OutOfMemory)?;
    assert_eq!(rt; shown.as_str(), "out of memory");
    Ok(())
}

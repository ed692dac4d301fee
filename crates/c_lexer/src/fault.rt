//! The rules that a text can break, and the fault that names one. What each rule of tokens refuses
//! is `Fails` of `specs/Faults.antt`.
ghost use Rattle.std.specs.Prelude.{◌≡◌};
ghost use Rattle.c_lexer.specs.Rules.{rule_number};
ghost use Rattle.c_lexer.specs.declared.fault.TextError.TheVariants.{OutOfMemory};

use std::alloc::{AllocError, AllocFailed};
use thiserror::Error;

/// The rules that a text can break: of tokens (L), of the grammar (S), of names and types (N). They
/// have the order in which they stand here: at one place the first is the one that is named.
#[derive(Clone, Copy, Debug, PartialEq, Eq, PartialOrd, Ord)]
pub enum Rule {
    /// No token begins here, or a number or a character constant is malformed.
    L1,
    /// A comment, a string literal or a character constant is not finished.
    L2,
    /// A constant is beyond the types of its list, or an escape above 255.
    L3,
    /// A directive that is no line marker, `#line` or `#pragma`.
    L4,
    /// No tree of the grammar goes on with this token.
    S1,
    /// A part is nested too deeply.
    S2,
    /// A word of C that the grammar leaves out.
    S3,
    /// A name is used where it is not declared.
    N1,
    /// A name is declared twice in one scope.
    N2,
    /// What is called is no function's name, or a function's name stands as a value.
    N3,
    /// A call has another number of arguments than the function has parameters.
    N4,
    /// An array without an index, an index on a scalar, or a void expression or object where a
    /// value or a scalar is needed.
    N5,
    /// `goto` names no label of its function.
    N6,
    /// A label stands twice in a function.
    N7,
    /// `continue` outside a loop, or `break` outside loops and switches.
    N8,
    /// `goto` into the scope of an object from outside it.
    N9,
    /// A call leads back to the function in which it stands.
    N10,
    /// There is no `main` without parameters that returns `int` and has a body.
    N11,
    /// A file-scope initializer, an array's length, an enumerator's or a `case`'s value is no
    /// constant, or they do not fit the array or the type.
    N12,
    /// The program is larger than its bounds on cells, points or the height of an expression.
    N13,
    /// A function without a body is called, and it is none of the known ones.
    N14,
    /// What is assigned to is no scalar object or array element, or is `const`.
    N15,
    /// `return` with a value in a void function, or without one in another.
    N16,
    /// `case` or `default` outside a `switch`.
    N17,
    /// A `switch` has two cases of one converted value, or two defaults.
    N18,
    /// With the checks of what is asked of it, the program is larger than the bounds of `N13`.
    N19,
}

impl Rule {
    /// How many rules come before this one.
    pub fn number(self) -> u8
        ensures { result ≡ rule_number self }
    {
        self as u8
    }
}

/// The rule that a text breaks, and the place of the byte at which it does.
#[derive(Clone, Copy, Debug, PartialEq, Eq)]
pub struct TextFault {
    pub rule: Rule,
    pub place: u32,
}

/// Why a text was not read.
#[derive(Clone, Copy, Debug, PartialEq, Eq, Error)]
pub enum TextError {
    /// The text breaks a rule.
    #[error("rule {:?} is broken at byte {}", .0.rule, .0.place)]
    Fault(TextFault),
    /// Memory ran out. This says nothing of the text.
    #[error("out of memory")]
    OutOfMemory,
}

impl From<AllocError> for TextError {
    ghost from_gives = { λ _ error. error ≡ OutOfMemory };

    fn from(_error: AllocError) -> TextError {
        TextError::OutOfMemory
    }
}

impl<T: Drop> From<AllocFailed<T>> for TextError {
    ghost from_gives = { λ _ error. error ≡ OutOfMemory };

    fn from(_failed: AllocFailed<T>) -> TextError {
        TextError::OutOfMemory
    }
}

//! The tokens of C (C11 6.4) in a text that the preprocessor has left, or its first fault:
//! `Tokens` of `specs/Parts.antt`, `HasFault` of `specs/Faults.antt`. Proved in `proofs/`.
#![tactic(auto)]

mod byte;
mod character;
mod fault;
mod gap;
mod integer;
mod laws;
mod lexer;
mod mark;
mod piece;
mod quote;
mod token;

pub use byte::{
    ALERT, BACKSLASH, BACKSPACE, CARRIAGE_RETURN, DOUBLE_QUOTE, FORM_FEED, FULL_STOP, LINE_FEED,
    NUMBER_SIGN, QUESTION_MARK, SINGLE_QUOTE, SLASH, SPACE, STAR, TAB, TILDE, UNDERSCORE,
    VERTICAL_TAB, ZERO,
};
pub use fault::{Rule, TextError, TextFault};
pub use laws::{
    constants_lie_in_range, escapes_are_control_characters, limits, one_token_list,
    rules_are_ordered_by_number, tokens_are_spelled, tokens_end_once, tokens_lie_in_order,
    tokens_or_one_fault,
};
pub use lexer::{MAX_TEXT, tokens, tokens_in};
pub use token::{Token, TokenKind};

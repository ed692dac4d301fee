//! Integer constants: their base, suffix, digits and type. What they mean stands in
//! `specs/Numbers.antt`; `proofs/Constants.antt` shows that this reads each of them and no others.
ghost use Rattle.std.specs.Prelude.{◌≡◌, ◌+◌, ◌*◌, ◌≤◌, ◌<◌, ◌^◌, length, MatchOption, option_map};
ghost use Rattle.std.specs.Prelude.{find, int_le, pos};
ghost use Rattle.std.specs.Str.Parse.{digits_value};
ghost use Rattle.cpa_ints.specs.Integers.{greatest};
ghost use Rattle.c_lexer.specs.Numbers.{radix, type_of};
ghost use Rattle.c_lexer.specs.Steps.Pieces.{base_from, rank_from, suffix_from};
ghost use Rattle.c_lexer.specs.Steps.ReadingConstants.{base_of, front_of, digit_run, is_u, rank_of};
ghost use Rattle.c_lexer.specs.Steps.ReadingConstants.{with_rank, suffix_of, typed, suffixed};
ghost use Rattle.c_lexer.specs.Steps.ReadingConstants.{number_in, number_of};

use crate::byte::digit_value;
use crate::{Rule, TokenKind};
use cpa_ints::{DataModel, IntType};

/// The base in which a constant is written.
#[derive(Clone, Copy, PartialEq, Eq)]
pub(crate) enum Base {
    Decimal,
    Octal,
    Hexadecimal,
}

/// The least of `int`, `long` and `long long` that a constant can have.
#[derive(Clone, Copy, PartialEq, Eq)]
pub(crate) enum Rank {
    Int,
    Long,
    LongLong,
}

/// What the letters behind a constant say.
#[derive(Clone, Copy, PartialEq, Eq)]
pub(crate) struct Suffix {
    pub(crate) unsigned: bool,
    pub(crate) rank: Rank,
}

/// The number of digits of a base.
fn radix(base: Base) -> u8
    ensures value { result ≡ radix (base_from base) }
    ensures most { result ≤ 16 }
    ensures some { 2 ≤ result }
{
    match base {
        Base::Decimal => 10,
        Base::Octal => 8,
        Base::Hexadecimal => 16,
    }
}

/// The base that a constant's first bytes name.
fn base_of(run: &[u8]) -> Base
    ensures { base_from result ≡ base_of run.now }
{
    match run {
        [b'0', b'x' | b'X', ..] => Base::Hexadecimal,
        [b'0', ..] => Base::Octal,
        _ => Base::Decimal,
    }
}

/// The rank that these letters name.
fn rank_of(letters: &[u8]) -> Option<Rank>
    ensures { option_map rank_from result ≡ rank_of letters.now }
{
    match letters {
        [] => Some(Rank::Int),
        [b'l' | b'L'] => Some(Rank::Long),
        [b'l', b'l'] | [b'L', b'L'] => Some(Rank::LongLong),
        _ => None,
    }
}

/// The first of the types that holds the number.
fn first_holding(types: &[IntType], number: u64) -> Option<IntType>
    ensures { result ≡ find (λ t. int_le (pos number) (greatest t)) types.now }
{
    types
        .iter()
        .copied()
        .find(|ty| number as i128 <= ty.greatest())
}

/// The first of the types of its list that holds the number.
fn type_of(model: DataModel, suffix: Suffix, base: Base, number: u64) -> Option<IntType>
    ensures { result ≡ type_of model (suffix_from suffix) (base_from base) number }
{
    let long = model.long();
    let unsigned_long = model.unsigned_long();
    match (suffix.rank, suffix.unsigned, base) {
        (Rank::Int, false, Base::Decimal) => {
            first_holding(&[IntType::I32, long, IntType::I64], number)
        }
        (Rank::Int, false, _) => first_holding(
            &[
                IntType::I32,
                IntType::U32,
                long,
                unsigned_long,
                IntType::I64,
                IntType::U64,
            ],
            number,
        ),
        (Rank::Int, true, _) => {
            first_holding(&[IntType::U32, unsigned_long, IntType::U64], number)
        }
        (Rank::Long, false, Base::Decimal) => first_holding(&[long, IntType::I64], number),
        (Rank::Long, false, _) => {
            first_holding(&[long, unsigned_long, IntType::I64, IntType::U64], number)
        }
        (Rank::Long, true, _) => first_holding(&[unsigned_long, IntType::U64], number),
        (Rank::LongLong, false, Base::Decimal) => first_holding(&[IntType::I64], number),
        (Rank::LongLong, false, _) => first_holding(&[IntType::I64, IntType::U64], number),
        (Rank::LongLong, true, _) => first_holding(&[IntType::U64], number),
    }
}

/// The number with one more digit, where it is below 2^64.
fn pushed(number: u64, radix: u8, digit: u8) -> Option<u64>
    ensures { MatchOption result (2 ^ 64 ≤ number * radix + digit)
        (λ more. more ≡ number * radix + digit) }
{
    let shifted = number.checked_mul(radix as u64)?;
    shifted.checked_add(digit as u64)
}

/// The number that the digits write, where it is below 2^64.
pub(crate) fn value_of(digits: &[u8], radix: u8) -> Option<u64>
    requires { 0 < radix }
    ensures { MatchOption result (2 ^ 64 ≤ digits_value radix digits.now)
        (λ number. number ≡ digits_value radix digits.now) }
{
    let mut number: u64 = 0;
    for byte in digits {
        number = pushed(number, radix, digit_value(*byte))?;
    }
    Some(number)
}

/// Whether a byte is u or U.
fn is_u(byte: u8) -> bool
    ensures { result ≡ is_u byte }
{
    byte == b'u' || byte == b'U'
}

/// The suffix of this rank, where there is a rank.
fn with_rank(unsigned: bool, rank: Option<Rank>) -> Option<Suffix>
    ensures { option_map suffix_from result ≡ with_rank unsigned (option_map rank_from rank) }
{
    let rank = rank?;
    Some(Suffix { unsigned, rank })
}

/// The suffix that the letters are.
fn suffix_of(letters: &[u8]) -> Option<Suffix>
    ensures { option_map suffix_from result ≡ suffix_of letters.now }
{
    match letters {
        [first, rest @ ..] if is_u(*first) => with_rank(true, rank_of(rest)),
        [rest @ .., last] if is_u(*last) => with_rank(true, rank_of(rest)),
        _ => with_rank(false, rank_of(letters)),
    }
}

/// How many digits of the base stand at the front.
fn digit_run(base: Base, text: &[u8]) -> usize
    ensures value { result ≡ digit_run (base_from base) text.now }
    ensures within { result ≤ length text.now }
{
    text.iter()
        .take_while(|byte| digit_value(**byte) < radix(base))
        .count()
}

/// How many bytes stand before the digits.
fn front_of(base: Base) -> usize
    ensures { result ≡ front_of (base_from base) }
{
    if base == Base::Hexadecimal { 2 } else { 0 }
}

/// The number, with a type that holds it.
fn typed(ty: Option<IntType>, number: u64) -> Result<TokenKind, Rule>
    ensures { result ≡ typed ty number }
{
    match ty {
        Some(ty) => Ok(TokenKind::Number {
            ty,
            value: number as i128,
        }),
        None => Err(Rule::L3),
    }
}

/// The number with this suffix, where there is one.
fn suffixed(
    model: DataModel,
    suffix: Option<Suffix>,
    base: Base,
    digits: &[u8],
) -> Result<TokenKind, Rule>
    ensures { result ≡ suffixed model (option_map suffix_from suffix) (base_from base)
        (digits_value (radix (base_from base)) digits.now) }
{
    let Some(suffix) = suffix else {
        return Err(Rule::L1);
    };
    let Some(number) = value_of(digits, radix(base)) else {
        return Err(Rule::L3);
    };
    typed(type_of(model, suffix, base, number), number)
}

/// The constant of this base whose digits begin the text.
fn number_in(model: DataModel, base: Base, text: &[u8]) -> Result<TokenKind, Rule>
    ensures { result ≡ number_in model (base_from base) text.now }
{
    let run = digit_run(base, text);
    if run == 0 {
        return Err(Rule::L1);
    }
    suffixed(model, suffix_of(&text[run..]), base, &text[..run])
}

/// The integer constant that the run is.
pub(crate) fn number_of(model: DataModel, run: &[u8]) -> Result<TokenKind, Rule>
    ensures { result ≡ number_of model run.now }
{
    let base = base_of(run);
    number_in(model, base, &run[front_of(base)..])
}

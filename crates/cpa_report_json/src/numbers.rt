//! Numbers without a sign, read from their tokens. Other texts of a number are taken too, as `01`:
//! who wants the one text alone prints and compares.
ghost use Rattle.std.specs.Prelude.{◌≡◌, ◌^◌, ◌<◌, ℕ, Ok, IfOk, decimal};
ghost use Rattle.cpa_report_print.specs.Reports.{number_data};

use crate::fault::ReadFault;
use crate::lists::FromJson;
use crate::steps::take_number;
use json::Reader;
use std::alloc::Global;

/// The number of 32 bits that is written so.
fn small(text: &str) -> Result<u32, ReadFault>
    ensures read { (n : ℕ) → n < 2 ^ 32 → text.now ≡ decimal n → result ≡ Ok n }
    ensures fit { IfOk result (λ n. n < 2 ^ 32) }
{
    match text.parse::<u32>() {
        Ok(number) => Ok(number),
        Err(_) => Err(ReadFault::Other),
    }
}

/// The number of 64 bits that is written so.
fn large(text: &str) -> Result<u64, ReadFault>
    ensures read { (n : ℕ) → n < 2 ^ 64 → text.now ≡ decimal n → result ≡ Ok n }
    ensures fit { IfOk result (λ n. n < 2 ^ 64) }
{
    match text.parse::<u64>() {
        Ok(number) => Ok(number),
        Err(_) => Err(ReadFault::Other),
    }
}

impl FromJson for u32 {
    ghost json = { number_data };

    ghost fits = { λ n. n < 2 ^ 32 };

    /// Takes a number of 32 bits.
    fn take(_alloc: Global, reader: &mut Reader<'_>) -> Result<u32, ReadFault> {
        let text = take_number(reader)?;
        small(text)
    }
}

impl FromJson for u64 {
    ghost json = { number_data };

    ghost fits = { λ n. n < 2 ^ 64 };

    /// Takes a number of 64 bits.
    fn take(_alloc: Global, reader: &mut Reader<'_>) -> Result<u64, ReadFault> {
        let text = take_number(reader)?;
        large(text)
    }
}

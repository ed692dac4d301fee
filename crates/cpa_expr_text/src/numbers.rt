//! Numbers, read back from their decimal texts. More texts are taken, as `+1` and `01`: who wants
//! the one text alone compares.
ghost use Rattle.std.specs.Prelude.{◌≡◌, ◌^◌, ◌<◌, ℕ, ℤ, Some, IfSome, decimal, FitsSigned};
ghost use Rattle.std.specs.Int.{w128};
ghost use Rattle.std.specs.Fmt.{signed_decimal};

/// The number of 32 bits that is written so.
pub fn small(text: &str) -> Option<u32>
    ensures read { (n : ℕ) → n < 2 ^ 32 → text.now ≡ decimal n → result ≡ Some n }
    ensures fit { IfSome result (λ n. n < 2 ^ 32) }
{
    match text.parse::<u32>() {
        Ok(number) => Some(number),
        Err(_) => None,
    }
}

/// The number of 64 bits that is written so.
pub fn large(text: &str) -> Option<u64>
    ensures read { (n : ℕ) → n < 2 ^ 64 → text.now ≡ decimal n → result ≡ Some n }
    ensures fit { IfSome result (λ n. n < 2 ^ 64) }
{
    match text.parse::<u64>() {
        Ok(number) => Some(number),
        Err(_) => None,
    }
}

/// The number of 128 bits with its sign that is written so.
pub fn integer(text: &str) -> Option<i128>
    ensures read { (z : ℤ) → FitsSigned w128 z → text.now ≡ signed_decimal z → result ≡ Some z }
    ensures fit { IfSome result (FitsSigned w128) }
{
    match text.parse::<i128>() {
        Ok(number) => Some(number),
        Err(_) => None,
    }
}

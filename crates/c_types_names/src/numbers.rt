//! A number for each of some names, found by hash: `number_of` of `specs/Found.antt`. What a change
//! leaves at each name is proved in `proofs/Numbering`.

ghost use Rattle.std.specs.Prelude.{◌≡◌, List, ℕ, Some, None, cond, IsSome, IfOk, OnOk, OnErr};
ghost use Rattle.std.specs.Str.{bytes_eq};
ghost use Rattle.c_types_rules.specs.Names.{or_else};
ghost use Rattle.c_types_names.specs.Found.{number_of};

use std::alloc::{AllocError, Global};
use std::collections::HashMap;

/// Numbers by name.
pub(crate) type Numbers = HashMap<Vec<u8>, u32>;

/// The number of a name, if it has one.
pub(crate) fn number_of(numbers: &Numbers, name: &[u8]) -> Option<u32>
    ensures { result ≡ number_of numbers.now name.now }
{
    numbers.get(name).copied()
}

/// Gives a name a number, in the place of the one that it has, which is told: one search serves
/// both.
pub(crate) fn set(
    alloc: Global,
    numbers: &mut Numbers,
    name: &[u8],
    number: u32,
) -> Result<Option<u32>, AllocError>
    ensures earlier { IfOk result (λ earlier. earlier ≡ number_of numbers.old name.now) }
    ensures set { (q : List ℕ) → OnOk result (number_of numbers.new q
        ≡ cond (bytes_eq name.now q) (Some number) (number_of numbers.old q)) }
    ensures kept { (q : List ℕ) → OnErr result (number_of numbers.new q
        ≡ number_of numbers.old q) }
{
    let key = name.to_vec(alloc)?;
    let earlier = numbers.insert(key, number)?;
    Ok(earlier)
}

/// Gives a name a number, unless it has one.
pub(crate) fn set_first(
    alloc: Global,
    numbers: &mut Numbers,
    name: &[u8],
    number: u32,
) -> Result<(), AllocError>
    ensures set { (q : List ℕ) → OnOk result (number_of numbers.new q
        ≡ or_else (number_of numbers.old q) (cond (bytes_eq name.now q) (Some number) None)) }
    ensures kept { (q : List ℕ) → OnErr result (number_of numbers.new q
        ≡ number_of numbers.old q) }
{
    if numbers.contains_key(name) {
        return Ok(());
    }
    set(alloc, numbers, name, number)?;
    Ok(())
}

/// Gives a name that has a number another one, or takes it away. It takes no memory.
pub(crate) fn put_back(numbers: &mut Numbers, name: &[u8], earlier: Option<u32>)
    requires { IsSome (number_of numbers.old name.now) }
    ensures { (q : List ℕ) → number_of numbers.new q
        ≡ cond (bytes_eq name.now q) earlier (number_of numbers.old q) }
{
    match earlier {
        None => {
            numbers.remove(name);
        }
        Some(number) => {
            if let Some(held) = numbers.get_mut(name) {
                *held = number;
            }
        }
    }
}

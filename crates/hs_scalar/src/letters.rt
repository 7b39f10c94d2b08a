// The case of letters, and texts one after the other.
ghost use Rattle.std.specs.Prelude.{◌≡◌, ◌++◌, IfOk, IfErr};
ghost use Rattle.hs_scalar.specs.Letters.{upper_of, lower_of};
ghost use Rattle.hs_values.specs.declared.fault.EvalFault.TheVariants.{NoMemory};

use hs_values::{Chars, EvalFault};
use std::alloc::Global;

/// The text with each of the letters `a` to `z` as its capital, and every other character as it is:
/// UPPER of SQL, for the letters of ASCII alone. The only fault is want of memory.
#[tactic(auto, using(crate::proofs::LetterLemmas::uppercase_bytes))]
pub fn upper(alloc: Global, text: &str) -> Result<Chars, EvalFault>
    ensures value { IfOk result (λ changed. changed ≡ upper_of text.now) }
    ensures fault { IfErr result (λ fault. fault ≡ NoMemory) }
{
    Ok(Chars::from_string(text.to_ascii_uppercase(alloc)?))
}

/// The text with each of the capitals `A` to `Z` as its small letter, and every other character as
/// it is: LOWER of SQL, for the letters of ASCII alone. The only fault is want of memory.
#[tactic(auto, using(crate::proofs::LetterLemmas::lowercase_bytes))]
pub fn lower(alloc: Global, text: &str) -> Result<Chars, EvalFault>
    ensures value { IfOk result (λ changed. changed ≡ lower_of text.now) }
    ensures fault { IfErr result (λ fault. fault ≡ NoMemory) }
{
    Ok(Chars::from_string(text.to_ascii_lowercase(alloc)?))
}

/// The first text and then the second: `||` of SQL. The only fault is want of memory.
pub fn concat(alloc: Global, a: &str, b: &str) -> Result<Chars, EvalFault>
    ensures value { IfOk result (λ both. both ≡ a.now ++ b.now) }
    ensures fault { IfErr result (λ fault. fault ≡ NoMemory) }
{
    let mut both = String::with_capacity(alloc, a.len() + b.len())?;
    both.push_str(a)?;
    both.push_str(b)?;
    Ok(Chars::from_string(both))
}

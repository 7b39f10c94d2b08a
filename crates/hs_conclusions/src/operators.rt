// Operators and predicates over bound operands.
ghost use Rattle.std.specs.Prelude.{◌≡◌, OnErr};
ghost use Rattle.std.specs.Option.{option_map};
ghost use Rattle.hs_conclusions.specs.Bound.{bound};
ghost use Rattle.hs_meaning.specs.Parts.{by_one, by_three, by_two};
ghost use Rattle.hs_meaning.specs.Finding.{Finds};
ghost use Rattle.hs_typed.specs.Rules.{between_typed, binary_typed, like_typed, unary_typed};

use hs_base::NoMemory;
use hs_plan::{BinaryOperator, Unary};
use hs_typed::{Faults, Typed, bind_between, bind_binary, bind_like, bind_unary};
use std::alloc::Global;

/// What takes one operand, at byte `at`. None where the operand isn't known, and where it is of a kind that isn't taken,
/// which is noted as a fault of types. An `Err` is want of memory, and then nothing is noted.
pub fn unary(
    at: u32,
    operator: Unary,
    a: Option<Typed>,
    faults: &mut Faults,
    alloc: Global,
) -> Result<Option<Typed>, NoMemory>
    ensures found { Finds (by_one (unary_typed operator) at (bound a)) faults.old faults.new result }
    ensures err { OnErr result (faults.new ≡ faults.old) }
{
    match a {
        Some(a) => Ok(faults.judge(at, bind_unary(operator, a, alloc))?),
        None => Ok(None),
    }
}

/// OR, AND, a comparison, a sum, a product or `||`, at byte `at`. None where an operand isn't known, and where they aren't of
/// kinds that go together, which is noted as a fault of types. An `Err` is want of memory, and then nothing is noted.
pub fn binary(
    at: u32,
    operator: BinaryOperator,
    a: Option<Typed>,
    b: Option<Typed>,
    faults: &mut Faults,
    alloc: Global,
) -> Result<Option<Typed>, NoMemory>
    ensures found { Finds (by_two (binary_typed operator) at (bound a) (bound b)) faults.old faults.new result }
    ensures err { OnErr result (faults.new ≡ faults.old) }
{
    let Some(a) = a else {
        return Ok(None);
    };
    let Some(b) = b else {
        return Ok(None);
    };
    Ok(faults.judge(at, bind_binary(operator, a, b, alloc))?)
}

/// BETWEEN at byte `at`. None where an operand isn't known, and where the first can't be compared with both others, which is
/// noted as a fault of types. An `Err` is want of memory, and then nothing is noted.
pub fn between(
    at: u32,
    negated: bool,
    a: Option<Typed>,
    low: Option<Typed>,
    high: Option<Typed>,
    faults: &mut Faults,
    alloc: Global,
) -> Result<Option<Typed>, NoMemory>
    ensures found { Finds (by_three (between_typed negated) at (bound a) (bound low) (bound high)) faults.old faults.new result }
    ensures err { OnErr result (faults.new ≡ faults.old) }
{
    let Some(a) = a else {
        return Ok(None);
    };
    let Some(low) = low else {
        return Ok(None);
    };
    let Some(high) = high else {
        return Ok(None);
    };
    let whole = bind_between(negated, a, low, high, alloc);
    Ok(faults.judge(at, whole)?)
}

/// LIKE at byte `at`, with what is written behind ESCAPE. None where an operand isn't known, and where one is no text or the
/// escape hasn't just one character, which is noted as a fault of types. An `Err` is want of memory, and then nothing is noted.
pub fn like(
    at: u32,
    negated: bool,
    a: Option<Typed>,
    pattern: Option<Typed>,
    escape: Option<&str>,
    faults: &mut Faults,
    alloc: Global,
) -> Result<Option<Typed>, NoMemory>
    ensures found { Finds (by_two (λ x p. like_typed negated x p (option_map (λ text. text.now) escape.entry)) at (bound a) (bound pattern)) faults.old faults.new result }
    ensures err { OnErr result (faults.new ≡ faults.old) }
{
    let Some(a) = a else {
        return Ok(None);
    };
    let Some(pattern) = pattern else {
        return Ok(None);
    };
    let whole = bind_like(negated, a, pattern, escape, alloc);
    Ok(faults.judge(at, whole)?)
}

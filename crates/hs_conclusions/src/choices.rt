// What takes a list of bound parts: IN, CASE and functions.
ghost use Rattle.std.specs.Prelude.{◌≡◌, OnErr};
ghost use Rattle.std.specs.Option.{option_map};
ghost use Rattle.hs_conclusions.specs.Bound.{bound};
ghost use Rattle.hs_meaning.specs.Parts.{by_one, by_two};
ghost use Rattle.hs_meaning.specs.Finding.{Finds};
ghost use Rattle.hs_typed.specs.Rules.{call_typed, case_typed, in_list_typed};

use hs_ast::Function;
use hs_base::NoMemory;
use hs_typed::{Faults, Typed, TypedArm, bind_call, bind_case, bind_in_list};
use std::alloc::Global;

/// IN with a list, at byte `at`. None where the operand or a value of the list isn't known, and where the operand can't be
/// compared with each, which is noted as a fault of types. An `Err` is want of memory, and then nothing is noted.
pub fn in_list(
    at: u32,
    negated: bool,
    a: Option<Typed>,
    list: Option<Vec<Typed>>,
    faults: &mut Faults,
    alloc: Global,
) -> Result<Option<Typed>, NoMemory>
    ensures found { Finds (by_two (in_list_typed negated) at (bound a) (bound (option_map (λ l. l.items) list))) faults.old faults.new result }
    ensures err { OnErr result (faults.new ≡ faults.old) }
{
    let Some(a) = a else {
        return Ok(None);
    };
    let Some(list) = list else {
        return Ok(None);
    };
    Ok(faults.judge(at, bind_in_list(negated, a, list, alloc))?)
}

/// CASE at byte `at`. None where an arm or what stands behind ELSE isn't known, and where a test is no condition or the values
/// aren't all of one kind, which is noted as a fault of types. An `Err` is want of memory, and then nothing is noted.
pub fn case(
    at: u32,
    arms: Option<Vec<TypedArm>>,
    otherwise: Option<Option<Typed>>,
    faults: &mut Faults,
    alloc: Global,
) -> Result<Option<Typed>, NoMemory>
    ensures found { Finds (by_two case_typed at (bound (option_map (λ l. l.items) arms)) (bound otherwise)) faults.old faults.new result }
    ensures err { OnErr result (faults.new ≡ faults.old) }
{
    let Some(arms) = arms else {
        return Ok(None);
    };
    let Some(otherwise) = otherwise else {
        return Ok(None);
    };
    Ok(faults.judge(at, bind_case(arms, otherwise, alloc))?)
}

/// COALESCE, NULLIF, ABS, MOD, UPPER, LOWER or CHAR_LENGTH at byte `at`. None where an operand isn't known, and where their number
/// or kinds aren't those that it takes, which is noted as a fault of types. An `Err` is want of memory, and then nothing is noted.
pub fn call(
    at: u32,
    function: Function,
    operands: Option<Vec<Typed>>,
    faults: &mut Faults,
    alloc: Global,
) -> Result<Option<Typed>, NoMemory>
    ensures found { Finds (by_one (call_typed function) at (bound (option_map (λ l. l.items) operands))) faults.old faults.new result }
    ensures err { OnErr result (faults.new ≡ faults.old) }
{
    match operands {
        Some(operands) => Ok(faults.judge(at, bind_call(function, operands, alloc))?),
        None => Ok(None),
    }
}

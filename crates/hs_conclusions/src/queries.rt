// Bound queries in expressions.
ghost use Rattle.std.specs.Prelude.{◌≡◌, [], IfOk, OnErr};
ghost use Rattle.std.specs.Option.{option_map};
ghost use Rattle.hs_meaning.specs.Parts.{judged, of_three, of_two};
ghost use Rattle.hs_meaning.specs.Finding.{Finds};
ghost use Rattle.hs_typed.specs.Rules.{exists_typed, in_query_typed, subquery_typed};

use hs_base::NoMemory;
use hs_plan::{Kind, Query};
use hs_typed::{Faults, Typed, bind_exists, bind_in_query, bind_subquery};
use sqlite_items::Items;
use std::alloc::Global;

/// EXISTS. None where the query breaks a rule. An `Err` is want of memory.
pub fn exists(plan: Option<Query>, alloc: Global) -> Result<Option<Typed>, NoMemory>
    ensures { IfOk result (λ part. part ≡ option_map exists_typed plan) }
{
    match plan {
        Some(plan) => Ok(Some(bind_exists(plan, alloc)?)),
        None => Ok(None),
    }
}

/// A query at byte `at` that stands for the value of its one row, with the kinds of its columns. None where the query or one of
/// them isn't known, and where it hasn't just one column, which is noted as a fault of number. An `Err` is want of memory,
/// and then nothing is noted.
pub fn subquery(
    at: u32,
    plan: Option<Query>,
    kinds: Option<Items<Kind>>,
    faults: &mut Faults,
    alloc: Global,
) -> Result<Option<Typed>, NoMemory>
    ensures found { Finds (judged at [] (of_two subquery_typed plan kinds)) faults.old faults.new result }
    ensures err { OnErr result (faults.new ≡ faults.old) }
{
    let Some(plan) = plan else {
        return Ok(None);
    };
    let Some(kinds) = kinds else {
        return Ok(None);
    };
    let whole = bind_subquery(plan, kinds.as_slice(), alloc);
    Ok(faults.judge(at, whole)?)
}

/// IN with a query, at byte `at`, with the kinds of its columns. None where the operand, the query or one of the kinds isn't known;
/// where the query hasn't just one column, which is noted as a fault of number; and where the operand can't be compared with
/// that, which is noted as a fault of types. An `Err` is want of memory, and then nothing is noted.
pub fn in_query(
    at: u32,
    negated: bool,
    a: Option<Typed>,
    plan: Option<Query>,
    kinds: Option<Items<Kind>>,
    faults: &mut Faults,
    alloc: Global,
) -> Result<Option<Typed>, NoMemory>
    ensures found { Finds (judged at [] (of_three (in_query_typed negated) a plan kinds)) faults.old faults.new result }
    ensures err { OnErr result (faults.new ≡ faults.old) }
{
    let Some(a) = a else {
        return Ok(None);
    };
    let Some(plan) = plan else {
        return Ok(None);
    };
    let Some(kinds) = kinds else {
        return Ok(None);
    };
    let whole = bind_in_query(negated, a, plan, kinds.as_slice(), alloc);
    Ok(faults.judge(at, whole)?)
}

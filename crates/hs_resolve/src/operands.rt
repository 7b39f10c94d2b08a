// Operands, and queries in the place of operands.
ghost use Rattle.std.specs.Prelude.{◌≡◌, [], Some};
ghost use Rattle.std.specs.Option.{option_map};
ghost use Rattle.hs_meaning.specs.Expressions as spec;
ghost use Rattle.hs_meaning.specs.Expressions.{kinds_of};
ghost use Rattle.hs_meaning.specs.Parts.{judged, of_three, of_two};
ghost use Rattle.hs_meaning.specs.Finding.{Finds};
ghost use Rattle.hs_typed.specs.Rules.{in_query_typed, subquery_typed};

use hs_ast::Word;
use hs_base::NoMemory;
use hs_columns::{BoundQuery, kinds_of};
use hs_conclusions as conclusions;
use hs_plan::{Sign, Unary};
use hs_typed::{Faults, Typed};
use sqlite_items::Items;
use std::alloc::Global;

/// An operand that need not be written, but is.
pub(crate) fn written(part: Option<Typed>) -> Option<Option<Typed>>
    ensures { result ≡ option_map (λ a. Some a) part }
{
    match part {
        Some(part) => Some(Some(part)),
        None => None,
    }
}

/// The sign of a number.
pub(crate) fn signed(sign: Sign) -> Unary
    ensures { result ≡ spec.signed sign }
{
    match sign {
        Sign::Plus => Unary::Plus,
        Sign::Minus => Unary::Minus,
    }
}

/// IS NULL, or IS NOT NULL.
pub(crate) fn null_test(negated: bool) -> Unary
    ensures { result ≡ spec.null_test negated }
{
    if negated {
        Unary::IsNotNull
    } else {
        Unary::IsNull
    }
}

/// What stands behind ESCAPE.
pub(crate) fn escaped(escape: &Option<Word>) -> Option<&str>
    ensures { option_map (λ text. text.now) result ≡ escape.now }
{
    match escape {
        Some(text) => Some(text.as_str()),
        None => None,
    }
}

/// Places lent as a slice.
pub(crate) fn lent(places: &Option<Items<u32>>) -> Option<&[u32]>
    ensures { option_map (λ c. c.now) result ≡ places.now }
{
    match places {
        Some(places) => Some(places.as_slice()),
        None => None,
    }
}

/// A bound query at byte `at` that stands for the value of its one row. None where it or a kind of its columns isn't known, and
/// where it hasn't just one column, which is noted. An `Err` is want of memory.
pub(crate) fn subquery(
    at: u32,
    query: BoundQuery,
    faults: &mut Faults,
    alloc: Global,
) -> Result<Option<Typed>, NoMemory>
    ensures { Finds (judged at [] (of_two subquery_typed query.plan (kinds_of query.columns.items))) faults.old faults.new result }
{
    let kinds = kinds_of(&query.columns, alloc)?;
    conclusions::subquery(at, query.plan, kinds, faults, alloc)
}

/// IN with a bound query, at byte `at`. None where the operand, the query or a kind of its columns isn't known, where it hasn't
/// just one column, and where the operand can't be compared with that. The last two are noted. An `Err` is want of memory.
pub(crate) fn in_query(
    at: u32,
    negated: bool,
    a: Option<Typed>,
    query: BoundQuery,
    faults: &mut Faults,
    alloc: Global,
) -> Result<Option<Typed>, NoMemory>
    ensures { Finds (judged at [] (of_three (in_query_typed negated) a query.plan (kinds_of query.columns.items))) faults.old faults.new result }
{
    let kinds = kinds_of(&query.columns, alloc)?;
    conclusions::in_query(at, negated, a, query.plan, kinds, faults, alloc)
}

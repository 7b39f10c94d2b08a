// Queries in expressions.
ghost use Rattle.std.specs.Prelude.{◌≡◌, IfOk};
ghost use Rattle.hs_typed.specs.Rules as spec;
ghost use Rattle.hs_typed.specs.Rules.{Gives};

use crate::typed::{RuleFault, Typed};
use hs_plan::{Expr, Kind, Query, are_comparable};
use sqlite_items::Boxed;
use std::alloc::{AllocError, Global};

/// The kind of the only column of a query.
fn only_kind(kinds: &[Kind]) -> Result<Kind, RuleFault>
    ensures { result ≡ spec.only_kind kinds.now }
{
    match kinds {
        [kind] => Ok(*kind),
        _ => Err(RuleFault::Count),
    }
}

/// EXISTS. An `Err` is want of memory.
pub fn bind_exists(query: Query, alloc: Global) -> Result<Typed, AllocError>
    ensures { IfOk result (λ a. a ≡ spec.exists_typed query) }
{
    Ok(Typed {
        tree: Expr::Exists(Boxed::new(alloc, query)?),
        kind: Kind::Boolean,
    })
}

/// A query that stands for the value of its one row, with the kinds of its columns. `Count` where it hasn't just one
/// column.
pub fn bind_subquery(query: Query, kinds: &[Kind], alloc: Global) -> Result<Typed, RuleFault>
    ensures { Gives result (spec.subquery_typed query kinds.now) }
{
    let kind = only_kind(kinds)?;
    Ok(Typed {
        tree: Expr::Subquery(Boxed::new(alloc, query)?),
        kind,
    })
}

/// IN with a query, with the kinds of its columns. `Count` where it hasn't just one column, `Types` where the operand
/// can't be compared with that.
pub fn bind_in_query(
    negated: bool,
    a: Typed,
    query: Query,
    kinds: &[Kind],
    alloc: Global,
) -> Result<Typed, RuleFault>
    ensures { Gives result (spec.in_query_typed negated a query kinds.now) }
{
    let kind = only_kind(kinds)?;
    let a = a.beside(kind);
    if !are_comparable(a.kind, kind) {
        return Err(RuleFault::Types);
    }
    let operand = Boxed::new(alloc, a.tree)?;
    Ok(Typed {
        tree: Expr::InQuery {
            operand,
            negated,
            query: Boxed::new(alloc, query)?,
        },
        kind: Kind::Boolean,
    })
}

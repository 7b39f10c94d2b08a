// Queries that read the rows of one table through WHERE alone.
ghost use Rattle.std.specs.Prelude.{◌≡◌, ◌==◌, count_by, IfSome};
ghost use Rattle.hs_plan.specs.Named.{named_in_query};
ghost use Rattle.hs_narrowed.specs.Alone.{IsChoice, IsTable, IsTableAlone, ReadsThrough};

use hs_base::{TableNo, Tables};
use hs_plan::{Expr, FromItem, Query, QueryBody, Select, Source};

/// A table, and the condition that chooses among its rows.
#[derive(Drop)]
pub(crate) struct Choice<'a> {
    pub(crate) table: TableNo,
    pub(crate) condition: &'a Expr,
}

/// The table that a query reads through WHERE alone: that of a SELECT of one table without joins, which the query names
/// nowhere else. None where it has another form. Takes no memory.
pub(crate) fn choice_of<'a>(query: &'a Query, named: &Tables) -> Option<Choice<'a>>
    requires { named.now ≡ named_in_query query.now }
    ensures { IfSome result (λ choice. ReadsThrough query.now choice.table choice.condition.now) }
{
    let QueryBody::Select(select) = &query.body else {
        return None;
    };
    let choice = choice_in(select.get())?;
    if is_named_once(named.as_slice(), choice.table) {
        Some(choice)
    } else {
        None
    }
}

fn choice_in(select: &Select) -> Option<Choice<'_>>
    ensures { IfSome result (λ choice. IsChoice select.now choice.table choice.condition.now) }
{
    let table = table_alone(select.from.as_slice())?;
    match &select.filter {
        Some(condition) => Some(Choice {
            table,
            condition: condition.get(),
        }),
        None => None,
    }
}

fn table_alone(from: &[FromItem]) -> Option<TableNo>
    ensures { IfSome result (IsTableAlone from.now) }
{
    match from {
        [element] if element.joins.is_empty() => table_of(&element.source),
        _ => None,
    }
}

fn table_of(source: &Source) -> Option<TableNo>
    ensures { IfSome result (IsTable source.now) }
{
    match source {
        Source::Table { table, .. } => Some(*table),
        Source::Derived { .. } => None,
    }
}

fn is_named_once(named: &[TableNo], table: TableNo) -> bool
    ensures { result ≡ (count_by (λ one. one.0 == table.0) named.now == 1) }
{
    named.iter().filter(|one| one.0 == table.0).count() == 1
}

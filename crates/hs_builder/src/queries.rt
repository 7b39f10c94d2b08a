// The steps that build queries.
ghost use Rattle.std.specs.Prelude.{◌≡◌, ◌∷◌, MatchResult};
ghost use Rattle.hs_builder.specs.Steps.{Gives};
ghost use Rattle.hs_builder.specs.declared.build_fault.BuildFault.TheVariants.{NoMemory};
ghost use Rattle.hs_builder.specs.Queries as spec;

use crate::build_fault::BuildFault;
use crate::depth::{deeper, deepest};
use crate::expressions::pop_query;
use crate::natural::wide_natural;
use crate::part::{
    Built, BuiltBody, BuiltFrom, BuiltList, BuiltOptional, BuiltQuery, BuiltRows, BuiltSelect,
    BuiltTable, PlacedNumber,
};
use crate::stack::Stack;
use hs_ast::{
    Expression, FromItem, Identifier, Join, Limit, QueryBody, Select, SelectItem, SetOperator,
    SortKey, TableReference, ValuesRow,
};
use hs_lexer::Token;
use sqlite_items::{Boxed, Items};
use std::alloc::Global;

pub fn begin_select(
    alloc: Global,
    places: &mut Stack<u32>,
    flags: &mut Stack<bool>,
    selects: &mut Stack<BuiltSelect>,
) -> Result<(), BuildFault>
    ensures { Gives (spec.begin_select (places.old, flags.old, selects.old)) result (places.new, flags.new, selects.new) }
{
    let distinct = flags.pop()?;
    let at = places.pop()?;
    selects.push(BuiltSelect {
        distinct,
        items: Items::new(alloc),
        from: Items::new(alloc),
        group_by: Items::new(alloc),
        depth: 0,
        at,
    })
}

pub fn every(token: Token, selects: &mut Stack<BuiltSelect>) -> Result<(), BuildFault>
    ensures { Gives (spec.every token selects.old) result selects.new }
{
    let mut select = selects.pop()?;
    select.items.push(SelectItem::Every(token.start))?;
    selects.push(select)
}

pub fn item(
    aliases: &mut Stack<Option<Identifier>>,
    expressions: &mut Stack<Built>,
    selects: &mut Stack<BuiltSelect>,
) -> Result<(), BuildFault>
    ensures { Gives (spec.item (aliases.old, expressions.old, selects.old)) result (aliases.new, expressions.new, selects.new) }
{
    let alias = aliases.pop()?;
    let e = expressions.pop()?;
    let mut select = selects.pop()?;
    select.depth = deepest(select.depth, e.depth);
    select.items.push(SelectItem::One {
        at: e.start,
        value: e.tree.into_inner(),
        alias,
    })?;
    selects.push(select)
}

pub fn named_table(
    names: &mut Stack<Identifier>,
    aliases: &mut Stack<Option<Identifier>>,
    tables: &mut Stack<BuiltTable>,
) -> Result<(), BuildFault>
    ensures { Gives (spec.named_table (names.old, aliases.old, tables.old)) result (names.new, aliases.new, tables.new) }
{
    let alias = aliases.pop()?;
    let name = names.pop()?;
    tables.push(BuiltTable {
        table: TableReference::Named { name, alias },
        depth: 0,
    })
}

pub fn derived_table(
    alloc: Global,
    names: &mut Stack<Identifier>,
    queries: &mut Stack<BuiltQuery>,
    tables: &mut Stack<BuiltTable>,
) -> Result<(), BuildFault>
    ensures { Gives (spec.derived_table (names.old, queries.old, tables.old)) result (names.new, queries.new, tables.new) }
{
    let (query, depth) = pop_query(alloc, queries)?;
    let alias = names.pop()?;
    tables.push(BuiltTable {
        table: TableReference::Derived { query, alias },
        depth,
    })
}

pub fn begin_from(
    alloc: Global,
    tables: &mut Stack<BuiltTable>,
    froms: &mut Stack<BuiltFrom>,
) -> Result<(), BuildFault>
    ensures { Gives (spec.begin_from (tables.old, froms.old)) result (tables.new, froms.new) }
{
    let table = tables.pop()?;
    froms.push(BuiltFrom {
        table: table.table,
        joins: Items::new(alloc),
        depth: table.depth,
    })
}

fn join_of(outer: bool, table: TableReference, on: Expression) -> Join
    ensures { result ≡ spec.join_of outer table on }
{
    if outer {
        Join::Left(table, on)
    } else {
        Join::Inner(table, on)
    }
}

/// A join with ON, which keeps all rows of the left side where it is an outer one.
pub fn join_on(
    expressions: &mut Stack<Built>,
    tables: &mut Stack<BuiltTable>,
    froms: &mut Stack<BuiltFrom>,
    outer: bool,
) -> Result<(), BuildFault>
    ensures { Gives (spec.join_on outer (expressions.old, tables.old, froms.old)) result (expressions.new, tables.new, froms.new) }
{
    let on = expressions.pop()?;
    let table = tables.pop()?;
    let mut from = froms.pop()?;
    from.depth = deepest(from.depth, deepest(table.depth, on.depth));
    let join = join_of(outer, table.table, on.tree.into_inner());
    from.joins.push(join)?;
    froms.push(from)
}

pub fn cross_join(
    tables: &mut Stack<BuiltTable>,
    froms: &mut Stack<BuiltFrom>,
) -> Result<(), BuildFault>
    ensures { Gives (spec.cross_join (tables.old, froms.old)) result (tables.new, froms.new) }
{
    let table = tables.pop()?;
    let mut from = froms.pop()?;
    from.depth = deepest(from.depth, table.depth);
    from.joins.push(Join::Cross(table.table))?;
    froms.push(from)
}

pub fn add_from(
    froms: &mut Stack<BuiltFrom>,
    selects: &mut Stack<BuiltSelect>,
) -> Result<(), BuildFault>
    ensures { Gives (spec.add_from (froms.old, selects.old)) result (froms.new, selects.new) }
{
    let from = froms.pop()?;
    let mut select = selects.pop()?;
    select.depth = deepest(select.depth, from.depth);
    select.from.push(FromItem {
        table: from.table,
        joins: from.joins,
    })?;
    selects.push(select)
}

pub fn group(
    expressions: &mut Stack<Built>,
    selects: &mut Stack<BuiltSelect>,
) -> Result<(), BuildFault>
    ensures { Gives (spec.group (expressions.old, selects.old)) result (expressions.new, selects.new) }
{
    let e = expressions.pop()?;
    let mut select = selects.pop()?;
    select.depth = deepest(select.depth, e.depth);
    select.group_by.push(e.tree.into_inner())?;
    selects.push(select)
}

pub fn select_body(
    alloc: Global,
    optional: &mut Stack<BuiltOptional>,
    selects: &mut Stack<BuiltSelect>,
    bodies: &mut Stack<BuiltBody>,
) -> Result<(), BuildFault>
    ensures { Gives (spec.select_body (optional.old, selects.old, bodies.old)) result (optional.new, selects.new, bodies.new) }
{
    let having = optional.pop()?;
    let filter = optional.pop()?;
    let select = selects.pop()?;
    let depth = deepest(select.depth, deepest(filter.depth, having.depth));
    let tree = Boxed::new(
        alloc,
        Select {
            distinct: select.distinct,
            items: select.items,
            from: select.from,
            filter: filter.tree,
            group_by: select.group_by,
            having: having.tree,
        },
    )?;
    put_body(alloc, bodies, QueryBody::Select(tree), depth, select.at)
}

/// Puts a body without parentheses on the stack.
pub fn put_body(
    alloc: Global,
    bodies: &mut Stack<BuiltBody>,
    tree: QueryBody,
    depth: u32,
    at: u32,
) -> Result<(), BuildFault>
    ensures { MatchResult result (λ _. bodies.new ≡ spec.body_at at tree depth ∷ bodies.old) (λ e. e ≡ NoMemory) }
{
    let tree = Boxed::new(alloc, tree)?;
    bodies.push(BuiltBody {
        tree,
        depth,
        at,
        bracket: None,
    })
}

pub fn begin_values(
    alloc: Global,
    token: Token,
    rows: &mut Stack<BuiltRows>,
) -> Result<(), BuildFault>
    ensures { Gives (spec.begin_values token rows.old) result rows.new }
{
    rows.push(BuiltRows {
        rows: Items::new(alloc),
        depth: 0,
        at: token.start,
    })
}

pub fn row(lists: &mut Stack<BuiltList>, rows: &mut Stack<BuiltRows>) -> Result<(), BuildFault>
    ensures { Gives (spec.row (lists.old, rows.old)) result (lists.new, rows.new) }
{
    let list = lists.pop()?;
    let mut all = rows.pop()?;
    all.depth = deepest(all.depth, list.depth);
    all.rows.push(ValuesRow { values: list.trees })?;
    rows.push(all)
}

pub fn values_body(
    alloc: Global,
    rows: &mut Stack<BuiltRows>,
    bodies: &mut Stack<BuiltBody>,
) -> Result<(), BuildFault>
    ensures { Gives (spec.values_body (rows.old, bodies.old)) result (rows.new, bodies.new) }
{
    let all = rows.pop()?;
    put_body(
        alloc,
        bodies,
        QueryBody::Values(all.rows),
        all.depth,
        all.at,
    )
}

pub fn bracket_body(
    places: &mut Stack<u32>,
    bodies: &mut Stack<BuiltBody>,
) -> Result<(), BuildFault>
    ensures { Gives (spec.bracket_body (places.old, bodies.old)) result (places.new, bodies.new) }
{
    let body = bodies.pop()?;
    let start = places.pop()?;
    bodies.push(BuiltBody {
        tree: body.tree,
        depth: body.depth,
        at: body.at,
        bracket: Some(body.bracket.unwrap_or(start)),
    })
}

pub fn set_operation(
    alloc: Global,
    bodies: &mut Stack<BuiltBody>,
    operator: SetOperator,
) -> Result<(), BuildFault>
    ensures { Gives (spec.set_operation operator bodies.old) result bodies.new }
{
    let right = bodies.pop()?;
    let left = bodies.pop()?;
    let depth = deeper(left.depth, right.depth)?;
    let tree = QueryBody::SetOperation(operator, left.tree, right.tree);
    put_body(alloc, bodies, tree, depth, left.at)
}

pub fn begin_query(
    alloc: Global,
    bodies: &mut Stack<BuiltBody>,
    queries: &mut Stack<BuiltQuery>,
) -> Result<(), BuildFault>
    ensures { Gives (spec.begin_query (bodies.old, queries.old)) result (bodies.new, queries.new) }
{
    let body = bodies.pop()?;
    let depth = deeper(body.depth, 0)?;
    queries.push(BuiltQuery {
        body: body.tree,
        order_by: Items::new(alloc),
        limit: None,
        depth,
        at: body.at,
    })
}

pub fn key(
    expressions: &mut Stack<Built>,
    queries: &mut Stack<BuiltQuery>,
    descending: bool,
) -> Result<(), BuildFault>
    ensures { Gives (spec.key descending (expressions.old, queries.old)) result (expressions.new, queries.new) }
{
    let e = expressions.pop()?;
    let mut query = queries.pop()?;
    let depth = deeper(e.depth, 0)?;
    query.depth = deepest(query.depth, depth);
    query.order_by.push(SortKey {
        at: e.start,
        value: e.tree.into_inner(),
        descending,
    })?;
    queries.push(query)
}

pub fn limit(
    numbers: &mut Stack<PlacedNumber>,
    queries: &mut Stack<BuiltQuery>,
) -> Result<(), BuildFault>
    ensures { Gives (spec.limit (numbers.old, queries.old)) result (numbers.new, queries.new) }
{
    let number = numbers.pop()?;
    let count = wide_natural(number.number.units)?;
    let mut query = queries.pop()?;
    query.limit = Some(Limit {
        count,
        offset: None,
    });
    queries.push(query)
}

fn with_offset(limit: Option<Limit>, offset: u128) -> Option<Limit>
    ensures { result ≡ spec.with_offset limit offset }
{
    match limit {
        Some(limit) => Some(Limit {
            count: limit.count,
            offset: Some(offset),
        }),
        None => None,
    }
}

pub fn offset(
    numbers: &mut Stack<PlacedNumber>,
    queries: &mut Stack<BuiltQuery>,
) -> Result<(), BuildFault>
    ensures { Gives (spec.offset (numbers.old, queries.old)) result (numbers.new, queries.new) }
{
    let number = numbers.pop()?;
    let count = wide_natural(number.number.units)?;
    let mut query = queries.pop()?;
    query.limit = with_offset(query.limit, count);
    queries.push(query)
}

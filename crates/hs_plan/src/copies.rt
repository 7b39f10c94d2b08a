// Copies of expressions and queries.
ghost use Rattle.std.specs.Prelude.{◌≡◌, IfOk};

use crate::expression::{CaseArm, Expr, ListItem};
use crate::query::{FromItem, Join, Key, Query, QueryBody, Select, SortKey, Source, ValuesRow};
use sqlite_items::{Boxed, Items};
use std::alloc::{AllocError, Global};

impl Expr {
    /// A copy, which equals its source.
    #[cycle(copies)]
    pub fn copy(&self, alloc: Global) -> Result<Expr, AllocError>
        ensures { IfOk result (λ copied. copied ≡ self.now) }
    {
        match self {
            Expr::Literal(value) => Ok(Expr::Literal(value.copy()?)),
            Expr::ReadText { text, reading } => Ok(Expr::ReadText {
                text: text.copy()?,
                reading: *reading,
            }),
            Expr::BadMoment { timestamp, text } => Ok(Expr::BadMoment {
                timestamp: *timestamp,
                text: text.copy()?,
            }),
            Expr::Column { outward, at } => Ok(Expr::Column {
                outward: *outward,
                at: *at,
            }),
            Expr::Unary(operator, a) => Ok(Expr::Unary(*operator, copy_boxed(a, alloc)?)),
            Expr::Binary(operator, a, b) => Ok(Expr::Binary(
                *operator,
                copy_boxed(a, alloc)?,
                copy_boxed(b, alloc)?,
            )),
            Expr::Ternary(operator, a, b, c) => Ok(Expr::Ternary(
                *operator,
                copy_boxed(a, alloc)?,
                copy_boxed(b, alloc)?,
                copy_boxed(c, alloc)?,
            )),
            Expr::InList {
                operand,
                negated,
                list,
            } => Ok(Expr::InList {
                operand: copy_boxed(operand, alloc)?,
                negated: *negated,
                list: copy_list(list.as_slice(), alloc)?,
            }),
            Expr::InQuery {
                operand,
                negated,
                query,
            } => Ok(Expr::InQuery {
                operand: copy_boxed(operand, alloc)?,
                negated: *negated,
                query: copy_boxed_query(query, alloc)?,
            }),
            Expr::Exists(query) => Ok(Expr::Exists(copy_boxed_query(query, alloc)?)),
            Expr::Subquery(query) => Ok(Expr::Subquery(copy_boxed_query(query, alloc)?)),
            Expr::Case {
                kind,
                arms,
                otherwise,
            } => Ok(Expr::Case {
                kind: *kind,
                arms: copy_arms(arms.as_slice(), alloc)?,
                otherwise: match otherwise {
                    Some(e) => Some(copy_boxed(e, alloc)?),
                    None => None,
                },
            }),
            Expr::Coalesce { kind, operands } => Ok(Expr::Coalesce {
                kind: *kind,
                operands: copy_expressions(operands.as_slice(), alloc)?,
            }),
            Expr::CountRows => Ok(Expr::CountRows),
            Expr::Aggregate {
                function,
                distinct,
                operand,
            } => Ok(Expr::Aggregate {
                function: *function,
                distinct: *distinct,
                operand: copy_boxed(operand, alloc)?,
            }),
        }
    }
}

#[cycle(copies)]
fn copy_boxed(e: &Boxed<Expr>, alloc: Global) -> Result<Boxed<Expr>, AllocError>
    ensures { IfOk result (λ copied. copied ≡ e.now) }
{
    Boxed::new(alloc, e.get().copy(alloc)?)
}

#[cycle(copies)]
fn copy_expressions(all: &[Expr], alloc: Global) -> Result<Items<Expr>, AllocError>
    ensures { IfOk result (λ copied. copied ≡ all.now) }
{
    let mut copied = Items::new(alloc);
    for e in all {
        copied.push(e.copy(alloc)?)?;
    }
    Ok(copied)
}

#[cycle(copies)]
fn copy_list(all: &[ListItem], alloc: Global) -> Result<Items<ListItem>, AllocError>
    ensures { IfOk result (λ copied. copied ≡ all.now) }
{
    let mut copied = Items::new(alloc);
    for one in all {
        copied.push(ListItem {
            reading: one.reading,
            value: one.value.copy(alloc)?,
        })?;
    }
    Ok(copied)
}

#[cycle(copies)]
fn copy_arms(arms: &[CaseArm], alloc: Global) -> Result<Items<CaseArm>, AllocError>
    ensures { IfOk result (λ copied. copied ≡ arms.now) }
{
    let mut copied = Items::new(alloc);
    for arm in arms {
        copied.push(CaseArm {
            test: arm.test.copy(alloc)?,
            value: arm.value.copy(alloc)?,
        })?;
    }
    Ok(copied)
}

impl Query {
    /// A copy, which equals its source.
    #[cycle(copies)]
    pub fn copy(&self, alloc: Global) -> Result<Query, AllocError>
        ensures { IfOk result (λ copied. copied ≡ self.now) }
    {
        Ok(Query {
            body: copy_body(&self.body, alloc)?,
            order_by: copy_keys(self.order_by.as_slice(), alloc)?,
            limit: self.limit,
        })
    }
}

#[cycle(copies)]
fn copy_boxed_query(query: &Boxed<Query>, alloc: Global) -> Result<Boxed<Query>, AllocError>
    ensures { IfOk result (λ copied. copied ≡ query.now) }
{
    Boxed::new(alloc, query.get().copy(alloc)?)
}

#[cycle(copies)]
fn copy_body(body: &QueryBody, alloc: Global) -> Result<QueryBody, AllocError>
    ensures { IfOk result (λ copied. copied ≡ body.now) }
{
    match body {
        QueryBody::Select(select) => {
            let copied = copy_select(select.get(), alloc)?;
            Ok(QueryBody::Select(Boxed::new(alloc, copied)?))
        }
        QueryBody::Values { kinds, rows } => Ok(QueryBody::Values {
            kinds: Items::from_slice(alloc, kinds.as_slice())?,
            rows: copy_rows(rows.as_slice(), alloc)?,
        }),
        QueryBody::SetOperation {
            operator,
            kinds,
            left,
            right,
        } => {
            let left = copy_body(left.get(), alloc)?;
            let right = copy_body(right.get(), alloc)?;
            Ok(QueryBody::SetOperation {
                operator: *operator,
                kinds: Items::from_slice(alloc, kinds.as_slice())?,
                left: Boxed::new(alloc, left)?,
                right: Boxed::new(alloc, right)?,
            })
        }
    }
}

#[cycle(copies)]
fn copy_rows(rows: &[ValuesRow], alloc: Global) -> Result<Items<ValuesRow>, AllocError>
    ensures { IfOk result (λ copied. copied ≡ rows.now) }
{
    let mut copied = Items::new(alloc);
    for row in rows {
        copied.push(ValuesRow {
            values: copy_expressions(row.values.as_slice(), alloc)?,
        })?;
    }
    Ok(copied)
}

#[cycle(copies)]
fn copy_select(select: &Select, alloc: Global) -> Result<Select, AllocError>
    ensures { IfOk result (λ copied. copied ≡ select.now) }
{
    Ok(Select {
        distinct: select.distinct,
        items: copy_expressions(select.items.as_slice(), alloc)?,
        from: copy_from(select.from.as_slice(), alloc)?,
        filter: match &select.filter {
            Some(e) => Some(copy_boxed(e, alloc)?),
            None => None,
        },
        grouped: select.grouped,
        group_by: copy_expressions(select.group_by.as_slice(), alloc)?,
        having: match &select.having {
            Some(e) => Some(copy_boxed(e, alloc)?),
            None => None,
        },
    })
}

#[cycle(copies)]
fn copy_from(from: &[FromItem], alloc: Global) -> Result<Items<FromItem>, AllocError>
    ensures { IfOk result (λ copied. copied ≡ from.now) }
{
    let mut copied = Items::new(alloc);
    for item in from {
        copied.push(FromItem {
            source: copy_source(&item.source, alloc)?,
            joins: copy_joins(item.joins.as_slice(), alloc)?,
        })?;
    }
    Ok(copied)
}

#[cycle(copies)]
fn copy_source(source: &Source, alloc: Global) -> Result<Source, AllocError>
    ensures { IfOk result (λ copied. copied ≡ source.now) }
{
    match source {
        Source::Table { table, width } => Ok(Source::Table {
            table: *table,
            width: *width,
        }),
        Source::Derived { query, width } => Ok(Source::Derived {
            query: copy_boxed_query(query, alloc)?,
            width: *width,
        }),
    }
}

#[cycle(copies)]
fn copy_joins(joins: &[Join], alloc: Global) -> Result<Items<Join>, AllocError>
    ensures { IfOk result (λ copied. copied ≡ joins.now) }
{
    let mut copied = Items::new(alloc);
    for join in joins {
        copied.push(copy_join(join, alloc)?)?;
    }
    Ok(copied)
}

#[cycle(copies)]
fn copy_join(join: &Join, alloc: Global) -> Result<Join, AllocError>
    ensures { IfOk result (λ copied. copied ≡ join.now) }
{
    match join {
        Join::Inner(source, on) => {
            let source = copy_source(source, alloc)?;
            Ok(Join::Inner(source, on.copy(alloc)?))
        }
        Join::Left(source, on) => {
            let source = copy_source(source, alloc)?;
            Ok(Join::Left(source, on.copy(alloc)?))
        }
        Join::Cross(source) => Ok(Join::Cross(copy_source(source, alloc)?)),
    }
}

#[cycle(copies)]
fn copy_keys(keys: &[SortKey], alloc: Global) -> Result<Items<SortKey>, AllocError>
    ensures { IfOk result (λ copied. copied ≡ keys.now) }
{
    let mut copied = Items::new(alloc);
    for key in keys {
        copied.push(SortKey {
            key: copy_key(&key.key, alloc)?,
            descending: key.descending,
        })?;
    }
    Ok(copied)
}

#[cycle(copies)]
fn copy_key(key: &Key, alloc: Global) -> Result<Key, AllocError>
    ensures { IfOk result (λ copied. copied ≡ key.now) }
{
    match key {
        Key::Output(at) => Ok(Key::Output(*at)),
        Key::Value(e) => Ok(Key::Value(e.copy(alloc)?)),
    }
}

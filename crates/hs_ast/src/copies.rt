// Copies of expressions and queries.
ghost use Rattle.std.specs.Prelude.{◌≡◌, IfOk};

use crate::expression::{CaseArm, ColumnName, Expression, ExpressionKind};
use crate::literal::Literal;
use crate::query::{
    FromItem, Join, Query, QueryBody, Select, SelectItem, SortKey, TableReference, ValuesRow,
};
use crate::word::{copy_identifier, copy_word};
use sqlite_items::{Boxed, Items};
use std::alloc::{AllocError, Global};

impl Literal {
    /// A copy, which equals its source.
    pub fn copy(&self, alloc: Global) -> Result<Literal, AllocError>
        ensures { IfOk result (λ copied. copied ≡ self.now) }
    {
        match self {
            Literal::Null => Ok(Literal::Null),
            Literal::Boolean(truth) => Ok(Literal::Boolean(*truth)),
            Literal::Number(number) => Ok(Literal::Number(*number)),
            Literal::Text(text) => Ok(Literal::Text(text.copy(alloc)?)),
            Literal::Date(text) => Ok(Literal::Date(text.copy(alloc)?)),
            Literal::Timestamp(text) => Ok(Literal::Timestamp(text.copy(alloc)?)),
        }
    }
}

impl ColumnName {
    fn copy(&self, alloc: Global) -> Result<ColumnName, AllocError>
        ensures { IfOk result (λ copied. copied ≡ self.now) }
    {
        Ok(ColumnName {
            table: copy_word(alloc, &self.table)?,
            column: self.column.copy(alloc)?,
        })
    }
}

impl Expression {
    /// A copy, which equals its source.
    #[cycle(copies)]
    pub fn copy(&self, alloc: Global) -> Result<Expression, AllocError>
        ensures { IfOk result (λ copied. copied ≡ self.now) }
    {
        Ok(Expression {
            at: self.at,
            kind: copy_kind(&self.kind, alloc)?,
        })
    }
}

#[cycle(copies)]
fn copy_boxed(e: &Boxed<Expression>, alloc: Global) -> Result<Boxed<Expression>, AllocError>
    ensures { IfOk result (λ copied. copied ≡ e.now) }
{
    Boxed::new(alloc, e.get().copy(alloc)?)
}

#[cycle(copies)]
fn copy_kind(kind: &ExpressionKind, alloc: Global) -> Result<ExpressionKind, AllocError>
    ensures { IfOk result (λ copied. copied ≡ kind.now) }
{
    match kind {
        ExpressionKind::Literal(literal) => Ok(ExpressionKind::Literal(literal.copy(alloc)?)),
        ExpressionKind::Column(name) => Ok(ExpressionKind::Column(name.copy(alloc)?)),
        ExpressionKind::Signed(sign, e) => Ok(ExpressionKind::Signed(*sign, copy_boxed(e, alloc)?)),
        ExpressionKind::Not(e) => Ok(ExpressionKind::Not(copy_boxed(e, alloc)?)),
        ExpressionKind::Binary(operator, left, right) => Ok(ExpressionKind::Binary(
            *operator,
            copy_boxed(left, alloc)?,
            copy_boxed(right, alloc)?,
        )),
        ExpressionKind::IsNull { operand, negated } => Ok(ExpressionKind::IsNull {
            operand: copy_boxed(operand, alloc)?,
            negated: *negated,
        }),
        ExpressionKind::Between {
            operand,
            negated,
            low,
            high,
        } => Ok(ExpressionKind::Between {
            operand: copy_boxed(operand, alloc)?,
            negated: *negated,
            low: copy_boxed(low, alloc)?,
            high: copy_boxed(high, alloc)?,
        }),
        ExpressionKind::InList {
            operand,
            negated,
            list,
        } => Ok(ExpressionKind::InList {
            operand: copy_boxed(operand, alloc)?,
            negated: *negated,
            list: copy_expressions(list.as_slice(), alloc)?,
        }),
        ExpressionKind::InQuery {
            operand,
            negated,
            query,
        } => Ok(ExpressionKind::InQuery {
            operand: copy_boxed(operand, alloc)?,
            negated: *negated,
            query: copy_boxed_query(query, alloc)?,
        }),
        ExpressionKind::Like {
            operand,
            negated,
            pattern,
            escape,
        } => Ok(ExpressionKind::Like {
            operand: copy_boxed(operand, alloc)?,
            negated: *negated,
            pattern: copy_boxed(pattern, alloc)?,
            escape: copy_word(alloc, escape)?,
        }),
        ExpressionKind::Exists(query) => {
            Ok(ExpressionKind::Exists(copy_boxed_query(query, alloc)?))
        }
        ExpressionKind::Subquery(query) => {
            Ok(ExpressionKind::Subquery(copy_boxed_query(query, alloc)?))
        }
        ExpressionKind::Cast(e, data_type) => {
            Ok(ExpressionKind::Cast(copy_boxed(e, alloc)?, *data_type))
        }
        ExpressionKind::Case { arms, otherwise } => Ok(ExpressionKind::Case {
            arms: copy_arms(arms.as_slice(), alloc)?,
            otherwise: match otherwise {
                Some(e) => Some(copy_boxed(e, alloc)?),
                None => None,
            },
        }),
        ExpressionKind::Call(function, arguments) => Ok(ExpressionKind::Call(
            *function,
            copy_expressions(arguments.as_slice(), alloc)?,
        )),
        ExpressionKind::Substring { text, start, count } => Ok(ExpressionKind::Substring {
            text: copy_boxed(text, alloc)?,
            start: copy_boxed(start, alloc)?,
            count: match count {
                Some(e) => Some(copy_boxed(e, alloc)?),
                None => None,
            },
        }),
        ExpressionKind::Trim {
            form,
            character,
            text,
        } => Ok(ExpressionKind::Trim {
            form: *form,
            character: match character {
                Some(e) => Some(copy_boxed(e, alloc)?),
                None => None,
            },
            text: copy_boxed(text, alloc)?,
        }),
        ExpressionKind::Extract(field, e) => {
            Ok(ExpressionKind::Extract(*field, copy_boxed(e, alloc)?))
        }
        ExpressionKind::Interval {
            operand,
            sign,
            count,
            unit,
        } => Ok(ExpressionKind::Interval {
            operand: copy_boxed(operand, alloc)?,
            sign: *sign,
            count: *count,
            unit: *unit,
        }),
        ExpressionKind::CountRows => Ok(ExpressionKind::CountRows),
        ExpressionKind::Aggregate {
            function,
            distinct,
            operand,
        } => Ok(ExpressionKind::Aggregate {
            function: *function,
            distinct: *distinct,
            operand: copy_boxed(operand, alloc)?,
        }),
    }
}

#[cycle(copies)]
fn copy_expressions(all: &[Expression], alloc: Global) -> Result<Items<Expression>, AllocError>
    ensures { IfOk result (λ copied. copied ≡ all.now) }
{
    let mut copied = Items::new(alloc);
    for e in all {
        copied.push(e.copy(alloc)?)?;
    }
    Ok(copied)
}

#[cycle(copies)]
fn copy_arms(arms: &[CaseArm], alloc: Global) -> Result<Items<CaseArm>, AllocError>
    ensures { IfOk result (λ copied. copied ≡ arms.now) }
{
    let mut copied = Items::new(alloc);
    for arm in arms {
        copied.push(CaseArm {
            test: arm.test.copy(alloc)?,
            value: arm.value.copy(alloc)?,
        })?;
    }
    Ok(copied)
}

impl Query {
    /// A copy, which equals its source.
    #[cycle(copies)]
    pub fn copy(&self, alloc: Global) -> Result<Query, AllocError>
        ensures { IfOk result (λ copied. copied ≡ self.now) }
    {
        Ok(Query {
            at: self.at,
            body: copy_body(&self.body, alloc)?,
            order_by: copy_keys(self.order_by.as_slice(), alloc)?,
            limit: self.limit,
        })
    }
}

#[cycle(copies)]
fn copy_boxed_query(query: &Boxed<Query>, alloc: Global) -> Result<Boxed<Query>, AllocError>
    ensures { IfOk result (λ copied. copied ≡ query.now) }
{
    Boxed::new(alloc, query.get().copy(alloc)?)
}

#[cycle(copies)]
fn copy_body(body: &QueryBody, alloc: Global) -> Result<QueryBody, AllocError>
    ensures { IfOk result (λ copied. copied ≡ body.now) }
{
    match body {
        QueryBody::Select(select) => {
            let copied = copy_select(select.get(), alloc)?;
            Ok(QueryBody::Select(Boxed::new(alloc, copied)?))
        }
        QueryBody::Values(rows) => Ok(QueryBody::Values(copy_rows(rows.as_slice(), alloc)?)),
        QueryBody::SetOperation(operator, left, right) => {
            let left = copy_body(left.get(), alloc)?;
            let right = copy_body(right.get(), alloc)?;
            Ok(QueryBody::SetOperation(
                *operator,
                Boxed::new(alloc, left)?,
                Boxed::new(alloc, right)?,
            ))
        }
    }
}

#[cycle(copies)]
fn copy_rows(rows: &[ValuesRow], alloc: Global) -> Result<Items<ValuesRow>, AllocError>
    ensures { IfOk result (λ copied. copied ≡ rows.now) }
{
    let mut copied = Items::new(alloc);
    for row in rows {
        copied.push(ValuesRow {
            values: copy_expressions(row.values.as_slice(), alloc)?,
        })?;
    }
    Ok(copied)
}

#[cycle(copies)]
fn copy_select(select: &Select, alloc: Global) -> Result<Select, AllocError>
    ensures { IfOk result (λ copied. copied ≡ select.now) }
{
    Ok(Select {
        distinct: select.distinct,
        items: copy_items(select.items.as_slice(), alloc)?,
        from: copy_from(select.from.as_slice(), alloc)?,
        filter: match &select.filter {
            Some(e) => Some(copy_boxed(e, alloc)?),
            None => None,
        },
        group_by: copy_expressions(select.group_by.as_slice(), alloc)?,
        having: match &select.having {
            Some(e) => Some(copy_boxed(e, alloc)?),
            None => None,
        },
    })
}

#[cycle(copies)]
fn copy_items(items: &[SelectItem], alloc: Global) -> Result<Items<SelectItem>, AllocError>
    ensures { IfOk result (λ copied. copied ≡ items.now) }
{
    let mut copied = Items::new(alloc);
    for item in items {
        copied.push(copy_item(item, alloc)?)?;
    }
    Ok(copied)
}

#[cycle(copies)]
fn copy_item(item: &SelectItem, alloc: Global) -> Result<SelectItem, AllocError>
    ensures { IfOk result (λ copied. copied ≡ item.now) }
{
    match item {
        SelectItem::Every(at) => Ok(SelectItem::Every(*at)),
        SelectItem::One { at, value, alias } => Ok(SelectItem::One {
            at: *at,
            value: value.copy(alloc)?,
            alias: copy_identifier(alloc, alias)?,
        }),
    }
}

#[cycle(copies)]
fn copy_from(from: &[FromItem], alloc: Global) -> Result<Items<FromItem>, AllocError>
    ensures { IfOk result (λ copied. copied ≡ from.now) }
{
    let mut copied = Items::new(alloc);
    for item in from {
        copied.push(FromItem {
            table: copy_table(&item.table, alloc)?,
            joins: copy_joins(item.joins.as_slice(), alloc)?,
        })?;
    }
    Ok(copied)
}

#[cycle(copies)]
fn copy_table(table: &TableReference, alloc: Global) -> Result<TableReference, AllocError>
    ensures { IfOk result (λ copied. copied ≡ table.now) }
{
    match table {
        TableReference::Named { name, alias } => Ok(TableReference::Named {
            name: name.copy(alloc)?,
            alias: copy_identifier(alloc, alias)?,
        }),
        TableReference::Derived { query, alias } => Ok(TableReference::Derived {
            query: copy_boxed_query(query, alloc)?,
            alias: alias.copy(alloc)?,
        }),
    }
}

#[cycle(copies)]
fn copy_joins(joins: &[Join], alloc: Global) -> Result<Items<Join>, AllocError>
    ensures { IfOk result (λ copied. copied ≡ joins.now) }
{
    let mut copied = Items::new(alloc);
    for join in joins {
        copied.push(copy_join(join, alloc)?)?;
    }
    Ok(copied)
}

#[cycle(copies)]
fn copy_join(join: &Join, alloc: Global) -> Result<Join, AllocError>
    ensures { IfOk result (λ copied. copied ≡ join.now) }
{
    match join {
        Join::Inner(table, on) => {
            let table = copy_table(table, alloc)?;
            Ok(Join::Inner(table, on.copy(alloc)?))
        }
        Join::Left(table, on) => {
            let table = copy_table(table, alloc)?;
            Ok(Join::Left(table, on.copy(alloc)?))
        }
        Join::Cross(table) => Ok(Join::Cross(copy_table(table, alloc)?)),
    }
}

#[cycle(copies)]
fn copy_keys(keys: &[SortKey], alloc: Global) -> Result<Items<SortKey>, AllocError>
    ensures { IfOk result (λ copied. copied ≡ keys.now) }
{
    let mut copied = Items::new(alloc);
    for key in keys {
        copied.push(SortKey {
            at: key.at,
            value: key.value.copy(alloc)?,
            descending: key.descending,
        })?;
    }
    Ok(copied)
}

// Queries.
use crate::expressions::{spell_all, spell_expression};
use crate::values::spell_kinds;
use hs_base::TableNo;
use hs_plan::{
    FromItem, Join, Key, Limit, Query, QueryBody, Select, SetOperator, SortKey, Source, ValuesRow,
};
use std::alloc::AllocError;

/// Adds a query: its body alone, where there is neither ORDER BY nor LIMIT.
#[cycle(spelling)]
pub(crate) fn spell_query(query: &Query, out: &mut String) -> Result<(), AllocError> {
    let has_keys = !query.order_by.as_slice().is_empty();
    let is_more = has_keys || query.limit.is_some();
    if is_more {
        out.push_str("(query ")?;
    }
    spell_body(&query.body, out)?;
    if has_keys {
        spell_keys(query.order_by.as_slice(), out)?;
    }
    spell_limit(query.limit, out)?;
    if is_more { out.push(')') } else { Ok(()) }
}

fn spell_limit(limit: Option<Limit>, out: &mut String) -> Result<(), AllocError> {
    match limit {
        Some(limit) => {
            let count = limit.count;
            write!(out, " (limit {count}")?;
            match limit.offset {
                Some(offset) => write!(out, " {offset}")?,
                None => {}
            }
            out.push(')')
        }
        None => Ok(()),
    }
}

/// Adds ORDER BY.
#[cycle(spelling)]
fn spell_keys(keys: &[SortKey], out: &mut String) -> Result<(), AllocError> {
    out.push_str(" (order")?;
    for one in keys {
        out.push_str(if one.descending { " (desc " } else { " " })?;
        match &one.key {
            Key::Output(at) => spell_output(*at, out)?,
            Key::Value(e) => spell_expression(e, out)?,
        }
        if one.descending {
            out.push(')')?;
        }
    }
    out.push(')')
}

fn spell_output(at: u32, out: &mut String) -> Result<(), AllocError> {
    write!(out, "(output {at})")
}

fn set_word(operator: SetOperator) -> &'static str {
    match operator {
        SetOperator::Union => "(union",
        SetOperator::UnionAll => "(union-all",
        SetOperator::Except => "(except",
        SetOperator::Intersect => "(intersect",
    }
}

#[cycle(spelling)]
fn spell_body(body: &QueryBody, out: &mut String) -> Result<(), AllocError> {
    match body {
        QueryBody::Select(select) => spell_select(select.get(), out),
        QueryBody::Values { kinds, rows } => {
            out.push_str("(values")?;
            spell_kinds(kinds.as_slice(), out)?;
            spell_rows(rows.as_slice(), out)?;
            out.push(')')
        }
        QueryBody::SetOperation {
            operator,
            kinds,
            left,
            right,
        } => {
            out.push_str(set_word(*operator))?;
            spell_kinds(kinds.as_slice(), out)?;
            out.push(' ')?;
            spell_body(left.get(), out)?;
            out.push(' ')?;
            spell_body(right.get(), out)?;
            out.push(')')
        }
    }
}

#[cycle(spelling)]
fn spell_rows(rows: &[ValuesRow], out: &mut String) -> Result<(), AllocError> {
    for row in rows {
        out.push_str(" (row")?;
        spell_all(row.values.as_slice(), out)?;
        out.push(')')?;
    }
    Ok(())
}

#[cycle(spelling)]
fn spell_select(select: &Select, out: &mut String) -> Result<(), AllocError> {
    out.push_str("(select (from")?;
    spell_from(select.from.as_slice(), out)?;
    out.push(')')?;
    if let Some(e) = &select.filter {
        out.push_str(" (where ")?;
        spell_expression(e.get(), out)?;
        out.push(')')?;
    }
    if select.grouped {
        out.push_str(" (group")?;
        spell_all(select.group_by.as_slice(), out)?;
        out.push(')')?;
    }
    if let Some(e) = &select.having {
        out.push_str(" (having ")?;
        spell_expression(e.get(), out)?;
        out.push(')')?;
    }
    out.push_str(" (items")?;
    spell_all(select.items.as_slice(), out)?;
    out.push_str(if select.distinct { ") distinct)" } else { "))" })
}

/// Adds the elements of FROM, each behind a space.
#[cycle(spelling)]
fn spell_from(from: &[FromItem], out: &mut String) -> Result<(), AllocError> {
    for item in from {
        let has_joins = !item.joins.as_slice().is_empty();
        out.push_str(if has_joins { " (joined " } else { " " })?;
        spell_source(&item.source, out)?;
        spell_joins(item.joins.as_slice(), out)?;
        if has_joins {
            out.push(')')?;
        }
    }
    Ok(())
}

/// Adds joins, each behind a space.
#[cycle(spelling)]
fn spell_joins(joins: &[Join], out: &mut String) -> Result<(), AllocError> {
    for join in joins {
        spell_join(join, out)?;
    }
    Ok(())
}

#[cycle(spelling)]
fn spell_join(join: &Join, out: &mut String) -> Result<(), AllocError> {
    match join {
        Join::Inner(source, on) => {
            out.push_str(" (inner ")?;
            spell_source(source, out)?;
            out.push(' ')?;
            spell_expression(on, out)?;
        }
        Join::Left(source, on) => {
            out.push_str(" (left ")?;
            spell_source(source, out)?;
            out.push(' ')?;
            spell_expression(on, out)?;
        }
        Join::Cross(source) => {
            out.push_str(" (cross ")?;
            spell_source(source, out)?;
        }
    }
    out.push(')')
}

#[cycle(spelling)]
fn spell_source(source: &Source, out: &mut String) -> Result<(), AllocError> {
    match source {
        Source::Table { table, width } => spell_table(*table, *width, out),
        Source::Derived { query, width } => {
            out.push_str("(derived ")?;
            spell_query(query.get(), out)?;
            spell_width(*width, out)
        }
    }
}

fn spell_table(table: TableNo, width: u32, out: &mut String) -> Result<(), AllocError> {
    let number = table.0;
    write!(out, "(table {number}")?;
    spell_width(width, out)
}

fn spell_width(width: u32, out: &mut String) -> Result<(), AllocError> {
    write!(out, " {width})")
}

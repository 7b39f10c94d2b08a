// The tables that a statement names to be read.
ghost use Rattle.std.specs.Prelude.{◌≡◌, ◌++◌, map, OnOk};
ghost use Rattle.hs_plan.specs.Named as spec;

use crate::expression::{CaseArm, Expr, ListItem};
use crate::plan::{Assignment, InsertSource, LockedTable, NewValue, Plan};
use crate::query::{FromItem, Join, Key, Query, QueryBody, Select, SortKey, Source, ValuesRow};
use hs_base::{NoMemory, Tables};
use sqlite_items::Items;

/// Adds the numbers of the tables that the FROMs of an expression's queries name, as often as they do.
#[cycle(named)]
fn in_expression(e: &Expr, out: &mut Tables) -> Result<(), NoMemory>
    ensures { OnOk result (out.new ≡ out.old ++ spec.named e.now) }
{
    match e {
        Expr::Literal(_)
        | Expr::ReadText { .. }
        | Expr::BadMoment { .. }
        | Expr::Column { .. }
        | Expr::CountRows => Ok(()),
        Expr::Unary(_, a) => in_expression(a.get(), out),
        Expr::Binary(_, a, b) => {
            in_expression(a.get(), out)?;
            in_expression(b.get(), out)
        }
        Expr::Ternary(_, a, b, c) => {
            in_expression(a.get(), out)?;
            in_expression(b.get(), out)?;
            in_expression(c.get(), out)
        }
        Expr::InList { operand, list, .. } => {
            in_expression(operand.get(), out)?;
            in_list(list.as_slice(), out)
        }
        Expr::InQuery { operand, query, .. } => {
            in_expression(operand.get(), out)?;
            named_in_query(query.get(), out)
        }
        Expr::Exists(query) => named_in_query(query.get(), out),
        Expr::Subquery(query) => named_in_query(query.get(), out),
        Expr::Case {
            arms,
            otherwise,
            ..
        } => {
            in_arms(arms.as_slice(), out)?;
            match otherwise {
                Some(e) => in_expression(e.get(), out),
                None => Ok(()),
            }
        }
        Expr::Coalesce { operands, .. } => in_expressions(operands.as_slice(), out),
        Expr::Aggregate { operand, .. } => in_expression(operand.get(), out),
    }
}

#[cycle(named)]
fn in_expressions(all: &[Expr], out: &mut Tables) -> Result<(), NoMemory>
    ensures { OnOk result (out.new ≡ out.old ++ spec.concat (map spec.named all.now)) }
{
    for e in all {
        in_expression(e, out)?;
    }
    Ok(())
}

#[cycle(named)]
fn in_list(all: &[ListItem], out: &mut Tables) -> Result<(), NoMemory>
    ensures { OnOk result (out.new ≡ out.old ++ spec.concat (map spec.named_in_item all.now)) }
{
    for one in all {
        in_expression(&one.value, out)?;
    }
    Ok(())
}

#[cycle(named)]
fn in_arms(arms: &[CaseArm], out: &mut Tables) -> Result<(), NoMemory>
    ensures { OnOk result (out.new ≡ out.old ++ spec.concat (map spec.named_in_arm arms.now)) }
{
    for arm in arms {
        in_expression(&arm.test, out)?;
        in_expression(&arm.value, out)?;
    }
    Ok(())
}

/// Adds the numbers of the tables that a query's FROMs name, those of its subqueries among them, as often as they
/// do. An `Err` is want of memory.
#[cycle(named)]
pub fn named_in_query(query: &Query, out: &mut Tables) -> Result<(), NoMemory>
    ensures { OnOk result (out.new ≡ out.old ++ spec.named_in_query query.now) }
{
    in_body(&query.body, out)?;
    in_keys(query.order_by.as_slice(), out)
}

#[cycle(named)]
fn in_body(body: &QueryBody, out: &mut Tables) -> Result<(), NoMemory>
    ensures { OnOk result (out.new ≡ out.old ++ spec.named_in_body body.now) }
{
    match body {
        QueryBody::Select(select) => in_select(select.get(), out),
        QueryBody::Values { rows, .. } => in_rows(rows.as_slice(), out),
        QueryBody::SetOperation { left, right, .. } => {
            in_body(left.get(), out)?;
            in_body(right.get(), out)
        }
    }
}

#[cycle(named)]
fn in_rows(rows: &[ValuesRow], out: &mut Tables) -> Result<(), NoMemory>
    ensures { OnOk result (out.new ≡ out.old ++ spec.concat (map spec.named_in_row rows.now)) }
{
    for row in rows {
        in_expressions(row.values.as_slice(), out)?;
    }
    Ok(())
}

#[cycle(named)]
fn in_select(select: &Select, out: &mut Tables) -> Result<(), NoMemory>
    ensures { OnOk result (out.new ≡ out.old ++ spec.named_in_select select.now) }
{
    in_from(select.from.as_slice(), out)?;
    if let Some(e) = &select.filter {
        in_expression(e.get(), out)?;
    }
    in_expressions(select.group_by.as_slice(), out)?;
    if let Some(e) = &select.having {
        in_expression(e.get(), out)?;
    }
    in_expressions(select.items.as_slice(), out)
}

#[cycle(named)]
fn in_from(from: &[FromItem], out: &mut Tables) -> Result<(), NoMemory>
    ensures { OnOk result (out.new ≡ out.old ++ spec.concat (map spec.named_in_from from.now)) }
{
    for item in from {
        in_source(&item.source, out)?;
        in_joins(item.joins.as_slice(), out)?;
    }
    Ok(())
}

#[cycle(named)]
fn in_source(source: &Source, out: &mut Tables) -> Result<(), NoMemory>
    ensures { OnOk result (out.new ≡ out.old ++ spec.named_in_source source.now) }
{
    match source {
        Source::Table { table, .. } => out.push(*table),
        Source::Derived { query, .. } => named_in_query(query.get(), out),
    }
}

#[cycle(named)]
fn in_joins(joins: &[Join], out: &mut Tables) -> Result<(), NoMemory>
    ensures { OnOk result (out.new ≡ out.old ++ spec.concat (map spec.named_in_join joins.now)) }
{
    for join in joins {
        in_join(join, out)?;
    }
    Ok(())
}

#[cycle(named)]
fn in_join(join: &Join, out: &mut Tables) -> Result<(), NoMemory>
    ensures { OnOk result (out.new ≡ out.old ++ spec.named_in_join join.now) }
{
    match join {
        Join::Inner(source, on) => {
            in_source(source, out)?;
            in_expression(on, out)
        }
        Join::Left(source, on) => {
            in_source(source, out)?;
            in_expression(on, out)
        }
        Join::Cross(source) => in_source(source, out),
    }
}

#[cycle(named)]
fn in_keys(keys: &[SortKey], out: &mut Tables) -> Result<(), NoMemory>
    ensures { OnOk result (out.new ≡ out.old ++ spec.concat (map spec.named_in_sort_key keys.now)) }
{
    for one in keys {
        in_key(&one.key, out)?;
    }
    Ok(())
}

#[cycle(named)]
fn in_key(key: &Key, out: &mut Tables) -> Result<(), NoMemory>
    ensures { OnOk result (out.new ≡ out.old ++ spec.named_in_key key.now) }
{
    match key {
        Key::Output(_) => Ok(()),
        Key::Value(e) => in_expression(e, out),
    }
}

fn in_filter(e: &Option<Expr>, out: &mut Tables) -> Result<(), NoMemory>
    ensures { OnOk result (out.new ≡ out.old ++ spec.named_if_written e.now) }
{
    match e {
        Some(e) => in_expression(e, out),
        None => Ok(()),
    }
}

fn in_value(value: &NewValue, out: &mut Tables) -> Result<(), NoMemory>
    ensures { OnOk result (out.new ≡ out.old ++ spec.named_in_value value.now) }
{
    match value {
        NewValue::Value(e) => in_expression(e, out),
        NewValue::Default => Ok(()),
    }
}

fn in_tuple(values: &[NewValue], out: &mut Tables) -> Result<(), NoMemory>
    ensures { OnOk result (out.new ≡ out.old ++ spec.named_in_tuple values.now) }
{
    for value in values {
        in_value(value, out)?;
    }
    Ok(())
}

fn in_tuples(tuples: &[Items<NewValue>], out: &mut Tables) -> Result<(), NoMemory>
    ensures { OnOk result (out.new ≡ out.old ++ spec.concat (map spec.named_in_tuple tuples.now)) }
{
    for tuple in tuples {
        in_tuple(tuple.as_slice(), out)?;
    }
    Ok(())
}

fn in_insert(source: &InsertSource, out: &mut Tables) -> Result<(), NoMemory>
    ensures { OnOk result (out.new ≡ out.old ++ spec.named_in_insert source.now) }
{
    match source {
        InsertSource::Tuples(tuples) => in_tuples(tuples.as_slice(), out),
        InsertSource::Query(query) => named_in_query(query, out),
    }
}

fn in_assignments(all: &[Assignment], out: &mut Tables) -> Result<(), NoMemory>
    ensures { OnOk result (out.new ≡ out.old ++ spec.concat (map spec.named_in_assignment all.now)) }
{
    for one in all {
        in_value(&one.value, out)?;
    }
    Ok(())
}

fn in_locks(all: &[LockedTable], out: &mut Tables) -> Result<(), NoMemory>
    ensures { OnOk result (out.new ≡ out.old ++ spec.concat (map spec.read_by_lock all.now)) }
{
    for one in all {
        if !one.write {
            out.push(one.table)?;
        }
    }
    Ok(())
}

/// Adds the numbers of the tables that a statement's queries and its WHERE name, as often as they do, and for LOCK
/// TABLE those for READ. An `Err` is want of memory.
pub fn named_in_plan(plan: &Plan, out: &mut Tables) -> Result<(), NoMemory>
    ensures { OnOk result (out.new ≡ out.old ++ spec.named_in_plan plan.now) }
{
    match plan {
        Plan::Query(query) => named_in_query(query, out),
        Plan::Insert(insert) => in_insert(&insert.source, out),
        Plan::Update(update) => {
            in_assignments(update.assignments.as_slice(), out)?;
            in_filter(&update.filter, out)
        }
        Plan::Delete(delete) => in_filter(&delete.filter, out),
        Plan::LockTable(all) => in_locks(all.as_slice(), out),
        Plan::Define(_) | Plan::Session(_) => Ok(()),
    }
}

// Plans.
use crate::definitions::{spell_definition, spell_places};
use crate::expressions::spell_expression;
use crate::queries::spell_query;
use crate::sessions::spell_session;
use hs_base::TableNo;
use hs_plan::{
    Assignment, Delete, Expr, Insert, InsertSource, LockedTable, NewValue, Plan, Update,
};
use sqlite_items::Items;
use std::alloc::AllocError;

fn spell_target(word: &str, table: TableNo, out: &mut String) -> Result<(), AllocError> {
    let number = table.0;
    write!(out, "{word} {number}")
}

/// Adds a space and a new value.
fn spell_new(value: &NewValue, out: &mut String) -> Result<(), AllocError> {
    out.push(' ')?;
    match value {
        NewValue::Value(e) => spell_expression(e, out),
        NewValue::Default => out.push_str("default"),
    }
}

fn spell_tuple(values: &[NewValue], out: &mut String) -> Result<(), AllocError> {
    out.push_str(" (row")?;
    for value in values {
        spell_new(value, out)?;
    }
    out.push(')')
}

fn spell_tuples(tuples: &[Items<NewValue>], out: &mut String) -> Result<(), AllocError> {
    for tuple in tuples {
        spell_tuple(tuple.as_slice(), out)?;
    }
    Ok(())
}

fn spell_insert(insert: &Insert, out: &mut String) -> Result<(), AllocError> {
    spell_target("(insert", insert.table, out)?;
    out.push_str(" (columns")?;
    spell_places(insert.columns.as_slice(), out)?;
    out.push(')')?;
    match &insert.source {
        InsertSource::Tuples(tuples) => spell_tuples(tuples.as_slice(), out)?,
        InsertSource::Query(query) => {
            out.push(' ')?;
            spell_query(query, out)?;
        }
    }
    out.push(')')
}

fn spell_assignments(all: &[Assignment], out: &mut String) -> Result<(), AllocError> {
    for one in all {
        let column = one.column;
        write!(out, " (set {column}")?;
        spell_new(&one.value, out)?;
        out.push(')')?;
    }
    Ok(())
}

/// Adds WHERE, where there is one, and the end of a node.
fn spell_filter(filter: &Option<Expr>, out: &mut String) -> Result<(), AllocError> {
    match filter {
        Some(e) => {
            out.push_str(" (where ")?;
            spell_expression(e, out)?;
            out.push_str("))")
        }
        None => out.push(')'),
    }
}

fn spell_update(update: &Update, out: &mut String) -> Result<(), AllocError> {
    spell_target("(update", update.table, out)?;
    spell_assignments(update.assignments.as_slice(), out)?;
    spell_filter(&update.filter, out)
}

fn spell_delete(delete: &Delete, out: &mut String) -> Result<(), AllocError> {
    spell_target("(delete", delete.table, out)?;
    spell_filter(&delete.filter, out)
}

fn spell_locks(all: &[LockedTable], out: &mut String) -> Result<(), AllocError> {
    out.push_str("(lock")?;
    for one in all {
        spell_target(if one.write { " (write" } else { " (read" }, one.table, out)?;
        out.push(')')?;
    }
    out.push(')')
}

/// Adds the text of a plan. Tables are numbers, and columns are places from 0. An `Err` is want of memory, and then a
/// part of the text may be there.
pub fn spell_plan(plan: &Plan, out: &mut String) -> Result<(), AllocError> {
    match plan {
        Plan::Query(query) => spell_query(query, out),
        Plan::Insert(insert) => spell_insert(insert, out),
        Plan::Update(update) => spell_update(update, out),
        Plan::Delete(delete) => spell_delete(delete, out),
        Plan::LockTable(all) => spell_locks(all.as_slice(), out),
        Plan::Define(definition) => spell_definition(definition, out),
        Plan::Session(statement) => spell_session(statement, out),
    }
}

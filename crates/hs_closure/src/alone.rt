// INSERTs, which write one table alone, and of which most read none.
ghost use Rattle.std.specs.Prelude.{◌≡◌, [], ◌∷◌, true, IsTrue, IfOk, IfSome};
ghost use Rattle.std.specs.List.{list_any};
ghost use Rattle.hs_closure.specs.Alone as spec;
ghost use Rattle.hs_closure.specs.Changing.{neighbours};
ghost use Rattle.hs_plan.specs.Named.{named_in_plan};
ghost use Rattle.hs_schema.specs.Catalogue.{Things};

use crate::changing::links;
use hs_base::{NoMemory, TableNo, Tables};
use hs_plan::{Constraint, Plan, Rule, named_in_plan};
use hs_schema::Catalog;
use std::alloc::Global;

/// The table into which an INSERT puts rows: it writes no other one.
pub(crate) fn put_into(plan: &Plan) -> Option<TableNo>
    ensures { (things : Things) → IfSome result (spec.WritesAlone things plan.now) }
{
    match plan {
        Plan::Insert(insert) => Some(insert.table),
        Plan::Query(_)
        | Plan::Update(_)
        | Plan::Delete(_)
        | Plan::LockTable(_)
        | Plan::Define(_)
        | Plan::Session(_) => None,
    }
}

fn is_foreign_key(rule: &Rule) -> bool
    ensures { result ≡ spec.is_foreign_key rule.now }
{
    match rule {
        Rule::ForeignKey(_) => true,
        Rule::NotNull(_)
        | Rule::PrimaryKey(_)
        | Rule::Unique(_)
        | Rule::Check(_)
        | Rule::Index(_) => false,
    }
}

fn has_foreign_key(constraints: &[Constraint]) -> bool
    ensures { result ≡ list_any spec.has_foreign_key constraints.now }
{
    constraints
        .iter()
        .any(|constraint| is_foreign_key(&constraint.rule))
}

// Whether no foreign key leads from a table or to it.
fn is_single(cat: &Catalog, table: TableNo) -> bool
    ensures { IsTrue result → neighbours cat.now table ≡ [] }
{
    match cat.table_numbered(table) {
        Some(found) => {
            !has_foreign_key(found.constraints.as_slice()) && links(cat, table).is_empty()
        }
        None => true,
    }
}

// Whether a statement names no table to be read.
fn names_none(alloc: Global, plan: &Plan) -> Result<bool, NoMemory>
    ensures { IfOk result (λ none. none ≡ true → named_in_plan plan.now ≡ []) }
{
    let mut named = Tables::new(alloc);
    named_in_plan(plan, &mut named)?;
    Ok(named.is_empty())
}

/// Whether a statement is known to read no table: an INSERT whose values name none, into a table from which no foreign key leads,
/// and to which none leads. An `Err` is want of memory.
pub(crate) fn reads_none(alloc: Global, plan: &Plan, cat: &Catalog) -> Result<bool, NoMemory>
    ensures { IfOk result (λ none. none ≡ true → spec.ReadsNone cat.now plan.now) }
{
    match put_into(plan) {
        Some(table) => {
            if is_single(cat, table) {
                names_none(alloc, plan)
            } else {
                Ok(false)
            }
        }
        None => Ok(false),
    }
}

/// A list of one table. An `Err` is want of memory.
pub(crate) fn only(alloc: Global, table: TableNo) -> Result<Tables, NoMemory>
    ensures { IfOk result (λ tables. tables ≡ table ∷ []) }
{
    let mut tables = Tables::new(alloc);
    tables.push(table)?;
    Ok(tables)
}

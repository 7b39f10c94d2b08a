// Tables of a FROM, and joins.
ghost use Rattle.std.specs.Prelude.{◌≡◌, length, map, option_map, OnOk, OnErr, IfOk};
ghost use Rattle.hs_clauses.specs.Bound.{FindsTable};
ghost use Rattle.hs_meaning.specs.From as spec;
ghost use Rattle.hs_meaning.specs.Parts.{tree_of};
ghost use Rattle.hs_meaning.specs.Queries.{outputs};
ghost use Rattle.hs_plan.specs.declared.query.Join.TheVariants as j;
ghost use Rattle.hs_plan.specs.declared.query.Source.TheVariants as source;
ghost use Rattle.hs_scope.specs.Names.{column_of};
ghost use Rattle.hs_schema.specs.Catalogue.{table_named};
ghost use Rattle.hs_typed.specs.Faults.{noted, fault_at};

use crate::bound::BoundTable;
use hs_ast::Identifier;
use hs_base::NoMemory;
use hs_columns::{BoundQuery, into_outputs};
use hs_meaning::note_ambiguous;
use hs_plan::{Cause, FromItem, Join, PlacedFault, Query, Source};
use hs_schema::{Catalog, Table};
use hs_scope::{FromTable, Scope};
use hs_typed::{Faults, Typed};
use hs_values::Name;
use sqlite_items::{Boxed, Items};
use std::alloc::Global;

// ---- tables

// How many columns a row has. An `Err` is want of memory: there are more than can be counted.
fn width_of(columns: usize) -> Result<u32, NoMemory>
    ensures { IfOk result (λ width. width ≡ columns) }
{
    match u32::try_from(columns) {
        Ok(width) => Ok(width),
        Err(_) => Err(NoMemory),
    }
}

/// The name that a table has in its FROM, with its place: the alias alone where it has one.
pub fn shown_name<'a>(name: &'a Identifier, alias: &'a Option<Identifier>) -> &'a Identifier
    ensures { result.now ≡ spec.shown_name name.now alias.now }
{
    match alias {
        Some(alias) => alias,
        None => name,
    }
}

fn note_missing_table(name: &Identifier, faults: &mut Faults, alloc: Global) -> Result<(), NoMemory>
    ensures { OnOk result (faults.new ≡ noted faults.old (fault_at name.now.at (Cause.NoSuchTable name.now.name))) }
{
    let cause = Cause::NoSuchTable(Name::from_text(alloc, name.name.as_str())?);
    faults.push(PlacedFault { at: name.at, cause });
    Ok(())
}

// A table that isn't there, of which no column is known.
fn missing_table(
    shown: &Identifier,
    name: &Identifier,
    faults: &mut Faults,
    alloc: Global,
) -> Result<BoundTable, NoMemory>
    ensures { FindsTable shown.now (spec.named_meaning name.now None) faults.old faults.new result }
{
    note_missing_table(name, faults, alloc)?;
    let table = FromTable {
        name: Name::from_text(alloc, shown.name.as_str())?,
        columns: Items::new(alloc),
    };
    Ok(BoundTable {
        table,
        source: None,
    })
}

fn found_table(shown: &Identifier, table: &Table, alloc: Global) -> Result<BoundTable, NoMemory>
    ensures table { IfOk result (λ b. b.table ≡ record { name = shown.now.name; columns = map column_of table.now.columns }) }
    ensures source { IfOk result (λ b. b.source ≡ Some (source.Table table.now.number (length table.now.columns))) }
{
    let width = width_of(table.columns.len())?;
    let source = Source::Table {
        table: table.number,
        width,
    };
    let table = FromTable::of_table(alloc, shown.name.as_str(), table.columns.as_slice())?;
    Ok(BoundTable {
        table,
        source: Some(source),
    })
}

/// A table that is named, under its alias where it has one. Where the catalogue has no table of that name, that is noted
/// at the name, and none of its columns is known. An `Err` is want of memory.
pub fn named_table(
    name: &Identifier,
    alias: &Option<Identifier>,
    catalog: &Catalog,
    faults: &mut Faults,
    alloc: Global,
) -> Result<BoundTable, NoMemory>
    ensures { FindsTable (spec.shown_name name.now alias.now) (spec.named_meaning name.now (table_named catalog.now name.now.name)) faults.old faults.new result }
{
    let shown = shown_name(name, alias);
    match catalog.table(name.name.as_str()) {
        Some(table) => found_table(shown, table, alloc),
        None => missing_table(shown, name, faults, alloc),
    }
}

fn derived_source(
    plan: Option<Query>,
    width: u32,
    alloc: Global,
) -> Result<Option<Source>, NoMemory>
    ensures { IfOk result (λ made. made ≡ option_map (λ plan. source.Derived plan width) plan) }
{
    match plan {
        Some(plan) => Ok(Some(Source::Derived {
            query: Boxed::new(alloc, plan)?,
            width,
        })),
        None => Ok(None),
    }
}

/// A bound query in FROM, under its alias. An `Err` is want of memory.
pub fn derived_table(
    query: BoundQuery,
    alias: &Identifier,
    alloc: Global,
) -> Result<BoundTable, NoMemory>
    ensures table { IfOk result (λ b. b.table ≡ record { name = alias.now.name; columns = outputs query.columns.items }) }
    ensures source { IfOk result (λ b. b.source ≡ option_map (λ plan. source.Derived plan (length query.columns.items)) query.plan) }
{
    let width = width_of(query.columns.len())?;
    let source = derived_source(query.plan, width, alloc)?;
    let table = FromTable {
        name: Name::from_text(alloc, alias.name.as_str())?,
        columns: into_outputs(query.columns, alloc)?,
    };
    Ok(BoundTable { table, source })
}

/// Notes that a table of this name stands before it in the same FROM, among the tables of the elements before or of its own
/// one, if one does. An `Err` is want of memory, and then nothing is noted.
pub fn note_doubled(
    name: &Identifier,
    before: &Scope,
    own: &Scope,
    faults: &mut Faults,
    alloc: Global,
) -> Result<(), NoMemory>
    ensures noted { OnOk result (faults.new ≡ noted faults.old (spec.doubled before.now own.now name.now)) }
    ensures err { OnErr result (faults.new ≡ faults.old) }
{
    let text = name.name.as_str();
    if before.has_table(text) || own.has_table(text) {
        return note_ambiguous(name.at, text, faults, alloc);
    }
    Ok(())
}

// ---- joins

/// An inner join to a table, with its ON.
pub fn inner_join(table: Option<Source>, on: Option<Typed>) -> Option<Join>
    ensures { result ≡ spec.joined_by j.Inner table (tree_of on) }
{
    match (table, on) {
        (Some(table), Some(on)) => Some(Join::Inner(table, on.tree)),
        (Some(_), None) => None,
        (None, _) => None,
    }
}

/// A left join to a table, with its ON.
pub fn left_join(table: Option<Source>, on: Option<Typed>) -> Option<Join>
    ensures { result ≡ spec.joined_by j.Left table (tree_of on) }
{
    match (table, on) {
        (Some(table), Some(on)) => Some(Join::Left(table, on.tree)),
        (Some(_), None) => None,
        (None, _) => None,
    }
}

/// A join to a table without ON.
pub fn cross_join(table: Option<Source>) -> Option<Join>
    ensures { result ≡ option_map j.Cross table }
{
    match table {
        Some(table) => Some(Join::Cross(table)),
        None => None,
    }
}

/// An element of FROM: its first table, and what is joined to it.
pub fn from_item(source: Option<Source>, joins: Option<Items<Join>>) -> Option<FromItem>
    ensures { result ≡ spec.item_by source joins }
{
    match (source, joins) {
        (Some(source), Some(joins)) => Some(FromItem { source, joins }),
        (Some(_), None) => None,
        (None, _) => None,
    }
}

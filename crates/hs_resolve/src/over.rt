// What the form of a tree alone tells. What it means is told over a catalogue, of which nothing is read.
ghost use Rattle.std.specs.Prelude.{◌≡◌, ◌≢◌, true, [], map, IfOk, None, Some, if◌then◌else◌};
ghost use Rattle.hs_clauses.specs.declared.bound.KeysOver.TheVariants as over;
ghost use Rattle.hs_meaning.specs.Queries as queries;
ghost use Rattle.hs_meaning.specs.Selects as selects;
ghost use Rattle.hs_meaning.specs.Trees.{key_of, part_of, row_of};
ghost use Rattle.hs_meaning.specs.Around.{seen};
ghost use Rattle.hs_meaning.specs.Finding.{Finds};

use hs_ast::{Expression, Identifier, SortKey, ValuesRow};
use hs_base::NoMemory;
use hs_clauses::{BoundBody, BoundRows};
use hs_meaning::{Shown, Surroundings};
use hs_schema::Catalog;
use hs_scope::{KeyMeaning, Outputs, Scope};
use hs_typed::{Faults, Typed};
use sqlite_items::Items;
use std::alloc::Global;

/// Whether all rows of VALUES have as many values as the first one.
pub(crate) fn are_even(rows: &[ValuesRow], catalog: &Catalog) -> bool
    ensures { result ≡ queries.are_even (map (row_of catalog.now) rows.now) }
{
    hs_clauses::are_even(rows)
}

/// What stands above the first row of VALUES. An `Err` is want of memory.
pub(crate) fn no_rows(
    rows: &[ValuesRow],
    catalog: &Catalog,
    alloc: Global,
) -> Result<BoundRows, NoMemory>
    ensures columns { IfOk result (λ r. r.columns.items ≡ queries.above (map (row_of catalog.now) rows.now)) }
    ensures rows { IfOk result (λ r. r.rows ≡ Some []) }
{
    hs_clauses::no_rows(rows, alloc)
}

/// VALUES whose rows have different numbers of values. An `Err` is want of memory.
pub(crate) fn uneven_values(
    rows: &[ValuesRow],
    catalog: &Catalog,
    alloc: Global,
) -> Result<BoundBody, NoMemory>
    ensures columns { IfOk result (λ b. b.columns.items ≡ queries.unknown (queries.above (map (row_of catalog.now) rows.now))) }
    ensures plan { IfOk result (λ b. b.plan ≡ None) }
    ensures plain { IfOk result (λ b. b.plain ≡ true) }
    ensures over { IfOk result (λ b. b.over ≡ over.Values) }
{
    hs_clauses::uneven_values(rows, alloc)
}

/// The places of the columns that may stand in items and in HAVING, outside of aggregates, or None where all may. An `Err` is
/// want of memory.
pub(crate) fn groups_of(
    group_by: &[Expression],
    grouped: bool,
    tables: &Scope,
    catalog: &Catalog,
    alloc: Global,
) -> Result<Option<Items<u32>>, NoMemory>
    ensures { IfOk result (λ made. made ≡ (if grouped then Some (selects.grouped_columns tables.now (map (part_of catalog.now) group_by.now)) else None)) }
{
    hs_clauses::groups_of(group_by, grouped, tables, alloc)
}

/// An item whose value is bound, with its output name. An `Err` is want of memory.
pub(crate) fn one_item(
    at: u32,
    value: &Expression,
    alias: &Option<Identifier>,
    part: Option<Typed>,
    catalog: &Catalog,
    alloc: Global,
) -> Result<Shown, NoMemory>
    ensures { IfOk result (λ x. x ≡ record { at = at; name = selects.name_by (part_of catalog.now value.now).form.column alias.now; part = part }) }
{
    hs_clauses::one_item(at, value, alias, part, alloc)
}

/// What a key of ORDER BY means among the output columns. `plain` says that it may be an expression.
pub(crate) fn key_meaning(
    key: &SortKey,
    outputs: &Outputs,
    plain: bool,
    catalog: &Catalog,
) -> KeyMeaning
    ensures { result ≡ (let x = key_of catalog.now key.now in queries.key_by plain outputs.now x.value.form.literal x.value.form.column) }
{
    hs_clauses::key_meaning(&key.value, outputs, plain)
}

/// A key of ORDER BY that is no expression: an output column, or a fault, which is noted. An `Err` is want of memory.
pub(crate) fn other_key(
    key: &SortKey,
    meaning: KeyMeaning,
    around: &Surroundings<'_>,
    catalog: &Catalog,
    faults: &mut Faults,
    alloc: Global,
) -> Result<Option<hs_plan::SortKey>, NoMemory>
    requires { meaning ≢ KeyMeaning.Value }
    ensures { Finds (queries.sort_by (seen around.now) (key_of catalog.now key.now) meaning) faults.old faults.new result }
{
    hs_clauses::other_key(key, meaning, faults, alloc)
}

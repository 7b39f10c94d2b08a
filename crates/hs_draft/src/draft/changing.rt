// Changes of rows.
ghost use Rattle.std.specs.Prelude.{◌≡◌, ℕ, ◌==◌, ◌&&◌, ◌||◌, [], None, Some, IfOk, OnOk, OnErr, if◌then◌else◌};
ghost use Rattle.std.specs.FinMap.{empty};
ghost use Rattle.std.specs.Option.{option_copied, unwrap_or};
ghost use Rattle.hs_changes.specs.Settings.{with_values, set_row};
ghost use Rattle.hs_sentences.specs.Asking.{is_one_of};
ghost use Rattle.hs_draft.specs.Drafted.{after, before, touched, rows_at, old_of, old_in};
ghost use Rattle.hs_keyed.specs.Kept.{moved};

use crate::draft::Draft;
use hs_base::{NoMemory, RowNo, TableNo};
use hs_keyed::KeyedRows;
use hs_values::Row;
use std::alloc::Global;
use std::collections::BTreeMap;

impl Draft {
    /// No rows. Takes no memory.
    pub fn new(alloc: Global) -> Draft
        ensures after { (table : ℕ) → after result table ≡ empty }
        ensures before { (table : ℕ) → before result table ≡ empty }
        ensures touched { (table : ℕ) → touched result table ≡ [] }
    {
        Draft {
            tables: BTreeMap::new(alloc),
            olds: BTreeMap::new(alloc),
            none: KeyedRows::new(alloc),
            alloc,
        }
    }

    /// Makes an index over these columns of a table, which are places in its rows from 0. An `Err` is want of memory.
    pub fn add_index(&mut self, table: TableNo, columns: &[u32]) -> Result<(), NoMemory>
        ensures after { (t : ℕ) → after self.new t ≡ after self.old t }
        ensures before { (t : ℕ) → before self.new t ≡ before self.old t }
        ensures touched { (t : ℕ) → touched self.new t ≡ touched self.old t }
    {
        add_index_to(&mut self.tables, self.alloc, table, columns)
    }

    /// Gives a row these values, and puts it there where it isn't yet. After an `Err`, which is want of memory, the rows
    /// are as they were.
    pub fn put(&mut self, table: TableNo, row: RowNo, values: Row) -> Result<(), NoMemory>
        ensures ok { OnOk result ((t : ℕ) → after self.new t ≡ set_row (after self.old) (record { table = table.0; row = row.0; values = Some values }) t) }
        ensures err { OnErr result ((t : ℕ) → after self.new t ≡ after self.old t) }
        ensures before { (t : ℕ) → before self.new t ≡ before self.old t }
        ensures touched { OnOk result ((t n : ℕ) → is_one_of (touched self.new t) n ≡ ((t == table.0 && n == row.0) || is_one_of (touched self.old t) n)) }
    {
        let old = copied(self.rows(table).get(row))?;
        remember(&mut self.olds, self.alloc, table, row, old)?;
        put_into(&mut self.tables, self.alloc, table, row, values)
    }

    /// Takes a row out, where it is there. After an `Err`, which is want of memory, the rows are as they were.
    pub fn take(&mut self, table: TableNo, row: RowNo) -> Result<(), NoMemory>
        ensures ok { OnOk result ((t : ℕ) → after self.new t ≡ set_row (after self.old) (record { table = table.0; row = row.0; values = None }) t) }
        ensures err { OnErr result ((t : ℕ) → after self.new t ≡ after self.old t) }
        ensures before { (t : ℕ) → before self.new t ≡ before self.old t }
        ensures touched { OnOk result ((t n : ℕ) → is_one_of (touched self.new t) n ≡ ((t == table.0 && n == row.0) || is_one_of (touched self.old t) n)) }
    {
        let old = copied(self.rows(table).get(row))?;
        remember(&mut self.olds, self.alloc, table, row, old)?;
        take_from(&mut self.tables, table, row)
    }

    /// Gives a row another number, where it is there. An `Err` is want of memory, and then nothing is known of the rows.
    pub fn renumber(&mut self, table: TableNo, from: RowNo, to: RowNo) -> Result<(), NoMemory>
        ensures { OnOk result ((t : ℕ) → after self.new t ≡ (if t == table.0 then moved (after self.old t) from.0 to.0 else after self.old t)) }
    {
        renumber_in(&mut self.tables, table, from, to)
    }

    /// The rows as they are count as those before the changes to come. Takes no memory.
    pub fn accept(&mut self)
        ensures after { (t : ℕ) → after self.new t ≡ after self.old t }
        ensures before { (t : ℕ) → before self.new t ≡ after self.old t }
        ensures touched { (t : ℕ) → touched self.new t ≡ [] }
    {
        self.olds.clear();
    }
}

fn copied(row: Option<&Row>) -> Result<Option<Row>, NoMemory>
    ensures { IfOk result (λ copied. copied ≡ option_copied row.entry) }
{
    match row {
        Some(row) => Ok(Some(row.copy()?)),
        None => Ok(None),
    }
}

fn add_index_to(
    tables: &mut BTreeMap<u64, KeyedRows>,
    alloc: Global,
    table: TableNo,
    columns: &[u32],
) -> Result<(), NoMemory>
    ensures { (t : ℕ) → rows_at tables.new.entries t ≡ rows_at tables.old.entries t }
{
    if let Some(rows) = tables.get_mut(&table.0) {
        return rows.add_index(columns);
    }
    let made = indexed(alloc, columns)?;
    tables.insert(table.0, made)?;
    Ok(())
}

// No rows, and an index.
fn indexed(alloc: Global, columns: &[u32]) -> Result<KeyedRows, NoMemory>
    ensures { IfOk result (λ rows. rows ≡ empty) }
{
    let mut rows = KeyedRows::new(alloc);
    rows.add_index(columns)?;
    Ok(rows)
}

fn put_into(
    tables: &mut BTreeMap<u64, KeyedRows>,
    alloc: Global,
    table: TableNo,
    row: RowNo,
    values: Row,
) -> Result<(), NoMemory>
    ensures ok { OnOk result ((t : ℕ) → rows_at tables.new.entries t ≡ (if t == table.0 then with_values (rows_at tables.old.entries t) row.0 (Some values) else rows_at tables.old.entries t)) }
    ensures err { OnErr result ((t : ℕ) → rows_at tables.new.entries t ≡ rows_at tables.old.entries t) }
{
    if let Some(rows) = tables.get_mut(&table.0) {
        return rows.put(row, values);
    }
    let made = one_row(alloc, row, values)?;
    tables.insert(table.0, made)?;
    Ok(())
}

// One row.
fn one_row(alloc: Global, row: RowNo, values: Row) -> Result<KeyedRows, NoMemory>
    ensures { IfOk result (λ rows. rows ≡ with_values empty row.0 (Some values)) }
{
    let mut rows = KeyedRows::new(alloc);
    rows.put(row, values)?;
    Ok(rows)
}

fn take_from(
    tables: &mut BTreeMap<u64, KeyedRows>,
    table: TableNo,
    row: RowNo,
) -> Result<(), NoMemory>
    ensures ok { OnOk result ((t : ℕ) → rows_at tables.new.entries t ≡ (if t == table.0 then with_values (rows_at tables.old.entries t) row.0 None else rows_at tables.old.entries t)) }
    ensures err { OnErr result ((t : ℕ) → rows_at tables.new.entries t ≡ rows_at tables.old.entries t) }
{
    if let Some(rows) = tables.get_mut(&table.0) {
        return rows.take(row);
    }
    Ok(())
}

fn renumber_in(
    tables: &mut BTreeMap<u64, KeyedRows>,
    table: TableNo,
    from: RowNo,
    to: RowNo,
) -> Result<(), NoMemory>
    ensures { OnOk result ((t : ℕ) → rows_at tables.new.entries t ≡ (if t == table.0 then moved (rows_at tables.old.entries t) from.0 to.0 else rows_at tables.old.entries t)) }
{
    if let Some(rows) = tables.get_mut(&table.0) {
        return rows.renumber(from, to);
    }
    Ok(())
}

// Keeps what a row was, where it isn't kept yet.
fn remember(
    olds: &mut BTreeMap<u64, BTreeMap<u64, Option<Row>>>,
    alloc: Global,
    table: TableNo,
    row: RowNo,
    old: Option<Row>,
) -> Result<(), NoMemory>
    ensures ok { OnOk result ((t n : ℕ) → old_of olds.new.entries t n ≡ (if t == table.0 && n == row.0 then Some (unwrap_or (old_of olds.old.entries t n) old) else old_of olds.old.entries t n)) }
    ensures err { OnErr result ((t n : ℕ) → old_of olds.new.entries t n ≡ old_of olds.old.entries t n) }
{
    if let Some(list) = olds.get_mut(&table.0) {
        return keep_first(list, row, old);
    }
    let made = one_old(alloc, row, old)?;
    olds.insert(table.0, made)?;
    Ok(())
}

// What one row was.
fn one_old(
    alloc: Global,
    row: RowNo,
    old: Option<Row>,
) -> Result<BTreeMap<u64, Option<Row>>, NoMemory>
    ensures { IfOk result (λ made. (n : ℕ) → old_in made.entries n ≡ (if n == row.0 then Some old else None)) }
{
    let mut made = BTreeMap::new(alloc);
    made.insert(row.0, old)?;
    Ok(made)
}

fn keep_first(
    list: &mut BTreeMap<u64, Option<Row>>,
    row: RowNo,
    old: Option<Row>,
) -> Result<(), NoMemory>
    ensures ok { OnOk result ((n : ℕ) → old_in list.new.entries n ≡ (if n == row.0 then Some (unwrap_or (old_in list.old.entries n) old) else old_in list.old.entries n)) }
    ensures err { OnErr result (list.new.entries ≡ list.old.entries) }
{
    if list.contains_key(&row.0) {
        return Ok(());
    }
    list.insert(row.0, old)?;
    Ok(())
}

// Looks at rows.
ghost use Rattle.std.specs.Prelude.{◌≡◌, Some, IfOk};
ghost use Rattle.std.specs.BTreeMap as tree;
ghost use Rattle.std.specs.FinMap.{empty};
ghost use Rattle.std.specs.List.{All, list_any};
ghost use Rattle.std.specs.Map.{keys_of};
ghost use Rattle.std.specs.Option.{option_copied, option_map_or};
ghost use Rattle.std.specs.Ordering.{nat_cmp};
ghost use Rattle.hs_sentences.specs.Asking.{any_of, passes_at};
ghost use Rattle.hs_draft.specs.Drafted.{after, before, touched};
ghost use Rattle.hs_rows.specs.Numbers.{IsBehind, next_in};

use crate::draft::Draft;
use hs_base::{NoMemory, RowNo, TableNo};
use hs_keyed::{KeyedRows, RowTest};
use hs_values::Row;
use std::alloc::Global;
use std::collections::BTreeMap;

impl Draft {
    /// The rows of a table as they are.
    pub fn rows(&self, table: TableNo) -> &KeyedRows
        ensures { result.now ≡ after self.now table.0 }
    {
        match self.tables.get(&table.0) {
            Some(rows) => rows,
            None => &self.none,
        }
    }

    /// The rows of a table as they are, none without a table.
    pub fn rows_of(&self, table: Option<TableNo>) -> &KeyedRows
        ensures { result.now ≡ option_map_or (λ t. after self.now t.0) table empty }
    {
        match table {
            Some(table) => self.rows(table),
            None => &self.none,
        }
    }

    /// The row of a table with the least number behind this one, or the first row; None exactly where there is none.
    /// Takes no memory.
    pub fn row_behind(&self, table: TableNo, last: Option<RowNo>) -> Option<RowNo>
        ensures row { result ≡ next_in (after self.now table.0) last }
        ensures behind { IsBehind last result }
    {
        self.rows(table).row_behind(last)
    }

    /// Whether one of the rows of a table that were touched and are there passes a test.
    pub fn any_touched<T: RowTest>(&self, table: TableNo, test: &T) -> Result<bool, NoMemory>
        ensures { IfOk result (λ is. is ≡ any_of (touched self.now table.0) (T.test test.now) (after self.now table.0)) }
    {
        match self.olds.get(&table.0) {
            Some(olds) => any_now(self.alloc, olds, self.rows(table), test),
            None => Ok(false),
        }
    }

    /// Whether one of the rows of a table that were touched and were there passed a test as it was before.
    pub fn any_old<T: RowTest>(&self, table: TableNo, test: &T) -> Result<bool, NoMemory>
        ensures { IfOk result (λ is. is ≡ any_of (touched self.now table.0) (T.test test.now) (before self.now table.0)) }
    {
        match self.olds.get(&table.0) {
            Some(olds) => any_then(self.alloc, olds, test),
            None => Ok(false),
        }
    }
}

// Whether a row is there and passes a test.
fn passes_there<T: RowTest>(
    alloc: Global,
    test: &T,
    number: u64,
    row: Option<&Row>,
) -> Result<bool, NoMemory>
    ensures { IfOk result (λ is. is ≡ passes_at (T.test test.now) number (option_copied row.entry)) }
{
    match row {
        Some(row) => test.passes(alloc, RowNo(number), row.as_slice()),
        None => Ok(false),
    }
}

// Whether one of the rows of these numbers passes a test.
fn any_now<T: RowTest>(
    alloc: Global,
    olds: &BTreeMap<u64, Option<Row>>,
    rows: &KeyedRows,
    test: &T,
) -> Result<bool, NoMemory>
    ensures { IfOk result (λ is. is ≡ any_of (keys_of olds.now.entries) (T.test test.now) rows.now) }
{
    for number in olds.keys() {
        if passes_there(alloc, test, *number, rows.get(RowNo(*number)))? {
            return Ok(true);
        }
    }
    Ok(false)
}

// Whether one of these rows, as they were, passed a test.
fn any_then<T: RowTest>(
    alloc: Global,
    olds: &BTreeMap<u64, Option<Row>>,
    test: &T,
) -> Result<bool, NoMemory>
    ensures answer { IfOk result (λ is. is ≡ list_any (λ e. passes_at (T.test test.now) e.0 e.1) olds.now.entries) }
    ensures found { All (λ e. tree.get nat_cmp olds.now e.0 ≡ Some e.1) olds.now.entries }
{
    for (number, old) in olds.iter() {
        if passes_there(alloc, test, *number, old.as_ref())? {
            return Ok(true);
        }
    }
    Ok(false)
}

// The rows of a table.
ghost use Rattle.std.specs.Prelude.{◌≡◌, map, All, Contains, IfOk, IfSome, OnOk, OnErr};
ghost use Rattle.std.specs.FinMap.{empty, get, insert, remove};
ghost use Rattle.std.specs.Option.{option_copied};
ghost use Rattle.hs_sentences.specs.Asking.{any_row};
ghost use Rattle.hs_sentences.specs.Sentences.{carries};
ghost use Rattle.hs_keyed.specs.Found.{carries_too};
ghost use Rattle.hs_keyed.specs.Kept.{moved};
ghost use Rattle.hs_rows.specs.Numbers.{IsBehind, next_in, numbers_with};

use crate::behind::row_behind;
use crate::copying::copied;
use crate::entries::{move_entry, put_entry, take_entry};
use crate::indexes::{KeyIndex, columns_among, index_over};
use crate::row_test::{Carries, CarriesToo, RowTest};
use crate::scan::{any_entry, has_another, index_of, numbers_in};
use hs_base::{NoMemory, RowNo, RowNos};
use hs_values::Row;
use std::alloc::Global;
use std::collections::BTreeMap;
use std::marker::Model;

/// The rows of a table by their numbers, with indexes over some of its columns. Contracts see the rows alone: an index
/// makes answers come sooner, and no other.
#[derive(Drop)]
pub struct KeyedRows {
    rows: BTreeMap<u64, Row>,
    // What follows serves look-ups.
    indexes: Vec<KeyIndex>,
    alloc: Global,
}

impl Model for KeyedRows {
    ghost use Rattle.std.specs.Coded.{codes, coded_ℕ};
    ghost use Rattle.std.specs.FinMap.{code};
    ghost use Rattle.hs_index.specs.Table.{Rows};

    ghost Value = { Rows };

    ghost coded = { code coded_ℕ (Prim.hlevel codes) };

    ghost use Rattle.hs_keyed.specs.Kept.{rows_of, AreOf};

    ghost view = { λ t. rows_of t.rows.entries };

    ghost invariant = { λ t. AreOf (rows_of t.rows.entries) t.indexes.items };
}

impl KeyedRows {
    /// No rows, and no index. Takes no memory.
    pub fn new(alloc: Global) -> KeyedRows
        ensures { result ≡ empty }
    {
        KeyedRows {
            rows: BTreeMap::new(alloc),
            indexes: Vec::new(alloc),
            alloc,
        }
    }

    /// Where it takes its memory.
    pub fn alloc(&self) -> Global {
        self.alloc
    }

    /// The values of a row: None exactly where it isn't there. Takes no memory.
    pub fn get(&self, row: RowNo) -> Option<&Row>
        ensures { option_copied result ≡ get self.now row.0 }
    {
        self.rows.get(&row.0)
    }

    /// The row with the least number behind this one, or the first row; None exactly where there is none. Takes no memory.
    pub fn row_behind(&self, after: Option<RowNo>) -> Option<RowNo>
        ensures row { result ≡ next_in self.now after }
        ensures behind { IsBehind after result }
    {
        row_behind(&self.rows, after)
    }

    /// The rows once more, with no index. An `Err` is want of memory.
    pub fn copy(&self, alloc: Global) -> Result<KeyedRows, NoMemory>
        ensures { IfOk result (λ copied. copied ≡ self.now) }
    {
        let rows = copied(alloc, &self.rows)?;
        Ok(KeyedRows {
            rows,
            indexes: Vec::new(alloc),
            alloc,
        })
    }

    /// Gives a row these values, and puts it there where it isn't yet. After an `Err`, which is want of memory, the rows
    /// are as they were, and there is no index any more.
    pub fn put(&mut self, row: RowNo, values: Row) -> Result<(), NoMemory>
        ensures ok { OnOk result (self.new ≡ insert self.old row.0 values) }
        ensures err { OnErr result (self.new ≡ self.old) }
    {
        put_entry(&mut self.rows, &mut self.indexes, self.alloc, row, values)
    }

    /// Takes a row out, where it is there. After an `Err`, which is want of memory, the rows are as they were, and there is
    /// no index any more.
    pub fn take(&mut self, row: RowNo) -> Result<(), NoMemory>
        ensures ok { OnOk result (self.new ≡ remove self.old row.0) }
        ensures err { OnErr result (self.new ≡ self.old) }
    {
        take_entry(&mut self.rows, &mut self.indexes, self.alloc, row)
    }

    /// Gives a row another number, where it is there. After an `Err`, which is want of memory, nothing is known of the rows,
    /// and there is no index any more.
    pub fn renumber(&mut self, from: RowNo, to: RowNo) -> Result<(), NoMemory>
        ensures { OnOk result (self.new ≡ moved self.old from.0 to.0) }
    {
        move_entry(&mut self.rows, &mut self.indexes, self.alloc, from, to)
    }

    /// Makes an index over these columns, which are places in a row from 0. An `Err` is want of memory.
    pub fn add_index(&mut self, columns: &[u32]) -> Result<(), NoMemory>
        ensures { self.new ≡ self.old }
    {
        let made = index_of(self.alloc, &self.rows, columns)?;
        self.indexes.push(made)?;
        Ok(())
    }

    /// The columns of the first index all of whose columns are among these, in the index's order. With a key in them
    /// `rows_with` looks at no row. Takes no memory.
    pub fn index_among(&self, columns: &[u32]) -> Option<&[u32]>
        ensures { IfSome result (λ found. All (Contains columns.now) found.now) }
    {
        columns_among(&self.indexes, columns)
    }

    /// Whether one of the rows passes a test. All rows are looked at until one does.
    pub fn any<T: RowTest>(&self, test: &T) -> Result<bool, NoMemory>
        ensures { IfOk result (λ is. is ≡ any_row (T.test test.now) self.now) }
    {
        any_entry(self.alloc, &self.rows, test)
    }

    /// Whether a row has this key in these columns. A key with a NULL is no key. Where there is an index over these
    /// columns, in this order, no row is looked at.
    pub fn has_key(&self, columns: &[u32], key: &Row) -> Result<bool, NoMemory>
        ensures { IfOk result (λ is. is ≡ any_row (carries columns.now key.now) self.now) }
    {
        match index_over(&self.indexes, columns) {
            Some(index) => Ok(!index.find(key).is_empty()),
            None => self.any(&Carries { columns, key }),
        }
    }

    /// Whether a row that isn't that of this number has this key in these columns. An index serves as in `has_key`.
    pub fn has_other(&self, columns: &[u32], key: &Row, number: RowNo) -> Result<bool, NoMemory>
        ensures { IfOk result (λ is. is ≡ any_row (carries_too columns.now key.now number.0) self.now) }
    {
        match index_over(&self.indexes, columns) {
            Some(index) => Ok(has_another(index, key, number)),
            None => self.any(&CarriesToo {
                columns,
                key,
                number,
            }),
        }
    }

    /// The rows that have this key in these columns, in ascending order. An index serves as in `has_key`.
    pub fn rows_with(&self, columns: &[u32], key: &Row) -> Result<RowNos, NoMemory>
        ensures { IfOk result (λ found. map (λ r. r.0) found ≡ numbers_with columns.now key.now self.now) }
    {
        match index_over(&self.indexes, columns) {
            Some(index) => Ok(RowNos::from_vec(Vec::from_slice(self.alloc, index.find(key))?)),
            None => numbers_in(self.alloc, &self.rows, columns, key),
        }
    }
}

// The rows of tables in memory.
ghost use Rattle.std.specs.Prelude.{◌≡◌, ℕ, None, Some, OnOk, OnErr};
ghost use Rattle.std.specs.FinMap.{empty};
ghost use Rattle.hs_changes.specs.Settings.{set_row};
ghost use Rattle.hs_plainrows.specs.Ready.{tables_of, IsReady};

use crate::held::{next_at, numbers_at, put_at, remove_at, row_at};
use hs_base::{NoMemory, RowNo, RowNos, TableNo};
use hs_expression::RowRef;
use hs_rel::EvalStop;
use hs_rows::Rows;
use hs_values::Row;
use std::alloc::Global;
use std::collections::BTreeMap;

/// The rows of tables in memory, each by its table's number and its own. Nothing is read from elsewhere, so that no look
/// at a row stops. No index is kept: all rows of a table are looked at for those that have a key. Contracts see the rows
/// of each table.
#[derive(Drop)]
pub struct PlainRows {
    // Each table that had a row once.
    tables: BTreeMap<u64, BTreeMap<u64, Row>>,
    brought: Option<(u64, u64)>,
    alloc: Global,
}

impl PlainRows {
    /// No rows. Takes no memory.
    pub fn new(alloc: Global) -> PlainRows
        ensures rows { (table : ℕ) → tables_of result table ≡ empty }
        ensures ready { IsReady result }
    {
        PlainRows {
            tables: BTreeMap::new(alloc),
            brought: None,
            alloc,
        }
    }

    /// Gives a row of a table these values, and puts it there where it isn't yet. After an `Err`, which is want of memory,
    /// the rows are as they were.
    pub fn put(&mut self, table: TableNo, row: RowNo, values: Row) -> Result<(), NoMemory>
        ensures ok { OnOk result ((t : ℕ) → tables_of self.new t ≡ set_row (tables_of self.old) (record { table = table.0; row = row.0; values = Some values }) t) }
        ensures err { OnErr result ((t : ℕ) → tables_of self.new t ≡ tables_of self.old t) }
        ensures ready { IsReady self.new }
    {
        self.brought = None;
        put_at(&mut self.tables, self.alloc, table, row, values)
    }

    /// Takes a row of a table out, where it is there. Takes no memory.
    pub fn remove(&mut self, table: TableNo, row: RowNo)
        ensures rows { (t : ℕ) → tables_of self.new t ≡ set_row (tables_of self.old) (record { table = table.0; row = row.0; values = None }) t }
        ensures ready { IsReady self.new }
    {
        self.brought = None;
        remove_at(&mut self.tables, table, row);
    }
}

impl Rows for PlainRows {
    ghost use Rattle.std.specs.Prelude.{◌≡◌, [], ⊤, refl};
    ghost use Rattle.std.proofs.Common.{◌∙◌};
    ghost use Rattle.hs_plainrows.specs.Ready.{tables_of, IsReady};

    ghost ready = { IsReady };

    ghost tells = { λ r. ⊤ };

    ghost tables = { tables_of };

    ghost brought = { λ r. r.brought };

    ghost disk_faults = { λ r. 0 };

    ghost is_no_page = { λ r page. ⊥ };

    ghost borrows = { λ r. [] };

    ghost looked = { λ stop old new. new.tables ≡ old.tables };

    ghost not_looked = { λ a. refl };

    ghost looked_on = { λ stop a b c first later. later ∙ first };

    ghost tells_on = { λ a b looked tells. tt };

    fn next_row(&self, table: TableNo, after: Option<RowNo>) -> Option<RowNo> {
        next_at(&self.tables, table, after)
    }

    fn bring(&mut self, table: TableNo, row: RowNo) -> Result<bool, EvalStop> {
        if row_at(&self.tables, table, row).is_none() {
            return Ok(false);
        }
        self.brought = Some((table.0, row.0));
        Ok(true)
    }

    fn look(&self, table: TableNo, row: RowNo) -> RowRef<'_> {
        match row_at(&self.tables, table, row) {
            Some(row) => RowRef::Held(row),
            None => unreachable!(),
        }
    }

    fn index_among(&self, _table: TableNo, _columns: &[u32]) -> Option<&[u32]> {
        None
    }

    fn rows_with(&self, table: TableNo, columns: &[u32], key: &Row) -> Result<RowNos, NoMemory> {
        numbers_at(&self.tables, self.alloc, table, columns, key)
    }
}

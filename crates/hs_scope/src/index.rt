// Columns by their names, for long lists.
ghost use Rattle.std.specs.Prelude.{◌≡◌, [], List, None, OnOk, IfOk, ◌+◌, ◌<◌, ◌^◌, ◌||◌, ◌++◌, ◌∷◌, length};
ghost use Rattle.std.specs.HashMap.{get_by_text};
ghost use Rattle.std.specs.Map.{update};
ghost use Rattle.std.specs.Str.{bytes_eq};
ghost use Rattle.hs_scope.specs.Names.{Text, has_name, offers};
ghost use Rattle.hs_scope.specs.Sought.{both, if_passed, columns_from};
ghost use Rattle.hs_scope.specs.Index.{kept_at, kept_in, has_table, IsIndexOf};
ghost use Rattle.hs_scope.specs.declared.from_table.FromTable.{FromTable};
ghost use Rattle.hs_scope.specs.declared.sought.Sought.TheVariants as sought;

use crate::column::OutputColumn;
use crate::from_table::FromTable;
use crate::sought::Sought;
use hs_base::NoMemory;
use indexmap::IndexMap;
use std::alloc::Global;

/// What each name means among columns.
#[derive(Drop)]
pub(crate) struct ColumnIndex {
    names: IndexMap<String, Sought>,
}

impl ColumnIndex {
    pub(crate) fn new(alloc: Global) -> ColumnIndex
        ensures { (name : Text) → kept_at result.names.entries name ≡ sought.Missing }
    {
        ColumnIndex {
            names: IndexMap::new(alloc),
        }
    }

    pub(crate) fn find(&self, name: &str) -> Sought
        ensures { result ≡ kept_at self.now.names.entries name.now }
    {
        match self.names.get(name) {
            Some(found) => *found,
            None => Sought::Missing,
        }
    }

    // Adds a column of a name.
    fn add(&mut self, name: &str, here: Sought) -> Result<(), NoMemory>
        ensures { OnOk result ((n : Text) → kept_at self.new.names.entries n ≡ both (kept_at self.old.names.entries n) (if_passed (bytes_eq n name.now) here)) }
    {
        let found = self.find(name).and(here);
        let alloc = *self.names.allocator();
        let key = String::from_str(alloc, name)?;
        self.names.insert(key, found)?;
        Ok(())
    }

    // Adds a column, where it has a name.
    fn add_column(&mut self, column: &OutputColumn, at: u32) -> Result<(), NoMemory>
        ensures { OnOk result ((n : Text) → kept_at self.new.names.entries n ≡ both (kept_at self.old.names.entries n) (if_passed (has_name n column.now) (sought.One at column.now.kind))) }
    {
        match &column.name {
            Some(name) => self.add(
                name.as_str(),
                Sought::One {
                    at,
                    kind: column.kind,
                },
            ),
            None => Ok(()),
        }
    }

    /// Adds columns of which the first is at the place `first`.
    pub(crate) fn add_columns(
        &mut self,
        columns: &[OutputColumn],
        first: u32,
    ) -> Result<(), NoMemory>
        requires { first + length columns.now < 2 ^ 32 }
        ensures { OnOk result ((n : Text) → kept_at self.new.names.entries n ≡ both (kept_at self.old.names.entries n) (columns_from first n columns.now)) }
    {
        let mut at = first;
        for column in columns {
            self.add_column(column, at)?;
            at += 1;
        }
        Ok(())
    }
}

/// What each name means among the columns of tables, and what it means with a table's name in front.
#[derive(Drop)]
pub(crate) struct TableIndex {
    names: ColumnIndex,
    by_table: IndexMap<String, ColumnIndex>,
}

// Takes out what is kept for the tables of a name.
fn take_columns(by_table: &mut IndexMap<String, ColumnIndex>, table: &str) -> ColumnIndex
    ensures columns { (n : Text) → kept_at result.names.entries n ≡ kept_in by_table.old.entries table.now n }
    ensures others { (t : Text) → get_by_text by_table.new t ≡ update bytes_eq (get_by_text by_table.old) table.now None t }
{
    let alloc = *by_table.allocator();
    match by_table.swap_remove(table) {
        Some(index) => index,
        None => ColumnIndex::new(alloc),
    }
}

impl TableIndex {
    fn new(alloc: Global) -> TableIndex
        ensures { IsIndexOf result.names.names.entries result.by_table.entries [] }
    {
        TableIndex {
            names: ColumnIndex::new(alloc),
            by_table: IndexMap::new(alloc),
        }
    }

    pub(crate) fn has_table(&self, table: &str) -> bool
        ensures { result ≡ has_table self.now.by_table.entries table.now }
    {
        self.by_table.contains_key(table)
    }

    pub(crate) fn find(&self, name: &str) -> Sought
        ensures { result ≡ kept_at self.now.names.names.entries name.now }
    {
        self.names.find(name)
    }

    pub(crate) fn find_in(&self, table: &str, name: &str) -> Sought
        ensures { result ≡ kept_in self.now.by_table.entries table.now name.now }
    {
        match self.by_table.get(table) {
            Some(columns) => columns.find(name),
            None => Sought::Missing,
        }
    }

    // Adds columns of a table of this name.
    fn add_to(&mut self, table: &str, columns: &[OutputColumn], first: u32) -> Result<(), NoMemory>
        requires { first + length columns.now < 2 ^ 32 }
        ensures names { self.new.names ≡ self.old.names }
        ensures pairs { OnOk result ((t n : Text) → kept_in self.new.by_table.entries t n ≡ both (kept_in self.old.by_table.entries t n) (if_passed (bytes_eq t table.now) (columns_from first n columns.now))) }
        ensures there { OnOk result ((t : Text) → has_table self.new.by_table.entries t ≡ (has_table self.old.by_table.entries t || bytes_eq t table.now)) }
    {
        let alloc = *self.by_table.allocator();
        let mut index = take_columns(&mut self.by_table, table);
        index.add_columns(columns, first)?;
        let key = String::from_str(alloc, table)?;
        self.by_table.insert(key, index)?;
        Ok(())
    }

    /// Adds a table, whose first column has the place `first`.
    pub(crate) fn add(&mut self, table: &FromTable, first: u32) -> Result<(), NoMemory>
        requires { first + length table.now.columns < 2 ^ 32 }
        ensures { (before : List FromTable) → first ≡ length (offers before) → IsIndexOf self.old.names.names.entries self.old.by_table.entries before → OnOk result (IsIndexOf self.new.names.names.entries self.new.by_table.entries (before ++ table.now ∷ [])) }
    {
        self.names.add_columns(table.columns.as_slice(), first)?;
        self.add_to(table.name.as_str(), table.columns.as_slice(), first)
    }

    /// The index of tables.
    pub(crate) fn of(tables: &[FromTable], alloc: Global) -> Result<TableIndex, NoMemory>
        requires { length (offers tables.now) < 2 ^ 32 }
        ensures { IfOk result (λ made. IsIndexOf made.names.names.entries made.by_table.entries tables.now) }
    {
        let mut made = TableIndex::new(alloc);
        let mut first: u32 = 0;
        for table in tables {
            made.add(table, first)?;
            first += table.columns.len() as u32;
        }
        Ok(made)
    }
}

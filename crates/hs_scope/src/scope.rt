// What one FROM offers.
ghost use Rattle.std.specs.Prelude.{◌≡◌, ◌+◌, ◌<◌, ◌^◌, [], ◌∷◌, ◌++◌, length, None, Some, IfOk, OnOk, OnErr, IfSome};
ghost use Rattle.std.specs.Option.{option_map};
ghost use Rattle.hs_scope.specs.Names.{every_column, offers, is_offered, sought_in};
ghost use Rattle.hs_scope.specs.Sought.{offers_from};
ghost use Rattle.hs_scope.specs.Index.{IsIndexOf};

use crate::column::{OutputColumn, seek};
use crate::from_table::FromTable;
use crate::index::TableIndex;
use crate::sought::Sought;
use hs_ast::ColumnName;
use hs_base::NoMemory;
use sqlite_items::Items;
use std::alloc::Global;
use std::marker::Model;

/// Fewer tables than these, each of fewer columns than these, are looked through one by one.
const FEW_TABLES: usize = 8;

const FEW_COLUMNS: usize = 65;

/// The tables of a FROM, or those of them that stand before an ON. Contracts see their list.
#[derive(Drop)]
pub struct Scope {
    tables: Vec<FromTable>,
    /// How many columns they have.
    width: u32,
    // None where the tables and columns are few.
    index: Option<TableIndex>,
}

impl Model for Scope {
    ghost use Rattle.std.specs.Prelude.{◌≡◌, ◌<◌, ◌^◌, List, length, IfSome};
    ghost use Rattle.hs_scope.specs.declared.from_table.FromTable.{FromTable};
    ghost use Rattle.hs_scope.specs.Names.{offers};
    ghost use Rattle.hs_scope.specs.Index.{IsIndexOf};

    ghost Value = { List FromTable };

    ghost view = { λ s. s.tables.items };

    ghost invariant = { λ s. (s.width ≡ length (offers s.tables.items)) × (length (offers s.tables.items) < 2 ^ 32) × IfSome s.index (λ i. IsIndexOf i.names.names.entries i.by_table.entries s.tables.items) };
}

impl Scope {
    /// No tables. Takes no memory.
    pub fn new(alloc: Global) -> Scope
        ensures { result ≡ [] }
    {
        Scope {
            tables: Vec::new(alloc),
            width: 0,
            index: None,
        }
    }

    /// Its tables in order.
    pub fn tables(&self) -> &[FromTable]
        ensures { result.now ≡ self.now }
    {
        &self.tables
    }

    /// How many columns its tables have.
    pub fn width(&self) -> u32
        ensures { result ≡ length (offers self.now) }
    {
        self.width
    }

    /// Whether a table of this name is among them. A second one is ambiguous.
    pub fn has_table(&self, name: &str) -> bool
        ensures { result ≡ is_offered self.now name.now }
    {
        match &self.index {
            Some(index) => index.has_table(name),
            None => self.tables.iter().any(|table| name == table.name.as_str()),
        }
    }

    /// The column of a name, among those of all tables.
    pub fn find(&self, column: &str) -> Sought
        ensures { result ≡ sought_in self.now None column.now }
    {
        match &self.index {
            Some(index) => index.find(column),
            None => seek_in(&self.tables, None, column),
        }
    }

    /// The column of a name, among those of the tables of a name.
    pub fn find_in(&self, table: &str, column: &str) -> Sought
        ensures { result ≡ sought_in self.now (Some table.now) column.now }
    {
        match &self.index {
            Some(index) => index.find_in(table, column),
            None => seek_in(&self.tables, Some(table), column),
        }
    }

    /// The column that a name means.
    pub fn find_name(&self, name: &ColumnName) -> Sought
        ensures { result ≡ sought_in self.now name.now.table name.now.column }
    {
        match &name.table {
            Some(table) => self.find_in(table.as_str(), name.column.as_str()),
            None => self.find(name.column.as_str()),
        }
    }

    /// All columns in order, as `*` shows them. An `Err` is want of memory.
    pub fn every_column(&self, alloc: Global) -> Result<Items<OutputColumn>, NoMemory>
        ensures { IfOk result (λ all. all ≡ every_column self.now) }
    {
        columns_of(&self.tables, alloc)
    }

    /// Puts a table behind the others. After an `Err`, which is want of memory, nothing is changed.
    pub fn push(&mut self, alloc: Global, table: FromTable) -> Result<(), NoMemory>
        ensures ok { OnOk result (self.new ≡ self.old ++ table ∷ []) }
        ensures err { OnErr result (self.new ≡ self.old) }
    {
        let first = self.width;
        let Some(width) = widened(first, table.columns.len()) else {
            return Err(NoMemory);
        };
        let index = grown(self.index.take(), &self.tables, &table, first, alloc)?;
        self.tables.push(table)?;
        self.width = width;
        self.index = index;
        Ok(())
    }

    /// Puts the tables of another one behind the others. An `Err` is want of memory.
    pub fn append(&mut self, alloc: Global, more: Scope) -> Result<(), NoMemory>
        ensures { OnOk result (self.new ≡ self.old ++ more) }
    {
        for table in more.tables {
            self.push(alloc, table)?;
        }
        Ok(())
    }
}

fn widened(width: u32, more: usize) -> Option<u32>
    ensures { IfSome result (λ w. w ≡ width + more) }
{
    match u32::try_from(more) {
        Ok(more) => width.checked_add(more),
        Err(_) => None,
    }
}

// The index of tables, where they aren't few.
fn indexed(
    index: Option<TableIndex>,
    tables: &[FromTable],
    alloc: Global,
) -> Result<Option<TableIndex>, NoMemory>
    requires was { IfSome index (λ i. IsIndexOf i.names.names.entries i.by_table.entries tables.now) }
    requires room { length (offers tables.now) < 2 ^ 32 }
    ensures { IfOk result (λ made. IfSome made (λ i. IsIndexOf i.names.names.entries i.by_table.entries tables.now)) }
{
    match index {
        Some(index) => Ok(Some(index)),
        None => {
            if are_few(tables) {
                return Ok(None);
            }
            Ok(Some(TableIndex::of(tables, alloc)?))
        }
    }
}

fn are_few(tables: &[FromTable]) -> bool {
    tables.len() < FEW_TABLES && tables.iter().all(|table| table.columns.len() < FEW_COLUMNS)
}

// The index of tables with one more, where they aren't few.
fn grown(
    index: Option<TableIndex>,
    tables: &[FromTable],
    table: &FromTable,
    first: u32,
    alloc: Global,
) -> Result<Option<TableIndex>, NoMemory>
    requires was { IfSome index (λ i. IsIndexOf i.names.names.entries i.by_table.entries tables.now) }
    requires first { first ≡ length (offers tables.now) }
    requires room { first + length table.now.columns < 2 ^ 32 }
    ensures { IfOk result (λ made. IfSome made (λ i. IsIndexOf i.names.names.entries i.by_table.entries (tables.now ++ table.now ∷ []))) }
{
    match indexed(index, tables, alloc)? {
        Some(mut made) => {
            made.add(table, first)?;
            Ok(Some(made))
        }
        None => Ok(None),
    }
}

fn columns_of(tables: &[FromTable], alloc: Global) -> Result<Items<OutputColumn>, NoMemory>
    ensures { IfOk result (λ all. all ≡ every_column tables.now) }
{
    let mut all = Items::new(alloc);
    for table in tables {
        copy_behind(&mut all, table.columns.as_slice())?;
    }
    Ok(all)
}

fn copy_behind(all: &mut Items<OutputColumn>, columns: &[OutputColumn]) -> Result<(), NoMemory>
    ensures { OnOk result (all.new ≡ all.old ++ columns.now) }
{
    for column in columns {
        all.push(column.copy()?)?;
    }
    Ok(())
}

// The column of a name among those of the tables of a name, or of all.
fn seek_in(tables: &[FromTable], table: Option<&str>, column: &str) -> Sought
    requires { length (offers tables.now) < 2 ^ 32 }
    ensures { result ≡ offers_from 0 (option_map (λ t. t.now) table.entry) column.now (offers tables.now) }
{
    let mut found = Sought::Missing;
    let mut first: u32 = 0;
    for one in tables {
        let here = seek(one.columns.as_slice(), column, first);
        found = found.and(here.if_passed(one.is_asked(table)));
        first += one.columns.len() as u32;
    }
    found
}

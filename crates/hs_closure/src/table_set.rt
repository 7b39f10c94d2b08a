// Numbers of tables, each once.
ghost use Rattle.std.specs.Prelude.{◌≡◌, ◌<◌, ◌^◌, [], nat_eq, not, filter, map, slice_get, length, IfOk, OnOk};
ghost use Rattle.std.specs.List.{IsDistinct};
ghost use Rattle.std.specs.List.Sorted.{IsStrictlyIncreasing};
ghost use Rattle.std.specs.Option.{option_map};
ghost use Rattle.indexmap.specs.IndexSet.{insert_key, insert_all};
ghost use Rattle.hs_closure.specs.Sets as spec;

use hs_base::{NoMemory, TableNo, Tables};
use indexmap::IndexSet;
use std::alloc::Global;
use std::marker::Model;

/// A set of tables. Contracts see the list of their numbers, each once.
#[derive(Drop)]
pub(crate) struct TableSet {
    numbers: IndexSet<u64>,
}

impl Model for TableSet {
    ghost use Rattle.std.specs.Prelude.{List, ℕ};

    ghost Value = { List ℕ };

    ghost view = { λ s. s.numbers.keys };
}

impl TableSet {
    /// No table. Takes no memory.
    pub(crate) fn new(alloc: Global) -> TableSet
        ensures { result ≡ [] }
    {
        TableSet {
            numbers: IndexSet::new(alloc),
        }
    }

    pub(crate) fn as_slice(&self) -> &[u64]
        ensures { result.now ≡ self.now }
    {
        self.numbers.as_slice()
    }

    /// The table at a place, in the order in which they were added.
    pub(crate) fn get(&self, at: usize) -> Option<TableNo>
        ensures { option_map (λ t. t.0) result ≡ slice_get self.now at }
    {
        match self.numbers.get_index(at) {
            Some(number) => Some(TableNo(*number)),
            None => None,
        }
    }

    pub(crate) fn has(&self, table: TableNo) -> bool
        ensures { result ≡ spec.is_in self.now table.0 }
    {
        self.numbers.contains(&table.0)
    }

    /// Puts a table behind the others, where it is new.
    pub(crate) fn add(&mut self, table: TableNo) -> Result<(), NoMemory>
        ensures { OnOk result (self.new ≡ insert_key nat_eq self.old table.0) }
    {
        self.numbers.insert(table.0)?;
        Ok(())
    }

    /// Adds tables in turn.
    pub(crate) fn add_all(&mut self, tables: &[TableNo]) -> Result<(), NoMemory>
        ensures { OnOk result (self.new ≡ insert_all nat_eq self.old (map (λ t. t.0) tables.now)) }
    {
        for table in tables {
            self.add(*table)?;
        }
        Ok(())
    }

    /// Adds the tables of another set in turn.
    pub(crate) fn add_set(&mut self, more: &TableSet) -> Result<(), NoMemory>
        ensures { OnOk result (self.new ≡ insert_all nat_eq self.old more.now) }
    {
        for number in more.as_slice() {
            self.add(TableNo(*number))?;
        }
        Ok(())
    }

    /// Its tables but those of another set, in ascending order.
    pub(crate) fn list_without(
        mut self,
        alloc: Global,
        other: &TableSet,
    ) -> Result<Tables, NoMemory>
        ensures ascending { IfOk result (λ tables. IsStrictlyIncreasing (map (λ t. t.0) tables)) }
        ensures members { IfOk result (λ tables. spec.HasExactly (spec.is_only_in self other.now) tables) }
    {
        self.numbers.sort()?;
        numbers_without(alloc, self.numbers.as_slice(), other)
    }
}

// The tables of numbers, but those of a set.
fn numbers_without(alloc: Global, numbers: &[u64], other: &TableSet) -> Result<Tables, NoMemory>
    ensures { IfOk result (λ tables. map (λ t. t.0) tables ≡ filter (λ n. not (spec.is_in other.now n)) numbers.now) }
{
    let mut tables = Tables::new(alloc);
    for number in numbers {
        let table = TableNo(*number);
        if !other.has(table) {
            tables.push(table)?;
        }
    }
    Ok(tables)
}

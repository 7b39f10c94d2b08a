// An index: rows by key.
ghost use Rattle.std.specs.Prelude.{◌≡◌, ◌↔◌, [], false, None, Some, IsTrue, OnOk, OnErr, if◌then◌else◌};
ghost use Rattle.hs_index.specs.Keys.{same_key};
ghost use Rattle.hs_index.specs.Rows.{list_of, rows_with, Exchanges, Puts, Takes};
ghost use Rattle.hs_index.specs.RowSets.{IsAscending};

use crate::row_set::RowSet;
use hs_base::{NoMemory, RowNo};
use hs_values::Row;
use std::alloc::Global;
use std::collections::BTreeMap;
use std::marker::Model;

/// For each key its rows, in ascending order and none twice. Keys that are equal are one key, as 1 and 1.00 are.
/// Contracts see the list of the keys with their rows, and read it by `rows_with`.
#[derive(Drop)]
pub struct Index {
    // For each key that a row has its rows.
    lists: BTreeMap<Row, RowSet>,
    alloc: Global,
}

impl Model for Index {
    ghost use Rattle.std.specs.Prelude.{List};
    ghost use Rattle.hs_base.specs.declared.numbers.RowNo.{RowNo};
    ghost use Rattle.hs_values.specs.declared.value.Value.{Value as SqlValue};

    ghost Value = { List (List SqlValue × List RowNo) };

    ghost use Rattle.hs_index.specs.Kept.{IsKept};

    ghost view = { λ a. a.lists.entries };

    ghost invariant = { λ a. IsKept a.lists.entries };
}

impl Index {
    /// The index in which no key has a row. Takes no memory.
    pub fn new(alloc: Global) -> Index
        ensures { (key : _) → rows_with result key ≡ [] }
    {
        Index {
            lists: BTreeMap::new(alloc),
            alloc,
        }
    }

    /// The rows of a key, in ascending order: none exactly where no row has it. Takes no memory.
    pub fn find(&self, key: &Row) -> &[RowNo]
        ensures rows { result.now ≡ rows_with self.now key.now }
        ensures ascending { IsAscending result.now }
    {
        match self.lists.get(key) {
            Some(rows) => rows.as_slice(),
            None => &[],
        }
    }

    /// Puts a row under a key, where it isn't there yet. After an `Err`, which is want of memory, nothing is changed.
    pub fn insert(&mut self, key: Row, row: RowNo) -> Result<(), NoMemory>
        ensures ok { OnOk result (Puts self.old self.new key row) }
        ensures err { OnErr result (self.new ≡ self.old) }
    {
        let alloc = self.alloc;
        if let Some(rows) = self.lists.get_mut(&key) {
            return rows.put(alloc, row);
        }
        self.lists.insert(key, RowSet::of(row))?;
        Ok(())
    }

    /// Puts a row in the place of another under a key, or under the key as `insert` does where that other one isn't there.
    /// After an `Err`, which is want of memory, nothing is changed.
    pub fn exchange(&mut self, key: Row, from: RowNo, to: RowNo) -> Result<(), NoMemory>
        ensures ok { OnOk result (Exchanges self.old self.new key from to) }
        ensures ascending { (k : _) → IsAscending (rows_with self.old k) }
        ensures err { OnErr result (self.new ≡ self.old) }
    {
        let alloc = self.alloc;
        if let Some(rows) = self.lists.get_mut(&key) {
            return rows.exchange(alloc, from, to);
        }
        self.lists.insert(key, RowSet::of(to))?;
        Ok(())
    }

    /// Takes a row out from under a key, where it is there. Takes no memory.
    pub fn remove(&mut self, key: &Row, row: RowNo)
        ensures taken { Takes self.old self.new key.now row }
        ensures ascending { (k : _) → IsAscending (rows_with self.old k) }
    {
        if take_from(&mut self.lists, key, row, self.alloc) {
            drop_list(&mut self.lists, key);
        }
    }
}

// Takes a row out from under a key, and says whether this left the key's list empty.
fn take_from(lists: &mut BTreeMap<Row, RowSet>, key: &Row, row: RowNo, alloc: Global) -> bool
    requires { (k : _) → IsAscending (rows_with lists.old.entries k) }
    ensures rows { Takes lists.old.entries lists.new.entries key.now row }
    ensures left { IsTrue result ↔ (list_of lists.new.entries key.now ≡ Some []) }
    ensures others { (k : _) → same_key key.now k ≡ false → list_of lists.new.entries k ≡ list_of lists.old.entries k }
{
    let Some(rows) = lists.get_mut(key) else {
        return false;
    };
    rows.take(alloc, row);
    rows.is_empty()
}

// Lets the list of a key go.
fn drop_list(lists: &mut BTreeMap<Row, RowSet>, key: &Row)
    ensures { (k : _) → list_of lists.new.entries k ≡ (if same_key key.now k then None else list_of lists.old.entries k) }
{
    let _gone = lists.remove(key);
}

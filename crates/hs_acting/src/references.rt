// The foreign keys by the tables that they reference.
ghost use Rattle.std.specs.Prelude.{◌≡◌, ℕ, ◌==◌, [], ◌∷◌, ◌++◌, OnOk, IfOk, if◌then◌else◌};
ghost use Rattle.hs_actions.specs.Referencing.{keys_on};
ghost use Rattle.hs_acting.specs.Kept.{keys_in};

use hs_actions::Reference;
use hs_base::{NoMemory, TableNo};
use sqlite_items::Items;
use std::alloc::Global;
use std::collections::BTreeMap;

/// For tables the foreign keys that reference them, in the order in which they were put.
#[derive(Drop)]
pub struct References {
    lists: BTreeMap<u64, Items<Reference>>,
}

impl References {
    /// No foreign keys. Takes no memory.
    pub fn new(alloc: Global) -> References
        ensures { keys_in result ≡ [] }
    {
        References {
            lists: BTreeMap::new(alloc),
        }
    }

    /// Those that reference a table.
    pub fn on(&self, table: TableNo) -> &[Reference]
        ensures { result.now ≡ keys_on (keys_in self.now) table.0 }
    {
        match self.lists.get(&table.0) {
            Some(list) => list.as_slice(),
            None => &[],
        }
    }

    /// Puts one behind those that reference a table. An `Err` is want of memory.
    pub fn push(&mut self, alloc: Global, table: TableNo, key: Reference) -> Result<(), NoMemory>
        ensures { OnOk result ((t : ℕ) → keys_on (keys_in self.new) t ≡ keys_on (keys_in self.old) t ++ (if t == table.0 then key ∷ [] else [])) }
    {
        if let Some(list) = self.lists.get_mut(&table.0) {
            list.push(key)?;
            return Ok(());
        }
        let list = one(alloc, key)?;
        self.lists.insert(table.0, list)?;
        Ok(())
    }
}

fn one(alloc: Global, key: Reference) -> Result<Items<Reference>, NoMemory>
    ensures { IfOk result (λ list. list ≡ key ∷ []) }
{
    let mut list = Items::new(alloc);
    list.push(key)?;
    Ok(list)
}

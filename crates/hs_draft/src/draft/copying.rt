// Copies of rows.
ghost use Rattle.std.specs.Prelude.{◌≡◌, ℕ, cond, [], Some, IfOk, OnOk};
ghost use Rattle.std.specs.Map.{lookup};
ghost use Rattle.hs_draft.specs.Drafted.{after, before, is, touched, rows_at};

use crate::draft::Draft;
use hs_base::NoMemory;
use hs_keyed::KeyedRows;
use std::alloc::Global;
use std::collections::BTreeMap;

impl Draft {
    /// The rows of all tables as they are once more, with no index. They count as those before the changes to come. An
    /// `Err` is want of memory.
    pub fn copy(&self, alloc: Global) -> Result<Draft, NoMemory>
        ensures after { IfOk result (λ copied. (t : ℕ) → after copied t ≡ after self.now t) }
        ensures before { IfOk result (λ copied. (t : ℕ) → before copied t ≡ after self.now t) }
        ensures touched { IfOk result (λ copied. (t : ℕ) → touched copied t ≡ []) }
    {
        let tables = copied(alloc, &self.tables)?;
        Ok(Draft {
            tables,
            olds: BTreeMap::new(alloc),
            none: KeyedRows::new(alloc),
            alloc,
        })
    }
}

// These tables once more.
fn copied(
    alloc: Global,
    tables: &BTreeMap<u64, KeyedRows>,
) -> Result<BTreeMap<u64, KeyedRows>, NoMemory>
    ensures { IfOk result (λ made. (t : ℕ) → rows_at made.entries t ≡ rows_at tables.now.entries t) }
{
    let mut made = BTreeMap::new(alloc);
    for (number, rows) in tables {
        put_copy(&mut made, alloc, *number, rows)?;
    }
    Ok(made)
}

// Puts a copy of a table's rows among others.
fn put_copy(
    made: &mut BTreeMap<u64, KeyedRows>,
    alloc: Global,
    number: u64,
    rows: &KeyedRows,
) -> Result<(), NoMemory>
    ensures { OnOk result ((q : ℕ) → lookup (is q) made.new.entries ≡ cond (is number q) (Some rows.now) (lookup (is q) made.old.entries)) }
{
    let again = rows.copy(alloc)?;
    made.insert(number, again)?;
    Ok(())
}

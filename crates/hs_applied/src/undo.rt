// What rows were before they were set.
ghost use Rattle.std.specs.Prelude.{◌≡◌, ◌∷◌, ◌++◌, [], IfOk, OnOk, OnErr};
ghost use Rattle.std.specs.FinMap.{get};
ghost use Rattle.std.specs.Option.{option_copied};
ghost use Rattle.hs_draft.specs.Drafted.{after, before};
ghost use Rattle.hs_applied.specs.Applied.{AreSet, Keeps};
ghost use Rattle.hs_applied.specs.Undone.{olds_of, setting_of, undone};

use crate::setting::set;
use hs_base::{NoMemory, RowNo, TableNo};
use hs_draft::Draft;
use hs_values::Row;
use std::alloc::Global;

/// A row as it was before it was set: None where it wasn't there.
#[derive(Drop)]
pub(crate) struct OldRow {
    pub(crate) table: TableNo,
    pub(crate) row: RowNo,
    pub(crate) values: Option<Row>,
}

/// What rows of a draft were before they were set, the oldest first, so that they can be put back.
#[derive(Drop)]
pub struct Undo {
    pub(crate) olds: Vec<OldRow>,
}

fn copied(row: Option<&Row>) -> Result<Option<Row>, NoMemory>
    ensures { IfOk result (λ copied. copied ≡ option_copied row.entry) }
{
    match row {
        Some(row) => Ok(Some(row.copy()?)),
        None => Ok(None),
    }
}

// Puts a row back as it was. After an `Err` the rows are as they were.
fn put_back(draft: &mut Draft, old: &OldRow) -> Result<(), NoMemory>
    ensures set { OnOk result (AreSet (setting_of old.now ∷ []) draft.old draft.new) }
    ensures err { OnErr result (after draft.new ≡ after draft.old) }
    ensures before { before draft.new ≡ before draft.old }
{
    let values = copied(old.values.as_ref())?;
    set(draft, old.table, old.row, values)
}

impl Undo {
    /// No rows were set. Takes no memory.
    pub fn new(alloc: Global) -> Undo
        ensures { olds_of result ≡ [] }
    {
        Undo {
            olds: Vec::new(alloc),
        }
    }

    /// Keeps what a row of a draft is.
    fn keep(&mut self, draft: &Draft, table: TableNo, row: RowNo) -> Result<(), NoMemory>
        ensures ok { OnOk result (olds_of self.new ≡ olds_of self.old ++ record { table = table.0; row = row.0; values = get (after draft.now table.0) row.0 } ∷ []) }
        ensures err { OnErr result (olds_of self.new ≡ olds_of self.old) }
    {
        let values = copied(draft.rows(table).get(row))?;
        self.olds.push(OldRow { table, row, values })?;
        Ok(())
    }

    /// Gives a row of a draft these values, or takes it out, and keeps what it was.
    pub(crate) fn set(
        &mut self,
        draft: &mut Draft,
        table: TableNo,
        row: RowNo,
        values: Option<Row>,
    ) -> Result<(), NoMemory>
        ensures set { OnOk result (AreSet (record { table = table.0; row = row.0; values = values } ∷ []) draft.old draft.new) }
        ensures keeps { Keeps draft.old draft.new (olds_of self.old) (olds_of self.new) }
    {
        self.keep(draft, table, row)?;
        set(draft, table, row, values)
    }

    /// Puts the rows of a draft back as they were. After an `Err`, which is want of memory, some may be back, and the
    /// rest is kept: the call may be made again.
    pub fn take_back(&mut self, draft: &mut Draft) -> Result<(), NoMemory>
        ensures after { OnOk result (after draft.new ≡ undone (after draft.old) (olds_of self.old)) }
        ensures none { OnOk result (olds_of self.new ≡ []) }
        ensures keeps { Keeps draft.old draft.new (olds_of self.old) (olds_of self.new) }
    {
        while !self.olds.is_empty() {
            let last = self.olds.len() - 1;
            put_back(draft, &self.olds[last])?;
            self.olds.truncate(last);
        }
        Ok(())
    }
}

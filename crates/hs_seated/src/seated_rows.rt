// The rows of all tables, as constraints and queries look at them.
ghost use Rattle.std.specs.Prelude.{◌≡◌, ℕ, ◌==◌, ◌&&◌, ◌||◌, [], IfOk, OnOk};
ghost use Rattle.std.specs.FinMap.{empty};
ghost use Rattle.hs_changes.specs.Settings.{Maps, set_row};
ghost use Rattle.hs_draft.specs.Drafted.{after, before, touched};
ghost use Rattle.hs_sentences.specs.Asking.{is_one_of};
ghost use Rattle.hs_seated.specs.Rows.{AreRows};

use hs_base::{NoMemory, RowNo, TableNo};
use hs_draft::Draft;
use hs_values::Row;
use std::alloc::Global;

/// The rows of all tables, with what changed rows were before. Constraints look at the draft, and queries through
/// `DraftRows`.
#[derive(Drop)]
pub struct SeatedRows {
    pub draft: Draft,
}

fn set_draft(
    draft: &mut Draft,
    table: TableNo,
    row: RowNo,
    values: Option<Row>,
) -> Result<(), NoMemory>
    ensures rows { OnOk result ((t : ℕ) → after draft.new t ≡ set_row (after draft.old) (record { table = table.0; row = row.0; values = values }) t) }
    ensures before { (t : ℕ) → before draft.new t ≡ before draft.old t }
    ensures touched { OnOk result ((t n : ℕ) → is_one_of (touched draft.new t) n ≡ ((t == table.0 && n == row.0) || is_one_of (touched draft.old t) n)) }
{
    match values {
        Some(values) => draft.put(table, row, values),
        None => draft.take(table, row),
    }
}

impl SeatedRows {
    /// No rows. Takes no memory.
    pub fn new(alloc: Global) -> SeatedRows
        ensures { AreRows (λ table. empty) result }
    {
        SeatedRows {
            draft: Draft::new(alloc),
        }
    }

    /// Gives a row these values, and puts it there where it isn't yet, or takes it out. After an `Err`, which is want of
    /// memory, nothing is known of the rows.
    pub fn set(&mut self, table: TableNo, row: RowNo, values: Option<Row>) -> Result<(), NoMemory>
        ensures rows { (maps : Maps) → AreRows maps self.old → OnOk result (AreRows (set_row maps (record { table = table.0; row = row.0; values = values })) self.new) }
        ensures before { (t : ℕ) → before self.new.draft t ≡ before self.old.draft t }
        ensures touched { OnOk result ((t n : ℕ) → is_one_of (touched self.new.draft t) n ≡ ((t == table.0 && n == row.0) || is_one_of (touched self.old.draft t) n)) }
    {
        set_draft(&mut self.draft, table, row, values)
    }

    /// The rows as they are count as those before the changes to come. Takes no memory.
    pub fn accept(&mut self)
        ensures rows { (maps : Maps) → AreRows maps self.old → AreRows maps self.new }
        ensures before { (maps : Maps) → AreRows maps self.old → (t : ℕ) → before self.new.draft t ≡ maps t }
        ensures touched { (t : ℕ) → touched self.new.draft t ≡ [] }
    {
        self.draft.accept();
    }

    /// The rows once more, with no index. They count as those before the changes to come. An `Err` is want of memory.
    pub fn copy(&self, alloc: Global) -> Result<SeatedRows, NoMemory>
        ensures rows { (maps : Maps) → AreRows maps self.now → IfOk result (AreRows maps) }
        ensures touched { IfOk result (λ copied. (t : ℕ) → touched copied.draft t ≡ []) }
    {
        let draft = self.draft.copy(alloc)?;
        Ok(SeatedRows { draft })
    }
}

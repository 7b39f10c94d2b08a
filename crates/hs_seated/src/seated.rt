// Rows with the changes of a transaction on them.
ghost use Rattle.std.specs.Prelude.{◌≡◌, ℕ, ◌+◌, ◌-◌, ◌^◌, ◌<◌, ◌≤◌, ◌++◌, ◌∷◌, [], List, false, length, take, IfOk, OnOk};
ghost use Rattle.std.specs.FinMap.{empty, get};
ghost use Rattle.std.specs.List.{list_any};
ghost use Rattle.std.specs.Option.{option_copied};
ghost use Rattle.hs_changes.specs.Changes.{own_row};
ghost use Rattle.hs_changes.specs.Settings.{Maps, set_row};
ghost use Rattle.hs_turns.specs.Database.{Database, apply, is_definition};
ghost use Rattle.hs_draft.specs.Drafted.{after, before, touched};
ghost use Rattle.hs_plan.specs.declared.change.Change.{Change as TheChange};
ghost use Rattle.hs_seated.specs.Rows.{AreRows};
ghost use Rattle.hs_seated.specs.Seated.{inserted_in, setting_back, IsSeated, Touches};
ghost use Rattle.hs_seated.specs.Steps.{IsSet, Makes};

use crate::making::make_all;
use crate::seated_rows::SeatedRows;
use crate::step::Step;
use hs_base::{NoMemory, RowNo, TableNo};
use hs_draft::Draft;
use hs_plan::Change;
use hs_values::Row;
use std::alloc::Global;

// The number before the first one of a row that an open transaction inserts.
const BEFORE_OWN: u64 = 0x8000_0000_0000_0000;

/// The rows of a database, with the changes of one transaction made on them. What each changed row was is kept, so that the
/// changes can be taken back.
#[derive(Drop)]
pub struct Seated {
    pub rows: SeatedRows,
    // What leads back over each change, the oldest first.
    steps: Vec<Step>,
    // How many rows the changes insert.
    inserted: u64,
}

// The number of the row that is inserted behind so many others.
fn own_number(inserted: u64) -> Result<RowNo, NoMemory>
    ensures { IfOk result (λ row. row.0 ≡ own_row (inserted + 1)) }
{
    if inserted >= BEFORE_OWN - 1 {
        // So many rows are beyond all memory.
        return Err(NoMemory);
    }
    Ok(RowNo(BEFORE_OWN + (inserted + 1)))
}

fn copied(row: Option<&Row>) -> Result<Option<Row>, NoMemory>
    ensures { IfOk result (λ copied. copied ≡ option_copied row.entry) }
{
    match row {
        Some(row) => Ok(Some(row.copy()?)),
        None => Ok(None),
    }
}

// What a row is, None where it isn't there.
fn kept(draft: &Draft, table: TableNo, row: RowNo) -> Result<Option<Row>, NoMemory>
    ensures { IfOk result (λ old. old ≡ get (after draft.now table.0) row.0) }
{
    copied(draft.rows(table).get(row))
}

// What a row was before its change.
fn old_of(step: &Step) -> Result<Option<Row>, NoMemory>
    ensures { IfOk result (λ old. old ≡ step.now.old) }
{
    match &step.old {
        Some(values) => Ok(Some(values.copy()?)),
        None => Ok(None),
    }
}

// Gives a row back what it was, and answers how many rows were inserted before its change.
fn put_back(rows: &mut SeatedRows, step: &Step) -> Result<u64, NoMemory>
    ensures rows { (maps : Maps) → AreRows maps rows.old → OnOk result (AreRows (set_row maps (setting_back step.now)) rows.new) }
    ensures inserted { IfOk result (λ inserted. inserted ≡ step.now.inserted) }
{
    let old = old_of(step)?;
    rows.set(step.table, step.row, old)?;
    Ok(step.inserted)
}

// Sets a row behind so many inserts, and keeps what it was.
fn step(
    rows: &mut SeatedRows,
    steps: &mut Vec<Step>,
    inserted: u64,
    table: TableNo,
    row: RowNo,
    values: Option<Row>,
) -> Result<(), NoMemory>
    ensures { OnOk result (IsSet (record { table = table.0; row = row.0; values = values }) inserted rows.old rows.new steps.old.items steps.new.items) }
{
    let old = kept(&rows.draft, table, row)?;
    rows.set(table, row, values)?;
    steps.push(Step {
        table,
        row,
        old,
        inserted,
    })?;
    Ok(())
}

impl Seated {
    /// No rows, and no changes on them. Takes no memory.
    pub fn new(alloc: Global) -> Seated
        ensures { IsSeated (λ table. empty) [] result }
    {
        Seated::over(alloc, SeatedRows::new(alloc))
    }

    /// No changes on these rows. Takes no memory.
    pub fn over(alloc: Global, rows: SeatedRows) -> Seated
        ensures { (maps : Maps) → AreRows maps rows → IsSeated maps [] result }
    {
        Seated {
            rows,
            steps: Vec::new(alloc),
            inserted: 0,
        }
    }

    /// How many changes there are.
    pub fn len(&self) -> usize
        ensures { (maps : Maps) (changes : List TheChange) → IsSeated maps changes self.now → result ≡ length changes }
    {
        self.steps.len()
    }

    fn insert(&mut self, table: TableNo, values: &Row) -> Result<(), NoMemory>
        ensures { OnOk result (Makes (Change.Insert table values.now) self.old self.new) }
    {
        let inserted = self.inserted;
        let row = own_number(inserted)?;
        let values = values.copy()?;
        step(
            &mut self.rows,
            &mut self.steps,
            inserted,
            table,
            row,
            Some(values),
        )?;
        self.inserted = inserted + 1;
        Ok(())
    }

    fn put(&mut self, table: TableNo, row: RowNo, values: &Row) -> Result<(), NoMemory>
        ensures { OnOk result (Makes (Change.Put table row values.now) self.old self.new) }
    {
        let values = values.copy()?;
        step(
            &mut self.rows,
            &mut self.steps,
            self.inserted,
            table,
            row,
            Some(values),
        )
    }

    fn delete(&mut self, table: TableNo, row: RowNo) -> Result<(), NoMemory>
        ensures { OnOk result (Makes (Change.Delete table row) self.old self.new) }
    {
        step(
            &mut self.rows,
            &mut self.steps,
            self.inserted,
            table,
            row,
            None,
        )
    }

    // Makes a change of a row behind the others. A definition is no such change, and is refused.
    fn advance_one(&mut self, change: &Change) -> Result<(), NoMemory>
        ensures { OnOk result (Makes change.now self.old self.new) }
    {
        match change {
            Change::Insert(table, values) => self.insert(*table, values),
            Change::Put(table, row, values) => self.put(*table, *row, values),
            Change::Delete(table, row) => self.delete(*table, *row),
            Change::Define(_) => Err(NoMemory),
        }
    }

    /// Makes changes of rows behind those that are there. The row that the i-th insert of a transaction makes has the number
    /// 2^63 + i. An `Err` is want of memory, or comes at a definition, which is no change of a row; then nothing is known of
    /// the rows.
    pub fn advance(&mut self, changes: &[Change]) -> Result<(), NoMemory>
        ensures seated { (maps : Maps) (seated : List TheChange) → IsSeated maps seated self.old → OnOk result (IsSeated maps (seated ++ changes.now) self.new) }
        ensures touches { OnOk result (Touches (inserted_in self.old) changes.now self.old.rows self.new.rows) }
    {
        for change in changes {
            self.advance_one(change)?;
        }
        Ok(())
    }

    // Takes the last change back.
    fn back_one(&mut self) -> Result<(), NoMemory>
        requires { 0 < length self.old.steps.items }
        ensures seated { (maps : Maps) (seated : List TheChange) → IsSeated maps seated self.old → OnOk result (IsSeated maps (take (length self.old.steps.items - 1) seated) self.new) }
        ensures less { OnOk result (length self.new.steps.items + 1 ≡ length self.old.steps.items) }
    {
        let last = self.steps.len() - 1;
        let inserted = put_back(&mut self.rows, &self.steps[last])?;
        self.inserted = inserted;
        self.steps.truncate(last);
        Ok(())
    }

    /// Takes the changes behind the first so many back. An `Err` is want of memory, and then nothing is known of the rows.
    pub fn back(&mut self, len: usize) -> Result<(), NoMemory>
        ensures { (maps : Maps) (seated : List TheChange) → IsSeated maps seated self.old → OnOk result (IsSeated maps (take len seated) self.new) }
    {
        while self.steps.len() > len {
            self.back_one()?;
        }
        Ok(())
    }

    /// Takes all changes back, and makes these in their place, as those of a commit on a database with so many changes: the row
    /// that is inserted has the number of its change. No changes are on the rows then. An `Err` is want of memory, and then
    /// nothing is known of the rows.
    pub fn commit(&mut self, count: u64, changes: &[Change]) -> Result<(), NoMemory>
        requires { count + length changes.now ≤ 2 ^ 48 }
        ensures { (db : Database) (seated : List TheChange) → IsSeated db.rows seated self.old → db.count ≡ count → list_any is_definition changes.now ≡ false → OnOk result (IsSeated (apply db changes.now).rows [] self.new) }
    {
        self.back(0)?;
        make_all(&mut self.rows, count, changes)?;
        self.rows.accept();
        Ok(())
    }

    /// The rows as they are count as those before the changes to come. Takes no memory.
    pub fn accept(&mut self)
        ensures seated { (maps : Maps) (seated : List TheChange) → IsSeated maps seated self.old → IsSeated maps seated self.new }
        ensures before { (maps : Maps) → AreRows maps self.old.rows → (t : ℕ) → before self.new.rows.draft t ≡ maps t }
        ensures touched { (t : ℕ) → touched self.new.rows.draft t ≡ [] }
        ensures inserted { inserted_in self.new ≡ inserted_in self.old }
    {
        self.rows.accept();
    }
    /// The rows once more, where no changes are on them, with none either. An `Err` is want of memory.
    pub fn copy(&self, alloc: Global) -> Result<Seated, NoMemory>
        ensures { (maps : Maps) → IsSeated maps [] self.now → IfOk result (IsSeated maps []) }
    {
        Ok(Seated::over(alloc, self.rows.copy(alloc)?))
    }
}

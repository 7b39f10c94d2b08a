// LOCK TABLE.
ghost use Rattle.std.specs.Prelude.{◌≡◌};
ghost use Rattle.hs_meaning.specs.Finding.{Finds};
ghost use Rattle.hs_writing.specs.Answers.{Answers};
ghost use Rattle.hs_writing.specs.Statements as spec;

use hs_ast::LockedTable as WrittenLock;
use hs_base::NoMemory;
use hs_columns::with_part;
use hs_drops::answer;
use hs_outlines::note_no_table;
use hs_plan::{BindFault, LockedTable};
use hs_schema::Catalog;
use hs_typed::Faults;
use sqlite_items::Items;
use std::alloc::Global;

#[tactic(auto, unfolding(crate::specs::Statements::lock_meaning))]
fn lock_of(
    l: &WrittenLock,
    catalog: &Catalog,
    faults: &mut Faults,
    alloc: Global,
) -> Result<Option<LockedTable>, NoMemory>
    ensures { Finds (spec.lock_meaning catalog.now l.now) faults.old faults.new result }
{
    let Some(t) = catalog.table(l.table.name.as_str()) else {
        note_no_table(&l.table, faults, alloc)?;
        return Ok(None);
    };
    Ok(Some(LockedTable {
        table: t.number,
        write: l.write,
    }))
}

fn locks_of(
    locks: &[WrittenLock],
    catalog: &Catalog,
    faults: &mut Faults,
    alloc: Global,
) -> Result<Option<Items<LockedTable>>, NoMemory>
    ensures { Finds (spec.locks_meaning catalog.now locks.now) faults.old faults.new result }
{
    let mut made = Some(Items::new(alloc));
    for l in locks {
        let part = lock_of(l, catalog, faults, alloc)?;
        made = with_part(made, part)?;
    }
    Ok(made)
}

/// What LOCK TABLE means over a catalogue. `NoSuch` where a table isn't there, for the leftmost one.
pub fn bind_lock_table(
    catalog: &Catalog,
    locks: &[WrittenLock],
    alloc: Global,
) -> Result<Items<LockedTable>, BindFault>
    ensures { Answers (spec.locks_meaning catalog.now locks.now) result }
{
    let mut faults = Faults::new();
    let locked = locks_of(locks, catalog, &mut faults, alloc)?;
    answer(faults, locked)
}

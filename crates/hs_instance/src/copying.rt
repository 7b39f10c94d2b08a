// Copies of a database.
ghost use Rattle.std.specs.Prelude.{[], IfOk};
ghost use Rattle.hs_changes.specs.Settings.{Maps};
ghost use Rattle.hs_turns.specs.Database.{Database};
ghost use Rattle.hs_instance.specs.Instance.{IsInstance};
ghost use Rattle.hs_seated.specs.Seated.{IsSeated};

use crate::instance::Instance;
use hs_base::NoMemory;
use hs_redefining::index_added;
use hs_references::all_references;
use hs_schema::Catalog;
use hs_seated::Seated;

// Rows once more, with the indexes that the constraints of a catalogue want.
fn copied_rows(cat: &Catalog, seated: &Seated) -> Result<Seated, NoMemory>
    ensures { (maps : Maps) → IsSeated maps [] seated.now → IfOk result (IsSeated maps []) }
{
    let mut copied = seated.copy(cat.alloc())?;
    index_added(cat, 0, &mut copied)?;
    Ok(copied)
}

impl Instance {
    /// The database once more. An `Err` is want of memory, and what was copied by then is given back.
    pub fn copy(&self) -> Result<Instance, NoMemory>
        ensures { (db : Database) → IsInstance db [] self.now → IfOk result (IsInstance db []) }
    {
        let catalog = self.catalog.copy()?;
        let keys = all_references(&catalog)?;
        let seated = copied_rows(&catalog, &self.seated)?;
        Ok(Instance {
            catalog,
            keys,
            seated,
            count: self.count,
            level: self.level,
            control: self.control,
            alloc: self.alloc,
        })
    }
}

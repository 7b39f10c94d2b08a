// A database in memory as one on which commits are made again.
ghost use Rattle.std.specs.Prelude.{IfOk};
ghost use Rattle.hs_turns.specs.Database.{Database};
ghost use Rattle.hs_instance.specs.Lawful.{stands_for};

use crate::instance::Instance;
use crate::making::make_all;
use hs_base::NoMemory;
use hs_logged::Restored;
use hs_plan::Changes;
use hs_schema::Catalog;

/// A database on which commits are made again.
#[derive(Drop)]
pub struct Restoring {
    pub instance: Instance,
}

impl Restoring {
    /// The database once more. An `Err` is want of memory, and what was copied by then is given back.
    pub fn copy(&self) -> Result<Restoring, NoMemory>
        ensures { (db : Database) → stands_for self.now db → IfOk result (λ copied. stands_for copied db) }
    {
        Ok(Restoring {
            instance: self.instance.copy()?,
        })
    }
}

impl Restored for Restoring {
    ghost use Rattle.hs_instance.specs.Lawful.{stands_for, takes as taken};

    ghost stands = { stands_for };

    ghost takes = { taken };

    fn catalog(&self) -> &Catalog {
        &self.instance.catalog
    }

    fn make(&mut self, changes: &Changes) -> Result<bool, NoMemory> {
        make_all(&mut self.instance, changes.as_slice())
    }
}

// A database on which commits are made again.
ghost use Rattle.std.specs.Prelude.{◌≡◌, IfOk, List};
ghost use Rattle.hs_turns.specs.Database.{Database};
ghost use Rattle.hs_plan.specs.declared.change.Change.{Change as TheChange};
ghost use Rattle.hs_logged.specs.Made.{IsHeld, Makes};

use hs_base::NoMemory;
use hs_plan::Changes;
use hs_schema::Catalog;

/// A database on which commits are made again.
pub trait Restored {
    /// It is this database.
    ghost stands: { Self → Database → Type 0 };

    /// Which changes may be made on a database as those of a commit, with the numbers that its rows have behind it: a commit of a
    /// run has such changes, and what they leave is as sound as what was before.
    ghost takes: { Database → List TheChange → Type 0 };

    /// Its catalogue.
    fn catalog(&self) -> &Catalog
        ensures { (db : Database) → stands self.now db → result.now ≡ db.things };

    /// Makes the changes of a commit, where they may be made, and answers whether they may. Where they may not, and after an
    /// `Err`, which is want of memory, nothing is known of it.
    fn make(&mut self, changes: &Changes) -> Result<bool, NoMemory>
        requires { IsHeld stands self.old }
        ensures { (db : Database) → stands self.old db → IfOk result (Makes takes (stands self.new) db changes.now) };
}

// Whether a change may be made.
ghost use Rattle.std.specs.Prelude.{◌≡◌, ℕ};
ghost use Rattle.hs_applicable.specs.Applicable as spec;
ghost use Rattle.hs_turns.specs.Database.{Database};
ghost use Rattle.hs_draft.specs.Drafted.{after};

use crate::dropping::drops_freely;
use crate::proper::is_proper;
use crate::rows::may_make_row;
use hs_draft::Draft;
use hs_plan::{Change, Definition};
use hs_schema::Catalog;

// Whether it is proper, and drops nothing that a foreign key references.
fn may_define(cat: &Catalog, definition: &Definition) -> bool
    ensures { result ≡ spec.may_define cat.now definition.now }
{
    is_proper(cat, definition) && drops_freely(cat, definition)
}

/// Whether a change may be made on a database as one of a commit, with the number that its row has behind this. A change of a row:
/// its table is there, and a row that is put or deleted too; the values that it gets fit the columns, and take at most 4,000 bytes.
/// A definition: it is proper, and drops nothing that a foreign key references. Takes no memory.
pub fn may_make(cat: &Catalog, draft: &Draft, change: &Change) -> bool
    ensures { (db : Database) → db.things ≡ cat.now → ((t : ℕ) → after draft.now t ≡ db.rows t) → result ≡ spec.may_make db change.now }
{
    match change {
        Change::Insert(_, _) => may_make_row(cat, draft, change),
        Change::Put(_, _, _) => may_make_row(cat, draft, change),
        Change::Delete(_, _) => may_make_row(cat, draft, change),
        Change::Define(definition) => may_define(cat, definition.get()),
    }
}

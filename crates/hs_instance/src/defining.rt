// Rows and their indexes, as a definition leaves them.
ghost use Rattle.std.specs.Prelude.{◌≡◌, [], OnOk};
ghost use Rattle.hs_changes.specs.Settings.{Maps};
ghost use Rattle.hs_turns.specs.Definitions.{rows_after};
ghost use Rattle.hs_schema.specs.Catalogue.{after, IsBound, IsNext};
ghost use Rattle.hs_seated.specs.Seated.{IsSeated};

use hs_base::NoMemory;
use hs_plan::Definition;
use hs_redefining::{index_added, redefine};
use hs_schema::Catalog;
use hs_seated::Seated;

/// Makes a definition with this change number of a catalogue and of rows, on which no changes of a transaction are, with the
/// indexes that its constraints want. An `Err` is want of memory, and then nothing is known of them.
pub(crate) fn redefined_rows(
    cat: &mut Catalog,
    seated: &mut Seated,
    definition: &Definition,
    number: u64,
) -> Result<(), NoMemory>
    requires bound { IsBound cat.old definition.now }
    requires next { IsNext cat.old definition.now number }
    ensures things { OnOk result (cat.new ≡ after cat.old definition.now number) }
    ensures rows { (maps : Maps) → IsSeated maps [] seated.old → OnOk result (IsSeated (rows_after cat.old definition.now number maps) [] seated.new) }
{
    redefine(cat, seated, definition, number)?;
    cat.define(definition, number)?;
    index_added(cat, number, seated)
}

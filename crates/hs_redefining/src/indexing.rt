// Indexes over the columns of keys, and those of CREATE INDEX.
ghost use Rattle.std.specs.Prelude.{◌≡◌, ℕ, List};
ghost use Rattle.hs_changes.specs.Settings.{Maps};
ghost use Rattle.hs_draft.specs.Drafted.{after};
ghost use Rattle.hs_plan.specs.declared.change.Change.{Change as TheChange};
ghost use Rattle.hs_seated.specs.Seated.{IsSeated};

use hs_base::{NoMemory, TableNo};
use hs_draft::Draft;
use hs_plan::{Constraint, ForeignKey, Rule};
use hs_schema::{Catalog, Part, Table, Thing};
use hs_seated::Seated;

// ---- which there are

// Whether a constraint has an index over these columns, in this order, which a key has.
fn indexes(constraint: &Constraint, columns: &[u32]) -> bool {
    match &constraint.rule {
        Rule::PrimaryKey(own) => own.as_slice() == columns,
        Rule::Unique(own) => own.as_slice() == columns,
        _ => false,
    }
}

fn has_index(table: &Table, columns: &[u32]) -> bool {
    for constraint in table.constraints.as_slice() {
        if indexes(constraint, columns) {
            return true;
        }
    }
    false
}

// ---- which are made

// What a foreign key references, where no key has an index over it.
fn index_parent(cat: &Catalog, key: &ForeignKey, draft: &mut Draft) -> Result<(), NoMemory>
    ensures { (t : ℕ) → after draft.new t ≡ after draft.old t }
{
    let Some(parent) = cat.table(key.parent.as_str()) else {
        return Ok(());
    };
    if has_index(parent, key.parent_columns.as_slice()) {
        return Ok(());
    }
    draft.add_index(parent.number, key.parent_columns.as_slice())
}

fn index_key(
    cat: &Catalog,
    table: TableNo,
    key: &ForeignKey,
    draft: &mut Draft,
) -> Result<(), NoMemory>
    ensures { (t : ℕ) → after draft.new t ≡ after draft.old t }
{
    index_parent(cat, key, draft)?;
    draft.add_index(table, key.columns.as_slice())
}

fn index_rule(cat: &Catalog, table: TableNo, rule: &Rule, draft: &mut Draft) -> Result<(), NoMemory>
    ensures { (t : ℕ) → after draft.new t ≡ after draft.old t }
{
    match rule {
        Rule::PrimaryKey(columns) => draft.add_index(table, columns.as_slice()),
        Rule::Unique(columns) => draft.add_index(table, columns.as_slice()),
        Rule::ForeignKey(key) => index_key(cat, table, key, draft),
        Rule::NotNull(_) => Ok(()),
        Rule::Check(_) => Ok(()),
        Rule::Index(columns) => draft.add_index(table, columns.as_slice()),
    }
}

fn index_thing(cat: &Catalog, thing: &Thing, draft: &mut Draft) -> Result<(), NoMemory>
    ensures { (t : ℕ) → after draft.new t ≡ after draft.old t }
{
    match &thing.part {
        Part::Table { .. } => Ok(()),
        Part::Column(_) => Ok(()),
        Part::Constraint(constraint) => index_rule(cat, thing.table, &constraint.rule, draft),
    }
}

/// Makes the indexes for the things of a catalogue with a change number from this one on: over the columns of each
/// key, over those of each foreign key, over what it references, and over those of each CREATE INDEX. The rows stay as
/// they are. An `Err` is want of memory.
pub(crate) fn index_from(cat: &Catalog, number: u64, draft: &mut Draft) -> Result<(), NoMemory>
    ensures { (t : ℕ) → after draft.new t ≡ after draft.old t }
{
    for thing in cat.things() {
        if thing.number >= number {
            index_thing(cat, thing, draft)?;
        }
    }
    Ok(())
}

/// Makes the indexes for the constraints and indexes that definitions with a change number from this one on added to a
/// catalogue, so that changes of rows are judged, and rows found by a key, without a look at all rows. The rows stay as
/// they are. An `Err` is want of memory.
pub fn index_added(cat: &Catalog, number: u64, seated: &mut Seated) -> Result<(), NoMemory>
    ensures { (maps : Maps) (changes : List TheChange) → IsSeated maps changes seated.old → IsSeated maps changes seated.new }
{
    index_from(cat, number, &mut seated.rows.draft)
}

// Commits of rows of which it is known that their text is read as they again.
ghost use Rattle.std.specs.Prelude.{◌≡◌, ◌≤◌, IsTrue, length};
ghost use Rattle.std.specs.List.{All};
ghost use Rattle.hs_log.specs.CommitText.{IsSession};
ghost use Rattle.hs_knowntext.specs.Known as spec;

use crate::fitting::{fits_table, is_long};
use crate::found::found_again;
use hs_base::{SessionNo, TableNo};
use hs_plan::Change;
use hs_schema::Catalog;
use hs_sessions::Commit;

// The number of the table of which a change changes a row.
fn table_of(change: &Change) -> Option<TableNo>
    ensures { result ≡ spec.table_of change.now }
{
    match change {
        Change::Insert(table, _) => Some(*table),
        Change::Put(table, _, _) => Some(*table),
        Change::Delete(table, _) => Some(*table),
        Change::Define(_) => None,
    }
}

// Whether a change is one of a row of a table that the catalogue has under its number and its name.
fn is_known_change(catalog: &Catalog, change: &Change) -> bool
    ensures { IsTrue result → spec.IsKnownChange catalog.now change.now }
{
    let Some(number) = table_of(change) else {
        return false;
    };
    let Some(table) = found_again(catalog, number) else {
        return false;
    };
    fits_table(table, change) && !is_long(catalog, change)
}

fn are_known(catalog: &Catalog, changes: &[Change]) -> bool
    ensures { IsTrue result → All (spec.IsKnownChange catalog.now) changes.now }
{
    for change in changes {
        if !is_known_change(catalog, change) {
            return false;
        }
    }
    true
}

fn is_session(session: SessionNo) -> bool
    ensures { IsTrue result → IsSession session.0 }
{
    session.0 > 0
}

fn are_some(changes: &[Change]) -> bool
    ensures { IsTrue result → 1 ≤ length changes.now }
{
    !changes.is_empty()
}

/// Whether it is known of a commit that its text, beside this catalogue, is read as the commit again: each of its changes, of
/// which there is one at least, is one of a row of a table that the catalogue has under its number and under its name, and this
/// can be written. A row that is put has one value of each column's type, and takes at most 4,000 bytes. A false answer says
/// nothing. Takes no memory.
pub fn is_known(commit: &Commit, catalog: &Catalog) -> bool
    ensures { IsTrue result → spec.IsKnown catalog.now commit.now.session commit.now.changes }
{
    let changes = commit.changes.as_slice();
    is_session(commit.session) && are_some(changes) && are_known(catalog, changes)
}

// Commits of changes of rows.
ghost use Rattle.std.specs.Prelude.{◌≡◌, ◌+◌, ◌^◌, ◌≤◌, List, length, IfOk, OnErr};
ghost use Rattle.hs_turns.specs.Histories.{Commit};
ghost use Rattle.hs_seams.specs.Stores.{Commits};
ghost use Rattle.hs_seams.specs.World.{World};
ghost use Rattle.hs_engine.specs.Store.{Stands};

use hs_base::{NoMemory, SessionNo};
use hs_claims::Claims;
use hs_instance::{Restoring, commit_numbered};
use hs_log::Batch;
use hs_logged::Logbook;
use hs_plan::Changes;
use hs_seated::numbered;
use hs_wording::CheckTexts;

/// Commits the changes that are on the database, for a session, and adds the text of the commit. Answers whether the log
/// has room for it; else the changes are on the database as before.
///
/// An `Err` is want of memory, or comes where the log has room for changes that may not be made again. Then no text is
/// added, and nothing is known of the database.
pub(crate) fn committed<C: CheckTexts>(
    database: &mut Restoring,
    book: &mut Logbook,
    conditions: &C,
    session: SessionNo,
    changes: &Changes,
    made: &mut Batch,
) -> Result<bool, NoMemory>
    requires count { database.old.instance.count + length changes.now ≤ 2 ^ 48 }
    requires at { (w : World) × (commits : List Commit) × Stands (C.wording conditions.now) database.old.instance book.old w commits changes.now }
    ensures committed { (w : World) (commits : List Commit) → Stands (C.wording conditions.now) database.old.instance book.old w commits changes.now → (k : Commit) → k.session ≡ session.0 → k.changes ≡ changes.now
        → IfOk result (Commits (Stands (C.wording conditions.now) database.new.instance book.new) w commits changes.now k made.old made.new) }
    ensures err { OnErr result (made.new ≡ made.old) }
{
    let alloc = database.instance.alloc;
    let own = numbered(alloc, database.instance.count, changes)?;
    let commit = hs_sessions::Commit {
        session,
        changes: own,
        claims: Claims::new(alloc),
    };
    let mut entered = *book;
    let mut text = Batch::new(alloc);
    let has_room = entered.enter(&commit, &database.instance.catalog, conditions, &mut text)?;
    if !has_room {
        return Ok(false);
    }
    let may = commit_numbered(&mut database.instance, changes, &commit.changes)?;
    if !may {
        return Err(NoMemory);
    }
    made.append(&text)?;
    *book = entered;
    Ok(true)
}

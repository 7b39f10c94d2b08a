// Commits, and their texts.
ghost use Rattle.std.specs.Prelude.{◌≡◌, ◌∷◌, [], List, false, IfOk, OnErr};
ghost use Rattle.std.specs.List.{All};
ghost use Rattle.hs_turns.specs.Database.{Database};
ghost use Rattle.hs_entering.specs.Defaults.{HasLawfulDefaults};
ghost use Rattle.hs_entering.specs.Taken.{IsKept, IsSettled};
ghost use Rattle.hs_turns.specs.Histories.{Commit as TheCommit};
ghost use Rattle.hs_logged.specs.Logged.{IsBehind, changes_behind};
ghost use Rattle.hs_logged.specs.Writable.{IsWritable};
ghost use Rattle.hs_logged.specs.declared.logbook.Logbook.{Logbook as TheLogbook};
ghost use Rattle.hs_plan.specs.declared.change.Change.TheVariants as change;
ghost use Rattle.hs_logged.specs.Made.{IsHeld};
ghost use Rattle.hs_seams.specs.Stores.{present};
ghost use Rattle.hs_seams.specs.World.{World};

use crate::texts::has_text;
use hs_base::{NoMemory, SessionNo};
use hs_claims::Claims;
use hs_log::Batch;
use hs_logged::{Logbook, Restored};
use hs_plan::{Change, Changes, Definition};
use hs_sessions::Commit;
use hs_wording::CheckTexts;
use sqlite_items::Boxed;
use std::alloc::Global;

/// Makes a commit of a session with these changes, whose rows have the numbers that they get by it, and puts its text behind `made`:
/// where the log has room for the text. Answers whether it has; else nothing is changed.
///
/// An `Err` is want of memory, or comes where the log has room for changes that may not be made again. Then no text is added, and
/// nothing is known of the database.
pub fn settle<C: CheckTexts, D: Restored>(
    alloc: Global,
    session: SessionNo,
    changes: Changes,
    conditions: &C,
    database: &mut D,
    book: &mut Logbook,
    made: &mut Batch,
) -> Result<bool, NoMemory>
    requires held { IsHeld D.stands database.old }
    requires writable { (db : Database) → D.stands database.old db → All (IsWritable (C.wording conditions.now) db.things) changes }
    ensures settled { (start : TheLogbook) (w : World) (commits : List TheCommit) (k : TheCommit) → IsKept (C.wording conditions.now) D.takes start w → IsBehind start w commits book.old → D.stands database.old (present w commits)
        → k.session ≡ session.0 → changes_behind w commits k ≡ changes → IfOk result (IsSettled D.stands start w commits k database.old database.new book.old book.new made.old made.new) }
    ensures left { IfOk result (λ is_made. is_made ≡ false → made.new ≡ made.old) }
    ensures err { OnErr result (made.new ≡ made.old) }
{
    let commit = Commit {
        session,
        changes,
        claims: Claims::new(alloc),
    };
    let mut entered = *book;
    let mut text = Batch::new(alloc);
    let has_room = entered.enter(&commit, database.catalog(), conditions, &mut text)?;
    if !has_room {
        return Ok(false);
    }
    let may = database.make(&commit.changes)?;
    if !may {
        return Err(NoMemory);
    }
    made.append(&text)?;
    *book = entered;
    Ok(true)
}

fn alone(alloc: Global, definition: Definition) -> Result<Changes, NoMemory>
    ensures { IfOk result (λ changes. changes ≡ change.Define definition ∷ []) }
{
    let mut changes = Changes::new(alloc);
    changes.push(Change::Define(Boxed::new(alloc, definition)?))?;
    Ok(changes)
}

/// The same of the commit of a definition, whose values behind DEFAULT are lawful.
pub fn settle_definition<C: CheckTexts, D: Restored>(
    alloc: Global,
    session: SessionNo,
    definition: Definition,
    conditions: &C,
    database: &mut D,
    book: &mut Logbook,
    made: &mut Batch,
) -> Result<bool, NoMemory>
    requires held { IsHeld D.stands database.old }
    requires defaults { HasLawfulDefaults definition }
    ensures settled { (start : TheLogbook) (w : World) (commits : List TheCommit) (k : TheCommit) → IsKept (C.wording conditions.now) D.takes start w → IsBehind start w commits book.old → D.stands database.old (present w commits)
        → k.session ≡ session.0 → k.changes ≡ change.Define definition ∷ [] → IfOk result (IsSettled D.stands start w commits k database.old database.new book.old book.new made.old made.new) }
    ensures err { OnErr result (made.new ≡ made.old) }
{
    let has_one = has_text(alloc, &definition, database.catalog(), conditions)?;
    if !has_one {
        return Ok(false);
    }
    let changes = alone(alloc, definition)?;
    settle(alloc, session, changes, conditions, database, book, made)
}

// What the turns of a run ask of an engine.
ghost use Rattle.std.specs.Prelude.{◌≡◌, ◌<◌, ◌+◌, length, IfOk, OnOk, OnErr};
ghost use Rattle.hs_lines.specs.Names.{IsKnown};
ghost use Rattle.hs_queue.specs.Entries.{entry_of};
ghost use Rattle.hs_sides.specs.Sides.{Side, with_new};
ghost use Rattle.hs_seams.specs.World.{World};
ghost use Rattle.hs_seams.specs.Calls.{AreNamed, IsAttempted, IsClosed, IsEntry, MakesTexts, behind};

use crate::attempted::Attempted;
use hs_base::{NoMemory, SessionNo};
use hs_lines::{Names, Words};
use hs_log::Batch;
use hs_queue::Entry;

/// What attempts the entries of sessions: it keeps their settings, their transactions and who waits for whom, and the
/// database.
pub trait Engine {
    /// It stands for this side of a machine in this world.
    ghost stands: { Self → World → Side → Type 0 };

    /// How many commits the database has.
    fn commits(&self) -> u64
        ensures { (w : World) (side : Side) → stands self.now w side → result ≡ w.run.made + length side.history.commits };

    /// Makes one session more, which has the database's default level. An `Err` is want of memory.
    fn admit(&mut self) -> Result<(), NoMemory>
        requires stands { (w : World) × (side : Side) × (stands self.old w side × (length side.settings < 64)) }
        ensures { (w : World) (side : Side) → stands self.old w side → OnOk result (stands self.new w (with_new w.run side)) };

    /// Attempts an entry of a session, for the first time or as one that waits: adds what it tells to `told`, and the texts of
    /// the commits that it makes to `made`. `names` are those of the sessions. An `Err` is want of memory, and then no text is
    /// added.
    fn attempt(
        &mut self,
        is_first: bool,
        entry: &Entry,
        names: &Names,
        told: &mut Vec<Words>,
        made: &mut Batch,
    ) -> Result<Attempted, NoMemory>
        requires stands { (w : World) × (side : Side) × (stands self.old w side × AreNamed names.now side) }
        requires known { IsKnown names.now entry.now.session.0 }
        requires entry { IsEntry entry.now }
        ensures attempted { (w : World) (side : Side) → stands self.old w side → IfOk result (λ a. IsAttempted w names.now is_first (entry_of entry.now) side a told.old.items told.new.items) }
        ensures stands { (w : World) (side : Side) → stands self.old w side → OnOk result (stands self.new w (behind w names.now is_first (entry_of entry.now) side)) }
        ensures made { (w : World) (side : Side) → stands self.old w side → OnOk result (MakesTexts w side (behind w names.now is_first (entry_of entry.now) side) made.old made.new) }
        ensures err { OnErr result (made.new ≡ made.old) };

    /// Rolls back the open transaction of a session, and answers whether it has one. An `Err` is want of memory.
    fn close(&mut self, session: SessionNo, names: &Names) -> Result<bool, NoMemory>
        requires stands { (w : World) × (side : Side) × (stands self.old w side × AreNamed names.now side) }
        requires known { IsKnown names.now session.0 }
        ensures { (w : World) (side : Side) → stands self.old w side → IfOk result (λ was_open. IsClosed (stands self.new) w names.now session.0 side was_open) };
}

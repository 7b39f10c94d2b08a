// What is known of the log where texts are put behind its others.
ghost use Rattle.std.specs.Prelude.{◌≡◌, ◌+◌, ◌≤◌, ◌↔◌, IsTrue, Some, IfOk, OnErr};
ghost use Rattle.std.specs.List.{All};
ghost use Rattle.hs_logged.specs.Entered.{Enters};
ghost use Rattle.hs_logged.specs.Writable.{IsPlainWording, IsWritable};

use crate::texts::text_of;
use hs_base::{NoMemory, SessionNo};
use hs_committext::Conditions;
use hs_log::Batch;
use hs_schema::Catalog;
use hs_sessions::Commit;

/// What is known of the log where texts are put behind its others, with those that are made and not yet written.
#[derive(Clone, Copy, Debug, PartialEq, Eq)]
pub struct Logbook {
    /// The session of the last text, and none where there is none.
    pub last: Option<SessionNo>,
    /// How many bytes stand before the one that ends the log.
    pub size: u64,
    /// The most bytes that the log may have.
    pub limit: u64,
}

impl Logbook {
    // Whether the log isn't longer than it may be with one more text of so many bytes.
    fn has_room(&self, len: u64) -> bool
        ensures { IsTrue result ↔ (self.now.size + (9 + len) + 1 ≤ self.now.limit) }
    {
        self.size < self.limit && self.limit - self.size > 9 && self.limit - self.size - 9 > len
    }

    // The log with one more text of so many bytes.
    fn with_text(&self, session: SessionNo, len: u64) -> Logbook
        requires { self.now.size + (9 + len) + 1 ≤ self.now.limit }
        ensures last { result.last ≡ Some session }
        ensures size { result.size ≡ self.now.size + (9 + len) }
        ensures limit { result.limit ≡ self.now.limit }
    {
        Logbook {
            last: Some(session),
            size: self.size + (9 + len),
            limit: self.limit,
        }
    }

    /// Puts the text of a commit behind those that are made, where the log has room for it, and answers whether it has: the
    /// commit has a text, beside this catalogue, which is as it was before it, and with its 9 bytes more the log isn't longer
    /// than it may be. Else nothing is changed. The conditions of CHECKs have texts, and the values behind DEFAULT are lawful;
    /// of rows nothing is asked. A text is read again before it is made, or known to be read so, so that a start reads it as this
    /// commit.
    ///
    /// After an `Err`, which is want of memory, nothing is changed.
    pub fn enter<C: Conditions>(
        &mut self,
        commit: &Commit,
        catalog: &Catalog,
        conditions: &C,
        made: &mut Batch,
    ) -> Result<bool, NoMemory>
        requires plain { IsPlainWording (C.wording conditions.now) }
        requires writable { All (IsWritable (C.wording conditions.now) catalog.now) commit.now.changes }
        ensures entered { IfOk result (Enters (C.wording conditions.now) catalog.now commit.now.session commit.now.changes self.old self.new made.old made.new) }
        ensures err { OnErr result ((self.new ≡ self.old) × (made.new ≡ made.old)) }
    {
        let Some(text) = text_of(commit, self.last, catalog, conditions)? else {
            return Ok(false);
        };
        let len = text.len() as u64;
        if !self.has_room(len) {
            return Ok(false);
        }
        made.push(text.as_slice())?;
        *self = self.with_text(commit.session, len);
        Ok(true)
    }
}

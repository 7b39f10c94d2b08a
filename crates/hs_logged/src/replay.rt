// The texts of a log, as they are made again.
ghost use Rattle.std.specs.Prelude.{IfOk};
ghost use Rattle.hs_logged.specs.Read.{IsStanding, Redoes, RedoesAll, RedoesNext, Remakes, StandsFor};
ghost use Rattle.hs_logged.specs.Redone.{State};

use crate::fault::ReplayFault;
use crate::restored::Restored;
use hs_base::{NoMemory, SessionNo};
use hs_committext::{Conditions, TextFault, read_commit};
use hs_sessions::Commit;
use hs_values::Bytes;

/// What the texts of a log made so far.
#[derive(Drop)]
pub struct Replay<D> {
    pub database: D,
    /// The session of the last text, and none where there is none.
    pub last: Option<SessionNo>,
}

impl<D: Restored> Replay<D> {
    // Makes a commit again, and answers whether it may be made.
    fn make(&mut self, commit: &Commit) -> Result<bool, NoMemory>
        requires { IsStanding D.stands self.old.database self.old.last }
        ensures { (at : State) → StandsFor D.stands self.old.database self.old.last at → IfOk result (Remakes D.takes (StandsFor D.stands self.new.database self.new.last) at commit.now.session commit.now.changes) }
    {
        let made = self.database.make(&commit.changes)?;
        self.last = Some(commit.session);
        Ok(made)
    }

    /// Makes a commit again from its text, and answers whether that could be done: the text is that of a commit, beside the
    /// catalogue and behind the text before, and its changes may be made. Where it couldn't, and after an `Err`, which is want of
    /// memory, nothing is known of this.
    pub fn redo<C: Conditions>(&mut self, text: &[u8], conditions: &C) -> Result<bool, NoMemory>
        requires { IsStanding D.stands self.old.database self.old.last }
        ensures { (at : State) → StandsFor D.stands self.old.database self.old.last at → IfOk result (Redoes (C.wording conditions.now) D.takes (StandsFor D.stands self.new.database self.new.last) at text.now) }
    {
        match read_commit(text, self.database.catalog(), self.last, conditions) {
            Ok(commit) => self.make(&commit),
            Err(TextFault::Broken) => Ok(false),
            Err(TextFault::NoMemory) => Err(NoMemory),
        }
    }

    // Makes the commit of a text again, or tells its number.
    fn redo_next<C: Conditions>(
        &mut self,
        number: u64,
        text: &[u8],
        conditions: &C,
    ) -> Result<(), ReplayFault>
        requires { IsStanding D.stands self.old.database self.old.last }
        ensures { (at : State) → StandsFor D.stands self.old.database self.old.last at → RedoesNext (C.wording conditions.now) D.takes (StandsFor D.stands self.new.database self.new.last) at number text.now result }
    {
        if self.redo(text, conditions)? {
            Ok(())
        } else {
            Err(ReplayFault::Broken(number))
        }
    }

    /// Makes commits again from their texts, one behind another.
    ///
    /// `Broken(n)`: exactly where text n, counted from 1, is the first that makes nothing (`redo`). `NoMemory`: no rule says when.
    /// After an `Err` nothing is known of this.
    pub fn redo_all<C: Conditions>(
        &mut self,
        texts: &[Bytes],
        conditions: &C,
    ) -> Result<(), ReplayFault>
        requires { IsStanding D.stands self.old.database self.old.last }
        ensures { (at : State) → StandsFor D.stands self.old.database self.old.last at → RedoesAll (C.wording conditions.now) D.takes (StandsFor D.stands self.new.database self.new.last) at texts.now result }
    {
        let mut number: u64 = 0;
        for text in texts {
            number += 1;
            self.redo_next(number, text.as_slice(), conditions)?;
        }
        Ok(())
    }
}

// Items of the input.
ghost use Rattle.std.specs.Prelude.{◌≡◌, ◌<◌, ◌≤◌, ◌++◌, ℕ, None, true, length, OnOk, OnErr};
ghost use Rattle.hs_entries.specs.Entry.{is_session};
ghost use Rattle.hs_entries.specs.declared.item.Item.TheVariants as item;
ghost use Rattle.hs_futures.specs.Futures.{takes};
ghost use Rattle.hs_lines.specs.Names.{IsKnown};
ghost use Rattle.hs_lines.specs.Told.{lines_of};
ghost use Rattle.hs_queue.specs.Entries.{entry_of};
ghost use Rattle.hs_run.specs.Items.{IsTaken};
ghost use Rattle.hs_seams.specs.World.{World};
ghost use Rattle.hs_sessions.specs.Book.{number_from};
ghost use Rattle.hs_turns.specs.Lines.{printed};
ghost use Rattle.hs_turns.specs.Machine.{Machine};
ghost use Rattle.hs_scheduler.specs.Standing.{IsMachine};
ghost use Rattle.hs_scheduler.specs.Turned.{IsTurned, admitted, begun, of_new};

use crate::scheduler::Scheduler;
use hs_base::{NoMemory, SessionNo};
use hs_entries::Item;
use hs_gathering::print;
use hs_lines::{MOST_SESSIONS, Told};
use hs_queue::Entry;
use hs_run::Gathered;
use hs_seams::Engine;
use hs_values::{Chars, Name};

impl<E: Engine> Scheduler<E> {
    // Gathers the lines of what is told beside entries.
    fn tell(&mut self, told: &Told, gathered: &mut Gathered) -> Result<(), NoMemory>
        ensures told { OnOk result (gathered.new.told ≡ gathered.old.told ++ printed (lines_of self.old.names told.now)) }
        ensures made { gathered.new.made ≡ gathered.old.made }
        ensures same { self.new ≡ record self.old { text = self.new.text } }
        ensures err { OnErr result (gathered.new ≡ gathered.old) }
    {
        self.text.clear();
        print(told, &self.names, &mut self.text)?;
        gathered.told.push(&self.text)?;
        Ok(())
    }

    // An entry of a session that there is: it is queued where its session waits.
    fn admit_entry(&mut self, entry: Entry, gathered: &mut Gathered) -> Result<(), NoMemory>
        requires machine { (w : World) × (m : Machine) × IsMachine E.Engine self.old w m }
        requires known { IsKnown self.old.names entry.session.0 }
        ensures turned { (w : World) (m : Machine) → IsMachine E.Engine self.old w m → OnOk result (IsTurned E.Engine w m (admitted w (entry_of entry) m) self.new gathered.old gathered.new) }
        ensures err { OnErr result (gathered.new ≡ gathered.old) }
    {
        if self.seen.has(entry.session) {
            return self.queue.push(entry, self.alloc);
        }
        self.attempt(true, entry, gathered)
    }

    // Makes one session more.
    fn add_session(&mut self, name: &Name) -> Result<(), NoMemory>
        requires machine { (w : World) × (m : Machine) × IsMachine E.Engine self.old w m }
        requires new { number_from 1 name.now self.old.names ≡ None }
        requires few { length self.old.names < 64 }
        ensures machine { (w : World) (m : Machine) → IsMachine E.Engine self.old w m → OnOk result (IsMachine E.Engine self.new w (begun w name.now m)) }
    {
        self.engine.admit()?;
        self.names.add(name)
    }

    // The first entry of a name. It makes a session, as long as there are fewer than 64.
    fn take_new(
        &mut self,
        number: u64,
        name: Name,
        text: Chars,
        gathered: &mut Gathered,
    ) -> Result<(), NoMemory>
        requires machine { (w : World) × (m : Machine) × IsMachine E.Engine self.old w m }
        requires new { number_from 1 name self.old.names ≡ None }
        requires named { is_session name ≡ true }
        requires short { length text ≤ 65536 }
        ensures turned { (w : World) (m : Machine) → IsMachine E.Engine self.old w m → OnOk result (IsTurned E.Engine w m (of_new w number name text m) self.new gathered.old gathered.new) }
        ensures err { OnErr result (gathered.new ≡ gathered.old) }
    {
        if self.names.len() >= MOST_SESSIONS {
            let told = Told::TooManySessions {
                number,
                session: name,
            };
            return self.tell(&told, gathered);
        }
        self.add_session(&name)?;
        let session = SessionNo(self.names.len() as u32);
        let entry = Entry {
            number,
            session,
            name,
            text,
        };
        self.attempt(true, entry, gathered)
    }

    fn take_entry(
        &mut self,
        number: u64,
        name: Name,
        text: Chars,
        gathered: &mut Gathered,
    ) -> Result<(), NoMemory>
        requires machine { (w : World) × (m : Machine) × IsMachine E.Engine self.old w m }
        requires named { is_session name ≡ true }
        requires short { length text ≤ 65536 }
        ensures turned { (w : World) (m : Machine) → IsMachine E.Engine self.old w m → (at : ℕ) → OnOk result (IsTurned E.Engine w m (takes w (item.Entry number name text at) m) self.new gathered.old gathered.new) }
        ensures err { OnErr result (gathered.new ≡ gathered.old) }
    {
        match self.names.number(&name) {
            Some(session) => {
                let entry = Entry {
                    number,
                    session,
                    name,
                    text,
                };
                self.admit_entry(entry, gathered)
            }
            None => self.take_new(number, name, text, gathered),
        }
    }

    // Takes the next item of the input, which is not its end.
    pub(crate) fn take_item(&mut self, item: Item, gathered: &mut Gathered) -> Result<(), NoMemory>
        requires machine { (w : World) × (m : Machine) × IsMachine E.Engine self.old w m }
        requires item { IsTaken item }
        ensures turned { (w : World) (m : Machine) → IsMachine E.Engine self.old w m → OnOk result (IsTurned E.Engine w m (takes w item m) self.new gathered.old gathered.new) }
        ensures err { OnErr result (gathered.new ≡ gathered.old) }
    {
        match item {
            Item::Entry {
                number,
                session,
                text,
                ..
            } => self.take_entry(number, session, text, gathered),
            Item::Bad { number } => self.tell(&Told::Bad { number }, gathered),
            Item::TooLong { number } => self.tell(&Told::TooLong { number }, gathered),
            Item::End => Ok(()),
        }
    }
}

// A run at work.
ghost use Rattle.std.specs.Prelude.{◌≡◌, ◌<◌, ◌≤◌, None, true, false, IfOk, IsErrOf, OnOk};
ghost use Rattle.hs_entries.specs.Left.{IsBeyond};
ghost use Rattle.hs_entries.specs.Asking.{Asks};
ghost use Rattle.hs_entries.specs.Reader.{AgreesWith, has_ended, is_ready as is_ready_at, is_ready_with, kept, left, rests as rests_at, room};
ghost use Rattle.hs_entries.specs.Taking.{Counts, IsGiven, TakesItem};
ghost use Rattle.hs_entries.specs.Calls.{HasInputCause};
ghost use Rattle.hs_host.specs.Used.{UsesInput};
ghost use Rattle.hs_run.specs.Future.{Future};
ghost use Rattle.hs_run.specs.Items.{IsTaken, is_end};
ghost use Rattle.hs_run.specs.Outgoing.{IsEmpty};
ghost use Rattle.hs_run.specs.Running.{EndsWithin, HasNoneAhead, IsOver, IsReading, IsSameReader, IsSane, MovesOn};

use crate::lawful::may_be_taken;
use crate::outgoing::Outgoing;
use crate::stop::Stop;
use crate::turns::Turns;
use hs_entries::{EntryReader, InputFault, Item};
use hs_host::Host;
use std::alloc::AllocError;

/// A run at work: the reader of its input, what takes turns, and what goes out.
#[derive(Drop)]
pub struct Running<T> {
    pub reader: EntryReader,
    pub turns: T,
    pub outgoing: Outgoing,
}

impl<T: Turns> Running<T> {
    // Gathers the next piece that needs no more of the input, and answers whether there was one.
    fn step<H: Host>(&mut self, host: &mut H) -> Result<bool, Stop>
        requires sane { (f : Future) × IsSane T.Turns H.Source H.Host.own f self.old host.old }
        ensures moves { MovesOn T.Turns H.Source H.Host.own self.old host.old self.new host.new result }
        ensures weight { IfOk result (λ more. more ≡ true → T.weight self.new.turns < T.weight self.old.turns) }
        ensures rests { IfOk result (λ more. more ≡ false → T.rests self.new.turns × (self.new.turns ≡ self.old.turns)) }
        ensures reader { self.new.reader ≡ self.old.reader }
        ensures unread { H.unread host.new ≡ H.unread host.old }
        ensures short { IsErrOf result Stop.TooLong → ⊥ }
    {
        match self.turns.step(&mut self.outgoing.gathered) {
            Ok(false) => Ok(false),
            Ok(true) => {
                self.outgoing.mark();
                self.outgoing.hand_over_when_large(host)?;
                Ok(true)
            }
            Err(AllocError) => Err(self.outgoing.wanting(host)),
        }
    }

    // Gathers all pieces that need no more of the input.
    fn settle<H: Host>(&mut self, host: &mut H) -> Result<(), Stop>
        requires sane { (f : Future) × IsSane T.Turns H.Source H.Host.own f self.old host.old }
        ensures moves { MovesOn T.Turns H.Source H.Host.own self.old host.old self.new host.new result }
        ensures rests { OnOk result (T.rests self.new.turns) }
        ensures reader { self.new.reader ≡ self.old.reader }
        ensures unread { H.unread host.new ≡ H.unread host.old }
        ensures weight { OnOk result (T.weight self.new.turns ≤ T.weight self.old.turns) }
        ensures short { IsErrOf result Stop.TooLong → ⊥ }
    {
        while self.step(host)? {}
        Ok(())
    }

    // Hands over what is gathered, unless the next item is at hand.
    fn ready<H: Host>(&mut self, host: &mut H) -> Result<(), Stop>
        requires sane { (f : Future) × IsSane T.Turns H.Source H.Host.own f self.old host.old }
        ensures moves { MovesOn T.Turns H.Source H.Host.own self.old host.old self.new host.new result }
        ensures turns { self.new.turns ≡ self.old.turns }
        ensures reader { IsSameReader self.old.reader self.new.reader }
        ensures ready { OnOk result (is_ready_at self.new.reader ≡ false → IsEmpty self.new.outgoing.gathered) }
        ensures unread { H.unread host.new ≡ H.unread host.old }
        ensures short { IsErrOf result Stop.TooLong → ⊥ }
    {
        if self.reader.is_ready() {
            return Ok(());
        }
        self.outgoing.hand_over(host)
    }

    // Reads the next item and takes it, with the first piece that comes with it. Answers whether there was one.
    fn advance<H: Host>(&mut self, host: &mut H) -> Result<bool, Stop>
        requires sane { (f : Future) × IsSane T.Turns H.Source H.Host.own f self.old host.old }
        requires rests { T.rests self.old.turns }
        requires ready { is_ready_at self.old.reader ≡ false → IsEmpty self.old.outgoing.gathered }
        requires reading { IsReading H.Source self.old host.old }
        ensures moves { MovesOn T.Turns H.Source H.Host.own self.old host.old self.new host.new result }
        ensures reading { OnOk result (IsReading H.Source self.new host.new) }
        ensures more { IfOk result (λ more. more ≡ true → room self.new.reader < room self.old.reader) }
        ensures over { IfOk result (λ more. more ≡ false → IsOver self.new.reader × T.rests self.new.turns) }
        ensures too_long { H.tells → IsErrOf result Stop.TooLong → EndsWithin T.Turns H.Source H.Host.own self.old host.old host.new }
    {
        let item = match read_next(&mut self.reader, host) {
            Ok(item) => item,
            Err(InputFault::Fault) => return Err(Stop::Input),
            Err(InputFault::TooLong) => return Err(self.outgoing.cut(host)),
            Err(InputFault::NoMemory) => return Err(self.outgoing.wanting(host)),
        };
        if ends(&item) {
            return Ok(false);
        }
        match self.turns.take(item, &mut self.outgoing.gathered) {
            Ok(()) => {
                self.outgoing.mark();
                self.outgoing.hand_over_when_large(host)?;
                Ok(true)
            }
            Err(AllocError) => Err(self.outgoing.wanting(host)),
        }
    }

    // Gathers the next piece that comes at the end of the input, and answers whether there was one.
    fn close<H: Host>(&mut self, host: &mut H) -> Result<bool, Stop>
        requires sane { (f : Future) × IsSane T.Turns H.Source H.Host.own f self.old host.old }
        requires rests { T.rests self.old.turns }
        requires over { IsOver self.old.reader }
        ensures moves { MovesOn T.Turns H.Source H.Host.own self.old host.old self.new host.new result }
        ensures weight { IfOk result (λ more. more ≡ true → T.weight self.new.turns < T.weight self.old.turns) }
        ensures none { IfOk result (λ more. more ≡ false → HasNoneAhead T.Turns self.new.turns) }
        ensures reader { self.new.reader ≡ self.old.reader }
        ensures unread { H.unread host.new ≡ H.unread host.old }
        ensures short { IsErrOf result Stop.TooLong → ⊥ }
    {
        match self.turns.close(&mut self.outgoing.gathered) {
            Ok(false) => Ok(false),
            Ok(true) => {
                self.outgoing.mark();
                self.outgoing.hand_over_when_large(host)?;
                Ok(true)
            }
            Err(AllocError) => Err(self.outgoing.wanting(host)),
        }
    }

    // Takes the next item, with what comes before it. Answers whether there was one.
    fn turn<H: Host>(&mut self, host: &mut H) -> Result<bool, Stop>
        requires sane { (f : Future) × IsSane T.Turns H.Source H.Host.own f self.old host.old }
        requires reading { IsReading H.Source self.old host.old }
        ensures moves { MovesOn T.Turns H.Source H.Host.own self.old host.old self.new host.new result }
        ensures reading { OnOk result (IsReading H.Source self.new host.new) }
        ensures more { IfOk result (λ more. more ≡ true → room self.new.reader < room self.old.reader) }
        ensures over { IfOk result (λ more. more ≡ false → IsOver self.new.reader) }
        ensures too_long { H.tells → IsErrOf result Stop.TooLong → EndsWithin T.Turns H.Source H.Host.own self.old host.old host.new }
    {
        self.settle(host)?;
        self.ready(host)?;
        self.advance(host)
    }

    /// Takes all items of the input.
    pub fn take_all<H: Host>(&mut self, host: &mut H) -> Result<(), Stop>
        requires sane { (f : Future) × IsSane T.Turns H.Source H.Host.own f self.old host.old }
        requires reading { IsReading H.Source self.old host.old }
        ensures moves { MovesOn T.Turns H.Source H.Host.own self.old host.old self.new host.new result }
        ensures reading { OnOk result (IsReading H.Source self.new host.new) }
        ensures over { OnOk result (IsOver self.new.reader) }
        ensures too_long { H.tells → IsErrOf result Stop.TooLong → EndsWithin T.Turns H.Source H.Host.own self.old host.old host.new }
    {
        while self.turn(host)? {}
        Ok(())
    }

    // Gathers the next piece that comes at the end of the input, with what comes before it. Answers whether there was one.
    fn ending<H: Host>(&mut self, host: &mut H) -> Result<bool, Stop>
        requires sane { (f : Future) × IsSane T.Turns H.Source H.Host.own f self.old host.old }
        requires over { IsOver self.old.reader }
        ensures moves { MovesOn T.Turns H.Source H.Host.own self.old host.old self.new host.new result }
        ensures weight { IfOk result (λ more. more ≡ true → T.weight self.new.turns < T.weight self.old.turns) }
        ensures none { IfOk result (λ more. more ≡ false → HasNoneAhead T.Turns self.new.turns) }
        ensures reader { self.new.reader ≡ self.old.reader }
        ensures unread { H.unread host.new ≡ H.unread host.old }
        ensures short { IsErrOf result Stop.TooLong → ⊥ }
    {
        self.settle(host)?;
        self.close(host)
    }

    /// Gathers all that comes at the end of the input.
    pub fn close_all<H: Host>(&mut self, host: &mut H) -> Result<(), Stop>
        requires sane { (f : Future) × IsSane T.Turns H.Source H.Host.own f self.old host.old }
        requires over { IsOver self.old.reader }
        ensures moves { MovesOn T.Turns H.Source H.Host.own self.old host.old self.new host.new result }
        ensures none { OnOk result (HasNoneAhead T.Turns self.new.turns) }
        ensures reader { self.new.reader ≡ self.old.reader }
        ensures unread { H.unread host.new ≡ H.unread host.old }
        ensures short { IsErrOf result Stop.TooLong → ⊥ }
    {
        while self.ending(host)? {}
        Ok(())
    }
}

fn ends(item: &Item) -> bool
    ensures { result ≡ is_end item.now }
{
    match item {
        Item::End => true,
        Item::Entry { .. } => false,
        Item::Bad { .. } => false,
        Item::TooLong { .. } => false,
    }
}

// The next item of the input, which may be taken where it isn't the end. Nothing but the input is changed.
fn read_next<H: Host>(reader: &mut EntryReader, host: &mut H) -> Result<Item, InputFault>
    requires { kept reader.old ≡ None }
    ensures sound { OnOk result (kept reader.new ≡ None) }
    ensures items { H.tells → IfOk result (λ item. TakesItem reader.old (H.unread host.old) item reader.new (H.unread host.new)) }
    ensures taken { IfOk result (λ item. is_end item ≡ false → IsTaken item) }
    ensures given { IfOk result (λ item. has_ended reader.new ≡ false → IsGiven H.reads reader.old item reader.new host.old host.new) }
    ensures needed { Asks H.reads (λ more. is_ready_with reader.old more ≡ false) (rests_at reader.new) host.old host.new }
    ensures ready { is_ready_at reader.old ≡ true → host.new ≡ host.old }
    ensures ended { has_ended reader.old ≡ true → has_ended reader.new ≡ true }
    ensures counts { IfOk result (λ item. Counts reader.old item reader.new) }
    ensures agrees { H.tells → AgreesWith reader.old (H.unread host.old) → AgreesWith reader.new (H.unread host.new) }
    ensures too_long { H.tells → IsErrOf result InputFault.TooLong → IsBeyond (left reader.old (H.unread host.old)) }
    ensures uses { UsesInput H.Source H.Host.own host.old host.new }
    ensures cause { HasInputCause (H.input_faults host.old) (H.input_faults host.new) result }
    ensures later { H.input_faults host.old ≤ H.input_faults host.new }
{
    let item = reader.next(host)?;
    if ends(&item) || may_be_taken(&item) {
        Ok(item)
    } else {
        Err(InputFault::NoMemory)
    }
}

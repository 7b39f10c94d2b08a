// Reads the items of the input.
ghost use Rattle.std.specs.Prelude.{◌≡◌, ◌⊎◌, true, false, ℕ, ◌+◌, ◌-◌, ◌<◌, ◌≤◌, ◌^◌, List, [], ◌++◌, length, None, Some, IfOk, IfSome, IfNone, OnOk, OnErr, IsErrOf, MatchOption, MatchResult};
ghost use Rattle.std.proofs.Props.{props};
ghost use Rattle.hs_entries.specs.Place.{is_entry};
ghost use Rattle.hs_entries.specs.Left.{IsBeyond, IsNumbered, Takes};
ghost use Rattle.hs_entries.specs.Calls.{UsesSource, HasInputCause, ReadsWith};
ghost use Rattle.hs_entries.specs.Asking.{Asks, Asked, Gets, NeedsMore};
ghost use Rattle.hs_entries.specs.Window.{IsSound, IsAtEnd, IsFresh, ahead_of, left_of, begun_of, room_of};

use crate::entry::{cut_entry, read_entry};
use crate::input_fault::InputFault;
use crate::item::{Item, MOST_BYTES};
use crate::place::{Place, scan};
use crate::window::{Look, Window};
use hs_host::Source;
use std::alloc::{AllocError, Global};

/// Reads the items of the input of a source, up to a limit of bytes.
#[derive(Drop)]
pub struct EntryReader {
    alloc: Global,
    window: Window,
    count: u64,
    kept: Option<InputFault>,
    has_ended: bool,
    ghost sound: { IsSound window } by { Prim.hlevel props },
    ghost numbers: { count + room_of window < 2 ^ 64 },
    ghost rested: { has_ended ≡ true → ahead_of window ≡ [] } by { Prim.hlevel props },
}

impl EntryReader {
    ghost use Rattle.hs_entries.specs.Taking.{TakesItem, Counts, Becomes, GoesOn, IsGiven, Passes, Refills, GetsMore, KeepsCount};
    ghost use Rattle.hs_entries.specs.Reader.{ahead, room, next_number, kept, has_ended, rests, AgreesWith, is_ready as ready, is_ready_with as ready_with, is_at_hand, finds, left, left_over, left_within, left_items, left_whole, Shrinks, Grows, Skims, cut_at};

    /// A reader of a source of which at most `limit` bytes are used. Takes no memory: the first `next` takes
    /// that for the bytes at hand.
    pub fn new(alloc: Global, limit: u64) -> EntryReader
        ensures ahead { ahead result ≡ [] }
        ensures room { room result ≡ limit }
        ensures number { next_number result ≡ 1 }
        ensures kept { kept result ≡ None }
        ensures ended { has_ended result ≡ false }
    {
        EntryReader {
            alloc,
            window: Window::new(alloc, limit),
            count: 0,
            kept: None,
            has_ended: false,
        }
    }

    /// Whether the answer of `next` is at hand, so that `next` makes no call of the source. Takes no memory,
    /// and remembers how far it looked.
    pub fn is_ready(&mut self) -> bool
        ensures ready { result ≡ ready self.old }
        ensures ahead { ahead self.new ≡ ahead self.old }
        ensures room { room self.new ≡ room self.old }
        ensures number { next_number self.new ≡ next_number self.old }
        ensures kept { kept self.new ≡ kept self.old }
        ensures ended { has_ended self.new ≡ has_ended self.old }
    {
        self.kept.is_some() || self.has_ended || self.look() != Look::Nothing
    }

    // Looks for the next item among the bytes at hand.
    fn look(&mut self) -> Look
        ensures entry { result ≡ Look.Entry → IsAtEnd self.new.window }
        ensures limit { result ≡ Look.Limit → (self.new.window.room ≡ 0) × (0 < length (left_of self.new.window)) }
        ensures nothing { result ≡ Look.Nothing → left_of self.new.window ≡ [] }
        ensures at_hand { finds result ≡ is_at_hand self.old }
        ensures ahead { ahead self.new ≡ ahead self.old }
        ensures room { room self.new ≡ room self.old }
        ensures count { self.new.count ≡ self.old.count }
        ensures kept { self.new.kept ≡ self.old.kept }
        ensures ended { self.new.has_ended ≡ self.old.has_ended }
    {
        self.window.look()
    }

    /// The next item of the input. It asks for input only where it needs a byte and has none left: before each
    /// read no answer is ready in what was at hand and what the reads of this call gave by then. Until the input has ended the
    /// answer comes of these bytes alone, whatever the source has behind them. A read that gives
    /// no byte ends the input for this reader: it asks its source no more, whatever that may still get. A fault is kept:
    /// each later call answers it again, without a call of the source.
    ///
    /// `Fault` comes only where a read of the source failed in this call. `TooLong` comes exactly where the
    /// next item isn't whole, up to its `;`, within the limit, the input has more, and no read of this call
    /// fails first. `NoMemory` is free, but it is never the answer where a read failed.
    pub fn next<S: Source>(&mut self, source: &mut S) -> Result<Item, InputFault>
        // The items are those of the bytes at hand and then, until the input has ended, those that the source has left.
        ensures items { S.tells → IfOk result (λ item. TakesItem self.old (S.unread source.old) item self.new (S.unread source.new)) }
        ensures counts { IfOk result (λ item. Counts self.old item self.new) }
        ensures agrees { S.tells → AgreesWith self.old (S.unread source.old) → AgreesWith self.new (S.unread source.new) }
        ensures ended { has_ended self.old ≡ true → has_ended self.new ≡ true }

        // Faults, and what is kept of them.
        ensures too_long { S.tells → kept self.old ≡ None → IsErrOf result InputFault.TooLong → IsBeyond (left self.old (S.unread source.old)) }
        ensures beyond { kept self.old ≡ None → IsErrOf result InputFault.TooLong → room self.new < length (ahead self.new) }
        ensures cause { kept self.old ≡ None → HasInputCause (S.input_faults source.old) (S.input_faults source.new) result }
        ensures kept { MatchResult result (λ _. (kept self.old ≡ None) × (kept self.new ≡ None)) (λ fault. kept self.new ≡ Some fault) }
        ensures again { IfSome (kept self.old) (λ fault. (result ≡ Err fault) × (self.new ≡ self.old)) }

        // The source.
        ensures ready { ready self.old ≡ true → source.new ≡ source.old }
        ensures needed { Asks S.reads (λ more. ready_with self.old more ≡ false) (rests self.new) source.old source.new }
        ensures given { IfOk result (λ item. has_ended self.new ≡ false → IsGiven S.reads self.old item self.new source.old source.new) }
        ensures uses { UsesSource S.Source source.old source.new }
    {
        if let Some(fault) = self.kept {
            return Err(fault);
        }
        if self.has_ended {
            return Ok(Item::End);
        }
        let item = self.read_item(source);
        if let Err(fault) = &item {
            self.kept = Some(*fault);
        }
        item
    }

    // The next item, for a reader that keeps no fault and for which the input hasn't ended.
    fn read_item<S: Source>(&mut self, source: &mut S) -> Result<Item, InputFault>
        requires goes_on { self.old.has_ended ≡ false }
        ensures takes { S.tells → IfOk result (λ item. Takes (left_over self.old (S.unread source.old)) item (left_over self.new (S.unread source.new))) }
        ensures counts { IfOk result (λ item. Counts self.old item self.new) }
        ensures beyond { S.tells → IsErrOf result InputFault.TooLong → IsBeyond (left_over self.old (S.unread source.old)) }
        ensures past { IsErrOf result InputFault.TooLong → room self.new < length (ahead self.new) }
        ensures cause { HasInputCause (S.input_faults source.old) (S.input_faults source.new) result }
        ensures ready { is_at_hand self.old ≡ true → source.new ≡ source.old }
        ensures needed { MatchResult result (λ item. Gets S.reads (left_over self.old) item (left_over self.new) self.new.has_ended source.old source.new) (λ _. Asks S.reads (λ more. NeedsMore (left_over self.old more)) true source.old source.new) }
        ensures agrees { S.tells → AgreesWith self.new (S.unread source.new) }
        ensures kept { self.new.kept ≡ self.old.kept }
        ensures uses { UsesSource S.Source source.old source.new }
    {
        'items: loop {
            match self.look() {
                Look::Entry => return Ok(self.entry_at_hand()?),
                Look::Limit => return Err(InputFault::TooLong),
                Look::Nothing => {}
            }
            if let Some(item) = self.read_on(source)? {
                return Ok(item);
            }
        }
    }

    // The entry that ends with the next byte.
    fn entry_at_hand(&mut self) -> Result<Item, AllocError>
        requires found { IsAtEnd self.old.window }
        requires goes_on { self.old.has_ended ≡ false }
        ensures takes { IfOk result (λ item. (rest : List ℕ) → Takes (left_over self.old rest) item (left_over self.new rest)) }
        ensures number { IfOk result (λ item. IsNumbered item (next_number self.old) (next_number self.new)) }
        ensures shrinks { OnOk result (room self.new < room self.old) }
        ensures some { IfOk result (λ item. item ≡ Item.End → ⊥) }
        ensures kept { self.new.kept ≡ self.old.kept }
        ensures goes_on { self.new.has_ended ≡ false }
    {
        let item = read_entry(self.alloc, self.count + 1, self.window.entry())?;
        self.window.use_to(1);
        self.count += 1;
        Ok(item)
    }

    // Reads more bytes. Answers the item, if the input ends or an entry is too long to be kept.
    fn read_on<S: Source>(&mut self, source: &mut S) -> Result<Option<Item>, InputFault>
        requires looked { left_of self.old.window ≡ [] }
        requires goes_on { self.old.has_ended ≡ false }
        ensures becomes { S.tells → IfOk result (λ item. Becomes (left_over self.old (S.unread source.old)) item (left_over self.new (S.unread source.new))) }
        ensures goes_on { IfOk result (λ item. GoesOn self.old item self.new) }
        ensures beyond { S.tells → IsErrOf result InputFault.TooLong → IsBeyond (left_over self.old (S.unread source.old)) }
        ensures past { IsErrOf result InputFault.TooLong → room self.new < length (ahead self.new) }
        ensures cause { HasInputCause (S.input_faults source.old) (S.input_faults source.new) result }
        ensures kept { self.new.kept ≡ self.old.kept }
        ensures asked { Asked S.reads (left_over self.old) (left_over self.new) self.new.has_ended result source.old source.new }
        ensures agrees { S.tells → AgreesWith self.new (S.unread source.new) }
        ensures uses { UsesSource S.Source source.old source.new }
    {
        if self.window.is_full() {
            return self.skip_long(source);
        }
        if self.refill(source)? {
            return Ok(None);
        }
        Ok(Some(self.cut_at_end()))
    }

    // Reads more bytes behind those that are begun, and answers whether any came.
    fn refill<S: Source>(&mut self, source: &mut S) -> Result<bool, InputFault>
        requires looked { left_of self.old.window ≡ [] }
        requires kept { length (begun_of self.old.window) < MOST_BYTES }
        requires goes_on { self.old.has_ended ≡ false }
        ensures refills { IfOk result (λ more. Refills self.old more self.new) }
        ensures gets { S.tells → IfOk result (λ more. GetsMore self.old (S.unread source.old) more self.new (S.unread source.new)) }
        ensures keeps { KeepsCount self.old self.new }
        ensures room { room self.new ≤ room self.old }
        ensures one { OnOk result (S.reads source.old source.new (left_of self.new.window)) }
        ensures err { OnErr result ((source.new ≡ source.old) ⊎ S.reads source.old source.new []) }
        ensures fails { ReadsWith (S.input_faults source.old) (S.input_faults source.new) result }
        ensures uses { UsesSource S.Source source.old source.new }
    {
        let more = self.window.refill(source)?;
        Ok(more)
    }

    // The item of what is begun where the input ends.
    fn cut_at_end(&mut self) -> Item
        requires looked { left_of self.old.window ≡ [] }
        requires short { length (begun_of self.old.window) ≤ MOST_BYTES }
        requires goes_on { self.old.has_ended ≡ false }
        ensures takes { Takes (left_over self.old []) result (left_over self.new []) }
        ensures number { IsNumbered result (next_number self.old) (next_number self.new) }
        ensures shrinks { Shrinks result (room self.old) (room self.new) }
        ensures ahead { ahead self.new ≡ [] }
        ensures kept { self.new.kept ≡ self.old.kept }
        ensures ended { self.new.has_ended ≡ true }
    {
        let place = self.window.place();
        self.window.use_to(0);
        self.cut_item(place, false)
    }

    // Goes to the end of an entry, or of a comment between two entries, of which no further byte is kept.
    fn skip_long<S: Source>(&mut self, source: &mut S) -> Result<Option<Item>, InputFault>
        requires looked { left_of self.old.window ≡ [] }
        requires full { MOST_BYTES ≤ length (begun_of self.old.window) }
        requires goes_on { self.old.has_ended ≡ false }
        ensures becomes { S.tells → IfOk result (λ item. Becomes (left_over self.old (S.unread source.old)) item (left_over self.new (S.unread source.new))) }
        ensures goes_on { IfOk result (λ item. GoesOn self.old item self.new) }
        ensures beyond { S.tells → IsErrOf result InputFault.TooLong → IsBeyond (left_over self.old (S.unread source.old)) }
        ensures past { IsErrOf result InputFault.TooLong → room self.new < length (ahead self.new) }
        ensures cause { HasInputCause (S.input_faults source.old) (S.input_faults source.new) result }
        ensures kept { self.new.kept ≡ self.old.kept }
        ensures asked { Asked S.reads (left_over self.old) (left_over self.new) self.new.has_ended result source.old source.new }
        ensures agrees { S.tells → AgreesWith self.new (S.unread source.new) }
        ensures uses { UsesSource S.Source source.old source.new }
    {
        let place = self.window.place();
        let is_too_long = self.window.is_too_long();
        self.window.use_to(0);
        if self.refill(source)? {
            self.skip_from(place, source)
        } else {
            Ok(Some(self.cut_item(place, is_too_long)))
        }
    }

    // Goes on from a place in an entry, or in a comment between two entries, that is too long to be kept.
    fn skip_from<S: Source>(
        &mut self,
        from: Place,
        source: &mut S,
    ) -> Result<Option<Item>, InputFault>
        requires fresh { IsFresh self.old.window × (0 < length (ahead self.old)) }
        requires goes_on { self.old.has_ended ≡ false }
        requires number { self.old.count + 1 + room self.old < 2 ^ 64 }
        ensures becomes { S.tells → IfOk result (λ item. Becomes (left_within self.old from (S.unread source.old)) item (left_over self.new (S.unread source.new))) }
        ensures passes { IfOk result (λ item. Passes self.old item self.new) }
        ensures beyond { S.tells → IsErrOf result InputFault.TooLong → IsBeyond (left_within self.old from (S.unread source.old)) }
        ensures past { IsErrOf result InputFault.TooLong → room self.new < length (ahead self.new) }
        ensures cause { HasInputCause (S.input_faults source.old) (S.input_faults source.new) result }
        ensures kept { self.new.kept ≡ self.old.kept }
        ensures asked { Asked S.reads (left_within self.old from) (left_over self.new) self.new.has_ended result source.old source.new }
        ensures agrees { S.tells → AgreesWith self.new (S.unread source.new) }
        ensures uses { UsesSource S.Source source.old source.new }
    {
        let mut place = from;
        'skims: loop {
            match self.skim(place) {
                Skim::Entry => return Ok(Some(self.long_item())),
                Skim::Skipped => return Ok(None),
                Skim::Limit => return Err(InputFault::TooLong),
                Skim::Nothing(next) => place = next,
            }
            if !self.refill(source)? {
                return Ok(Some(self.cut_item(place, true)));
            }
        }
    }

    // Uses the bytes at hand from a place on, up to the `;` of an entry or the end of a comment.
    fn skim(&mut self, from: Place) -> Skim
        requires fresh { IsFresh self.old.window }
        requires goes_on { self.old.has_ended ≡ false }
        ensures fresh { IsFresh self.new.window }
        ensures skims { (rest : List ℕ) → Skims self.old from rest result self.new }
        ensures uses { room self.new + length (ahead self.old) ≡ room self.old + length (ahead self.new) }
        ensures shrinks { room self.new ≤ room self.old }
        ensures count { self.new.count ≡ self.old.count }
        ensures kept { self.new.kept ≡ self.old.kept }
        ensures goes_on { self.new.has_ended ≡ false }
    {
        let bytes = self.window.in_limit();
        let most = bytes.len();
        let scanned = scan(from, bytes);
        if scanned.count == most {
            self.window.use_to(scanned.count);
            return if self.window.has_more() {
                Skim::Limit
            } else {
                Skim::Nothing(scanned.place)
            };
        }
        let is_entry = scanned.place.ends(bytes[scanned.count]);
        self.window.use_to(scanned.count + 1);
        if is_entry { Skim::Entry } else { Skim::Skipped }
    }

    // The item of an entry that is too long.
    fn long_item(&mut self) -> Item
        requires number { self.old.count + 1 + room self.old < 2 ^ 64 }
        ensures item { result ≡ Item.TooLong (next_number self.old) }
        ensures number { next_number self.new ≡ next_number self.old + 1 }
        ensures window { self.new.window ≡ self.old.window }
        ensures kept { self.new.kept ≡ self.old.kept }
        ensures ended { self.new.has_ended ≡ self.old.has_ended }
    {
        self.count += 1;
        Item::TooLong { number: self.count }
    }

    // The item of an entry or a comment that leads to a place, where the input ends.
    fn cut_item(&mut self, place: Place, is_too_long: bool) -> Item
        requires none { ahead self.old ≡ [] }
        requires number { is_entry place ≡ true → self.old.count + 1 + room self.old < 2 ^ 64 }
        ensures item { result ≡ cut_at place is_too_long (next_number self.old) }
        ensures number { IsNumbered result (next_number self.old) (next_number self.new) }
        ensures window { self.new.window ≡ self.old.window }
        ensures kept { self.new.kept ≡ self.old.kept }
        ensures ended { self.new.has_ended ≡ true }
    {
        self.has_ended = true;
        if !place.is_entry() {
            return Item::End;
        }
        self.count += 1;
        cut_entry(self.count, is_too_long)
    }
}

// What comes next where bytes are used without being kept.
enum Skim {
    // The entry has ended.
    Entry,
    // The comment has ended.
    Skipped,
    // A byte beyond the limit.
    Limit,
    // No byte is at hand. The bytes lead to this place.
    Nothing(Place),
}

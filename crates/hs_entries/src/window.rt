// The bytes at hand.
ghost use Rattle.std.specs.Prelude.{◌≡◌, ◌↔◌, ◌⊎◌, ◌+◌, ◌-◌, ◌<◌, ◌≤◌, false, [], ◌∷◌, ◌++◌, length, take, drop, slice_index, slice_range, Some, IfOk, OnOk, OnErr, IsTrue};
ghost use Rattle.hs_entries.specs.Place.{leads, passes, ends, next_place};
ghost use Rattle.hs_entries.specs.Entry.{is_too_long as too_long};
ghost use Rattle.hs_entries.specs.Calls.{UsesSource, ReadsWith};

use crate::input_fault::InputFault;
use crate::item::MOST_BYTES;
use crate::place::{Place, scan, white_run};
use hs_host::Source;
use std::alloc::{AllocError, Global};

// How many bytes are at hand at most: as many as an entry has at most, and as many as one read asks for at
// least.
const BUFFER_BYTES: usize = 131_072;

/// What comes next behind the bytes that were looked at.
#[derive(Clone, Copy, Debug, PartialEq, Eq)]
pub enum Look {
    /// The `;` with which an entry ends.
    Entry,
    /// A byte beyond the limit.
    Limit,
    /// No byte is at hand.
    Nothing,
}

/// The bytes that were read and not yet used, in a buffer: first those that are skipped, then those of the
/// entry or the comment that is begun, then those that weren't looked at.
#[derive(Drop)]
pub struct Window {
    buffer: Vec<u8>,
    // The bytes from here to `first` are skipped.
    start: usize,
    // Those to `at` are begun.
    first: usize,
    // Those to `end` weren't looked at.
    at: usize,
    end: usize,
    // To this place the bytes up to `at` lead.
    place: Place,
    // So many more bytes may be used behind `at`.
    room: u64,
}

impl Window {
    ghost use Rattle.hs_entries.specs.Window.{begun_of, left_of, ahead_of, room_of, IsSound, IsAtEnd, IsFresh, Refilled, GetsBytes};

    /// No bytes, of which so many may be used. Takes no memory.
    pub fn new(alloc: Global, room: u64) -> Window
        ensures sound { IsSound result }
        ensures ahead { ahead_of result ≡ [] }
        ensures room { room_of result ≡ room }
    {
        Window {
            buffer: Vec::new(alloc),
            start: 0,
            first: 0,
            at: 0,
            end: 0,
            place: Place::Between,
            room,
        }
    }

    /// The place to which the bytes lead that were looked at.
    pub fn place(&self) -> Place
        ensures { result ≡ self.now.place }
    {
        self.place
    }

    /// Whether an entry or a comment is begun of which no further byte is kept.
    pub fn is_full(&self) -> bool
        requires sound { IsSound self.now }
        ensures { IsTrue result ↔ (MOST_BYTES ≤ length (begun_of self.now)) }
    {
        self.at - self.first >= MOST_BYTES
    }

    /// Whether more bytes are begun than an entry has at most.
    pub fn is_too_long(&self) -> bool
        requires sound { IsSound self.now }
        ensures { result ≡ too_long (begun_of self.now) }
    {
        self.at - self.first > MOST_BYTES
    }

    /// Whether bytes are at hand that weren't looked at.
    pub fn has_more(&self) -> bool
        requires sound { IsSound self.now }
        ensures { IsTrue result ↔ (0 < length (left_of self.now)) }
    {
        self.at < self.end
    }

    /// The bytes that weren't looked at, as far as they may be used.
    pub fn in_limit(&self) -> &[u8]
        requires sound { IsSound self.now }
        ensures { result.now ≡ take self.now.room (left_of self.now) }
    {
        let left = &self.buffer[self.at..self.end];
        if left.len() as u64 <= self.room {
            left
        } else {
            &left[..self.room as usize]
        }
    }

    /// Looks at the next bytes, up to a `;` with which an entry ends.
    pub fn look(&mut self) -> Look
        requires sound { IsSound self.old }
        ensures sound { IsSound self.new }
        ensures ahead { ahead_of self.new ≡ ahead_of self.old }
        ensures room { room_of self.new ≡ room_of self.old }
        ensures entry { result ≡ Look.Entry → IsAtEnd self.new }
        ensures limit { result ≡ Look.Limit → (self.new.room ≡ 0) × (0 < length (left_of self.new)) }
        ensures nothing { result ≡ Look.Nothing → left_of self.new ≡ [] }
    {
        loop {
            let bytes = self.in_limit();
            let most = bytes.len();
            let scanned = scan(self.place, bytes);
            self.advance(scanned.count, scanned.place);
            if scanned.count == most {
                return if self.at < self.end {
                    Look::Limit
                } else {
                    Look::Nothing
                };
            }
            if self.is_at_end() {
                return Look::Entry;
            }
            self.skip();
        }
    }

    // Looks at the next bytes, which lead to a place.
    fn advance(&mut self, count: usize, place: Place)
        requires sound { IsSound self.old }
        requires there { self.old.at + count ≤ self.old.end }
        requires room { count ≤ self.old.room }
        requires leads { leads self.old.place (take count (left_of self.old)) ≡ Some place }
        ensures sound { IsSound self.new }
        ensures fields { self.new ≡ record self.old { at = self.old.at + count; room = self.old.room - count; place = place } }
    {
        self.at += count;
        self.room -= count as u64;
        self.place = place;
    }

    // Whether an entry ends with the next byte.
    fn is_at_end(&self) -> bool
        requires sound { IsSound self.now }
        requires there { self.now.at < self.now.end }
        ensures { result ≡ ends self.now.place (slice_index self.now.buffer.items self.now.at) }
    {
        self.place.ends(self.buffer[self.at])
    }

    // Skips what is begun with the next byte, which leads between two entries, and the white space behind it.
    fn skip(&mut self)
        requires sound { IsSound self.old }
        requires there { self.old.at < self.old.end }
        requires room { 0 < self.old.room }
        requires goes_on { ends self.old.place (slice_index self.old.buffer.items self.old.at) ≡ false }
        requires between { next_place self.old.place (slice_index self.old.buffer.items self.old.at) ≡ Place.Between }
        ensures sound { IsSound self.new }
        ensures ahead { ahead_of self.new ≡ ahead_of self.old }
        ensures room { room_of self.new ≡ room_of self.old }
        ensures more { self.old.at < self.new.at }
        ensures end { self.new.end ≡ self.old.end }
    {
        let count = 1 + self.white_behind();
        self.at += count;
        self.room -= count as u64;
        self.first = self.at;
        self.place = Place::Between;
    }

    // How many bytes behind the next one are white space.
    fn white_behind(&self) -> usize
        requires sound { IsSound self.now }
        requires there { self.now.at < self.now.end }
        requires room { 0 < self.now.room }
        ensures within { self.now.at + (1 + result) ≤ self.now.end }
        ensures room { 1 + result ≤ self.now.room }
        ensures passes { passes Place.Between (slice_range self.now.buffer.items (self.now.at + 1) (self.now.at + (1 + result))) ≡ Some Place.Between }
    {
        white_run(&self.in_limit()[1..])
    }

    /// The bytes of the entry that ends with the next byte.
    pub fn entry(&self) -> &[u8]
        requires sound { IsSound self.now }
        requires there { self.now.at < self.now.end }
        ensures { result.now ≡ begun_of self.now ++ slice_index self.now.buffer.items self.now.at ∷ [] }
    {
        &self.buffer[self.first..self.at + 1]
    }

    /// Uses the bytes that were looked at, and `count` more.
    pub fn use_to(&mut self, count: usize)
        requires sound { IsSound self.old }
        requires there { count ≤ length (left_of self.old) }
        requires room { count ≤ self.old.room }
        ensures sound { IsSound self.new }
        ensures ahead { ahead_of self.new ≡ drop count (left_of self.old) }
        ensures fresh { IsFresh self.new }
        ensures room { self.new.room + count ≡ self.old.room }
    {
        self.at += count;
        self.room -= count as u64;
        self.start = self.at;
        self.first = self.at;
        self.place = Place::Between;
    }

    /// Drops what is skipped, and reads more bytes behind what is begun, by one read at most, which asks for 64 KiB
    /// at least. Answers whether any came, and none comes only at the end of the input.
    pub fn refill<S: Source>(&mut self, source: &mut S) -> Result<bool, InputFault>
        requires sound { IsSound self.old }
        requires kept { length (begun_of self.old) < MOST_BYTES }
        requires looked { left_of self.old ≡ [] }
        ensures sound { IsSound self.new }
        ensures refilled { IfOk result (λ more. Refilled self.old more self.new) }
        ensures room { self.new.room ≡ self.old.room }
        ensures passed { room_of self.new ≤ room_of self.old }
        ensures bytes { S.tells → IfOk result (λ more. GetsBytes (S.unread source.old) more (left_of self.new) (S.unread source.new)) }
        ensures one { OnOk result (S.reads source.old source.new (left_of self.new)) }
        ensures err { OnErr result ((source.new ≡ source.old) ⊎ S.reads source.old source.new []) }
        ensures fails { ReadsWith (S.input_faults source.old) (S.input_faults source.new) result }
        ensures uses { UsesSource S.Source source.old source.new }
    {
        self.make_room()?;
        prove!(self.buffer.len() - self.end >= MOST_BYTES);
        let count = source.read_input(&mut self.buffer[self.end..])?;
        self.end += count;
        Ok(count > 0)
    }

    // Drops what is skipped, so that what is begun stands at the front of the buffer.
    fn make_room(&mut self) -> Result<(), AllocError>
        requires sound { IsSound self.old }
        ensures sound { IsSound self.new }
        ensures size { OnOk result (length self.new.buffer.items ≡ BUFFER_BYTES) }
        ensures start { OnOk result ((self.new.start ≡ 0) × (self.new.first ≡ 0)) }
        ensures end { OnOk result ((self.new.at ≡ self.old.at - self.old.first) × (self.new.end ≡ self.old.end - self.old.first)) }
        ensures begun { OnOk result (begun_of self.new ≡ begun_of self.old) }
        ensures place { self.new.place ≡ self.old.place }
        ensures room { self.new.room ≡ self.old.room }
        ensures err { OnErr result (self.new ≡ self.old) }
    {
        if self.buffer.is_empty() {
            self.buffer = new_buffer(*self.buffer.allocator())?;
        }
        self.buffer.copy_within(self.first..self.end, 0);
        self.at -= self.first;
        self.end -= self.first;
        self.start = 0;
        self.first = 0;
        Ok(())
    }
}

// Memory for the bytes at hand.
fn new_buffer(alloc: Global) -> Result<Vec<u8>, AllocError>
    ensures { IfOk result (λ buffer. length buffer.items ≡ BUFFER_BYTES) }
{
    vec![in alloc; 0; BUFFER_BYTES]
}

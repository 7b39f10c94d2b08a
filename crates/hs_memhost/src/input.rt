// Input in memory, given whole or in pieces.
ghost use Rattle.std.specs.Prelude.{◌≡◌, ◌≤◌, ◌++◌, ◌<◌, [], take, drop, length};

use hs_values::Bytes;
use std::alloc::Global;

// How much each read gives at most: the lengths in turn, and again from the first. Without any length
// there is no bound.
#[derive(Drop)]
struct Pieces {
    lengths: Vec<usize>,
    at: usize,
}

impl Pieces {
    // The most that the next read may give.
    fn next(&mut self) -> usize
        ensures { 0 < result }
    {
        if self.at >= self.lengths.len() {
            self.at = 0;
        }
        let Some(length) = self.lengths.get(self.at) else {
            return usize::MAX;
        };
        self.at += 1;
        (*length).max(1)
    }
}

/// Bytes to be read. `left_of` is the list of those that are left.
#[derive(Drop)]
pub struct Input {
    bytes: Bytes,
    taken: usize,
    pieces: Pieces,
    ghost within: { taken ≤ length bytes },
}

impl Input {
    ghost use Rattle.hs_memhost.specs.Input.{left_of};

    /// All bytes are left, and a read gives as many as its buffer takes.
    pub fn new(alloc: Global, bytes: Bytes) -> Input
        ensures { left_of result ≡ bytes }
    {
        Input {
            bytes,
            taken: 0,
            pieces: Pieces {
                lengths: Vec::new(alloc),
                at: 0,
            },
        }
    }

    /// From now on a read gives at most so many bytes, but at least one: the lengths are taken in turn,
    /// and again from the first.
    pub fn set_pieces(&mut self, lengths: Vec<usize>)
        ensures { left_of self.new ≡ left_of self.old }
    {
        self.pieces = Pieces { lengths, at: 0 };
    }

    /// How many bytes the next read gives, where its buffer has so much room.
    pub fn next_count(&mut self, room: usize) -> usize
        ensures room { result ≤ room }
        ensures left { result ≤ length (left_of self.new) }
        ensures end { result ≡ 0 → 0 < room → left_of self.new ≡ [] }
        ensures same { left_of self.new ≡ left_of self.old }
    {
        let most = self.pieces.next();
        room.min(self.bytes.len() - self.taken).min(most)
    }

    /// The next so many bytes.
    pub fn front(&self, count: usize) -> &[u8]
        requires { count ≤ length (left_of self.now) }
        ensures { result.now ≡ take count (left_of self.now) }
    {
        &self.bytes.as_slice()[self.taken..self.taken + count]
    }

    /// Puts the next so many bytes at the front of `buf`.
    pub fn take(&mut self, buf: &mut [u8], count: usize)
        requires room { count ≤ length buf.old }
        requires left { count ≤ length (left_of self.old) }
        ensures taken { take count buf.new ≡ take count (left_of self.old) }
        ensures rest { left_of self.old ≡ take count buf.new ++ left_of self.new }
    {
        fill(buf, &self.bytes.as_slice()[self.taken..], count);
        self.taken += count;
    }
}

// Copies so many of the bytes.
fn fill(buf: &mut [u8], bytes: &[u8], count: usize)
    requires room { count ≤ length buf.old }
    requires there { count ≤ length bytes.now }
    ensures taken { take count buf.new ≡ take count bytes.now }
    ensures copied { bytes.now ≡ take count buf.new ++ drop count bytes.now }
{
    buf[..count].copy_from_slice(&bytes[..count]);
}

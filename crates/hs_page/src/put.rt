// Rows put into a page.
ghost use Rattle.std.specs.Prelude.{◌≡◌, ℕ, ◌+◌, ◌*◌, ◌<◌, ◌≤◌, ◌^◌, ◌++◌, [], max, length};
ghost use Rattle.std.specs.List.{sum_by};
ghost use Rattle.std.specs.Int.{w64, to_be_bytes};
ghost use Rattle.hs_page.specs.Pages.{IsPage, slot_count, slot_bytes, slots_of, first_free, with_slot, row_bytes, room_of};

use crate::numbers::number;
use crate::pack::make_gap;
use crate::place::place;
use crate::{PAGE_BYTES, Page};
use hs_base::{RowNo, TableNo};

/// The first free slot, or the next one where none is free.
pub fn first_free(bytes: &[u8]) -> usize
    requires { IsPage bytes.now }
    ensures first { result ≡ first_free (slots_of bytes.now) }
    ensures within { result ≤ slot_count bytes.now }
    ensures free { slot_bytes bytes.now result ≡ [] }
{
    let count = number(bytes, 0);
    for i in 0..count {
        if number(bytes, 6 + 4 * i) == 0 {
            return i;
        }
    }
    count
}

/// The bytes of all rows of a page together.
fn bytes_of_rows(bytes: &[u8]) -> usize
    requires { IsPage bytes.now }
    ensures sum { result ≡ sum_by length (slots_of bytes.now) }
    ensures fits { result < 2 ^ 32 }
{
    let mut total = 0;
    for i in 0..number(bytes, 0) {
        total += number(bytes, 6 + 4 * i);
    }
    total
}

/// The two numbers in front of an encoded row.
fn row_head(table: TableNo, row: RowNo) -> [u8; 16]
    ensures { result ≡ to_be_bytes w64 table.0 ++ to_be_bytes w64 row.0 }
{
    let mut head = [0; 16];
    head[..8].copy_from_slice(&table.0.to_be_bytes());
    head[8..].copy_from_slice(&row.0.to_be_bytes());
    head
}

impl Page {
    /// The length of the longest encoded row that fits, 0 where none of at least one byte does.
    pub fn room(&self) -> usize
        ensures room { result ≡ room_of (slots_of self.now) }
        ensures page { IsPage self.now }
    {
        let count = number(&self.bytes, 0).max(first_free(&self.bytes) + 1);
        PAGE_BYTES.saturating_sub(4 + 4 * count + bytes_of_rows(&self.bytes) + 16)
    }

    /// Puts a row of this table, with this number and these encoded bytes, of which there is at least one and no more
    /// than there is room for. It comes into the first free slot, or into a new one behind the others where none is
    /// free, and the number of that slot is the answer. Each other slot keeps its bytes.
    pub fn put(&mut self, table: TableNo, row: RowNo, bytes: &[u8]) -> u16
        requires some { 0 < length bytes.now }
        requires room { length bytes.now ≤ room_of (slots_of self.old) }
        ensures slot { result ≡ first_free (slots_of self.old) }
        ensures free { slot_bytes self.old result ≡ [] }
        ensures slots { slots_of self.new ≡ with_slot (slots_of self.old) result (row_bytes table.0 row.0 bytes.now) }
        ensures page { IsPage self.new }
    {
        let slot = first_free(&self.bytes);
        make_gap(&mut self.bytes, slot, 16 + bytes.len());
        place(&mut self.bytes, slot, &row_head(table, row), bytes);
        slot as u16
    }
}

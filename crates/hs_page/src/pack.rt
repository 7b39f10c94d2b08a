// The rows of a page moved together, so that its free bytes are one gap.
ghost use Rattle.std.specs.Prelude.{◌≡◌, ℕ, ◌+◌, ◌*◌, ◌<◌, ◌≤◌, [], max, length};
ghost use Rattle.std.specs.List.{sum_by};
ghost use Rattle.hs_page.specs.Pages.{IsPage, slot_count, slot_bytes, slots_of, bytes_taken, low};
ghost use Rattle.hs_page.specs.Writes.{IsPacked, HasGap};

use crate::PAGE_BYTES;
use crate::numbers::{number, set_number};
use crate::place::place;

/// A page with so many slots, all free.
pub fn blank(count: usize) -> [u8; PAGE_BYTES]
    requires { 4 + 4 * count ≤ PAGE_BYTES }
    ensures page { IsPage result }
    ensures count { slot_count result ≡ count }
    ensures low { low result ≡ PAGE_BYTES }
    ensures free { (i : ℕ) → slot_bytes result i ≡ [] }
{
    let mut bytes = [0; PAGE_BYTES];
    set_number(&mut bytes, 0, count);
    set_number(&mut bytes, 2, PAGE_BYTES);
    bytes
}

/// The bytes of slot i, none where it is free or isn't there.
pub fn slot(bytes: &[u8], i: usize) -> &[u8]
    requires { IsPage bytes.now }
    ensures { result.now ≡ slot_bytes bytes.now i }
{
    if i >= number(bytes, 0) {
        return &[];
    }
    let at = number(bytes, 4 + 4 * i);
    &bytes[at..at + number(bytes, 6 + 4 * i)]
}

/// The same slots, with the rows one behind another up to the end.
fn packed(bytes: &[u8]) -> [u8; PAGE_BYTES]
    requires page { IsPage bytes.now }
    requires room { bytes_taken (slot_count bytes.now) (slots_of bytes.now) ≤ PAGE_BYTES }
    ensures page { IsPage result }
    ensures packed { IsPacked bytes.now result (sum_by length (slots_of bytes.now)) }
{
    let count = number(bytes, 0);
    let mut all = blank(count);
    for i in 0..count {
        let row = slot(bytes, i);
        if !row.is_empty() {
            place(&mut all, i, &[], row);
        }
    }
    all
}

/// Makes a gap for a row of `len` bytes in slot `slot`, where there are as many free bytes.
pub fn make_gap(bytes: &mut [u8; PAGE_BYTES], slot: usize, len: usize)
    requires page { IsPage bytes.old }
    requires slot { slot ≤ slot_count bytes.old }
    requires room { bytes_taken (max (slot_count bytes.old) (slot + 1)) (slots_of bytes.old) + len ≤ PAGE_BYTES }
    ensures page { IsPage bytes.new }
    ensures same { slots_of bytes.new ≡ slots_of bytes.old }
    ensures gap { HasGap bytes.new slot len }
{
    let end = 4 + 4 * number(bytes, 0).max(slot + 1);
    if number(bytes, 2) < end + len {
        *bytes = packed(bytes);
    }
}

// A row written into a page in front of the others.
ghost use Rattle.std.specs.Prelude.{◌≡◌, ℕ, ◌+◌, ◌*◌, ◌<◌, ◌≤◌, ◌++◌, [], max, length};
ghost use Rattle.hs_page.specs.Pages.{IsPage, slot_count, slot_bytes, length_of, low};
ghost use Rattle.hs_page.specs.Writes.{IsPlaced, IsPut, MayPlace};

use crate::PAGE_BYTES;
use crate::numbers::{number, set_number, set_row};

/// Writes a row of two parts in front of the others, into slot `slot`.
fn write_row(bytes: &mut [u8], slot: usize, head: &[u8], rest: &[u8])
    requires size { length bytes.old ≡ PAGE_BYTES }
    requires rows { low bytes.old ≤ PAGE_BYTES }
    requires gap { 4 + 4 * max (slot_count bytes.old) (slot + 1) + (length head.now + length rest.now) ≤ low bytes.old }
    ensures { IsPlaced bytes.old bytes.new slot (head.now ++ rest.now) }
{
    let count = number(bytes, 0);
    let len = head.len() + rest.len();
    let at = number(bytes, 2) - len;
    set_row(bytes, at, head, rest);
    set_number(bytes, 4 + 4 * slot, at);
    set_number(bytes, 6 + 4 * slot, len);
    set_number(bytes, 2, at);
    set_number(bytes, 0, count.max(slot + 1));
}

/// Puts a row of two parts, of at least one byte, into slot `slot`, which is free or the next one.
pub fn place(bytes: &mut [u8], slot: usize, head: &[u8], rest: &[u8])
    requires { MayPlace bytes.old slot (head.now ++ rest.now) }
    ensures page { IsPage bytes.new }
    ensures low { low bytes.new + length (head.now ++ rest.now) ≡ low bytes.old }
    ensures put { IsPut bytes.old bytes.new slot (head.now ++ rest.now) }
{
    write_row(bytes, slot, head, rest);
}

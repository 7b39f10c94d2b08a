// The least offset of a row.
ghost use Rattle.std.specs.Prelude.{◌≡◌, ◌⊎◌, ℕ, ◌+◌, ◌*◌, ◌<◌, ◌≤◌, length};
ghost use Rattle.hs_page.specs.Pages.{slot_count, offset_of, length_of, SomeRowAt};

use crate::PAGE_BYTES;
use crate::numbers::number;

/// The least offset of a row, and the end of the page where there is none.
pub fn least_offset(bytes: &[u8]) -> usize
    requires { 4 + 4 * slot_count bytes.now ≤ length bytes.now }
    ensures lower { (i : ℕ) → i < slot_count bytes.now → 0 < length_of bytes.now i → result ≤ offset_of bytes.now i }
    ensures least { (result ≡ PAGE_BYTES) ⊎ SomeRowAt bytes.now result }
    ensures within { result ≤ PAGE_BYTES }
{
    let mut least = PAGE_BYTES;
    for i in 0..number(bytes, 0) {
        let at = number(bytes, 4 + 4 * i);
        if number(bytes, 6 + 4 * i) > 0 && at < least {
            least = at;
        }
    }
    least
}

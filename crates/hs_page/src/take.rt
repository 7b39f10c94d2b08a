// Rows taken out of a page.
ghost use Rattle.std.specs.Prelude.{◌≡◌, ◌<◌, [], length};
ghost use Rattle.hs_page.specs.Pages.{IsPage, slot_count, slot_bytes, slots_of, with_slot};
ghost use Rattle.hs_page.specs.Writes.{IsTaken};

use crate::Page;
use crate::least::least_offset;
use crate::numbers::set_number;

/// Frees slot `slot`, and finds the least offset of the rows that are left.
fn free_slot(bytes: &mut [u8], slot: usize)
    requires page { IsPage bytes.old }
    requires slot { slot < slot_count bytes.old }
    ensures { IsTaken bytes.old bytes.new slot }
{
    set_number(bytes, 4 + 4 * slot, 0);
    set_number(bytes, 6 + 4 * slot, 0);
    let low = least_offset(bytes);
    set_number(bytes, 2, low);
}

impl Page {
    /// Takes the row out of a used slot, which is then free. Each other slot keeps its bytes.
    pub fn take(&mut self, slot: u16)
        requires { 0 < length (slot_bytes self.old slot) }
        ensures slots { slots_of self.new ≡ with_slot (slots_of self.old) slot [] }
        ensures page { IsPage self.new }
    {
        free_slot(&mut self.bytes, usize::from(slot));
    }
}

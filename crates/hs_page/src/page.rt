// Pages and what they hold.
ghost use Rattle.std.specs.Prelude.{◌≡◌, ℕ, length, []};
ghost use Rattle.hs_page.specs.Pages.{IsPage, slot_bytes, slot_count, slots_of, first_free, room_of};

use crate::PAGE_BYTES;
use crate::numbers::number;
use crate::pack::{blank, slot};
use std::marker::Model;

/// A page of `PAGE_BYTES` bytes. It has slots, numbered from 0, and each is free or has a row. Contracts see a page
/// as its bytes, and by `slots_of` as the list of its slots.
#[derive(Clone, Copy)]
pub struct Page {
    pub(crate) bytes: [u8; PAGE_BYTES],
}

impl Model for Page {
    ghost use Rattle.std.specs.Prelude.{List, ℕ};
    ghost use Rattle.hs_page.specs.Pages.{IsPage};

    ghost Value = { List ℕ };

    ghost view = { λ p. p.bytes };

    ghost invariant = { λ p. IsPage p.bytes };

    ghost inverse = { λ v. record { bytes = v } };
}

impl Page {
    /// A page without slots.
    pub fn empty() -> Page
        ensures slots { slots_of result ≡ [] }
        ensures page { IsPage result }
    {
        Page { bytes: blank(0) }
    }

    /// The bytes of the page, as they stand in a file.
    pub fn bytes(&self) -> &[u8]
        ensures same { result.now ≡ self.now }
        ensures page { IsPage self.now }
    {
        &self.bytes
    }

    /// The number of slots.
    pub fn slot_count(&self) -> u16
        ensures { result ≡ length (slots_of self.now) }
    {
        number(&self.bytes, 0) as u16
    }

    /// The bytes of slot i, none where it is free or isn't there.
    pub fn slot(&self, i: u16) -> &[u8]
        ensures { result.now ≡ slot_bytes self.now i }
    {
        slot(&self.bytes, usize::from(i))
    }
}

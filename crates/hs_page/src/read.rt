// Pages read from bytes.
ghost use Rattle.std.specs.Prelude.{◌≡◌, ◌⊎◌, ℕ, ◌+◌, ◌*◌, ◌<◌, ◌≤◌, true, false, Bool, length, IfNone, IfSome, slice_index_or};
ghost use Rattle.hs_page.specs.Pages.{IsPage, slot_count};
ghost use Rattle.hs_page.specs.Marks.{IsMarked, HasMark, MarkedMore, AreMarked, IsWhole, AreApart};

use crate::least::least_offset;
use crate::numbers::number;
use crate::{PAGE_BYTES, Page};

/// Whether a byte from `at` to `end` has a mark.
fn has_mark(marks: &[bool], at: usize, end: usize) -> bool
    requires order { at ≤ end }
    requires end { end ≤ length marks.now }
    ensures yes { result ≡ true → HasMark marks.now at end }
    ensures no { result ≡ false → (p : ℕ) → at ≤ p → p < end → slice_index_or marks.now p false ≡ false }
{
    marks[at..end].contains(&true)
}

/// Marks the bytes from `at` to `end`.
fn set_marks(marks: &mut [bool], at: usize, end: usize)
    requires order { at ≤ end }
    requires end { end ≤ length marks.old }
    ensures marked { (p : ℕ) → at ≤ p → p < end → IsMarked marks.new p }
    ensures others { (p : ℕ) → (p < at) ⊎ (end ≤ p) → slice_index_or marks.new p false ≡ slice_index_or marks.old p false }
{
    marks[at..end].fill(true);
}

/// Marks the bytes of slot i, or answers false where it is no slot of a page or meets a mark.
fn mark_slot(bytes: &[u8], marks: &mut [bool; PAGE_BYTES], i: usize) -> bool
    requires slot { 7 + 4 * i < length bytes.now }
    requires marks { AreMarked bytes.now marks.old i }
    ensures yes { result ≡ true → AreMarked bytes.now marks.new (i + 1) }
    ensures no { result ≡ false → IsWhole bytes.now i → AreApart bytes.now (i + 1) → ⊥ }
{
    let at = number(bytes, 4 + 4 * i);
    let len = number(bytes, 6 + 4 * i);
    if len == 0 {
        return at == 0;
    }
    let end = at + len;
    if end > PAGE_BYTES {
        return false;
    }
    if has_mark(marks, at, end) {
        return false;
    }
    set_marks(marks, at, end);
    true
}

/// Whether each slot is free or has a row within the page, and no two rows overlap.
fn are_rows(bytes: &[u8]) -> bool
    requires { 4 + 4 * slot_count bytes.now ≤ length bytes.now }
    ensures whole { result ≡ true → (i : ℕ) → i < slot_count bytes.now → IsWhole bytes.now i }
    ensures apart { result ≡ true → AreApart bytes.now (slot_count bytes.now) }
    ensures no { result ≡ false → ((i : ℕ) → i < slot_count bytes.now → IsWhole bytes.now i) → AreApart bytes.now (slot_count bytes.now) → ⊥ }
{
    let mut marks = [false; PAGE_BYTES];
    for i in 0..number(bytes, 0) {
        if !mark_slot(bytes, &mut marks, i) {
            return false;
        }
    }
    true
}

/// Whether these bytes are a page.
fn is_page(bytes: &[u8]) -> bool
    ensures yes { result ≡ true → IsPage bytes.now }
    ensures no { result ≡ false → IsPage bytes.now → ⊥ }
{
    if bytes.len() != PAGE_BYTES {
        return false;
    }
    let low = number(bytes, 2);
    let slots_end = 4 + 4 * number(bytes, 0);
    if slots_end > low {
        return false;
    }
    if low > PAGE_BYTES {
        return false;
    }
    if least_offset(bytes) != low {
        return false;
    }
    are_rows(bytes)
}

impl Page {
    /// The page that has these bytes, None exactly where they are none.
    pub fn read(bytes: &[u8]) -> Option<Page>
        ensures none { IfNone result (IsPage bytes.now → ⊥) }
        ensures some { IfSome result (λ page. page ≡ bytes.now) }
        ensures page { IfSome result (λ page. IsPage page) }
    {
        if !is_page(bytes) {
            return None;
        }
        let mut copy = [0; PAGE_BYTES];
        copy.copy_from_slice(bytes);
        Some(Page { bytes: copy })
    }
}

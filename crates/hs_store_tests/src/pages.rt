// A page with known bytes, and which of its one-byte changes are pages.
ghost use Rattle.std.specs.Prelude.{◌+◌, ◌*◌, ◌^◌, ◌<◌};

use hs_base::{RowNo, TableNo};
use hs_page::{PAGE_BYTES, Page};

// The row (1, 'Bo', NULL) of an INTEGER, a VARCHAR(20) and a BOOLEAN.
const BO: [u8; 11] = [1, 0, 0, 0, 1, 1, 0, 2, 0x42, 0x6f, 0];

// Puts a row of table 7, where it fits.
fn put(page: &mut Page, row: u64, bytes: &[u8]) -> Option<u16> {
    if !bytes.is_empty() && bytes.len() <= page.room() {
        Some(page.put(TableNo(7), RowNo(row), bytes))
    } else {
        None
    }
}

// Takes a row, where there is one.
fn take(page: &mut Page, slot: u16) {
    if !page.slot(slot).is_empty() {
        page.take(slot);
    }
}

#[test]
fn a_row_alone(rt: HostRuntime) {
    let mut page = Page::empty();
    assert_eq!(rt; page.room(), PAGE_BYTES - 24);
    assert_eq!(rt; put(&mut page, 1, &BO), Some(0));
    assert!(rt;
        page.bytes()
            .starts_with(&[0x00, 0x01, 0x0f, 0xe5, 0x0f, 0xe5, 0x00, 0x1b])
    );
    assert_eq!(rt; page.slot(0).len(), 27);
    assert_eq!(rt; page.slot_count(), 1);
    assert!(rt; page.slot(1).is_empty() && page.row(1).is_none());
    match page.row(0) {
        Some(row) => assert!(rt;
            row.table == TableNo(7) && row.row == RowNo(1) && row.bytes == BO.as_slice()
        ),
        None => assert!(rt; false),
    }
    take(&mut page, 0);
    assert!(rt; page.slot(0).is_empty());
    assert_eq!(rt; page.room(), PAGE_BYTES - 24);
}

// The number in two bytes.
fn number(bytes: &[u8; PAGE_BYTES], at: usize) -> usize
    requires { at + 1 < PAGE_BYTES }
    ensures { result < 2 ^ 16 }
{
    256 * usize::from(bytes[at]) + usize::from(bytes[at + 1])
}

// The offset of the row of slot i and its end, where the slot isn't free.
fn row_of(bytes: &[u8; PAGE_BYTES], i: usize) -> Option<(usize, usize)>
    requires { 7 + 4 * i < PAGE_BYTES }
{
    let at = number(bytes, 4 + 4 * i);
    let end = at + number(bytes, 6 + 4 * i);
    if end == 0 { None } else { Some((at, end)) }
}

// Whether the row of slot i shares no byte with one of the slots before it.
fn is_apart(bytes: &[u8; PAGE_BYTES], i: usize, at: usize, end: usize) -> bool
    requires { 7 + 4 * i < PAGE_BYTES }
{
    for j in 0..i {
        if let Some((other, other_end)) = row_of(bytes, j) {
            if at < other_end && other < end {
                return false;
            }
        }
    }
    true
}

// Whether these bytes are a page, by its definition slot by slot and pair by pair.
fn is_page(bytes: &[u8; PAGE_BYTES]) -> bool {
    let count = number(bytes, 0);
    let low = number(bytes, 2);
    if 4 + 4 * count > low || 4 + 4 * count > PAGE_BYTES {
        return false;
    }
    let mut is_least = low == PAGE_BYTES;
    for i in 0..count {
        if let Some((at, end)) = row_of(bytes, i) {
            if at < low || end <= at || end > PAGE_BYTES || !is_apart(bytes, i, at, end) {
                return false;
            }
            is_least = is_least || at == low;
        }
    }
    is_least
}

// How many of the 255 other values of each of the first 16 bytes make a page, of three slots with the second one free;
// every other byte may have any value. These were counted by a program in another language, which sorts the rows by
// their offsets and compares neighbours.
const CHANGES: [u32; 16] = [3, 252, 0, 0, 0, 20, 0, 26, 0, 0, 0, 0, 0, 0, 0, 37];

// How many other values of the byte at `at` make a page, or None where the answer to one isn't what the definition says.
fn pages_with_other_byte(bytes: &mut [u8; PAGE_BYTES], at: usize) -> Option<u32>
    requires { at < PAGE_BYTES }
{
    let was = bytes[at];
    let mut pages: u32 = 0;
    for byte in 0..=255_u8 {
        bytes[at] = byte;
        let found = Page::read(bytes).is_some();
        if found != is_page(bytes) {
            return None;
        }
        if found && byte != was {
            pages = pages.wrapping_add(1);
        }
    }
    bytes[at] = was;
    Some(pages)
}

#[test]
fn changes_of_one_byte(rt: HostRuntime) {
    let mut page = Page::empty();
    put(&mut page, 1, &BO);
    put(&mut page, 2, &[1, 2, 3, 4]);
    put(&mut page, 3, &[9, 9]);
    take(&mut page, 1);
    let mut bytes = [0; PAGE_BYTES];
    bytes.copy_from_slice(page.bytes());
    for at in 0..PAGE_BYTES {
        let pages = pages_with_other_byte(&mut bytes, at);
        let wanted = if at < 16 { CHANGES[at] } else { 255 };
        assert_eq!(rt; pages, Some(wanted), "byte {at}");
    }
}

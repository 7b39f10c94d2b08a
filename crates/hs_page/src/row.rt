// Rows as they stand in a page.
ghost use Rattle.std.specs.Prelude.{◌≡◌, ◌<◌, ◌++◌, length, IfNone, IfSome};
ghost use Rattle.std.specs.Int.{w64, to_be_bytes};
ghost use Rattle.hs_page.specs.Pages.{slot_bytes, row_bytes};

use crate::Page;
use hs_base::{RowNo, TableNo};

/// A row in a page: its table, its number and its encoded bytes.
#[derive(Clone, Copy)]
pub struct PageRow<'a> {
    pub table: TableNo,
    pub row: RowNo,
    pub bytes: &'a [u8],
}

/// The number in the first 8 bytes, big-endian, and what stands behind them. None where there are fewer.
fn split_number(bytes: &[u8]) -> Option<(u64, &[u8])>
    ensures none { IfNone result (length bytes.now < 8) }
    ensures some { IfSome result (λ r. bytes.now ≡ to_be_bytes w64 r.0 ++ r.1.now) }
{
    let (first, rest) = bytes.split_first_chunk::<8>()?;
    Some((u64::from_be_bytes(*first), rest))
}

impl Page {
    /// The row of slot i, borrowed. None exactly where the slot has fewer bytes than the row's two numbers take, as
    /// one that is free or isn't there.
    pub fn row(&self, i: u16) -> Option<PageRow<'_>>
        ensures none { IfNone result (length (slot_bytes self.now i) < 16) }
        ensures some { IfSome result (λ r. slot_bytes self.now i ≡ row_bytes r.table.0 r.row.0 r.bytes.now) }
    {
        let (table, behind) = split_number(self.slot(i))?;
        let (row, bytes) = split_number(behind)?;
        Some(PageRow {
            table: TableNo(table),
            row: RowNo(row),
            bytes,
        })
    }
}

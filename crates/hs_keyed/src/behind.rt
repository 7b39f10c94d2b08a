// Rows in the order of their numbers.
ghost use Rattle.std.specs.Prelude.{◌≡◌, None, Some};
ghost use Rattle.hs_keyed.specs.Kept.{rows_of};
ghost use Rattle.hs_rows.specs.Numbers.{next_in};

use hs_base::RowNo;
use hs_values::Row;
use std::collections::BTreeMap;
use std::ops::Bound;

/// The row with the least number behind this one, or the first row; None exactly where there is none. Takes no memory.
pub fn row_behind(rows: &BTreeMap<u64, Row>, after: Option<RowNo>) -> Option<RowNo>
    ensures { result ≡ next_in (rows_of rows.now.entries) after }
{
    match after {
        None => first(rows),
        Some(row) => first_behind(rows, row),
    }
}

fn first(rows: &BTreeMap<u64, Row>) -> Option<RowNo>
    ensures { result ≡ next_in (rows_of rows.now.entries) None }
{
    match rows.iter().next() {
        Some((number, _)) => Some(RowNo(*number)),
        None => None,
    }
}

fn first_behind(rows: &BTreeMap<u64, Row>, row: RowNo) -> Option<RowNo>
    ensures { result ≡ next_in (rows_of rows.now.entries) (Some row) }
{
    let behind = (Bound::Excluded(row.0), Bound::Unbounded);
    match rows.range(behind).next() {
        Some((number, _)) => Some(RowNo(*number)),
        None => None,
    }
}

// Rows that are put and taken out, and what is told of them between.
ghost use Rattle.std.specs.Prelude.{IfOk};
ghost use Rattle.hs_plainrows.specs.Ready.{IsReady};

use hs_base::{RowNo, TableNo};
use hs_expression::RowRef;
use hs_plainrows::PlainRows;
use hs_rows::{Rows, all_rows, numbered_rows};
use hs_values::{Row, Value, ValueRef};
use std::alloc::{AllocError, Global};
use std::test::Fail;

// A row of one number.
fn row(alloc: Global, number: i64) -> Result<Row, AllocError> {
    let mut row = Row::new(alloc);
    row.push(Value::Int(number))?;
    Ok(row)
}

// The rows 3, 5 and 9 of table 1, with ten times their numbers, and row 4 of table 2.
fn some_rows(alloc: Global) -> Result<PlainRows, Fail>
    ensures { IfOk result IsReady }
{
    let mut rows = PlainRows::new(alloc);
    for number in [9, 3, 5] {
        rows.put(TableNo(1), RowNo(number), row(alloc, 10 * number as i64)?)?;
    }
    rows.put(TableNo(2), RowNo(4), row(alloc, 40)?)?;
    Ok(rows)
}

// The number in the row of a table, where it is there.
fn number_in(rows: &mut PlainRows, table: u64, row: u64) -> Option<i64>
    requires { IsReady rows.old }
    ensures { IsReady rows.new }
{
    match rows.bring(TableNo(table), RowNo(row)) {
        Ok(true) => number_of(rows.look(TableNo(table), RowNo(row))),
        Ok(false) | Err(_) => None,
    }
}

fn number_of(row: RowRef<'_>) -> Option<i64> {
    match row.field(0) {
        ValueRef::Int(number) => Some(number),
        _ => None,
    }
}

#[test]
fn rows_come_in_the_order_of_their_numbers(rt: HostRuntime) -> Result<(), Fail> {
    let rows = some_rows(rt.alloc())?;
    assert_eq!(rt; rows.next_row(TableNo(1), None), Some(RowNo(3)));
    assert_eq!(rt; rows.next_row(TableNo(1), Some(RowNo(3))), Some(RowNo(5)));
    assert_eq!(rt; rows.next_row(TableNo(1), Some(RowNo(4))), Some(RowNo(5)));
    assert_eq!(rt; rows.next_row(TableNo(1), Some(RowNo(5))), Some(RowNo(9)));
    assert_eq!(rt; rows.next_row(TableNo(1), Some(RowNo(9))), None);
    assert_eq!(rt; rows.next_row(TableNo(1), Some(RowNo(u64::MAX))), None);
    assert_eq!(rt; rows.next_row(TableNo(2), None), Some(RowNo(4)));
    assert_eq!(rt; rows.next_row(TableNo(3), None), None);
    Ok(())
}

#[test]
fn a_row_is_lent_as_it_was_put(rt: HostRuntime) -> Result<(), Fail> {
    let alloc = rt.alloc();
    let mut rows = some_rows(alloc)?;
    assert_eq!(rt; number_in(&mut rows, 1, 5), Some(50));
    assert_eq!(rt; number_in(&mut rows, 2, 5), None);
    rows.put(TableNo(1), RowNo(5), row(alloc, 51)?)?;
    assert_eq!(rt; number_in(&mut rows, 1, 5), Some(51));
    rows.remove(TableNo(1), RowNo(5));
    assert_eq!(rt; number_in(&mut rows, 1, 5), None);
    assert_eq!(rt; rows.next_row(TableNo(1), Some(RowNo(3))), Some(RowNo(9)));
    rows.remove(TableNo(1), RowNo(5));
    rows.remove(TableNo(7), RowNo(5));
    assert_eq!(rt; number_in(&mut rows, 1, 9), Some(90));
    Ok(())
}

#[test]
fn all_rows_of_a_table_are_copied(rt: HostRuntime) -> Result<(), Fail> {
    let alloc = rt.alloc();
    let mut rows = some_rows(alloc)?;
    let count = match all_rows(alloc, &mut rows, TableNo(1)) {
        Ok(copies) => copies.len(),
        Err(_) => 0,
    };
    assert_eq!(rt; count, 3);
    Ok(())
}

#[test]
fn rows_are_found_by_their_key(rt: HostRuntime) -> Result<(), Fail> {
    let alloc = rt.alloc();
    let mut rows = some_rows(alloc)?;
    rows.put(TableNo(1), RowNo(7), row(alloc, 50)?)?;
    let key = row(alloc, 50)?;
    assert!(rt; rows.index_among(TableNo(1), &[0]).is_none());
    let found = rows.rows_with(TableNo(1), &[0], &key)?;
    assert_eq!(rt; found.as_slice(), [RowNo(5), RowNo(7)].as_slice());
    assert!(rt; rows.rows_with(TableNo(3), &[0], &key)?.is_empty());
    rows.remove(TableNo(1), RowNo(5));
    let are_copied = match numbered_rows(alloc, &mut rows, TableNo(1), &found) {
        Ok(copies) => copies.len() == 1,
        Err(_) => false,
    };
    assert!(rt; are_copied);
    Ok(())
}

// Rows in their order, NULL first, and those that tie as they stood.
use super::{alike, decimal};
use hs_values::ValueRef::{Null, Text};
use hs_values::{Row, RowList, ValueRef, sort_rows, sort_rows_by};
use std::alloc::{AllocError, Global};
use std::process::Abort;
use std::test::Fail;

/// The number and the text of rows, as they stand at first.
static ROWS: [(Option<(i128, u8)>, Option<&str>); 21] = [
    (Some((200, 2)), Some("b")),
    (Some((-1, 0)), None),
    (Some((7, 0)), Some("a")),
    (Some((2, 0)), None),
    (Some((200, 2)), None),
    (Some((-1, 0)), Some("b")),
    (None, None),
    (None, Some("a")),
    (None, Some("b")),
    (Some((-10, 1)), None),
    (Some((2, 0)), Some("a")),
    (Some((20, 1)), None),
    (Some((-10, 1)), Some("b")),
    (Some((7, 0)), None),
    (Some((200, 2)), Some("a")),
    (Some((7, 0)), Some("b")),
    (Some((20, 1)), Some("b")),
    (Some((20, 1)), Some("a")),
    (Some((-1, 0)), Some("a")),
    (Some((-10, 1)), Some("a")),
    (Some((2, 0)), Some("b")),
];

/// Which of those rows stands in which place when they are sorted.
static PLACES: [usize; 21] = [
    6, 7, 8, 1, 9, 18, 19, 5, 12, 3, 4, 11, 10, 14, 17, 0, 16, 20, 13, 2, 15,
];

/// The same where the number descends.
static DESCENDING_PLACES: [usize; 21] = [
    6, 7, 8, 13, 2, 15, 3, 4, 11, 10, 14, 17, 0, 16, 20, 1, 9, 18, 19, 5, 12,
];

fn number(parts: Option<(i128, u8)>) -> ValueRef<'static> {
    match parts {
        Some((units, scale)) => decimal(units, scale),
        None => Null,
    }
}

fn text(letter: Option<&str>) -> ValueRef<'_> {
    match letter {
        Some(letter) => Text(letter),
        None => Null,
    }
}

fn written_rows(alloc: Global) -> Result<RowList, AllocError> {
    let mut rows = RowList::new(alloc);
    for (parts, letter) in &ROWS {
        let mut row = Row::new(alloc);
        row.push(number(*parts).to_value(alloc)?)?;
        row.push(text(*letter).to_value(alloc)?)?;
        rows.push(row)?;
    }
    Ok(rows)
}

fn stand_so(rt: &impl Abort, sorted: &[&Row], places: &[usize; 21]) {
    assert_eq!(rt; sorted.len(), ROWS.len());
    for (row, place) in sorted.iter().zip(places) {
        let values = row.as_slice();
        assert!(rt; *place < ROWS.len() && values.len() == 2);
        let (parts, letter) = ROWS[*place];
        assert!(rt; alike(values[0].as_value_ref(), number(parts)), "{place}");
        assert!(rt; alike(values[1].as_value_ref(), text(letter)), "{place}");
    }
}

#[test]
fn rows_are_sorted(rt: HostRuntime) -> Result<(), Fail> {
    let rows = written_rows(rt.alloc())?;
    let mut sorted = Vec::new(rt.alloc());
    for row in rows.as_slice() {
        sorted.push(row)?;
    }
    sort_rows(&mut sorted)?;
    stand_so(&rt, &sorted, &PLACES);
    sort_rows_by(&mut sorted, &[true])?;
    stand_so(&rt, &sorted, &DESCENDING_PLACES);
    Ok(())
}

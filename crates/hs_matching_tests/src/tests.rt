// Pairs by a condition that asks two columns to be equal, and rows of FROM.
use hs_ast::BinaryOperator;
use hs_matching::{Partners, Side, Sides};
use hs_plan::{Binary, Expr};
use hs_values::{Dec, Row, RowList, Value};
use sqlite_items::Boxed;
use std::alloc::{AllocError, Global};
use std::test::Fail;

// Rows of cells: 0 stands for NULL, and a negative number for as many hundredths.
static LEFT: [&[i64]; 2] = [&[1, 7], &[2, 8]];

static RIGHT: [&[i64]; 5] = [&[11, 2], &[12, 1], &[13, 0], &[14, -100], &[15, 3]];

/// Two columns of a pair that are to be equal, a left row, and the right rows with which it is paired.
static CASES: [(u32, u32, &[i64], &[usize]); 11] = [
    // Equal values, whichever column is named first, and 1.00 is 1.
    (0, 3, &[1, 7], &[1, 3]),
    (3, 0, &[1, 7], &[1, 3]),
    (0, 3, &[2, 8], &[0]),
    (3, 0, &[-300, 8], &[4]),
    (0, 3, &[4, 7], &[]),
    (1, 2, &[5, 12], &[1]),
    // NULL has no partner.
    (0, 3, &[0, 9], &[]),
    (3, 1, &[1, 0], &[]),
    // All right rows, where both columns are of one side, and for a row that is longer than the first.
    (0, 1, &[1, 7], &[0, 1, 2, 3, 4]),
    (2, 3, &[1, 7], &[0, 1, 2, 3, 4]),
    (0, 3, &[1, 7, 5], &[0, 1, 2, 3, 4]),
];

fn value(cell: i64) -> Value {
    match cell {
        0 => Value::Null,
        1.. => Value::Int(cell),
        _ => Value::Dec(Dec {
            units: -i128::from(cell),
            scale: 2,
        }),
    }
}

// A row of the cells on the left and of those on the right.
fn row(alloc: Global, left: &[i64], right: &[i64]) -> Result<Row, AllocError> {
    let mut row = Row::new(alloc);
    for cell in left {
        row.push(value(*cell))?;
    }
    for cell in right {
        row.push(value(*cell))?;
    }
    Ok(row)
}

fn rows(alloc: Global, all: &[&[i64]]) -> Result<RowList, AllocError> {
    let mut rows = RowList::new(alloc);
    for cells in all {
        rows.push(row(alloc, cells, &[])?)?;
    }
    Ok(rows)
}

// A left row with each of these right rows behind it.
fn pairs(alloc: Global, left: &[i64], partners: &[usize]) -> Result<RowList, AllocError> {
    let mut pairs = RowList::new(alloc);
    for partner in partners {
        if let Some(right) = RIGHT.get(*partner) {
            pairs.push(row(alloc, left, right)?)?;
        }
    }
    Ok(pairs)
}

fn column(alloc: Global, at: u32) -> Result<Boxed<Expr>, AllocError> {
    Boxed::new(alloc, Expr::Column { outward: 0, at })
}

fn equality(alloc: Global, one: u32, other: u32) -> Result<Expr, AllocError> {
    let (a, b) = (column(alloc, one)?, column(alloc, other)?);
    Ok(Expr::Binary(Binary::Operator(BinaryOperator::Equal), a, b))
}

// The pairs that a join by this condition looks at, of a left row that may be another than the first ones.
fn looked_at(alloc: Global, on: &Expr, left: &[i64]) -> Result<RowList, AllocError> {
    let first = rows(alloc, &LEFT)?;
    let right = rows(alloc, &RIGHT)?;
    let partners = Partners::of(alloc, on, first.as_slice(), right.as_slice())?;
    partners.pairs(alloc, &row(alloc, left, &[])?)
}

fn is_met(
    alloc: Global,
    one: u32,
    other: u32,
    left: &[i64],
    partners: &[usize],
) -> Result<bool, AllocError> {
    let on = equality(alloc, one, other)?;
    let found = looked_at(alloc, &on, left)?;
    let wanted = pairs(alloc, left, partners)?;
    Ok(found.as_slice() == wanted.as_slice())
}

#[test]
fn a_row_is_paired_with_those_that_have_its_value(rt: HostRuntime) -> Result<(), Fail> {
    for (one, other, left, partners) in &CASES {
        assert!(rt; is_met(rt.alloc(), *one, *other, left, partners)?);
    }
    Ok(())
}

// The rows of three elements of FROM, of which the first is lent.
fn three(alloc: Global, first: &RowList) -> Result<RowList, AllocError> {
    let one = Sides::Nothing.with(alloc, Side::Lent(first.as_slice()))?;
    let two = one.with(alloc, Side::Made(rows(alloc, &[&[3], &[4]])?))?;
    let all = two.with(alloc, Side::Made(rows(alloc, &[&[5]])?))?;
    all.into_rows(alloc)
}

#[test]
fn rows_of_from_stand_beside_each_other(rt: HostRuntime) -> Result<(), Fail> {
    let first = rows(rt.alloc(), &[&[1], &[2]])?;
    let wanted = rows(
        rt.alloc(),
        &[&[1, 3, 5], &[1, 4, 5], &[2, 3, 5], &[2, 4, 5]],
    )?;
    assert!(rt; three(rt.alloc(), &first)?.as_slice() == wanted.as_slice());
    Ok(())
}

#[test]
fn without_elements_there_is_one_row(rt: HostRuntime) -> Result<(), Fail> {
    let none = Sides::Nothing.into_rows(rt.alloc())?;
    assert_eq!(rt; none.len(), 1);
    assert!(rt; none.as_slice().iter().all(|row| row.is_empty()));
    Ok(())
}

#[test]
fn lent_rows_are_copied_where_they_lie(rt: HostRuntime) -> Result<(), Fail> {
    let made = rows(rt.alloc(), &LEFT)?;
    let side = Side::Lent(made.as_slice());
    assert_eq!(rt; side.as_slice().len(), 2);
    assert!(rt; side.into_rows(rt.alloc())?.as_slice() == made.as_slice());
    Ok(())
}

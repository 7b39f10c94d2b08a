// What conditions ask of columns.
use hs_ast::BinaryOperator;
use hs_lookups::{Equalities, equal_columns};
use hs_plan::{Binary, Expr, Reading, Unary};
use hs_values::{Chars, Row, Value};
use sqlite_items::Boxed;
use std::alloc::{AllocError, Global};
use std::test::Fail;

fn column(at: u32) -> Expr {
    Expr::Column { outward: 0, at }
}

fn number(n: i64) -> Expr {
    Expr::Literal(Value::Int(n))
}

fn binary(alloc: Global, operator: BinaryOperator, a: Expr, b: Expr) -> Result<Expr, AllocError> {
    let first = Boxed::new(alloc, a)?;
    let second = Boxed::new(alloc, b)?;
    Ok(Expr::Binary(Binary::Operator(operator), first, second))
}

fn equality(alloc: Global, a: Expr, b: Expr) -> Result<Expr, AllocError> {
    binary(alloc, BinaryOperator::Equal, a, b)
}

fn and(alloc: Global, a: Expr, b: Expr) -> Result<Expr, AllocError> {
    binary(alloc, BinaryOperator::And, a, b)
}

// Column 4 + 1 is 5.
fn sum(alloc: Global) -> Result<Expr, AllocError> {
    let sum = binary(alloc, BinaryOperator::Add, column(4), number(1))?;
    equality(alloc, sum, number(5))
}

// Column 2 is 7, and the date of day 3 is column 0, and column 5 is column 1.
fn three(alloc: Global) -> Result<Expr, AllocError> {
    let day = Expr::ReadText {
        text: Chars::from_text(alloc, "1970-01-04")?,
        reading: Reading::Day(3),
    };
    let first = equality(alloc, column(2), number(7))?;
    let second = equality(alloc, day, column(0))?;
    let third = equality(alloc, column(5), column(1))?;
    let others = and(alloc, second, third)?;
    and(alloc, first, others)
}

fn pair(a: Value, b: Value, alloc: Global) -> Result<Row, AllocError> {
    let mut row = Row::new(alloc);
    row.push(a)?;
    row.push(b)?;
    Ok(row)
}

#[test]
fn conjuncts_ask_columns_to_have_values(rt: HostRuntime) -> Result<(), Fail> {
    let alloc = rt.alloc();
    let condition = three(alloc)?;
    let asked = Equalities::of(alloc, &condition)?;
    assert_eq!(rt; asked.columns(), [2, 0].as_slice());
    let key = asked.key(alloc, &[0, 2])?;
    let wanted = pair(Value::Day(3), Value::Int(7), alloc)?;
    assert!(rt; key == Some(wanted));
    assert!(rt; asked.key(alloc, &[2, 1])?.is_none());
    assert_eq!(rt; equal_columns(&condition), Some((5, 1)));
    Ok(())
}

#[test]
fn nothing_is_asked_where_a_condition_may_have_a_fault(rt: HostRuntime) -> Result<(), Fail> {
    let alloc = rt.alloc();
    let condition = and(alloc, three(alloc)?, sum(alloc)?)?;
    assert!(rt; Equalities::of(alloc, &condition)?.columns().is_empty());
    assert!(rt; equal_columns(&condition).is_none());
    Ok(())
}

#[test]
fn nothing_is_asked_by_either_side_of_or(rt: HostRuntime) -> Result<(), Fail> {
    let alloc = rt.alloc();
    let condition = binary(alloc, BinaryOperator::Or, three(alloc)?, three(alloc)?)?;
    assert!(rt; Equalities::of(alloc, &condition)?.columns().is_empty());
    assert!(rt; equal_columns(&condition).is_none());
    Ok(())
}

fn minus(alloc: Global, n: i64) -> Result<Expr, AllocError> {
    Ok(Expr::Unary(Unary::Minus, Boxed::new(alloc, number(n))?))
}

#[test]
fn a_column_may_be_asked_to_have_a_number_below_0(rt: HostRuntime) -> Result<(), Fail> {
    let alloc = rt.alloc();
    let condition = equality(alloc, minus(alloc, 7)?, column(2))?;
    let key = Equalities::of(alloc, &condition)?.key(alloc, &[2])?;
    let mut wanted = Row::new(alloc);
    wanted.push(Value::Int(-7))?;
    assert!(rt; key == Some(wanted));
    let too_wide = equality(alloc, minus(alloc, i64::MIN)?, column(2))?;
    assert!(rt; Equalities::of(alloc, &too_wide)?.columns().is_empty());
    Ok(())
}
